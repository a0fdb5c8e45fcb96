//! The edits of a journal, oldest first, and who made each. The lines are gone through once.

ghost use Rattle.std.specs.Prelude.{◌≡◌, ◌⊎◌, ◌<◌, ◌≤◌, ◌++◌, ◌∷◌, [], List, ℕ, IfOk, IfErr, MatchResult, OnOk, Some, true, false, length, map};
ghost use Rattle.std.specs.String.{string_bytes};
ghost use Rattle.ds_layout.specs.declared.layout.Layout.{Layout};
ghost use Rattle.ds_script_io.specs.Fields.{is_skipped};
ghost use Rattle.ds_store_journal.specs.Faults.{AreUncounted, IsUncounted};
ghost use Rattle.ds_store_journal.specs.Journals.{asked_view, edit_in};
ghost use Rattle.ds_store_journal.specs.Standings.{EDITS_LIMIT as EDITS_MOST};
ghost use Rattle.ds_store_edits.specs.JournalEdits.{AreUnlisted, HasPassed, IsNeither, maker_of, entry_view, entries_at, entries_in, entries_of, tellings};

use ds_formula::cells::Cell;
use ds_layout::layout::Layout;
use ds_script_io::fields::is_skipped;
use ds_store_journal::fault::JournalFault;
use ds_store_journal::journal::{AskedEdit, read_edit};
use ds_store_journal::standing::{EDITS_LIMIT, Mention, Standing, read_before};
use ds_store_journal::standings::standings_of;
use std::alloc::{AllocError, Global};

/// Who made an edit, and its number, as that process's client counts it.
#[derive(Clone, Copy)]
pub struct Maker {
    /// The process.
    pub process: usize,
    /// The number of the edit among those of the process, from 0, in all sheets of the store.
    pub number: usize,
}

/// An edit of a journal.
#[derive(Clone, Copy)]
pub struct Entry<'a> {
    /// Who made it. None of a text that the sheet began with.
    pub maker: Option<Maker>,
    /// The cell.
    pub cell: Cell,
    /// The text that the cell is to hold.
    pub text: &'a [u8],
}

// How many of these lines say how a process stood: those before one give the texts that the sheet began with.
#[tactic(auto, unfolding(crate::specs::JournalEdits::tellings))]
fn tellings(layout: &Layout, lines: &[String]) -> usize
    ensures { result ≡ tellings layout.now (map string_bytes lines.now) }
{
    let mut count = 0;
    let mut rest = lines;
    while let [line, others @ ..] = rest {
        if is_skipped(line.as_bytes()) && read_before(layout, line.as_bytes()).is_some() {
            count += 1;
        }
        rest = others;
    }
    count
}

// Whether more edits of a process were made than are counted, where it has made this number now.
fn is_full(full: bool, edits: usize) -> bool
    ensures room { result ≡ false → (full ≡ false) × (edits < EDITS_MOST) }
    ensures full { result ≡ true → (full ≡ true) ⊎ (EDITS_MOST ≤ edits) }
{
    full || edits >= EDITS_LIMIT
}

// A journal as far as its lines were gone through.
#[derive(Drop)]
struct Passed {
    // How each process stands after those lines.
    standings: Vec<Standing>,
    // Whether more edits of a process were made than are counted.
    full: bool,
    // How many of the lines that follow say how a process stood.
    left: usize,
}

impl Passed {
    // After these lines, and before those.
    fn begin(
        alloc: Global,
        layout: &Layout,
        before: &[String],
        lines: &[String],
    ) -> Result<Passed, JournalFault>
        ensures count { IfOk result (λ p. length p.standings.items ≡ layout.now.processes) }
        ensures passed { IfOk result (λ p. HasPassed layout.now p (map string_bytes before.now) (map string_bytes lines.now)) }
        ensures uncounted { IfErr result (IsUncounted layout.now (map string_bytes before.now)) }
    {
        let standings = standings_of(alloc, layout, before)?;
        let left = tellings(layout, lines);
        Ok(Passed {
            standings,
            full: false,
            left,
        })
    }

    // Goes past a line that is skipped.
    fn skip(&mut self, layout: &Layout, line: &[u8])
        requires { length self.old.standings.items ≡ layout.now.processes }
        ensures count { length self.new.standings.items ≡ layout.now.processes }
        ensures passed { is_skipped line.now ≡ true → (before after : List (List ℕ)) → HasPassed layout.now self.old before (line.now ∷ after)
            → HasPassed layout.now self.new (before ++ line.now ∷ []) after }
    {
        let Some(Mention { process, standing }) = read_before(layout, line) else {
            return;
        };
        self.standings[process] = standing;
        self.left = self.left.saturating_sub(1);
    }

    // Who makes the next edit, where it is one of this process. The fault is that it has no number: more were made than are
    // counted.
    fn maker_of(&self, process: usize) -> Result<Option<Maker>, JournalFault>
        requires { process < length self.now.standings.items }
        ensures full { IfErr result (λ fault. (fault ≡ JournalFault.Other) × (self.now.full ≡ true)) }
        ensures maker { IfOk result (λ maker. (layout : Layout) (before after : List (List ℕ)) (line : List ℕ) → process < layout.processes → is_skipped line ≡ false
            → HasPassed layout self.now before (line ∷ after) → maker ≡ maker_of layout before process after) }
    {
        if self.left > 0 {
            return Ok(None);
        }
        if self.full {
            return Err(JournalFault::Other);
        }
        let number = self.standings[process].edits;
        Ok(Some(Maker { process, number }))
    }

    // Goes past the line of an edit, which is counted.
    fn count(&mut self, asked: AskedEdit<'_>)
        requires { asked.process < length self.old.standings.items }
        ensures count { length self.new.standings.items ≡ length self.old.standings.items }
        ensures passed { (layout : Layout) (before after : List (List ℕ)) (line : List ℕ) → asked.entry.process < layout.processes → is_skipped line ≡ false → edit_in layout line ≡ Some (asked_view asked.entry)
            → HasPassed layout self.old before (line ∷ after) → HasPassed layout self.new (before ++ line ∷ []) after }
    {
        let AskedEdit { process, cell, .. } = asked;
        let edits = self.standings[process].edits.saturating_add(1);
        self.standings[process] = Standing {
            edits,
            last: Some(cell),
        };
        self.full = is_full(self.full, edits);
    }

    // Goes past a line, and gives the edit that it asks for, if it asks for one. The fault is that it is neither skipped nor an
    // edit, or that the edit has no number.
    fn pass<'a>(
        &mut self,
        layout: &Layout,
        line: &'a [u8],
    ) -> Result<Option<Entry<'a>>, JournalFault>
        requires { length self.old.standings.items ≡ layout.now.processes }
        ensures count { length self.new.standings.items ≡ layout.now.processes }
        ensures passed { IfOk result (λ _. (before after : List (List ℕ)) → HasPassed layout.now self.old before (line.now ∷ after)
            → HasPassed layout.now self.new (before ++ line.now ∷ []) after) }
        ensures unlisted { IfErr result (λ fault. (before after : List (List ℕ)) → HasPassed layout.now self.old before (line.now ∷ after)
            → ((fault ≡ JournalFault.NoEdit) × IsNeither layout.now line.now) ⊎ ((fault ≡ JournalFault.Other) × AreUncounted layout.now before)) }
        ensures entries { IfOk result (λ entry. (before after : List (List ℕ)) → HasPassed layout.now self.old before (line.now ∷ after)
            → entries_in entry ≡ entries_at layout.now before line.now after) }
    {
        let Some(asked) = read_edit(layout, line)? else {
            self.skip(layout, line);
            return Ok(None);
        };
        let maker = self.maker_of(asked.process)?;
        self.count(asked);
        let AskedEdit { cell, text, .. } = asked;
        Ok(Some(Entry { maker, cell, text }))
    }
}

// Adds an edit to others, if there is one.
fn add<'a>(entries: &mut Vec<Entry<'a>>, entry: Option<Entry<'a>>) -> Result<(), AllocError>
    ensures { OnOk result (map entry_view entries.new.items ≡ map entry_view entries.old.items ++ entries_in entry.entry) }
{
    if let Some(entry) = entry {
        entries.push(entry)?;
    }
    Ok(())
}

/// The edits that these lines of a journal ask for, oldest first, where those lines are before them. The fault is of the first
/// line that is neither skipped nor an edit, or that more edits were made than are counted, or that an allocation failed.
pub fn entries<'a>(
    alloc: Global,
    layout: &Layout,
    before: &[String],
    lines: &'a [String],
) -> Result<Vec<Entry<'a>>, JournalFault>
    ensures { MatchResult result (λ entries. map entry_view entries.items ≡ entries_of layout.now (map string_bytes before.now) (map string_bytes lines.now))
        (AreUnlisted layout.now (map string_bytes before.now) (map string_bytes lines.now)) }
{
    let mut entries = Vec::new(alloc);
    let mut passed = Passed::begin(alloc, layout, before, lines)?;
    for line in lines {
        let entry = passed.pass(layout, line.as_bytes())?;
        add(&mut entries, entry)?;
    }
    Ok(entries)
}
