//! The edits of a journal are made again.

ghost use Rattle.std.specs.Arc.{arc_value};
ghost use Rattle.std.specs.Prelude.{◌≡◌, ◌⊎◌, ◌<◌, ◌++◌, ◌∷◌, [], List, ℕ, None, Some, false, length, IfOk, IfErr, OnOk, map};
ghost use Rattle.std.specs.String.{string_bytes};
ghost use Rattle.ds_script_io.specs.Fields.{is_skipped};
ghost use Rattle.ds_formula.specs.Cells.{IsInside};
ghost use Rattle.ds_store_journal.specs.Journals.{asked_view, edit_in, sheet_in};
ghost use Rattle.ds_store.specs.Replays.{IsUnfollowed, IsUnmade};
ghost use Rattle.ds_store.specs.Opened.{Leads, LeadsNowhere, Stops, fault_at};
ghost use Rattle.ds_store.specs.Told.{IsOfLines};
ghost use Rattle.ds_store_journal.specs.declared.fault.JournalFault.{JournalFault};

use crate::fault::StoreFault;
use crate::seated::SeatedSheet;
use ds_layout::layout::Layout;
use ds_store_journal::counts::EditCounts;
use ds_store_journal::fault::JournalFault;
use ds_store_journal::journal::{AskedEdit, read_edit, read_sheet};
use std::alloc::Global;

/// A journal as far as its lines were followed, and the sheet that its edits have made.
#[derive(Drop)]
pub(crate) struct Replay {
    pub(crate) layout: Layout,
    pub(crate) counts: EditCounts,
    pub(crate) sheet: SeatedSheet,
}

impl Replay {
    // After the first line, which makes the sheet.
    fn begin(alloc: Global, line: &[u8]) -> Result<Replay, JournalFault>
        ensures leads { IfOk result (λ r. Leads r.layout r.counts.counts.items r.sheet (line.now ∷ [])) }
        ensures counts { IfOk result (λ r. length r.counts.counts.items ≡ r.layout.processes) }
        ensures none { IfErr result (λ fault. (fault ≡ JournalFault.NoMemory) ⊎ ((fault ≡ JournalFault.NoSheet) × (sheet_in line.now ≡ None))) }
    {
        let layout = read_sheet(line)?;
        Ok(Replay {
            layout,
            counts: EditCounts::new(alloc, layout.processes)?,
            sheet: SeatedSheet::make(alloc, layout)?,
        })
    }

    // The edit of a line is made, and has to be answered Done with the next number of its process.
    fn make(&mut self, alloc: Global, asked: AskedEdit<'_>) -> Result<(), JournalFault>
        ensures layout { self.new.layout ≡ self.old.layout }
        ensures counts { length self.new.counts.counts.items ≡ length self.old.counts.counts.items }
        ensures unmade { asked.entry.process < length self.old.counts.counts.items → asked.entry.process < length self.old.sheet.seats.items
            → IsInside (arc_value self.old.sheet.sheet.sheet).board.layout.shape asked.entry.cell
            → IfErr result (IsUnmade self.old.counts.counts.items (arc_value self.old.sheet.sheet.sheet) self.old.sheet.seats.items self.new.sheet.seats.items (asked_view asked.entry)) }
        ensures made { OnOk result ((lines : List (List ℕ)) (line : List ℕ) → is_skipped line ≡ false → edit_in self.old.layout line ≡ Some (asked_view asked.entry)
            → Leads self.old.layout self.old.counts.counts.items self.old.sheet lines → Leads self.new.layout self.new.counts.counts.items self.new.sheet (lines ++ line ∷ [])) }
    {
        let AskedEdit {
            process,
            cell,
            text,
        } = asked;
        let Some(number) = self.counts.count(process) else {
            return Err(JournalFault::NoEdit);
        };
        self.sheet.edit(alloc, process, number, cell, text)
    }

    // Follows the next line: its edit is made, or it is passed over. After an error it is of no use any more.
    fn follow(&mut self, alloc: Global, line: &[u8]) -> Result<(), JournalFault>
        ensures counts { (self.new.layout ≡ self.old.layout) × (length self.new.counts.counts.items ≡ length self.old.counts.counts.items) }
        ensures unfollowed { (lines : List (List ℕ)) → Leads self.old.layout self.old.counts.counts.items self.old.sheet lines → length self.old.counts.counts.items ≡ self.old.layout.processes
            → IfErr result (IsUnfollowed self.old.layout self.old.counts.counts.items (arc_value self.old.sheet.sheet.sheet) self.old.sheet.seats.items self.new.sheet.seats.items line.now) }
        ensures followed { OnOk result ((lines : List (List ℕ)) → Leads self.old.layout self.old.counts.counts.items self.old.sheet lines
            → Leads self.new.layout self.new.counts.counts.items self.new.sheet (lines ++ line.now ∷ [])) }
    {
        let layout = self.layout;
        match read_edit(&layout, line) {
            Ok(Some(asked)) => self.make(alloc, asked),
            Ok(None) => Ok(()),
            Err(fault) => Err(fault),
        }
    }
}

// Follows the lines after the first one, each in its turn.
fn follow_rest(alloc: Global, replay: &mut Replay, rest: &[String]) -> Result<(), StoreFault>
    ensures stops { (before : List (List ℕ)) → Leads replay.old.layout replay.old.counts.counts.items replay.old.sheet before → length replay.old.counts.counts.items ≡ replay.old.layout.processes
        → length before ≡ 1 → IfErr result (λ fault. (number : ℕ) × (why : JournalFault) × (fault ≡ fault_at number why) × Stops (before ++ map string_bytes rest.now) number why) }
    ensures of_lines { IfErr result IsOfLines }
    ensures leads { OnOk result ((before : List (List ℕ)) → Leads replay.old.layout replay.old.counts.counts.items replay.old.sheet before
        → Leads replay.new.layout replay.new.counts.counts.items replay.new.sheet (before ++ map string_bytes rest.now)) }
    ensures counts { OnOk result (length replay.old.counts.counts.items ≡ replay.old.layout.processes → length replay.new.counts.counts.items ≡ replay.new.layout.processes) }
{
    let mut number = 1usize;
    for line in rest {
        number = number.saturating_add(1);
        if let Err(fault) = replay.follow(alloc, line.as_bytes()) {
            return Err(StoreFault::at_line(number, fault));
        }
    }
    Ok(())
}

/// Follows lines from the first one on, and makes the sheet that they lead to. An error names the line that cannot be
/// followed.
pub(crate) fn replayed(alloc: Global, lines: &[String]) -> Result<Replay, StoreFault>
    ensures leads { IfOk result (λ r. Leads r.layout r.counts.counts.items r.sheet (map string_bytes lines.now)) }
    ensures counts { IfOk result (λ r. length r.counts.counts.items ≡ r.layout.processes) }
    ensures nowhere { IfErr result (LeadsNowhere (map string_bytes lines.now)) }
    ensures of_lines { IfErr result IsOfLines }
{
    let Some((first, rest)) = lines.split_first() else {
        return Err(StoreFault::Missing(1));
    };
    let mut replay = match Replay::begin(alloc, first.as_bytes()) {
        Ok(replay) => replay,
        Err(fault) => return Err(StoreFault::at_line(1, fault)),
    };
    follow_rest(alloc, &mut replay, rest)?;
    Ok(replay)
}
