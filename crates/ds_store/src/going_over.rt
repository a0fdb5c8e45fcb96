//! The lines with which a store goes over to a new sheet.

ghost use Rattle.std.specs.Prelude.{◌≡◌, ◌<◌, ◌≤◌, List, ℕ, IfErr, IfOk, length, map, slice_index_or, true};
ghost use Rattle.std.specs.String.{string_bytes};
ghost use Rattle.ds_store_journal.specs.declared.standing.Standing.{Standing};
ghost use Rattle.ds_store.specs.GoingOver.{GoesOver, HasRead};
ghost use Rattle.ds_store.specs.Told.{IsOfLines};

use crate::fault::StoreFault;
use crate::summing::with_sum;
use crate::texts::{JournalTexts, texts_of};
use ds_formula::cells::Cell;
use ds_layout::layout::{Layout, PROCESS_LIMIT};
use ds_store_journal::fault::JournalFault;
use ds_store_journal::joining::{joins_line, joins_of};
use ds_store_journal::journal::sheet_line;
use ds_store_journal::standing::{Mention, Standing, before_line};
use ds_store_journal::standings::standings_of;
use ds_store_keys::line::key_line;
use ds_store_keys::note::KeyNote;
use ds_store_keys::notes::{are_carried, carried, notes_of};
use std::alloc::Global;
use std::str;

// How many texts of a new sheet one process sets at most, where there may be a further one for more.
const SHARE: usize = 128;

// What the lines of a journal lead to: the texts, how many processes may be joined, how each process stands, and the keys.
#[derive(Drop)]
struct ReadJournal {
    texts: JournalTexts,
    joins: usize,
    standings: Vec<Standing>,
    keys: Vec<KeyNote>,
}

// Adds a line to the others.
fn put(lines: &mut Vec<String>, line: String) -> Result<(), StoreFault>
    ensures of_lines { IfErr result IsOfLines }
{
    match lines.push(line) {
        Ok(()) => Ok(()),
        Err(_) => Err(StoreFault::NoMemory),
    }
}

// How many cells have a text.
fn filled(texts: &JournalTexts) -> usize {
    let shape = texts.layout().shape;
    let mut count = 0usize;
    for number in 0..shape.count() {
        if !texts.text_of(shape.cell(number)).is_empty() {
            count = count.saturating_add(1);
        }
    }
    count
}

// The layout of the new sheet: as many processes as may be joined, or more where those would have to set many texts.
fn roomy(read: &ReadJournal) -> Layout {
    let wanted = filled(&read.texts).div_ceil(SHARE);
    Layout {
        shape: read.texts.layout().shape,
        processes: read.joins.max(wanted).max(1).min(PROCESS_LIMIT),
    }
}

// The line that gives a cell its text, by this process. None where the text is empty.
fn cell_line(
    alloc: Global,
    texts: &JournalTexts,
    process: usize,
    cell: Cell,
) -> Result<Option<String>, StoreFault>
    ensures of_lines { IfErr result IsOfLines }
{
    let text = texts.text_of(cell);
    if text.is_empty() {
        return Ok(None);
    }
    let Ok(text) = str::from_utf8(text) else {
        return Err(StoreFault::Edit(JournalFault::Other));
    };
    Ok(Some(format!(in alloc; "set {process} {cell} {text}")?))
}

// Adds the lines that give the cells their texts, by the processes in turn.
fn put_texts(
    alloc: Global,
    texts: &JournalTexts,
    layout: &Layout,
    lines: &mut Vec<String>,
) -> Result<(), StoreFault>
    ensures of_lines { IfErr result IsOfLines }
{
    let mut process = 0;
    for number in 0..layout.shape.count() {
        if let Some(line) = cell_line(alloc, texts, process, layout.shape.cell(number))? {
            put(lines, line)?;
            process = if process + 1 < layout.processes {
                process + 1
            } else {
                0
            };
        }
    }
    Ok(())
}

// Adds the lines that say how the processes stood which may be joined.
fn put_standings(
    alloc: Global,
    layout: &Layout,
    read: &ReadJournal,
    lines: &mut Vec<String>,
) -> Result<(), StoreFault>
    ensures of_lines { IfErr result IsOfLines }
{
    for process in 0..read.joins {
        if let Some(standing) = read.standings.get(process) {
            let mention = Mention {
                process,
                standing: *standing,
            };
            put(lines, before_line(alloc, layout, &mention)?)?;
        }
    }
    Ok(())
}

// Adds the lines of the keys that are taken along.
fn put_keys(
    alloc: Global,
    layout: &Layout,
    read: &ReadJournal,
    lines: &mut Vec<String>,
) -> Result<(), StoreFault>
    ensures of_lines { IfErr result IsOfLines }
{
    for note in carried(&read.keys) {
        put(lines, key_line(alloc, layout, note)?)?;
    }
    Ok(())
}

// Lines that are to go on from those that were read. Whether they do is seen when they are read.
fn drafted(alloc: Global, read: &ReadJournal, origin: &str) -> Result<Vec<String>, StoreFault>
    ensures of_lines { IfErr result IsOfLines }
{
    let layout = roomy(read);
    let mut lines = Vec::new(alloc);
    put(&mut lines, sheet_line(alloc, &layout)?)?;
    put(&mut lines, joins_line(alloc, &layout, read.joins)?)?;
    put(&mut lines, format!(in alloc; "# the texts of {origin}")?)?;
    put_texts(alloc, &read.texts, &layout, &mut lines)?;
    put_standings(alloc, &layout, read, &mut lines)?;
    put_keys(alloc, &layout, read, &mut lines)?;
    Ok(lines)
}

// Whether each process below this number stands as it stood.
fn stand_alike(joins: usize, before: &[Standing], after: &[Standing]) -> bool
    ensures few { result ≡ true → (joins ≤ length before.now) × (joins ≤ length after.now) }
    ensures alike { result ≡ true → (process : ℕ) (d : Standing) → process < joins → slice_index_or after.now process d ≡ slice_index_or before.now process d }
{
    if joins > before.len() || joins > after.len() {
        return false;
    }
    for process in 0..joins {
        if after[process] != before[process] {
            return false;
        }
    }
    true
}

impl ReadJournal {
    // Reads the lines of a journal.
    fn of(alloc: Global, lines: &[String]) -> Result<ReadJournal, StoreFault>
        ensures read { IfOk result (λ read. HasRead read (map string_bytes lines.now)) }
        ensures of_lines { IfErr result IsOfLines }
    {
        let texts = texts_of(alloc, lines)?;
        let layout = texts.layout();
        let standings = standings_of(alloc, &layout, lines)?;
        Ok(ReadJournal {
            texts,
            joins: joins_of(&layout, lines),
            standings,
            keys: notes_of(alloc, &layout, lines)?,
        })
    }

    // Whether another one goes on from it.
    fn goes_over(&self, next: &ReadJournal) -> bool
        ensures { result ≡ true → (old new : List (List ℕ)) → HasRead self.now old → HasRead next.now new → GoesOver old new }
    {
        if !are_carried(&self.keys, &next.keys) {
            return false;
        }
        if next.joins != self.joins || !self.texts.is_same(&next.texts) {
            return false;
        }
        stand_alike(self.joins, &self.standings, &next.standings)
    }
}

/// The lines with which a store of these lines goes over to a new sheet: it has the same texts, as many processes may be
/// joined, and each of those stands as it stood; and the last 65536 keys, of what they were. A comment says of what the texts are. The fault is of a line that is none
/// of a journal, or of a sheet with more texts than its processes can set; or an allocation failed.
pub fn next_lines(alloc: Global, lines: &[String], origin: &str) -> Result<Vec<String>, StoreFault>
    ensures over { IfOk result (λ next. GoesOver (map string_bytes lines.now) (map string_bytes next.items)) }
    ensures of_lines { IfErr result IsOfLines }
{
    let read = ReadJournal::of(alloc, lines)?;
    let next = with_sum(alloc, drafted(alloc, &read, origin)?)?;
    let again = ReadJournal::of(alloc, &next)?;
    if read.goes_over(&again) {
        Ok(next)
    } else {
        Err(StoreFault::Edit(JournalFault::Other))
    }
}
