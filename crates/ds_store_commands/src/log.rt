//! `dsheet log`.

ghost use Rattle.std.specs.Prelude.{◌≡◌, IfErr, IfOk, OnOk, [], if◌then◌else◌, map, option_map, take};
ghost use Rattle.std.specs.Io.KnownBytes.{Appends};
ghost use Rattle.std.specs.String.{string_bytes};
ghost use Rattle.ds_store_edits.specs.JournalEdits.{entry_view};
ghost use Rattle.ds_store_commands.specs.Asked.{HasNoCell, IsAskedBy, IsPartOf, IsShownAt};
ghost use Rattle.ds_store_commands.specs.Lists.{begun_in, begun_text, entry_text, head_text, is_asked, list_text};
ghost use Rattle.ds_store_commands.specs.Logs.{HaveFirst};

use crate::exporting::{write_line, write_table};
use crate::reading::{ReadStore, read_store};
use crate::stores::{tell_fault, written};
use crate::tables::{Cells, cell_table, table_of};
use ds_cli::logging::{Logging, Shown};
use ds_formula::cells::{Cell, Shape};
use ds_layout::layout::Layout;
use ds_script_io::fields::is_skipped;
use ds_store::fault::StoreFault;
use ds_store_edits::edits::{Entry, Maker, entries};
use std::alloc::Global;
use std::fs::Files;
use std::io::{self, BufWriter, Write};

// The status of wrong words on the command line.
const WRONG_WORDS: u8 = 2;

/// How many of these lines, which follow the first one of a journal, have the first edits, of this number; all, where they
/// have no more.
pub fn first_edits(lines: &[String], edits: usize) -> usize
    ensures { HaveFirst edits (map string_bytes lines.now) result }
{
    let mut left = edits;
    let mut count = 0;
    for line in lines {
        if left == 0 {
            return count;
        }
        if !is_skipped(line.as_bytes()) {
            left -= 1;
        }
        count += 1;
    }
    count
}

// Writes the place of an edit in the list, who made it, and its cell.
fn write_head<W: Write>(out: &mut W, place: usize, entry: &Entry<'_>) -> io::Result<()>
    ensures { OnOk result (Appends (W.contents out.old) (W.contents out.new) (head_text place (entry_view entry.now))) }
{
    let cell = entry.cell;
    match entry.maker {
        Some(Maker { process, number }) => write!(out, "{place} {process} {number} {cell}"),
        None => write!(out, "{place} - - {cell}"),
    }
}

// Writes an edit, which has this place in the list.
fn write_entry<W: Write>(out: &mut W, place: usize, entry: &Entry<'_>) -> io::Result<()>
    ensures { OnOk result (Appends (W.contents out.old) (W.contents out.new) (entry_text place (entry_view entry.now))) }
{
    write_head(out, place, entry)?;
    if !entry.text.is_empty() {
        out.write_all(b" ")?;
    }
    write_line(out, entry.text)
}

// How many of these are texts that the sheet began with.
fn begun(entries: &[Entry<'_>]) -> usize
    ensures { result ≡ begun_in (map entry_view entries.now) }
{
    let mut count = 0usize;
    for entry in entries {
        if entry.maker.is_none() {
            count = count.saturating_add(1);
        }
    }
    count
}

// Writes how many of these are texts that the sheet began with, where any is.
fn write_begun<W: Write>(out: &mut W, entries: &[Entry<'_>]) -> io::Result<()>
    ensures { OnOk result (Appends (W.contents out.old) (W.contents out.new) (begun_text (begun_in (map entry_view entries.now)))) }
{
    let begun = begun(entries);
    if begun == 0 {
        return Ok(());
    }
    writeln!(
        out,
        "# {begun} texts that the sheet began with, and then its edits: what was before is not kept"
    )
}

// Whether the cell is asked for: that one alone, or all are.
fn is_asked(only: Option<Cell>, cell: Cell) -> bool
    ensures { result ≡ is_asked only cell }
{
    match only {
        Some(only) => only == cell,
        None => true,
    }
}

// Writes an edit, which has this place in the list, where its cell is asked for.
fn write_asked<W: Write>(
    out: &mut W,
    place: usize,
    entry: &Entry<'_>,
    only: Option<Cell>,
) -> io::Result<()>
    ensures { OnOk result (Appends (W.contents out.old) (W.contents out.new) (if is_asked only entry.now.cell then entry_text place (entry_view entry.now) else [])) }
{
    if is_asked(only, entry.cell) {
        write_entry(out, place, entry)?;
    }
    Ok(())
}

// Writes edits, those of one cell alone where that is asked for.
fn write_entries<W: Write>(out: &mut W, entries: &[Entry<'_>], only: Option<Cell>) -> io::Result<()>
    ensures { OnOk result (Appends (W.contents out.old) (W.contents out.new) (list_text only (map entry_view entries.now))) }
{
    write_begun(out, entries)?;
    for index in 0..entries.len() {
        write_asked(out, index.saturating_add(1), &entries[index], only)?;
    }
    out.flush()
}

// Writes the list of the edits of a store with these lines, and gives the status.
fn write_list<R: AllocGlobal + Print + Eprint>(
    rt: &R,
    path: &str,
    layout: &Layout,
    lines: &[String],
    only: Option<Cell>,
) -> u8 {
    let (first, rest) = lines.split_at(lines.len().min(1));
    let entries = match entries(rt.alloc(), layout, first, rest) {
        Ok(entries) => entries,
        Err(fault) => return tell_fault(rt, path, &StoreFault::from(fault)),
    };
    let Ok(mut out) = BufWriter::new(rt.alloc(), io::writer(rt)) else {
        return tell_fault(rt, path, &StoreFault::NoMemory);
    };
    written(rt, write_entries(&mut out, &entries, only))
}

// The first lines of these, as many as this; all, where there are no more.
fn first_lines(lines: &[String], count: usize) -> &[String]
    ensures { result.now ≡ take count lines.now }
{
    lines.get(..count).unwrap_or(lines)
}

// What is shown of a table: its field for one cell alone, where that is asked for.
fn part_of(alloc: Global, table: Vec<u8>, only: Option<Cell>) -> Result<Vec<u8>, StoreFault>
    ensures { IfOk result (λ shown. IsPartOf only table.items shown.items) }
{
    match only {
        Some(cell) => cell_table(alloc, &table, cell),
        None => Ok(table),
    }
}

// The sheet of a store with these lines, as it was after this number of edits.
fn table_at(
    alloc: Global,
    cells: Cells,
    lines: &[String],
    edits: usize,
    only: Option<Cell>,
) -> Result<Vec<u8>, StoreFault>
    ensures { IfOk result (λ shown. IsShownAt cells (map string_bytes lines.now) edits only shown.items) }
{
    let Some((_, rest)) = lines.split_first() else {
        return Err(StoreFault::Missing(1));
    };
    let count = first_edits(rest, edits).saturating_add(1);
    let table = table_of(alloc, cells, first_lines(lines, count))?;
    part_of(alloc, table, only)
}

// Writes the sheet of a store with these lines, as it was after this number of edits, and gives the
// status.
fn write_at<R: AllocGlobal + Print + Eprint>(
    rt: &R,
    path: &str,
    cells: Cells,
    lines: &[String],
    edits: usize,
    only: Option<Cell>,
) -> u8 {
    match table_at(rt.alloc(), cells, lines, edits, only) {
        Ok(table) => write_table(rt, &table),
        Err(fault) => tell_fault(rt, path, &fault),
    }
}

// The cell that is asked for alone, if one is. An error is the status, where the sheet has none of that name.
fn cell_of(rt: &impl Eprint, shape: &Shape, name: Option<&str>) -> Result<Option<Cell>, u8>
    ensures cell { IfOk result (IsAskedBy shape.now (option_map (λ n. n.now) name.entry)) }
    ensures status { IfErr result (λ status. (status ≡ 2) × HasNoCell shape.now (option_map (λ n. n.now) name.entry)) }
{
    let Some(name) = name else {
        return Ok(None);
    };
    match shape.named(name.as_bytes()) {
        Some(cell) => Ok(Some(cell)),
        None => {
            let Shape { columns, rows, .. } = *shape;
            let _reported = eprintln!(rt;
                "dsheet: --cell: no cell of {columns} columns and {rows} rows, as A1"
            );
            Err(WRONG_WORDS)
        }
    }
}

/// `dsheet log`: to standard output the edits of the store at this path that count, oldest first, or its sheet as it was
/// after a number of them.
pub fn log<R: AllocGlobal + Print + Eprint + Files>(rt: &R, logging: Logging<'_>) -> u8 {
    let Logging { path, cell, shown } = logging;
    let ReadStore { layout, lines } = match read_store(rt, path) {
        Ok(read) => read,
        Err(status) => return status,
    };
    let only = match cell_of(rt, &layout.shape, cell) {
        Ok(only) => only,
        Err(status) => return status,
    };
    match shown {
        Shown::Edits => write_list(rt, path, &layout, &lines, only),
        Shown::Texts(at) => write_at(rt, path, Cells::Texts, &lines, at, only),
        Shown::Values(at) => write_at(rt, path, Cells::Values, &lines, at, only),
    }
}
