//! The commands that work on a store.

ghost use Rattle.std.specs.Prelude.{IfOk, map};
ghost use Rattle.std.specs.String.{string_bytes};
ghost use Rattle.ds_store.specs.GoingOver.{GoesOver};

use crate::logs::remove_log;
use crate::making::make_store;
use crate::reading::{ReadStore, read_store};
use crate::status::store_status;
use ds_batch::closing::is_closed;
use ds_batch::status::{CLOSED, STREAM_FAILED};
use ds_formula::cells::Shape;
use ds_layout::layout::Layout;
use ds_store::compact;
use ds_store::fault::StoreFault;
use ds_store::open::Databases;
use ds_store::store::Store;
use ds_store_journal::counts::EditCounts;
use ds_store_journal::fault::JournalFault;
use ds_store_journal::joining::joins_of;
use ds_store_journal::journal::read_edit;
use ds_store_journal::standing::Standing;
use ds_store_journal::standings::standings_of;
use sqlite::{Connection, FileFrom, FileStore, Wary};
use std::alloc::Global;
use std::fs::{File, Files};
use std::io::{self, BufWriter, Write};

/// What a database lies in: a file, of which a crash leaves the last commit.
pub type Disk = FileStore<FileFrom<Wary>>;

/// Reports on standard error what is wrong with the store at this path, and gives its status.
pub fn tell_fault(rt: &impl Eprint, path: &str, fault: &StoreFault) -> u8 {
    let _reported = eprintln!(rt; "dsheet: {path}: {fault}");
    store_status(fault)
}

/// Reports on standard error what is wrong with the file at this path, and gives the status.
pub(crate) fn tell_error(rt: &impl Eprint, path: &str, error: &io::Error) -> u8 {
    let _reported = eprintln!(rt; "dsheet: {path}: {error}");
    STREAM_FAILED
}

/// Closes the database at this path, whose file has all of it then, and gives the status. Its log is removed.
pub(crate) fn close_database<R: AllocGlobal + Eprint + Files>(
    rt: &R,
    path: &str,
    conn: Connection<Disk>,
) -> u8 {
    match conn.close_files() {
        // (nobody else can open the two before these are dropped)
        Ok(_files) => {
            remove_log(rt, path);
            0
        }
        Err((error, store)) => {
            drop(store.close());
            tell_fault(rt, path, &StoreFault::from(error))
        }
    }
}

/// Closes a store, whose file has all of it then, and gives the status. Its log is removed.
pub fn close<R: AllocGlobal + Eprint + Files>(rt: &R, path: &str, store: Store<Disk>) -> u8 {
    close_database(rt, path, store.into_database())
}

/// The status after what was written, or not; where nobody reads it any more, nothing is said.
pub(crate) fn written<R: Eprint>(rt: &R, out: io::Result<()>) -> u8 {
    match out {
        Ok(()) => 0,
        Err(error) if is_closed(&error) => CLOSED,
        Err(error) => tell_error(rt, "standard output", &error),
    }
}

// What is said of a store: its sheet, and how many edits were made.
#[derive(Clone, Copy)]
struct Summary<'a> {
    layout: Layout,
    // How many processes may be joined: the first ones.
    joins: usize,
    // How many edits of the sheet each process has made.
    counts: &'a EditCounts,
    // How many edits count in all, also those of the sheets before.
    all: usize,
}

// Writes the shape of the sheet, and how many of its processes may be joined.
fn write_sheet<W: Write>(out: &mut W, summary: &Summary<'_>) -> io::Result<()> {
    let Shape { columns, rows, .. } = summary.layout.shape;
    writeln!(out, "sheet {columns} {rows} {}", summary.joins)
}

// Writes how many edits a process has made of the sheet.
fn write_process<W: Write>(out: &mut W, process: usize, edits: usize) -> io::Result<()> {
    writeln!(out, "process {process}: {edits} edits of 256")
}

// Writes the same of each process that may be joined.
fn write_processes<W: Write>(out: &mut W, summary: &Summary<'_>) -> io::Result<()> {
    for process in 0..summary.joins.min(summary.layout.processes) {
        write_process(out, process, summary.counts.of(process))?;
    }
    Ok(())
}

// Writes how many edits count in all.
fn write_all<W: Write>(out: &mut W, all: usize) -> io::Result<()> {
    writeln!(out, "{all} edits count, none is in doubt")
}

// Writes what is said of a store.
fn write_summary<W: Write>(out: &mut W, summary: &Summary<'_>) -> io::Result<()> {
    write_sheet(out, summary)?;
    write_processes(out, summary)?;
    write_all(out, summary.all)?;
    out.flush()
}

// Counts the edits that these lines, which follow the first one of a journal, ask for.
fn count_edits(
    counts: &mut EditCounts,
    layout: &Layout,
    lines: &[String],
) -> Result<(), JournalFault> {
    for line in lines {
        if let Some(asked) = read_edit(layout, line.as_bytes())? {
            let _number = counts.count(asked.process);
        }
    }
    Ok(())
}

// How many edits of its sheet each process of a store has made.
fn edit_counts(alloc: Global, read: &ReadStore) -> Result<EditCounts, JournalFault> {
    let mut counts = EditCounts::new(alloc, read.layout.processes)?;
    let rest = read.lines.get(1..).unwrap_or(&[]);
    count_edits(&mut counts, &read.layout, rest)?;
    Ok(counts)
}

// How many edits these processes have made in all.
fn all_edits(standings: &[Standing]) -> usize {
    let mut all = 0usize;
    for standing in standings {
        all = all.saturating_add(standing.edits);
    }
    all
}

// How many edits the processes that may be joined have made, also in the sheets before.
fn joined_edits(alloc: Global, read: &ReadStore, joins: usize) -> Result<usize, JournalFault> {
    let standings = standings_of(alloc, &read.layout, &read.lines)?;
    Ok(all_edits(standings.get(..joins).unwrap_or(&standings)))
}

// Writes what is said of a store to standard output. Gives the status.
fn write_told<R: AllocGlobal + Print + Eprint>(rt: &R, path: &str, summary: &Summary<'_>) -> u8 {
    let Ok(mut out) = BufWriter::new(rt.alloc(), io::writer(rt)) else {
        return tell_fault(rt, path, &StoreFault::NoMemory);
    };
    written(rt, write_summary(&mut out, summary))
}

// Says what a store has. The fault is that edits of a process are more than are counted, or that an allocation failed.
fn tell_store<R: AllocGlobal + Print + Eprint>(
    rt: &R,
    path: &str,
    read: &ReadStore,
) -> Result<u8, JournalFault> {
    let joins = joins_of(&read.layout, &read.lines);
    let all = joined_edits(rt.alloc(), read, joins)?;
    let counts = edit_counts(rt.alloc(), read)?;
    let summary = Summary {
        layout: read.layout,
        joins,
        counts: &counts,
        all,
    };
    Ok(write_told(rt, path, &summary))
}

// The same. Gives the status.
fn tell_summary<R: AllocGlobal + Print + Eprint>(rt: &R, path: &str, read: &ReadStore) -> u8 {
    match tell_store(rt, path, read) {
        Ok(status) => status,
        Err(fault) => tell_fault(rt, path, &StoreFault::from(fault)),
    }
}

/// `dsheet check FILE`: whether the store at this path is sound, and what it has, to standard output. A server may have it
/// open.
pub fn check<R: AllocGlobal + Print + Eprint + Files>(rt: &R, path: &str) -> u8 {
    match read_store(rt, path) {
        Ok(read) => tell_summary(rt, path, &read),
        Err(status) => status,
    }
}

/// The lines with which a store goes on from these, of which a comment tells the origin.
pub(crate) fn compacted(
    alloc: Global,
    lines: &[String],
    origin: &str,
) -> Result<Vec<String>, StoreFault>
    ensures { IfOk result (λ made. GoesOver (map string_bytes lines.now) (map string_bytes made.items)) }
{
    let conn = Connection::open_in_memory(alloc)?;
    let made = compact::compact(alloc, lines, conn, origin)?;
    Ok(made.lines)
}

/// `dsheet compact FILE NEW`: makes a store at the new path, where no file is, whose edits give each cell the text that it has
/// in the store at the old one.
pub fn compact<R: AllocGlobal + Eprint + Files<File = File> + Databases>(
    rt: &R,
    path: &str,
    new: &str,
) -> u8 {
    let read = match read_store(rt, path) {
        Ok(read) => read,
        Err(status) => return status,
    };
    match compacted(rt.alloc(), &read.lines, path) {
        Ok(lines) => make_store(rt, new, lines),
        Err(fault) => tell_fault(rt, path, &fault),
    }
}
