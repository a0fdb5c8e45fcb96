//! The buffer entries of a recording: from their flushes to their ends.

ghost use Rattle.std.specs.Prelude.{◌≡◌, IfOk, OnOk, map};
ghost use Rattle.ds_trace_scene.specs.Buffers.{ArePassages, deed_by, ended, entries_after, is_buffered, is_meant, is_open, lost, written};

use crate::columns::{Passage, PassageEnd};
use ds_core::reply::Reply;
use ds_layout::place::Place;
use ds_trace::row::{Happening, Trace};
use ds_words::access::Access;
use std::alloc::{AllocError, Global};

/// What an event does to buffers.
#[derive(Clone, Copy, Debug, PartialEq, Eq)]
pub enum Deed {
    /// An entry of this word comes into the buffer of this process.
    Flushes(usize, Place),
    /// The oldest entry of this process's buffer is written back.
    WritesBack(usize),
    /// All entries of this process's buffer are lost.
    Loses(usize),
    /// All entries of all buffers are lost.
    LosesAll,
    /// Buffers stay as they are.
    Leaves,
}

// What an event does to buffers.
fn deed_of(what: Happening, reply: Reply) -> Deed
    ensures { result ≡ deed_by what reply }
{
    match (what, reply) {
        (Happening::Steps(process, Access::Flush(place)), Reply::Stepped) => {
            Deed::Flushes(process, place)
        }
        (Happening::Steps(process, Access::Back), Reply::Stepped) => Deed::WritesBack(process),
        (Happening::Stops(process), Reply::Stopped) => Deed::Loses(process),
        (Happening::Crashes, _) => Deed::LosesAll,
        _ => Deed::Leaves,
    }
}

// Whether the entry has not ended.
fn is_buffered(end: PassageEnd) -> bool
    ensures { result ≡ is_buffered end }
{
    match end {
        PassageEnd::WrittenBack | PassageEnd::Lost => false,
        PassageEnd::Buffered => true,
    }
}

// Whether the entry is in the process's buffer.
fn is_open(entry: Passage, process: usize) -> bool
    ensures { result ≡ is_open process entry }
{
    is_buffered(entry.end) && entry.process == process
}

// The entry, which ends so at the line.
fn ended(entry: Passage, line: usize, end: PassageEnd) -> Passage
    ensures { result ≡ ended end line entry }
{
    Passage {
        process: entry.process,
        place: entry.place,
        from: entry.from,
        to: line,
        end,
    }
}

// Ends the oldest entry of a process that has not ended.
fn write_back(entries: &mut Vec<Passage>, process: usize, line: usize)
    ensures { entries.new.items ≡ written process line entries.old.items }
{
    for number in 0..entries.len() {
        let entry = entries[number];
        if is_open(entry, process) {
            entries[number] = ended(entry, line, PassageEnd::WrittenBack);
            return;
        }
    }
}

// Whether the process is this one, or any one.
fn is_meant(by: Option<usize>, process: usize) -> bool
    ensures { result ≡ is_meant by process }
{
    match by {
        Some(by) => by == process,
        None => true,
    }
}

// The entry, which is lost if it is in the buffer of the process, or of any one.
fn lost(entry: Passage, by: Option<usize>, line: usize) -> Passage
    ensures { result ≡ lost by line entry }
{
    if is_buffered(entry.end) && is_meant(by, entry.process) {
        ended(entry, line, PassageEnd::Lost)
    } else {
        entry
    }
}

// Ends those of a process, or of all, that have not ended.
fn lose(entries: &mut Vec<Passage>, by: Option<usize>, line: usize)
    ensures { entries.new.items ≡ map (lost by line) entries.old.items }
{
    for number in 0..entries.len() {
        let entry = entries[number];
        entries[number] = lost(entry, by, line);
    }
}

// What the event of a line does to the entries, of which those that do not end have this last line.
fn go_on(entries: &mut Vec<Passage>, deed: Deed, line: usize, last: usize) -> Result<(), AllocError>
    ensures { OnOk result (entries.new.items ≡ entries_after deed line last entries.old.items) }
{
    match deed {
        Deed::Flushes(process, place) => entries.push(Passage {
            process,
            place,
            from: line,
            to: last,
            end: PassageEnd::Buffered,
        })?,
        Deed::WritesBack(process) => write_back(entries, process, line),
        Deed::Loses(process) => lose(entries, Some(process), line),
        Deed::LosesAll => lose(entries, None, line),
        Deed::Leaves => {}
    }
    Ok(())
}

/// The buffer entries, in the order of their flushes. An error means that an allocation failed.
pub fn passages(alloc: Global, trace: &Trace) -> Result<Vec<Passage>, AllocError>
    ensures { IfOk result (λ entries. ArePassages trace.now.rows.items entries.items) }
{
    let mut entries = Vec::new(alloc);
    let last = trace.rows.len() + 1;
    for event in 0..trace.rows.len() {
        let row = &trace.rows[event];
        go_on(&mut entries, deed_of(row.what, row.reply), event + 1, last)?;
    }
    Ok(entries)
}
