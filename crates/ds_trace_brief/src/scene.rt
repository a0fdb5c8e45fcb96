//! The scene of a brief picture.

ghost use Rattle.std.specs.Prelude.{◌≡◌, ◌≤◌, IfOk};
ghost use Rattle.ds_trace_brief.specs.Briefs.{IsBriefOf, WIDTH_MOST};

use crate::columns::{BriefColumn, GAP, columns, fitting, letters};
use crate::keep::{deciding, kept};
use crate::rows::{BriefRow, Sign, rows};
use ds_layout::layout::{Layout, PROCESS_LIMIT};
use ds_trace::row::Trace;
use ds_trace_scene::buffers::passages;
use ds_trace_scene::columns::Passage;
use ds_trace_scene::lanes::{Lane, RailEnd, lane_of};
use std::alloc::{AllocError, Global};

/// How wide a brief picture is at most, in pixels.
pub const WIDTH_LIMIT: usize = 850;

/// How many letters a text beside the rails has at most; of a longer one the front is shown.
pub const TEXT_LIMIT: usize = 26;

/// The left margin.
pub const MARGIN: usize = 12;

/// How far rails are from each other.
pub const RAIL: usize = 18;

/// A call, from the row of its begin to that of its end.
#[derive(Clone, Copy, Debug, PartialEq, Eq)]
pub struct BriefRail {
    /// The process.
    pub process: usize,
    /// The row of its begin.
    pub from: usize,
    /// The row of its end; as many as there are, where it is under way at the end.
    pub to: usize,
    /// How it ends.
    pub end: RailEnd,
}

/// A brief picture: what stands where.
#[derive(Debug, Drop)]
pub struct Brief {
    /// The sheet.
    pub layout: Layout,
    /// The events that are kept, in their order.
    pub rows: Vec<BriefRow>,
    /// The calls.
    pub rails: Vec<BriefRail>,
    /// The words that decide, as many as fit.
    pub columns: Vec<BriefColumn>,
    /// How many words that decide have no room.
    pub hidden: usize,
    /// Where the texts of rows begin.
    pub text: usize,
    /// Where the words begin.
    pub words: usize,
    /// How wide it is.
    pub width: usize,
}

// The lanes of all processes.
fn lanes(alloc: Global, trace: &Trace, passages: &[Passage]) -> Result<Vec<Lane>, AllocError> {
    let mut lanes = Vec::new(alloc);
    for process in 0..trace.layout.processes {
        lanes.push(lane_of(alloc, trace, passages, process)?)?;
    }
    Ok(lanes)
}

// The row of a line; as many as there are, where the event of the line is not kept.
fn row_of(rows: &[BriefRow], line: usize) -> usize {
    rows.iter()
        .position(|row| row.event.saturating_add(1) == line)
        .unwrap_or(rows.len())
}

// Appends the calls of a process.
fn add_rails(
    rails: &mut Vec<BriefRail>,
    rows: &[BriefRow],
    process: usize,
    lane: &Lane,
) -> Result<(), AllocError> {
    for rail in &lane.rails {
        rails.push(BriefRail {
            process,
            from: row_of(rows, rail.from),
            to: row_of(rows, rail.to),
            end: rail.end,
        })?;
    }
    Ok(())
}

// The calls.
fn rails(alloc: Global, rows: &[BriefRow], lanes: &[Lane]) -> Result<Vec<BriefRail>, AllocError> {
    let mut rails = Vec::new(alloc);
    for (process, lane) in lanes.iter().enumerate() {
        add_rails(&mut rails, rows, process, lane)?;
    }
    Ok(rails)
}

// How many letters the longest text beside the rails has.
fn longest(rows: &[BriefRow]) -> usize {
    let mut most = 0;
    for row in rows {
        if row.sign != Sign::Crash {
            most = row.text.len().max(most);
        }
    }
    most
}

// Where texts begin.
fn text_left(processes: usize) -> usize
    ensures { result ≤ 200 }
{
    MARGIN + processes.min(PROCESS_LIMIT) * RAIL + 6
}

// Where words begin, after texts of at most this many letters.
fn words_left(text: usize, longest: usize) -> usize
    requires { text ≤ 200 }
    ensures { result ≤ WIDTH_MOST }
{
    text + letters(longest.min(TEXT_LIMIT)) + GAP
}

/// The scene of a recording: what is kept of it. An error means that an allocation failed.
pub fn brief_of(alloc: Global, trace: &Trace) -> Result<Brief, AllocError>
    ensures { IfOk result (λ brief. IsBriefOf trace.now brief) }
{
    let events = kept(alloc, trace)?;
    let numbers = deciding(alloc, trace)?;
    let passages = passages(alloc, trace)?;
    let lanes = lanes(alloc, trace, &passages)?;
    let rows = rows(alloc, trace, &passages, &events)?;
    let rails = rails(alloc, &rows, &lanes)?;
    let text = text_left(trace.layout.processes);
    let words = words_left(text, longest(&rows));
    let mut columns = columns(alloc, trace, &numbers, &events)?;
    let fitting = fitting(&columns, WIDTH_LIMIT - words);
    columns.truncate(fitting.count);
    Ok(Brief {
        layout: trace.layout,
        rows,
        rails,
        hidden: numbers.len() - fitting.count,
        columns,
        text,
        words,
        width: words + fitting.used,
    })
}
