//! The lanes of a picture: what each process does, line by line.

ghost use Rattle.std.specs.Prelude.{◌≡◌, ◌<◌, ℕ, IfOk, length};
ghost use Rattle.ds_trace_scene.specs.Lanes.{AreEntries, IsEntryOf};
ghost use Rattle.ds_trace_scene.specs.Points.{course as course_of};
ghost use Rattle.ds_trace_scene.specs.Rows.{is_in_lane, step_style, style_by};

use crate::columns::{Passage, end_line};
use crate::points::{Course, NO_COURSE, course_by, points_text};
use crate::texts::{place_at, row_text, row_title};
use ds_core::reply::Reply;
use ds_layout::place::Place;
use ds_trace::row::{Happening, Trace, TraceRow};
use ds_words::access::Access;
use std::alloc::{AllocError, Global};

/// How an entry stands in its lane.
#[derive(Clone, Copy, Debug, PartialEq, Eq)]
pub enum Style {
    /// A call begins.
    Begin,
    /// A step that sets a side of a word, or adds bits to it, or swaps it.
    Write,
    /// A step that reads a word.
    Read,
    /// A step that takes a word into the buffer, or out of it.
    Move,
    /// A step that touches no word.
    Inner,
    /// A call ends by its answer.
    Answer,
    /// An event that does not happen: a call is refused, or there is no step.
    Refused,
}

/// What a process does on a line.
#[derive(Debug, Drop)]
pub struct LaneEntry {
    /// The line.
    pub line: usize,
    /// How it stands there.
    pub style: Style,
    /// The points that the call has reached by it, parted by spaces.
    pub points: String,
    /// What it is.
    pub text: Vec<u8>,
    /// What is shown of it where it is pointed at.
    pub title: String,
    /// The word that it touches.
    pub place: Option<Place>,
}

/// How a call ends in a picture.
#[derive(Clone, Copy, Debug, PartialEq, Eq)]
pub enum RailEnd {
    /// By its answer.
    Answered,
    /// By a stop or a crash.
    Lost,
    /// It is under way at the end.
    Open,
}

/// A call, from its begin to its end.
#[derive(Clone, Copy, Debug, PartialEq, Eq)]
pub struct Rail {
    /// The line of its begin.
    pub from: usize,
    /// The line of its end.
    pub to: usize,
    /// How it ends.
    pub end: RailEnd,
}

/// What a process does.
#[derive(Debug, Drop)]
pub struct Lane {
    /// The events of the process, in their order.
    pub entries: Vec<LaneEntry>,
    /// The calls of the process, in their order.
    pub rails: Vec<Rail>,
}

fn step_style(access: Access<Place>) -> Style
    ensures { result ≡ step_style access }
{
    match access {
        Access::Nothing => Style::Inner,
        Access::Load(_) => Style::Read,
        Access::Store(_, _) | Access::Or(_, _) => Style::Write,
        Access::SwapIf {
            place: _,
            expected: _,
            value: _,
        } => Style::Write,
        Access::Flush(_) | Access::Back => Style::Move,
    }
}

/// How the row stands in the lane of its process.
pub fn style_of(row: &TraceRow) -> Style
    ensures { result ≡ style_by row.now.what row.now.reply }
{
    match (row.what, row.reply) {
        (Happening::Begins(_, _), Reply::Begun(_) | Reply::Entered) => Style::Begin,
        (Happening::Steps(_, access), Reply::Stepped) => step_style(access),
        (Happening::Steps(_, _), Reply::Answered(_)) => Style::Answer,
        (Happening::TakesEntry(_), _) => Style::Inner,
        _ => Style::Refused,
    }
}

/// Whether the row is one of this process's lane.
pub fn is_of(row: &TraceRow, process: usize) -> bool
    ensures { result ≡ is_in_lane process row.now.what row.now.reply }
{
    match row.what {
        Happening::Begins(by, _) | Happening::Steps(by, _) => by == process,
        Happening::TakesEntry(by) => by == process,
        Happening::Stops(_) if row.reply == Reply::Stopped => false,
        Happening::Stops(by) => by == process,
        Happening::Evicts(_) | Happening::Crashes => false,
    }
}

// The entry of the event with this number, from 0, of a process whose call has this course.
fn entry_of(
    alloc: Global,
    trace: &Trace,
    passages: &[Passage],
    event: usize,
    course: Course,
) -> Result<LaneEntry, AllocError>
    requires { event < length trace.now.rows.items }
    ensures { (process : ℕ) → course ≡ course_of process trace.now.rows.items event → IfOk result (IsEntryOf trace.now passages.now process event) }
{
    let row = &trace.rows[event];
    let line = event + 1;
    let place = place_at(passages, line, row.what);
    Ok(LaneEntry {
        line,
        style: style_of(row),
        points: points_text(alloc, row, course)?,
        text: row_text(alloc, trace, event, place, row)?,
        title: row_title(alloc, trace, event, place)?,
        place,
    })
}

// The entries of a process.
fn entries(
    alloc: Global,
    trace: &Trace,
    passages: &[Passage],
    process: usize,
) -> Result<Vec<LaneEntry>, AllocError>
    ensures { IfOk result (λ entries. AreEntries trace.now passages.now process entries.items) }
{
    let mut entries = Vec::new(alloc);
    let mut course = NO_COURSE;
    for event in 0..trace.rows.len() {
        let row = &trace.rows[event];
        if is_of(row, process) {
            entries.push(entry_of(alloc, trace, passages, event, course)?)?;
        }
        course = course_by(process, row, course);
    }
    Ok(entries)
}

// How a row ends the call of a process that is in one.
fn ends(row: &TraceRow, process: usize) -> Option<RailEnd> {
    match (row.what, row.reply) {
        (Happening::Steps(by, _), Reply::Answered(_)) if by == process => Some(RailEnd::Answered),
        (Happening::Stops(by), Reply::Stopped) if by == process => Some(RailEnd::Lost),
        (Happening::Crashes, _) => Some(RailEnd::Lost),
        _ => None,
    }
}

// Whether a call of the process begins by the row.
fn begins(row: &TraceRow, process: usize) -> bool {
    match (row.what, row.reply) {
        (Happening::Begins(by, _), Reply::Begun(_) | Reply::Entered) => by == process,
        _ => false,
    }
}

// The calls of a process.
fn rails(alloc: Global, trace: &Trace, process: usize) -> Result<Vec<Rail>, AllocError> {
    let mut rails = Vec::new(alloc);
    let mut open = None;
    for (event, row) in trace.rows.iter().enumerate() {
        let line = event.saturating_add(1);
        if begins(row, process) {
            open = Some(line);
        }
        match (open, ends(row, process)) {
            (Some(from), Some(end)) => {
                rails.push(Rail {
                    from,
                    to: line,
                    end,
                })?;
                open = None;
            }
            _ => {}
        }
    }
    if let Some(from) = open {
        let to = end_line(trace);
        let end = RailEnd::Open;
        rails.push(Rail { from, to, end })?;
    }
    Ok(rails)
}

/// The lane of a process.
pub fn lane_of(
    alloc: Global,
    trace: &Trace,
    passages: &[Passage],
    process: usize,
) -> Result<Lane, AllocError>
    ensures entries { IfOk result (λ lane. AreEntries trace.now passages.now process lane.entries.items) }
{
    Ok(Lane {
        entries: entries(alloc, trace, passages, process)?,
        rails: rails(alloc, trace, process)?,
    })
}
