//! The rows of a brief picture: an event that is kept, its sign and its text.

ghost use Rattle.std.specs.Prelude.{◌≡◌, ◌++◌, ◌<◌, All, IfOk, codes, length, map};
ghost use Rattle.std.specs.Fmt.{decimal};
ghost use Rattle.ds_trace_brief.specs.Briefs.{IsRowBy, IsRowOf, IsStepTold, IsTextOf, IsTold, event_of, is_step, sign_by, told, told_by};
ghost use Rattle.ds_trace_scene.specs.Points.{course as course_of, points_text as points_of};

use crate::crash::crash_text;
use ds_core::reply::Reply;
use ds_trace::row::{Happening, Trace, TraceRow};
use ds_trace_scene::columns::Passage;
use ds_trace_scene::lanes::{Style, style_of};
use ds_trace_scene::points::{course_before, points_text};
use ds_trace_scene::texts::{place_at, row_text, row_title};
use std::alloc::{AllocError, Global};

/// Where the sign of a row stands.
#[derive(Clone, Copy, Debug, PartialEq, Eq)]
pub enum Sign {
    /// On the rail of this process.
    Call {
        /// The process.
        process: usize,
        /// How it stands there.
        style: Style,
    },
    /// At the end of the rail of this process, which stops.
    Stop(usize),
    /// Beside the rails: an eviction.
    Eviction,
    /// Across all of them.
    Crash,
}

/// An event that is kept.
#[derive(Debug, Drop)]
pub struct BriefRow {
    /// Which event of the recording it is, from 0.
    pub event: usize,
    /// Where its sign stands.
    pub sign: Sign,
    /// What it is: of a crash what that takes back.
    pub text: Vec<u8>,
    /// What is shown of it where it is pointed at.
    pub title: String,
}

// The sign of an event.
fn sign_of(row: &TraceRow) -> Sign
    ensures { result ≡ sign_by row.now.what row.now.reply }
{
    let style = style_of(row);
    match row.what {
        Happening::Begins(process, _)
        | Happening::Steps(process, _)
        | Happening::TakesEntry(process) => Sign::Call { process, style },
        Happening::Stops(process) if row.reply == Reply::Stopped => Sign::Stop(process),
        Happening::Stops(process) => Sign::Call { process, style },
        Happening::Evicts(_) => Sign::Eviction,
        Happening::Crashes => Sign::Crash,
    }
}

// Whether the reply is none that is written as an answer, which begins with its process.
fn is_step(reply: Reply) -> bool
    ensures { result ≡ is_step reply }
{
    matches!(reply, Reply::Begun(_) | Reply::Entered | Reply::Stepped)
}

// The process that the text of an event names first, where that is no answer.
fn told_by(what: Happening, reply: Reply) -> Option<usize>
    ensures { result ≡ told_by what reply }
{
    match what {
        Happening::Begins(process, _)
        | Happening::Steps(process, _)
        | Happening::TakesEntry(process) => { if is_step(reply) { Some(process) } else { None } }
        Happening::Evicts(_) | Happening::Stops(_) | Happening::Crashes => None,
    }
}

// A process, and what is said of it.
fn told(alloc: Global, process: usize, text: &[u8]) -> Result<Vec<u8>, AllocError>
    ensures { IfOk result (λ line. line.items ≡ told process text.now) }
{
    let mut line = format!(in alloc; "{process} ")?.into_bytes();
    line.extend_from_slice(text)?;
    Ok(line)
}

// The text of a step: the points that the call has reached by it, or else what it does.
fn step_text(
    alloc: Global,
    trace: &Trace,
    passages: &[Passage],
    process: usize,
    event: usize,
    row: &TraceRow,
) -> Result<Vec<u8>, AllocError>
    requires { event < length trace.now.rows.items }
    ensures { IfOk result (λ text. IsStepTold trace.now passages.now event row.now text.items process (points_of row.now (course_of process trace.now.rows.items event))) }
{
    let names = points_text(alloc, row, course_before(trace, process, event))?;
    if names.is_empty() {
        let place = place_at(passages, event + 1, row.what);
        let text = row_text(alloc, trace, event, place, row)?;
        return told(alloc, process, &text);
    }
    told(alloc, process, names.as_bytes())
}

// The text of an event that is no crash, by the process that it names first.
fn text_by(
    alloc: Global,
    trace: &Trace,
    passages: &[Passage],
    event: usize,
    row: &TraceRow,
    process: Option<usize>,
) -> Result<Vec<u8>, AllocError>
    requires { event < length trace.now.rows.items }
    ensures { IfOk result (λ text. IsTold trace.now passages.now event row.now text.items process) }
{
    match process {
        Some(process) => step_text(alloc, trace, passages, process, event, row),
        None => row_text(alloc, trace, event, None, row),
    }
}

// The text of an event.
fn text_of(
    alloc: Global,
    trace: &Trace,
    passages: &[Passage],
    event: usize,
    row: &TraceRow,
) -> Result<Vec<u8>, AllocError>
    requires { event < length trace.now.rows.items }
    ensures { IfOk result (λ text. IsTextOf trace.now passages.now event row.now text.items row.now.what) }
{
    if let Happening::Crashes = row.what {
        return Ok(crash_text(alloc, trace, event)?.into_bytes());
    }
    let process = told_by(row.what, row.reply);
    text_by(alloc, trace, passages, event, row, process)
}

// The row of an event.
fn row_of(
    alloc: Global,
    trace: &Trace,
    passages: &[Passage],
    event: usize,
) -> Result<BriefRow, AllocError>
    requires { event < length trace.now.rows.items }
    ensures event { IfOk result (λ row. row.event ≡ event) }
    ensures row { IfOk result (IsRowOf trace.now passages.now) }
{
    let row = &trace.rows[event];
    Ok(BriefRow {
        event,
        sign: sign_of(row),
        text: text_of(alloc, trace, passages, event, row)?,
        title: row_title(alloc, trace, event, None)?,
    })
}

/// The rows of these events, in their order, in a recording with these buffer entries. An error means that an allocation
/// failed.
pub fn rows(
    alloc: Global,
    trace: &Trace,
    passages: &[Passage],
    events: &[usize],
) -> Result<Vec<BriefRow>, AllocError>
    requires { All (λ event. event < length trace.now.rows.items) events.now }
    ensures events { IfOk result (λ rows. map event_of rows.items ≡ events.now) }
    ensures rows { IfOk result (λ rows. All (IsRowOf trace.now passages.now) rows.items) }
{
    let mut rows = Vec::with_capacity(alloc, events.len())?;
    for number in 0..events.len() {
        rows.push(row_of(alloc, trace, passages, events[number])?)?;
    }
    Ok(rows)
}
