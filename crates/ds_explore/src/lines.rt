//! The lines that a script goes on with.

ghost use Rattle.std.specs.Prelude.{◌≡◌, ◌++◌, ◌∷◌, ℕ, List, IfOk, string_bytes};
ghost use Rattle.ds_explore.specs.Lines.{text_kind, IsLines, line_text, place_text, words_of};

use ds_formula::cells::Shape;
use ds_layout::place::{Edition, Place};
use ds_script::point::PointName;
use ds_script_io::answer::cell_at;
use std::alloc::{AllocError, Global};

/// A line that a script goes on with.
#[derive(Clone, Copy)]
pub enum FoundLine {
    /// One step of the process.
    Step(usize),
    /// The process goes on to its answer.
    Run(usize),
    /// The process goes on to a point.
    RunTo {
        /// The process.
        process: usize,
        /// The point.
        name: PointName,
    },
    /// The process stops.
    Stop(usize),
    /// A word is evicted.
    Evict(Place),
    /// A crash.
    Crash,
    /// A whole recovery of the process.
    Recover(usize),
    /// A settle of process 0.
    Settle,
    /// A report of process 0.
    Report,
}

// The word for the texts of a layout.
fn text_kind(edition: Edition) -> &'static str
    ensures { result.now ≡ text_kind edition }
{
    match edition {
        Edition::First => "text",
        Edition::Second => "newtext",
    }
}

// A place as scripts write it.
fn place_line(alloc: Global, shape: Shape, place: Place) -> Result<String, AllocError>
    ensures { IfOk result (λ text. string_bytes text ≡ place_text shape place) }
{
    match place {
        Place::Version => format!(in alloc; "version"),
        Place::Head(cell) => format!(in alloc; "head {}", cell_at(shape, cell)),
        Place::Mark(cell) => format!(in alloc; "mark {}", cell_at(shape, cell)),
        Place::Value(cell) => format!(in alloc; "value {}", cell_at(shape, cell)),
        Place::Kind(cell) => format!(in alloc; "kind {}", cell_at(shape, cell)),
        Place::Index { row, part } => format!(in alloc; "index {} {part}", cell_at(shape, row)),
        Place::Announce(process) => format!(in alloc; "announce {process}"),
        Place::Header { process, number } => format!(in alloc; "header {process} {number}"),
        Place::Text {
            edition,
            process,
            number,
            part,
        } => {
            let kind = text_kind(edition);
            format!(in alloc; "{kind} {process} {number} {part}")
        }
        Place::Done { process, part } => format!(in alloc; "done {process} {part}"),
    }
}

// The words of a line.
fn words(alloc: Global, shape: Shape, line: FoundLine) -> Result<String, AllocError>
    ensures { IfOk result (λ text. string_bytes text ≡ words_of shape line) }
{
    match line {
        FoundLine::Step(process) => format!(in alloc; "step {process}"),
        FoundLine::Run(process) => format!(in alloc; "run {process}"),
        FoundLine::RunTo { process, name } => {
            let name = name.name();
            format!(in alloc; "run {process} to {name}")
        }
        FoundLine::Stop(process) => format!(in alloc; "stop {process}"),
        FoundLine::Evict(place) => {
            let place = place_line(alloc, shape, place)?;
            format!(in alloc; "evict {place}")
        }
        FoundLine::Crash => format!(in alloc; "crash"),
        FoundLine::Recover(process) => format!(in alloc; "recover {process}"),
        FoundLine::Settle => format!(in alloc; "settle 0"),
        FoundLine::Report => format!(in alloc; "report 0"),
    }
}

// The line as scripts write it, with its end.
fn line_bytes(alloc: Global, shape: Shape, line: FoundLine) -> Result<Vec<u8>, AllocError>
    ensures { IfOk result (λ text. text.items ≡ line_text shape line) }
{
    let words = words(alloc, shape, line)?;
    let mut text = words.into_bytes();
    text.push(b'\n')?;
    Ok(text)
}

/// The lines as scripts write them. An error means that an allocation failed.
pub(crate) fn lines_text(
    alloc: Global,
    shape: Shape,
    lines: &[FoundLine],
) -> Result<Vec<u8>, AllocError>
    ensures { IfOk result (λ text. IsLines shape text.items) }
{
    let mut text = Vec::new(alloc);
    for line in lines {
        let bytes = line_bytes(alloc, shape, *line)?;
        text.extend_from_slice(&bytes)?;
    }
    Ok(text)
}
