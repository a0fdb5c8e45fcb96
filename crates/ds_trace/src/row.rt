//! The rows of a recording.

use ds_core::reply::Reply;
use ds_formula::cells::Cell;
use ds_layout::layout::Layout;
use ds_layout::place::Place;
use ds_script::point::PointName;
use ds_words::access::Access;
use ds_words::words::Word;

/// A call that begins.
#[derive(Clone, Copy, Debug, PartialEq, Eq)]
pub enum Begin {
    /// An edit of the cell.
    Edit(Cell),
    /// Work on the cell.
    Work(Cell),
    /// A report.
    Show,
    /// A recovery.
    Recovery,
    /// A migration.
    Migration,
}

/// What happened in a run.
#[derive(Clone, Copy, Debug, PartialEq, Eq)]
pub enum Happening {
    /// The process begins a call, or is refused it.
    Begins(usize, Begin),
    /// The process makes a step of its call, by this access.
    Steps(usize, Access<Place>),
    /// The work of the process is given the entry that it waits for.
    TakesEntry(usize),
    /// The word is evicted.
    Evicts(Place),
    /// The process stops.
    Stops(usize),
    /// Each word keeps its persisted side alone, and every process stops.
    Crashes,
}

/// An event of a run.
#[derive(Debug, Drop)]
pub struct TraceRow {
    /// What happened.
    pub what: Happening,
    /// What it was answered.
    pub reply: Reply,
    /// The last point that the process's call has passed then, if it has one.
    pub behind: Option<PointName>,
    /// How many edits are linearized after it.
    pub counted: usize,
    /// The text that an edit is to have which begins; else it is empty.
    pub text: Vec<u8>,
    /// The reply as scripts write it, in one or more lines.
    pub answer: Vec<u8>,
    /// Both sides after it of each word that the recording looks at, in their order.
    pub words: Vec<Word>,
}

/// A run of a script, event by event.
#[derive(Debug, Drop)]
pub struct Trace {
    /// The sheet.
    pub layout: Layout,
    /// The words that are looked at.
    pub places: Vec<Place>,
    /// Both sides of each of them in the new sheet, before the first event.
    pub start: Vec<Word>,
    /// The events, in their order.
    pub rows: Vec<TraceRow>,
}
