//! The parts of states: the words of a group, and a process.

ghost use Rattle.std.specs.Prelude.{◌≡◌, IfOk, IsTrue};
ghost use Rattle.ds_explore_state.specs.States.{plain_part, seat_of};

use crate::position::ProcessState;
use crate::stages::{same_recover_stages, same_stages, same_work_stages};
use ds_eval::inputs::Inputs;
use ds_eval::same::{same_content, same_inputs};
use ds_layout::place::Place;
use ds_state::answer::Answer;
use ds_state::edit::EditCall;
use ds_state::migration::MigrateCall;
use ds_state::recovery::RecoverCall;
use ds_state::row::IndexRow;
use ds_state::show::ShowCall;
use ds_state::situation::Situation;
use ds_state::text::Text;
use ds_state::work::WorkCall;
use ds_words::access::BufferEntry;
use ds_words::words::Word;
use std::alloc::{AllocError, Global};

/// A part of a state.
#[derive(Drop)]
pub enum Part {
    /// Both sides of the words of a group.
    Words(Vec<Word>),
    /// What a process does, and what it has besides.
    Process {
        /// What it does, where the world has the process.
        situation: Option<Situation>,
        /// What it has besides.
        seat: ProcessState,
    },
}

// Whether two texts are the same.
fn same_texts(a: &Text, b: &Text) -> bool
    ensures { IsTrue result → a.now ≡ b.now }
{
    a.as_slice() == b.as_slice()
}

// Whether two rows are the same.
fn same_rows(a: &IndexRow, b: &IndexRow) -> bool
    ensures { IsTrue result → a.now ≡ b.now }
{
    a.as_slice() == b.as_slice()
}

// Whether two lists of references are the same.
fn same_references(a: &Vec<usize>, b: &Vec<usize>) -> bool
    ensures { IsTrue result → a.now.items ≡ b.now.items }
{
    a == b
}

// Whether two edits are the same.
fn same_edits(a: &EditCall, b: &EditCall) -> bool
    ensures { IsTrue result → a.now ≡ b.now }
{
    if !same_texts(&a.text, &b.text) {
        return false;
    }
    if !same_references(&a.refs, &b.refs) {
        return false;
    }
    a.process == b.process
        && a.number == b.number
        && a.edition == b.edition
        && a.cell == b.cell
        && a.cells == b.cells
        && a.processes == b.processes
        && same_stages(a.stage, b.stage)
}

// Whether two lists of inputs are the same.
fn same_entries(a: &Inputs, b: &Inputs) -> bool
    ensures { IsTrue result → a.now.items ≡ b.now.items }
{
    same_inputs(a.as_slice(), b.as_slice())
}

// Whether two works are the same.
fn same_works(a: &WorkCall, b: &WorkCall) -> bool
    ensures { IsTrue result → a.now ≡ b.now }
{
    if !same_texts(&a.text, &b.text) {
        return false;
    }
    if !same_content(&a.content, &b.content) {
        return false;
    }
    if !same_entries(&a.inputs, &b.inputs) {
        return false;
    }
    if !same_rows(&a.row, &b.row) {
        return false;
    }
    if a.process != b.process || a.edition != b.edition || a.next != b.next {
        return false;
    }
    a.cell == b.cell
        && a.cells == b.cells
        && a.processes == b.processes
        && a.mark == b.mark
        && a.head == b.head
        && a.length == b.length
        && a.value == b.value
        && a.kind == b.kind
        && a.entry == b.entry
        && same_work_stages(a.stage, b.stage)
}

// Whether two recoveries are the same.
fn same_recoveries(a: &RecoverCall, b: &RecoverCall) -> bool
    ensures { IsTrue result → a.now ≡ b.now }
{
    if !same_rows(&a.row, &b.row) {
        return false;
    }
    a.process == b.process
        && a.edition == b.edition
        && a.cells == b.cells
        && a.processes == b.processes
        && a.mark == b.mark
        && a.announcement == b.announcement
        && a.cell == b.cell
        && same_recover_stages(a.stage, b.stage)
}

// Whether two shows are the same.
fn same_shows(a: &ShowCall, b: &ShowCall) -> bool
    ensures { IsTrue result → a.now ≡ b.now }
{
    a.process == b.process
        && a.edition == b.edition
        && a.next == b.next
        && a.cells == b.cells
        && a.processes == b.processes
        && a.announcements == b.announcements
        && a.marks == b.marks
        && a.values == b.values
        && a.kinds == b.kinds
        && a.stage == b.stage
}

// Whether two migrations are the same.
fn same_migrations(a: &MigrateCall, b: &MigrateCall) -> bool
    ensures { IsTrue result → a.now ≡ b.now }
{
    a.process == b.process && a.processes == b.processes && a.word == b.word && a.stage == b.stage
}

// Whether two processes do the same.
fn same_situations(a: &Situation, b: &Situation) -> bool
    ensures { IsTrue result → a.now ≡ b.now }
{
    match (a, b) {
        (Situation::Idle(a), Situation::Idle(b)) => a == b,
        (Situation::Stopped, Situation::Stopped) => true,
        (Situation::Editing(a), Situation::Editing(b)) => same_edits(a, b),
        (Situation::Working(a), Situation::Working(b)) => same_works(a, b),
        (Situation::Recovering(a), Situation::Recovering(b)) => same_recoveries(a, b),
        (Situation::Showing(a), Situation::Showing(b)) => same_shows(a, b),
        (Situation::Migrating(a), Situation::Migrating(b)) => same_migrations(a, b),
        _ => false,
    }
}

// The same, where there may be none.
fn same_doings(a: &Option<Situation>, b: &Option<Situation>) -> bool
    ensures { IsTrue result → a.now ≡ b.now }
{
    match (a, b) {
        (Some(a), Some(b)) => same_situations(a, b),
        (None, None) => true,
        _ => false,
    }
}

// Whether two buffers are the same.
fn same_buffers(a: &Vec<BufferEntry<Place>>, b: &Vec<BufferEntry<Place>>) -> bool
    ensures { IsTrue result → a.now.items ≡ b.now.items }
{
    a == b
}

// Whether two answers are the same.
fn same_answers(a: Option<Answer>, b: Option<Answer>) -> bool
    ensures { IsTrue result → a ≡ b }
{
    match (a, b) {
        (Some(a), Some(b)) => a == b,
        (None, None) => true,
        _ => false,
    }
}

// Whether two lists of bytes are the same.
fn same_bytes(a: &Vec<u8>, b: &Vec<u8>) -> bool
    ensures { IsTrue result → a.now.items ≡ b.now.items }
{
    a == b
}

// Whether two processes have the same in their buffers, and were answered the same.
fn same_seats(a: &ProcessState, b: &ProcessState) -> bool
    ensures { IsTrue result → seat_of a.now ≡ seat_of b.now }
{
    same_buffers(&a.buffer, &b.buffer)
        && same_answers(a.answer, b.answer)
        && same_bytes(&a.text, &b.text)
}

// Whether two groups of words are the same.
fn same_words(a: &Vec<Word>, b: &Vec<Word>) -> bool
    ensures { IsTrue result → a.now.items ≡ b.now.items }
{
    a == b
}

// A buffer, in words.
fn buffer_text(alloc: Global, entries: &[BufferEntry<Place>]) -> Result<Vec<u8>, AllocError> {
    let mut text = Vec::new(alloc);
    for entry in entries {
        let place = entry.place;
        let value = entry.value;
        text.extend_from_slice(format!(in alloc; "{place:?} {value}\n")?.as_bytes())?;
    }
    Ok(text)
}

// A process, in words.
fn process_text(
    alloc: Global,
    situation: &Option<Situation>,
    seat: &ProcessState,
) -> Result<Vec<u8>, AllocError> {
    let mut text = format!(in alloc; "{situation:?}\n")?.into_bytes();
    text.extend_from_slice(&buffer_text(alloc, &seat.buffer)?)?;
    text.extend_from_slice(&seat.text)?;
    Ok(text)
}

// Words, byte by byte.
fn words_text(alloc: Global, words: &[Word]) -> Result<Vec<u8>, AllocError> {
    let mut text = Vec::new(alloc);
    for word in words {
        text.extend_from_slice(&word.persisted.to_le_bytes())?;
        text.extend_from_slice(&word.cached.to_le_bytes())?;
    }
    Ok(text)
}

/// What a process does, in memory of its own, where there is one. An error means that an allocation failed.
pub(crate) fn copied(
    alloc: Global,
    situation: &Option<Situation>,
) -> Result<Option<Situation>, AllocError>
    ensures { IfOk result (λ copy. copy ≡ situation.now) }
{
    match situation {
        Some(situation) => Ok(Some(situation.copy(alloc)?)),
        None => Ok(None),
    }
}

impl Part {
    /// Whether two parts are the same in all.
    pub(crate) fn is_same(&self, other: &Part) -> bool
        ensures { IsTrue result → plain_part self.now ≡ plain_part other.now }
    {
        match (self, other) {
            (Part::Words(a), Part::Words(b)) => same_words(a, b),
            (
                Part::Process {
                    situation: a,
                    seat: c,
                },
                Part::Process {
                    situation: b,
                    seat: d,
                },
            ) => same_doings(a, b) && same_seats(c, d),
            _ => false,
        }
    }

    /// An equal part, in memory of its own. An error means that an allocation failed.
    pub(crate) fn copy(&self, alloc: Global) -> Result<Part, AllocError>
        ensures { IfOk result (λ part. plain_part part ≡ plain_part self.now) }
    {
        match self {
            Part::Words(words) => Ok(Part::Words(Vec::from_slice(alloc, words)?)),
            Part::Process { situation, seat } => Ok(Part::Process {
                situation: copied(alloc, situation)?,
                seat: seat.copy(alloc)?,
            }),
        }
    }

    /// What is looked up to find the part again: parts that differ mostly have different ones.
    pub(crate) fn text(&self, alloc: Global) -> Result<Vec<u8>, AllocError> {
        match self {
            Part::Words(words) => words_text(alloc, words),
            Part::Process { situation, seat } => process_text(alloc, situation, seat),
        }
    }
}
