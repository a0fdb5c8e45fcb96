//! The columns of a picture: the words that change, side by side, and how they come from one side to the other.

ghost use Rattle.std.specs.Prelude.{◌≡◌, ◌<◌, ◌↔◌, IfOk, IsTrue, length, slice_index_or};
ghost use Rattle.ds_core.specs.declared.reply.Reply.TheVariants as replies;
ghost use Rattle.ds_trace_scene.specs.Columns.{AreColumns, AreSpans, Changes, IsColumnOf, first_in, side_of, word_after, word_before, word_in};

use ds_core::reply::Reply;
use ds_layout::place::Place;
use ds_trace::row::{Trace, TraceRow};
use ds_words::words::Word;
use std::alloc::{AllocError, Global};

/// A side of a word.
#[derive(Clone, Copy, Debug, PartialEq, Eq)]
pub enum Side {
    /// What processes see, and a crash loses.
    Cached,
    /// What a crash leaves.
    Persisted,
}

/// The number that a side of a word has from one line of the picture to another.
#[derive(Clone, Copy, Debug, PartialEq, Eq)]
pub struct Span {
    /// The line of the event that gave it this number; 0 where it had it before all events.
    pub from: usize,
    /// The line of the event that gave it another one, or the last line.
    pub to: usize,
    /// The number.
    pub word: u64,
    /// Whether a crash took it.
    pub is_lost: bool,
}

/// A word that changes.
#[derive(Debug, Drop)]
pub struct Column {
    /// The place of the word.
    pub place: Place,
    /// What its cached side was, from the first line to the last.
    pub cached: Vec<Span>,
    /// What is shown of its persisted side.
    pub persisted: Vec<Span>,
}

/// What became of a buffer entry.
#[derive(Clone, Copy, Debug, PartialEq, Eq)]
pub enum PassageEnd {
    /// It was written back.
    WrittenBack,
    /// It was lost by a stop or a crash.
    Lost,
    /// It is in the buffer yet.
    Buffered,
}

/// A buffer entry: from its flush to its write-back.
#[derive(Clone, Copy, Debug, PartialEq, Eq)]
pub struct Passage {
    /// Whose buffer it was in.
    pub process: usize,
    /// The word.
    pub place: Place,
    /// The line of its flush.
    pub from: usize,
    /// The line of its end.
    pub to: usize,
    /// What became of it.
    pub end: PassageEnd,
}

/// Where there is no such word.
pub const NO_WORD: Word = Word {
    cached: 0,
    persisted: 0,
};

/// The line of the last event, and one more.
pub fn end_line(trace: &Trace) -> usize {
    trace.rows.len().saturating_add(1)
}

/// Both sides of a word of the recording after an event, by the word's number; zeros where there is no such word.
pub fn word_in(row: &TraceRow, number: usize) -> Word
    ensures { result ≡ word_in number row.now }
{
    if number < row.words.len() {
        row.words[number]
    } else {
        NO_WORD
    }
}

fn side_of(word: Word, side: Side) -> u64
    ensures { result ≡ side_of side word }
{
    match side {
        Side::Cached => word.cached,
        Side::Persisted => word.persisted,
    }
}

// Whether the reply is that to a crash.
fn is_crash(reply: Reply) -> bool
    ensures { IsTrue result ↔ reply ≡ replies.Crashed }
{
    reply == Reply::Crashed
}

// The numbers of a side of a word, line by line, which was this one first.
fn spans(
    alloc: Global,
    first: Word,
    rows: &[TraceRow],
    number: usize,
    side: Side,
) -> Result<Vec<Span>, AllocError>
    ensures { IfOk result (λ spans. AreSpans first rows.now number side spans.items) }
{
    let Some(end) = rows.len().checked_add(1) else {
        return Err(AllocError);
    };
    let mut spans = Vec::new(alloc);
    let mut word = side_of(first, side);
    let mut from = 0;
    for event in 0..rows.len() {
        let row = &rows[event];
        let next = side_of(word_in(row, number), side);
        if next != word {
            spans.push(Span {
                from,
                to: event + 1,
                word,
                is_lost: is_crash(row.reply),
            })?;
            from = event + 1;
            word = next;
        }
    }
    spans.push(Span {
        from,
        to: end,
        word,
        is_lost: false,
    })?;
    Ok(spans)
}

/// Both sides of a word of the recording before all events, by the word's number; zeros where there is no such word.
pub fn first_in(trace: &Trace, number: usize) -> Word
    ensures { result ≡ first_in trace.now number }
{
    if number < trace.start.len() {
        trace.start[number]
    } else {
        NO_WORD
    }
}

/// Both sides of the word with this number after the event, counted from 0; zeros, where there is no such word or event.
pub fn word_after(trace: &Trace, number: usize, event: usize) -> Word
    ensures { result ≡ word_after trace.now number event }
{
    if event < trace.rows.len() {
        word_in(&trace.rows[event], number)
    } else {
        NO_WORD
    }
}

/// Both sides of the word with this number before the event: those after the one before it, or those in the new sheet.
pub fn word_before(trace: &Trace, number: usize, event: usize) -> Word
    ensures { result ≡ word_before trace.now number event }
{
    if event == 0 {
        first_in(trace, number)
    } else {
        word_after(trace, number, event - 1)
    }
}

// Whether two words are the same on both sides.
fn are_same(word: Word, other: Word) -> bool
    ensures { IsTrue result ↔ word ≡ other }
{
    word == other
}

// Whether a word ever is another one than in the new sheet.
fn changes(trace: &Trace, number: usize) -> bool
    ensures { IsTrue result ↔ Changes trace.now number }
{
    let first = first_in(trace, number);
    for row in &trace.rows {
        if !are_same(word_in(row, number), first) {
            return true;
        }
    }
    false
}

fn place_of(trace: &Trace, number: usize) -> Place
    requires { number < length trace.now.places.items }
    ensures { result ≡ slice_index_or trace.now.places.items number Place.Version }
{
    trace.places[number]
}

// The column of a word.
fn column_of(alloc: Global, trace: &Trace, number: usize) -> Result<Column, AllocError>
    requires { number < length trace.now.places.items }
    ensures { IfOk result (λ column. IsColumnOf trace.now number column) }
{
    let first = first_in(trace, number);
    Ok(Column {
        place: place_of(trace, number),
        cached: spans(alloc, first, &trace.rows, number, Side::Cached)?,
        persisted: spans(alloc, first, &trace.rows, number, Side::Persisted)?,
    })
}

/// A column for each word that changes, in their order. An error means that an allocation failed.
pub fn columns(alloc: Global, trace: &Trace) -> Result<Vec<Column>, AllocError>
    ensures { IfOk result (λ columns. AreColumns trace.now (length trace.now.places.items) columns.items) }
{
    let mut columns = Vec::new(alloc);
    for number in 0..trace.places.len() {
        if changes(trace, number) {
            columns.push(column_of(alloc, trace, number)?)?;
        }
    }
    Ok(columns)
}
