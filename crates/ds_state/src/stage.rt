//! The stages of an edit.

use ds_layout::head::Head;

/// How an edit ended.
#[derive(Clone, Copy, Debug, PartialEq, Eq)]
pub enum Outcome {
    /// It counts.
    Done,
    /// It does not: another edit took its cell's head first.
    Overtaken {
        /// The word of the head that the edit noted.
        noted: u64,
        /// The word that stood there when the edit tried to take its place.
        seen: u64,
    },
}

/// What an edit does next. A number counts the parts of the text, or the references, from 0; a
/// head's word is the one that the edit noted, or its own.
#[derive(Clone, Copy, Debug, PartialEq, Eq)]
pub enum Stage {
    /// Store the header of its record.
    StoreHeader,
    /// Store a part of its text.
    StoreText(usize),
    /// Flush the header.
    FlushHeader,
    /// Flush a part of the text.
    FlushText(usize),
    /// Write back an entry of its record; the number is of those that come after it.
    BackRecord(usize),
    /// Announce itself.
    StorePending,
    /// Flush that.
    FlushPending,
    /// Write that back.
    BackPending,
    /// Add its cell to the index row of a reference.
    OrIndex(usize),
    /// Flush that part of the row.
    FlushIndex(usize),
    /// Write that back.
    BackIndex(usize),
    /// Note the head of its cell.
    LoadHead,
    /// Flush the head that was noted, or a later one: the edit there is to count before it is
    /// superseded.
    FlushNoted(Head),
    /// Write that back.
    BackNoted(Head),
    /// Say that the edit there counts and is superseded.
    OrDone(Head),
    /// Flush that done bit.
    FlushDone(Head),
    /// Write that back.
    BackDone(Head),
    /// Take the place of the head that was noted.
    Swap(u64),
    /// Flush its own head, or a later one.
    FlushOwn(u64),
    /// Write that back.
    BackOwn(u64),
    /// Mark its cell.
    OrMark(u64),
    /// Flush the mark.
    FlushMark(u64),
    /// Write that back.
    BackMark(u64),
    /// Announce how it ended.
    StoreOutcome(Outcome),
    /// Flush that.
    FlushOutcome(Outcome),
    /// Write that back.
    BackOutcome(Outcome),
    /// Answer how it ended.
    Answer(Outcome),
}
