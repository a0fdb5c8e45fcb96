//! What was seen where something else was wanted.

use ds_core::reply::Reply;
use std::alloc::AllocError;

/// What was seen where something else was wanted.
#[derive(Clone, Copy, Debug, PartialEq, Eq)]
pub enum Mismatch {
    /// An allocation failed.
    NoMemory,
    /// No work of the process waits for an entry.
    NoTask,
    /// More steps than a call of the sheet has.
    NoEnd,
    /// This reply.
    Replied(Reply),
    /// How many edits.
    Edits(usize),
    /// How many answers.
    Answers(u64),
}

impl From<AllocError> for Mismatch {
    fn from(_: AllocError) -> Mismatch {
        Mismatch::NoMemory
    }
}
