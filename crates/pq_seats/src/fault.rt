//! Why a call was not carried out.

use std::fmt;

/// Why a call was not carried out. What it was made on is as it was.
#[derive(Clone, Copy, Debug, PartialEq, Eq)]
pub enum Fault {
    /// The queue has no such process.
    NoProcess,
    /// The seat of the process has been taken, and has not come back; for a close, that of any process.
    SeatTaken,
    /// The process has to recover before it begins an operation.
    Stopped,
    /// The process has made as many operations as it may.
    Spent,
    /// The choice has fewer items than the queue has words.
    ShortChoice,
    /// An allocation failed.
    NoMemory,
}

impl fmt::Display for Fault {
    fn fmt<W: fmt::Write>(&self, f: &mut fmt::Formatter<W>) -> fmt::Result {
        f.pad(match self {
            Fault::NoProcess => "no such process",
            Fault::SeatTaken => "a seat is taken",
            Fault::Stopped => "the process has to recover",
            Fault::Spent => "no operation is left",
            Fault::ShortChoice => "too short a choice",
            Fault::NoMemory => "no memory",
        })
    }
}
