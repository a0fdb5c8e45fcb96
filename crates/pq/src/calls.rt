//! The calls on the queue: what a process does, and what it is answered.

use crate::dequeue::Dequeue;
use crate::enqueue::Enqueue;
use crate::recover::{Found, Recover};

/// What a process does.
#[derive(Clone, Copy, Debug, PartialEq, Eq)]
pub enum Doing {
    /// Nothing: it knows the word that it announced last.
    Idle(u64),
    /// It puts a value into the queue.
    Enqueueing(Enqueue),
    /// It takes a value from the queue.
    Dequeueing(Dequeue),
    /// It asks what came of its last operation.
    Recovering(Recover),
    /// It was stopped, and has to recover.
    Stopped,
    /// Its call met a word that is not one of a queue, or had no turn left. No run comes here.
    Torn,
}

/// What a process is answered of an operation.
#[derive(Clone, Copy, Debug, PartialEq, Eq)]
pub enum Response {
    /// The enqueue put this value into the queue.
    Enqueued { operation: u64, value: u64 },
    /// The dequeue took this value from the queue.
    Got { operation: u64, value: u64 },
    /// The dequeue found the queue empty.
    Empty { operation: u64 },
    /// Recovery says that the enqueue took effect.
    WasEnqueued { operation: u64 },
    /// Recovery says that the enqueue did not take effect, and never will.
    NotEnqueued { operation: u64 },
    /// Recovery says that the dequeue took nothing, and never will.
    NotDequeued { operation: u64 },
}

/// How a call ended.
#[derive(Clone, Copy, Debug, PartialEq, Eq)]
pub enum Ended {
    /// The value is in the queue.
    Enqueued,
    /// This value was taken.
    Got { value: u64 },
    /// The queue was empty at a moment of the call.
    Empty,
    /// The recovery found this.
    Recovered { found: Found },
    /// A word was not one of a queue, or no turn was left: nothing is known, and the process has to recover.
    Torn,
}
