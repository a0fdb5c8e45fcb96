//! What C gets of a call: how it ended, as a row of numbers.

ghost use Rattle.std.specs.Prelude.{◌≡◌};
ghost use Rattle.pq_c.specs.Answers.{ended_row, end_row, found_row, kind_number, number_of, recovery_row, row};

use pq::calls::Ended;
use pq::places::OPERATIONS;
use pq::recover::Found;
use pq_shared::calls::Recovery;

/// How a call ended. `kind` says which of the others are used; those that are not are 0.
#[repr(C)]
#[derive(Clone, Copy, Debug, PartialEq, Eq)]
pub struct AnswerRow {
    /// Which answer it is: the number of an `AnswerKind`.
    pub kind: u32,
    /// Which operation of the process, from 0.
    pub number: usize,
    /// The value that was taken.
    pub value: u64,
}

/// Which answer a row is.
#[derive(Clone, Copy, Debug, PartialEq, Eq)]
pub enum AnswerKind {
    /// The enqueue put its value into the queue.
    Enqueued,
    /// The dequeue took the value.
    Got,
    /// The dequeue found the queue empty.
    Empty,
    /// The fuse broke the call off.
    Stopped,
    /// The call met a word that is not one of a queue. No run comes here.
    Torn,
    /// The process has announced no operation.
    Nothing,
    /// The enqueue took effect.
    WasEnqueued,
    /// The enqueue did not take effect, and never will.
    NotEnqueued,
    /// The dequeue took nothing, and never will.
    NotDequeued,
}

impl AnswerKind {
    /// Its number, as C has it.
    pub fn number(self) -> u32
        ensures { result ≡ kind_number self }
    {
        match self {
            AnswerKind::Enqueued => 1,
            AnswerKind::Got => 2,
            AnswerKind::Empty => 3,
            AnswerKind::Stopped => 4,
            AnswerKind::Torn => 5,
            AnswerKind::Nothing => 6,
            AnswerKind::WasEnqueued => 7,
            AnswerKind::NotEnqueued => 8,
            AnswerKind::NotDequeued => 9,
        }
    }
}

// A row of these.
fn row(kind: AnswerKind, number: usize, value: u64) -> AnswerRow
    ensures { result ≡ row kind number value }
{
    AnswerRow {
        kind: kind.number(),
        number,
        value,
    }
}

impl AnswerRow {
    /// How the operation with this number ended, or that the fuse broke it off.
    pub fn of_ended(number: usize, how: Option<Ended>) -> AnswerRow
        ensures { result ≡ ended_row number how }
    {
        match how {
            None => row(AnswerKind::Stopped, number, 0),
            Some(ended) => AnswerRow::of_end(number, ended),
        }
    }

    // How the operation with this number ended.
    fn of_end(number: usize, ended: Ended) -> AnswerRow
        ensures { result ≡ end_row number ended }
    {
        match ended {
            Ended::Enqueued => row(AnswerKind::Enqueued, number, 0),
            Ended::Got { value } => row(AnswerKind::Got, number, value),
            Ended::Empty => row(AnswerKind::Empty, number, 0),
            Ended::Recovered { .. } => row(AnswerKind::Torn, number, 0),
            Ended::Torn => row(AnswerKind::Torn, number, 0),
        }
    }

    // What a recovery found of the operation with this number.
    fn of_found(number: usize, found: Found) -> AnswerRow
        ensures { result ≡ found_row number found }
    {
        match found {
            Found::Nothing => row(AnswerKind::Nothing, 0, 0),
            Found::WasEnqueued => row(AnswerKind::WasEnqueued, number, 0),
            Found::NotEnqueued => row(AnswerKind::NotEnqueued, number, 0),
            Found::Got { value } => row(AnswerKind::Got, number, value),
            Found::Empty => row(AnswerKind::Empty, number, 0),
            Found::NotDequeued => row(AnswerKind::NotDequeued, number, 0),
        }
    }

    /// How the recovery of a process ended, or that the fuse broke it off.
    pub fn of_recovery(process: usize, how: Option<Recovery>) -> AnswerRow
        ensures { result ≡ recovery_row process how }
    {
        let Some(recovery) = how else {
            return row(AnswerKind::Stopped, 0, 0);
        };
        match recovery.ended {
            Ended::Recovered { found } => {
                AnswerRow::of_found(number_of(process, recovery.announced), found)
            }
            _ => row(AnswerKind::Torn, 0, 0),
        }
    }
}

// The number of the operation that a process announced by this word.
fn number_of(process: usize, announced: u64) -> usize
    ensures { result ≡ number_of process announced }
{
    (announced as usize / 2)
        .saturating_sub(OPERATIONS.saturating_mul(process))
        .saturating_sub(1)
}
