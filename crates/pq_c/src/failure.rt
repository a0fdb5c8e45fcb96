//! Why a call of the library was not carried out.

ghost use Rattle.std.specs.Prelude.{◌≡◌};
ghost use Rattle.pq_c.specs.Failures.{failure_number, failure_of};

use c_handles::tell::Numbered;
use pq_seats::fault::Fault;

/// Why a call of the library was not carried out. What the holder holds is as it was. C has it as a number, which is that of
/// `dsheet.h` where both have it; `include/pmq.h` has one more, for pointers that are null, which do not get here.
#[derive(Clone, Copy, Debug, PartialEq, Eq)]
pub enum Failure {
    /// The handle holds nothing: nothing was put into it, or it was freed.
    Empty,
    /// The handle holds something already.
    Full,
    /// No queue has this many processes.
    BadCount,
    /// The queue has no such process.
    NoProcess,
    /// The choice is too short. The number of words is given.
    TooSmall,
    /// An allocation failed.
    NoMemory,
    /// The handle holds something else: a seat where a queue is wanted, or the like.
    WrongHolder,
    /// The seat of the process has been taken, and has not come back; for a close, that of any process.
    SeatTaken,
    /// The process has to recover before it begins an operation.
    Stopped,
    /// The process has made as many operations as it may.
    Spent,
}

impl Failure {
    /// The failure of a call on a queue that threads share.
    pub fn of(fault: Fault) -> Failure
        ensures { result ≡ failure_of fault }
    {
        match fault {
            Fault::NoProcess => Failure::NoProcess,
            Fault::SeatTaken => Failure::SeatTaken,
            Fault::Stopped => Failure::Stopped,
            Fault::Spent => Failure::Spent,
            Fault::ShortChoice => Failure::TooSmall,
            Fault::NoMemory => Failure::NoMemory,
        }
    }
}

impl Numbered for Failure {
    ghost use Rattle.pq_c.specs.Failures.{failure_number};

    ghost number_of = { failure_number };

    fn number(self) -> u32 {
        match self {
            Failure::Empty => 1,
            Failure::Full => 2,
            Failure::BadCount => 3,
            Failure::NoProcess => 4,
            Failure::TooSmall => 8,
            Failure::NoMemory => 9,
            Failure::WrongHolder => 11,
            Failure::SeatTaken => 12,
            Failure::Stopped => 13,
            Failure::Spent => 14,
        }
    }
}
