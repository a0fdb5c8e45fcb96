//! Why a call of the library was not carried out.

ghost use Rattle.std.specs.Prelude.{◌≡◌};
ghost use Rattle.ds_c.specs.Failures.{failure_number, failure_of};

use c_handles::tell::Numbered;
use ds_shared_seats::fault::Fault;

/// Why a call of the library was not carried out. The world, and the handle, are as they were. C has it as a number;
/// `include/dsheet.h` has one more, for pointers that are null, which do not get here.
#[derive(Clone, Copy, Debug, PartialEq, Eq)]
pub enum Failure {
    /// The handle holds no world: none was made, or it was freed.
    Empty,
    /// The handle holds a world already.
    Full,
    /// No sheet has this many columns, rows or processes.
    BadShape,
    /// The sheet has no such process.
    NoProcess,
    /// The sheet has no such cell.
    NoCell,
    /// The sheet has no such word.
    NoWord,
    /// The process is in no work that waits for an entry.
    NoTask,
    /// The buffer is too small. The number of items that it has to have room for is given.
    TooSmall,
    /// An allocation failed.
    NoMemory,
    /// The holder holds something else: a seat where a sheet is wanted, or the like.
    WrongHolder,
    /// The seat of the process has been taken, and has not come back; for a close, that of any process.
    SeatTaken,
}

impl Failure {
    /// The failure of a call on a sheet that threads share.
    pub fn of(fault: Fault) -> Failure
        ensures { result ≡ failure_of fault }
    {
        match fault {
            Fault::NoProcess => Failure::NoProcess,
            Fault::NoCell => Failure::NoCell,
            Fault::SeatTaken => Failure::SeatTaken,
            Fault::ShortChoice => Failure::TooSmall,
            Fault::NoMemory => Failure::NoMemory,
        }
    }
}

impl Numbered for Failure {
    ghost use Rattle.ds_c.specs.Failures.{failure_number};

    ghost number_of = { failure_number };

    fn number(self) -> u32 {
        match self {
            Failure::Empty => 1,
            Failure::Full => 2,
            Failure::BadShape => 3,
            Failure::NoProcess => 4,
            Failure::NoCell => 5,
            Failure::NoWord => 6,
            Failure::NoTask => 7,
            Failure::TooSmall => 8,
            Failure::NoMemory => 9,
            Failure::WrongHolder => 11,
            Failure::SeatTaken => 12,
        }
    }
}
