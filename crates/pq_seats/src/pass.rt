//! The right to act for a process of a queue.

ghost use Rattle.std.specs.Prelude.{◌≡◌, ◌<◌, ◌*◌, ◌^◌, false, IfOk, IfErr};
ghost use Rattle.std.specs.Coded.{codes};
ghost use Rattle.pq.specs.Places.{Belongs, operation_of};
ghost use Rattle.pq_seats.specs.Places.{IsKnown, IsMemory};

use crate::fault::Fault;
use pm_board::board::TableSeat;
use pq::calls::{Doing, Response};
use pq::places;
use pq_shared::calls::Operation;

/// What was answered before a queue was opened. Its owner keeps it for the close.
#[derive(Drop)]
pub struct Past {
    pub(crate) place: TableSeat<Doing, Response>,
    pub ghost memory: { IsMemory place } by { Prim.hlevel codes },
}

/// The right to act for a process of a queue.
#[derive(Drop)]
pub struct Pass {
    pub(crate) place: TableSeat<Doing, Response>,
    pub(crate) process: usize,
    /// The number of its next operation.
    pub(crate) next: usize,
    /// The word that it announced last, or 0.
    pub(crate) announced: u64,
    /// Whether it has to recover.
    pub(crate) stopped: bool,
    pub ghost known: { IsKnown place process announced stopped } by { Prim.hlevel codes },
    pub ghost above: { announced < 2 * operation_of process next },
}

impl Pass {
    ghost use Rattle.pq_seats.specs.Calls.{CanNotBegin};

    /// Its next operation. Errors: Stopped, Spent.
    pub(crate) fn operation(&self) -> Result<Operation, Fault>
        requires { self.now.process < 16384 }
        ensures ok { IfOk result (λ o. (o ≡ record { process = self.now.process; last = self.now.announced; number = operation_of self.now.process self.now.next }) × (self.now.stopped ≡ false) × (self.now.next < 1024)) }
        ensures err { IfErr result (CanNotBegin self.now) }
    {
        if self.stopped {
            return Err(Fault::Stopped);
        }
        if self.next >= places::OPERATIONS {
            return Err(Fault::Spent);
        }
        Ok(Operation {
            process: self.process,
            last: self.announced,
            number: places::operation(self.process, self.next),
        })
    }
}
