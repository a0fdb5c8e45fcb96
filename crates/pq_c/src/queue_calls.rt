//! Queues that are held are made, their seats are taken, and they are closed and opened again.

ghost use Rattle.std.specs.Prelude.{◌≡◌, IfOk, IfErr, OnOk};
ghost use Rattle.pq_c.specs.Queues.{CanNotMake, Closes, ClosesNot, IsNewQueue, IsNotTaken, IsTaken, Opens, OpensNot};

use crate::failure::Failure;
use crate::held::Held;
use pq_seats::queue::OpenQueue;
use std::alloc::Global;
use std::mem::replace;

/// The most processes that a queue has, and one.
const TOO_MANY: usize = 16384;

/// A new queue of this number of processes, in a box.
pub fn made(alloc: Global, processes: usize) -> Result<Box<Held>, Failure>
    ensures ok { IfOk result (λ held. IsNewQueue processes held.value) }
    ensures err { IfErr result (CanNotMake processes) }
{
    if processes == 0 || processes >= TOO_MANY {
        return Err(Failure::BadCount);
    }
    let Ok(queue) = OpenQueue::make(alloc, processes) else {
        return Err(Failure::NoMemory);
    };
    match Box::new(alloc, Held::Queue(queue)) {
        Ok(held) => Ok(held),
        Err(_) => Err(Failure::NoMemory),
    }
}

// The seat of a process, taken from the queue that is held, in a box that is there.
fn take_into(alloc: Global, held: &mut Held, process: usize, seat: &mut Held) -> Result<(), Failure>
    ensures ok { OnOk result (IsTaken process held.old held.new seat.new) }
    ensures err { IfErr result (λ why. IsNotTaken process held.old why held.new) }
{
    let Held::Queue(queue) = held else {
        return Err(Failure::WrongHolder);
    };
    match queue.take(alloc, process) {
        Ok(taken) => {
            *seat = Held::Seat(taken);
            Ok(())
        }
        Err(fault) => Err(Failure::of(fault)),
    }
}

/// The seat of a process, taken from the queue that is held, in a box.
pub fn take(alloc: Global, held: &mut Held, process: usize) -> Result<Box<Held>, Failure>
    ensures ok { IfOk result (λ seat. IsTaken process held.old held.new seat.value) }
    ensures err { IfErr result (λ why. IsNotTaken process held.old why held.new) }
{
    let Ok(mut seat) = Box::new(alloc, Held::Spent) else {
        return Err(Failure::NoMemory);
    };
    take_into(alloc, held, process, &mut seat)?;
    Ok(seat)
}

/// The queue that is held is closed.
pub fn close(alloc: Global, held: &mut Held) -> Result<(), Failure>
    ensures ok { OnOk result (Closes held.old held.new) }
    ensures err { IfErr result (λ why. ClosesNot held.old why held.new) }
{
    match replace(held, Held::Spent) {
        Held::Queue(queue) => match queue.close(alloc) {
            Ok(closed) => {
                *held = Held::Closed(closed);
                Ok(())
            }
            Err((queue, fault)) => {
                *held = Held::Queue(queue);
                Err(Failure::of(fault))
            }
        },
        other => {
            *held = other;
            Err(Failure::WrongHolder)
        }
    }
}

/// The closed queue that is held is opened again.
pub fn reopen(alloc: Global, held: &mut Held) -> Result<(), Failure>
    ensures ok { OnOk result (Opens held.old held.new) }
    ensures err { IfErr result (λ why. OpensNot held.old why held.new) }
{
    match replace(held, Held::Spent) {
        Held::Closed(closed) => match closed.reopen(alloc) {
            Ok(queue) => {
                *held = Held::Queue(queue);
                Ok(())
            }
            Err(closed) => {
                *held = Held::Closed(closed);
                Err(Failure::NoMemory)
            }
        },
        other => {
            *held = other;
            Err(Failure::WrongHolder)
        }
    }
}
