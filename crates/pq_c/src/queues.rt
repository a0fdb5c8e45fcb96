//! Exports: queues that threads share, in the hands of their owner.

ghost use Rattle.pq_c.specs.declared.held.Held.TheVariants.{Queue};
ghost use Rattle.pq_c.specs.Queues.{Closes, ClosesNot, MakesQueue, TakesSeat};
ghost use Rattle.pq_c.specs.Shared.{FreesHeld, Moves};

use crate::failure::Failure;
use crate::held::Held;
use crate::holder::Holder;
use crate::queue_calls;
use c_handles::tell::Numbered;
use std::alloc::Global;

/// A holder that holds nothing gets a new queue of this number of processes, which threads may share.
#[unsafe(no_mangle)]
pub extern "C" fn pq_c_queue_make(alloc: Global, queue: &mut Holder, processes: usize) -> u32
    ensures { MakesQueue processes queue.old queue.new result }
{
    if !queue.is_empty() {
        return Failure::Full.number();
    }
    match queue_calls::made(alloc, processes) {
        Ok(held) => {
            *queue = Holder::of(held);
            0
        }
        Err(failure) => failure.number(),
    }
}

/// A holder that holds nothing gets the seat of a process, which another thread may use.
#[unsafe(no_mangle)]
pub extern "C" fn pq_c_queue_take(
    alloc: Global,
    queue: &mut Holder,
    process: usize,
    seat: &mut Holder,
) -> u32
    ensures { TakesSeat process queue.old queue.new seat.old seat.new result }
{
    if !seat.is_empty() {
        return Failure::Full.number();
    }
    let Some(mut held) = queue.take(alloc) else {
        return Failure::Empty.number();
    };
    let answered = queue_calls::take(alloc, &mut held, process);
    *queue = Holder::of(held);
    match answered {
        Ok(taken) => {
            *seat = Holder::of(taken);
            0
        }
        Err(failure) => failure.number(),
    }
}

/// The queue is closed, and a holder that holds nothing gets its words; the queue's holder holds nothing then.
#[unsafe(no_mangle)]
pub extern "C" fn pq_c_queue_close(alloc: Global, queue: &mut Holder, closed: &mut Holder) -> u32
    ensures { Moves Closes ClosesNot queue.old queue.new closed.old closed.new result }
{
    if !closed.is_empty() {
        return Failure::Full.number();
    }
    let Some(mut held) = queue.take(alloc) else {
        return Failure::Empty.number();
    };
    match queue_calls::close(alloc, &mut held) {
        Ok(()) => {
            *closed = Holder::of(held);
            0
        }
        Err(failure) => {
            *queue = Holder::of(held);
            failure.number()
        }
    }
}

/// The owner lets the queue go. Its memory is given back once its seats are freed, too. The holder holds nothing then.
#[unsafe(no_mangle)]
pub extern "C" fn pq_c_queue_free(alloc: Global, queue: &mut Holder) -> u32
    ensures { FreesHeld Queue queue.old queue.new result }
{
    let Some(held) = queue.take(alloc) else {
        return Failure::Empty.number();
    };
    if let Held::Queue(_) = &*held {
        return 0;
    }
    *queue = Holder::of(held);
    Failure::WrongHolder.number()
}
