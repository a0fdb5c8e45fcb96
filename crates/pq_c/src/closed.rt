//! Exports: closed queues.

ghost use Rattle.pq_c.specs.declared.held.Held.TheVariants.{Closed};
ghost use Rattle.pq_c.specs.Closed.{CrashesClosed, TellsCrash};
ghost use Rattle.pq_c.specs.Queues.{Opens, OpensNot};
ghost use Rattle.pq_c.specs.Shared.{FreesHeld, Moves, OnClosed, OnHolder};

use crate::failure::Failure;
use crate::held::Held;
use crate::holder::Holder;
use crate::{closed_calls, queue_calls};
use c_handles::tell::Numbered;
use std::alloc::Global;

/// A crash, before which the words were evicted whose item of the choice is not 0, and how many words there are.
#[unsafe(no_mangle)]
pub extern "C" fn pq_c_closed_crash(
    alloc: Global,
    closed: &mut Holder,
    choice: &[u8],
    words: &mut usize,
) -> u32
    ensures { OnHolder (OnClosed (CrashesClosed choice.now words.old words.new)) (TellsCrash words.old words.new) closed.old closed.new result }
{
    let Some(mut held) = closed.take(alloc) else {
        return Failure::Empty.number();
    };
    let answered = closed_calls::crash_with(alloc, &mut held, choice, words);
    *closed = Holder::of(held);
    answered
}

/// The queue is opened again, with its words and with every process stopped, and a holder that holds nothing gets it; the
/// closed one's holder holds nothing then.
#[unsafe(no_mangle)]
pub extern "C" fn pq_c_closed_reopen(alloc: Global, closed: &mut Holder, queue: &mut Holder) -> u32
    ensures { Moves Opens OpensNot closed.old closed.new queue.old queue.new result }
{
    if !queue.is_empty() {
        return Failure::Full.number();
    }
    let Some(mut held) = closed.take(alloc) else {
        return Failure::Empty.number();
    };
    match queue_calls::reopen(alloc, &mut held) {
        Ok(()) => {
            *queue = Holder::of(held);
            0
        }
        Err(failure) => {
            *closed = Holder::of(held);
            failure.number()
        }
    }
}

/// Gives the memory of a closed queue back. The holder holds nothing then.
#[unsafe(no_mangle)]
pub extern "C" fn pq_c_closed_free(alloc: Global, closed: &mut Holder) -> u32
    ensures { FreesHeld Closed closed.old closed.new result }
{
    let Some(held) = closed.take(alloc) else {
        return Failure::Empty.number();
    };
    if let Held::Closed(_) = &*held {
        return 0;
    }
    *closed = Holder::of(held);
    Failure::WrongHolder.number()
}
