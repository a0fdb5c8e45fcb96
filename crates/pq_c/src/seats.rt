//! Exports: seats.

ghost use Rattle.c_handles.specs.Calls.{Does};
ghost use Rattle.pq_c.specs.declared.held.Held.TheVariants.{Seat};
ghost use Rattle.pq_c.specs.Shared.{Answers, BeginsNot, FreesHeld, NeverAt, OnHolder, OnSeat, SeatDequeues, SeatEnqueues, SeatRecovers};

use crate::answer::AnswerRow;
use crate::failure::Failure;
use crate::held::Held;
use crate::holder::Holder;
use crate::seat_calls;
use c_handles::tell::{Numbered, tell};
use std::alloc::Global;

/// A value is put into the queue by the next operation of the seat's process, under a fuse of this number of steps.
#[unsafe(no_mangle)]
pub extern "C" fn pq_c_seat_enqueue(
    alloc: Global,
    seat: &mut Holder,
    value: u64,
    steps: u64,
    answer: &mut AnswerRow,
) -> u32
    ensures { OnHolder (OnSeat (Does (SeatEnqueues value steps) BeginsNot)) (Answers answer.old answer.new) seat.old seat.new result }
{
    let Some(mut held) = seat.take(alloc) else {
        return Failure::Empty.number();
    };
    let answered = seat_calls::enqueue(&mut held, value, steps);
    *seat = Holder::of(held);
    tell(answered, answer)
}

/// A value is taken from the queue by the next operation of the seat's process, under a fuse of this number of steps.
#[unsafe(no_mangle)]
pub extern "C" fn pq_c_seat_dequeue(
    alloc: Global,
    seat: &mut Holder,
    steps: u64,
    answer: &mut AnswerRow,
) -> u32
    ensures { OnHolder (OnSeat (Does (SeatDequeues steps) BeginsNot)) (Answers answer.old answer.new) seat.old seat.new result }
{
    let Some(mut held) = seat.take(alloc) else {
        return Failure::Empty.number();
    };
    let answered = seat_calls::dequeue(&mut held, steps);
    *seat = Holder::of(held);
    tell(answered, answer)
}

/// The seat's process recovers, stopped or not, under a fuse of this number of steps.
#[unsafe(no_mangle)]
pub extern "C" fn pq_c_seat_recover(
    alloc: Global,
    seat: &mut Holder,
    steps: u64,
    answer: &mut AnswerRow,
) -> u32
    ensures { OnHolder (OnSeat (Does (SeatRecovers steps) NeverAt)) (Answers answer.old answer.new) seat.old seat.new result }
{
    let Some(mut held) = seat.take(alloc) else {
        return Failure::Empty.number();
    };
    let answered = seat_calls::recover(&mut held, steps);
    *seat = Holder::of(held);
    tell(answered, answer)
}

/// The seat goes back to its queue, and can be taken again. The holder holds nothing then.
#[unsafe(no_mangle)]
pub extern "C" fn pq_c_seat_free(alloc: Global, seat: &mut Holder) -> u32
    ensures { FreesHeld Seat seat.old seat.new result }
{
    let Some(mut held) = seat.take(alloc) else {
        return Failure::Empty.number();
    };
    match std::mem::replace(&mut *held, Held::Spent) {
        Held::Seat(taken) => {
            taken.give_back();
            0
        }
        other => {
            *held = other;
            *seat = Holder::of(held);
            Failure::WrongHolder.number()
        }
    }
}
