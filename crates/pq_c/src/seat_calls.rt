//! Calls of a seat that is held.

ghost use Rattle.c_handles.specs.Calls.{Does};
ghost use Rattle.pq_c.specs.Shared.{BeginsNot, NeverAt, OnSeat, SeatDequeues, SeatEnqueues, SeatRecovers};

use crate::answer::AnswerRow;
use crate::failure::Failure;
use crate::held::Held;

/// The seat enqueues a value.
pub fn enqueue(held: &mut Held, value: u64, steps: u64) -> Result<AnswerRow, Failure>
    ensures { OnSeat (Does (SeatEnqueues value steps) BeginsNot) held.old result held.new }
{
    let Held::Seat(seat) = held else {
        return Err(Failure::WrongHolder);
    };
    let number = seat.next();
    match seat.enqueue(value, steps) {
        Ok(how) => Ok(AnswerRow::of_ended(number, how)),
        Err(fault) => Err(Failure::of(fault)),
    }
}

/// The seat dequeues.
pub fn dequeue(held: &mut Held, steps: u64) -> Result<AnswerRow, Failure>
    ensures { OnSeat (Does (SeatDequeues steps) BeginsNot) held.old result held.new }
{
    let Held::Seat(seat) = held else {
        return Err(Failure::WrongHolder);
    };
    let number = seat.next();
    match seat.dequeue(steps) {
        Ok(how) => Ok(AnswerRow::of_ended(number, how)),
        Err(fault) => Err(Failure::of(fault)),
    }
}

/// The process of the seat recovers.
pub fn recover(held: &mut Held, steps: u64) -> Result<AnswerRow, Failure>
    ensures { OnSeat (Does (SeatRecovers steps) NeverAt) held.old result held.new }
{
    let Held::Seat(seat) = held else {
        return Err(Failure::WrongHolder);
    };
    let process = seat.process();
    Ok(AnswerRow::of_recovery(process, seat.recover(steps)))
}
