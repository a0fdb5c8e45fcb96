//! Exports: seats.

ghost use Rattle.ds_c.specs.declared.held.Held.TheVariants.{Seat};
ghost use Rattle.ds_c.specs.Calls.{Does, Hands, Tells};
ghost use Rattle.ds_c.specs.Events.{cell_of};
ghost use Rattle.ds_c.specs.Shared.{OnHolder, OnSeat, FreesHeld, SeatEdits, SeatWorks, SeatRecovers, SeatReports, SeatShows, LacksCellAt, NeverAt};

use crate::answer::AnswerRow;
use crate::failure::Failure;
use crate::held::Held;
use crate::holder::Holder;
use crate::rows::ValueRow;
use crate::seat_calls;
use c_handles::tell::{Numbered, tell};
use ds_formula::cells::Cell;
use std::alloc::Global;

/// A whole edit of a cell to a text, under a fuse of this number of steps. The text is copied.
#[unsafe(no_mangle)]
pub extern "C" fn ds_c_seat_edit(
    alloc: Global,
    seat: &mut Holder,
    column: usize,
    row: usize,
    text: &[u8],
    steps: u64,
    answer: &mut AnswerRow,
) -> u32
    ensures { OnHolder (OnSeat (Does (SeatEdits (cell_of column row) text.now steps) (LacksCellAt (cell_of column row)))) (Tells answer.old answer.new) seat.old seat.new result }
{
    let Some(mut held) = seat.take(alloc) else {
        return Failure::Empty.number();
    };
    let cell = Cell { column, row };
    let told = seat_calls::edit(alloc, &mut held, cell, text, steps);
    *seat = Holder::of(held);
    tell(told, answer)
}

/// Whole work on a cell, with its evaluation, under a fuse of this number of steps.
#[unsafe(no_mangle)]
pub extern "C" fn ds_c_seat_work(
    alloc: Global,
    seat: &mut Holder,
    column: usize,
    row: usize,
    steps: u64,
    answer: &mut AnswerRow,
) -> u32
    ensures { OnHolder (OnSeat (Does (SeatWorks (cell_of column row) steps) (LacksCellAt (cell_of column row)))) (Tells answer.old answer.new) seat.old seat.new result }
{
    let Some(mut held) = seat.take(alloc) else {
        return Failure::Empty.number();
    };
    let cell = Cell { column, row };
    let told = seat_calls::work(alloc, &mut held, cell, steps);
    *seat = Holder::of(held);
    tell(told, answer)
}

/// A whole recovery of the seat's process, stopped or not, under a fuse of this number of steps.
#[unsafe(no_mangle)]
pub extern "C" fn ds_c_seat_recover(
    alloc: Global,
    seat: &mut Holder,
    steps: u64,
    answer: &mut AnswerRow,
) -> u32
    ensures { OnHolder (OnSeat (Does (SeatRecovers steps) NeverAt)) (Tells answer.old answer.new) seat.old seat.new result }
{
    let Some(mut held) = seat.take(alloc) else {
        return Failure::Empty.number();
    };
    let told = seat_calls::recover(alloc, &mut held, steps);
    *seat = Holder::of(held);
    tell(told, answer)
}

/// A whole report, under a fuse of this number of steps. Where it is settled, `ds_c_seat_values` has its values.
#[unsafe(no_mangle)]
pub extern "C" fn ds_c_seat_report(
    alloc: Global,
    seat: &mut Holder,
    steps: u64,
    answer: &mut AnswerRow,
) -> u32
    ensures { OnHolder (OnSeat (Does (SeatReports steps) NeverAt)) (Tells answer.old answer.new) seat.old seat.new result }
{
    let Some(mut held) = seat.take(alloc) else {
        return Failure::Empty.number();
    };
    let told = seat_calls::report(alloc, &mut held, steps);
    *seat = Holder::of(held);
    tell(told, answer)
}

/// The values of the seat's last settled report, row by row from the left, into a buffer, and how many there are.
#[unsafe(no_mangle)]
pub extern "C" fn ds_c_seat_values(
    alloc: Global,
    seat: &mut Holder,
    buffer: &mut [ValueRow],
    count: &mut usize,
) -> u32
    ensures { OnHolder (OnSeat (Does SeatShows NeverAt)) (Hands buffer.old buffer.new count.old count.new) seat.old seat.new result }
{
    let Some(held) = seat.take(alloc) else {
        return Failure::Empty.number();
    };
    let told = seat_calls::hand_values(&held, buffer, count);
    *seat = Holder::of(held);
    told
}

/// The seat goes back to its sheet, and can be taken again. The holder holds nothing then.
#[unsafe(no_mangle)]
pub extern "C" fn ds_c_seat_free(alloc: Global, seat: &mut Holder) -> u32
    ensures { FreesHeld Seat seat.old seat.new result }
{
    let Some(mut held) = seat.take(alloc) else {
        return Failure::Empty.number();
    };
    match std::mem::replace(&mut *held, Held::Spent) {
        Held::Seat(taken) => {
            taken.give_back();
            0
        }
        other => {
            *held = other;
            *seat = Holder::of(held);
            Failure::WrongHolder.number()
        }
    }
}
