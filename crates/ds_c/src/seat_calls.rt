//! Calls of a seat that is held.

ghost use Rattle.std.specs.Prelude.{ℕ, ◌≡◌, List, Result};
ghost use Rattle.ds_c.specs.declared.failure.Failure.{Failure};
ghost use Rattle.ds_c.specs.declared.rows.ValueRow.{ValueRow};
ghost use Rattle.ds_c.specs.Calls.{Does, Hands};
ghost use Rattle.ds_c.specs.Shared.{OnSeat, SeatEdits, SeatWorks, SeatRecovers, SeatReports, SeatShows, LacksCellAt, NeverAt};

use crate::answer::AnswerRow;
use crate::failure::Failure;
use crate::held::Held;
use crate::rows::ValueRow;
use crate::tell::fill_values;
use c_handles::tell::Numbered;
use ds_formula::cells::Cell;
use std::alloc::Global;

/// The seat edits a cell.
pub fn edit(
    alloc: Global,
    held: &mut Held,
    cell: Cell,
    text: &[u8],
    steps: u64,
) -> Result<AnswerRow, Failure>
    ensures { OnSeat (Does (SeatEdits cell text.now steps) (LacksCellAt cell)) held.old result held.new }
{
    let Held::Seat(seat) = held else {
        return Err(Failure::WrongHolder);
    };
    match seat.edit(alloc, cell, text, steps) {
        Ok(ended) => Ok(AnswerRow::of_ended(ended)),
        Err(fault) => Err(Failure::of(fault)),
    }
}

/// The seat works on a cell.
pub fn work(alloc: Global, held: &mut Held, cell: Cell, steps: u64) -> Result<AnswerRow, Failure>
    ensures { OnSeat (Does (SeatWorks cell steps) (LacksCellAt cell)) held.old result held.new }
{
    let Held::Seat(seat) = held else {
        return Err(Failure::WrongHolder);
    };
    match seat.work(alloc, cell, steps) {
        Ok(ended) => Ok(AnswerRow::of_ended(ended)),
        Err(fault) => Err(Failure::of(fault)),
    }
}

/// The process of the seat recovers.
pub fn recover(alloc: Global, held: &mut Held, steps: u64) -> Result<AnswerRow, Failure>
    ensures { OnSeat (Does (SeatRecovers steps) NeverAt) held.old result held.new }
{
    let Held::Seat(seat) = held else {
        return Err(Failure::WrongHolder);
    };
    Ok(AnswerRow::of_ended(seat.recover(alloc, steps)))
}

/// The seat reports. Where that is settled, it keeps the values.
pub fn report(alloc: Global, held: &mut Held, steps: u64) -> Result<AnswerRow, Failure>
    ensures { OnSeat (Does (SeatReports steps) NeverAt) held.old result held.new }
{
    let Held::Seat(seat) = held else {
        return Err(Failure::WrongHolder);
    };
    Ok(AnswerRow::of_ended(seat.show(alloc, steps)))
}

/// The values of the seat's last report that was settled, into a buffer of the caller's, and how many there are.
pub fn hand_values(held: &Held, buffer: &mut [ValueRow], count: &mut usize) -> u32
    ensures { (told : Result (List ValueRow) Failure) × OnSeat (Does SeatShows NeverAt) held.now told held.now
        × Hands buffer.old buffer.new count.old count.new told result }
{
    let Held::Seat(seat) = held else {
        return Failure::WrongHolder.number();
    };
    let values = seat.values();
    *count = values.len();
    fill_values(values, buffer)
}
