//! What is read of a closed sheet that is held, and its crashes.

ghost use Rattle.std.specs.Prelude.{ℕ, ◌≡◌, List, Result};
ghost use Rattle.ds_c.specs.declared.failure.Failure.{Failure};
ghost use Rattle.ds_c.specs.Calls.{Does, Hands};
ghost use Rattle.ds_c.specs.Closed.{ClosedSize, ClosedValue, ClosedMark, ClosedText, CrashesClosed, TellsCrash, LacksClosedCell, LacksClosedText, NeverClosed};
ghost use Rattle.ds_c.specs.Shared.{OnClosed};

use crate::failure::Failure;
use crate::held::Held;
use crate::rows::{MarkRow, SizeRow, ValueRow};
use crate::tell::fill;
use c_handles::tell::Numbered;
use ds_formula::cells::Cell;
use ds_shared_seats::fault::Fault;
use std::alloc::Global;

/// The value of a cell.
pub fn value(held: &Held, cell: Cell) -> Result<ValueRow, Failure>
    ensures { OnClosed (Does (ClosedValue cell) (LacksClosedCell cell)) held.now result held.now }
{
    let Held::Closed(closed) = held else {
        return Err(Failure::WrongHolder);
    };
    match closed.value_of(cell) {
        Ok(value) => Ok(ValueRow::of(value)),
        Err(fault) => Err(Failure::of(fault)),
    }
}

/// The mark of a cell.
pub fn mark(held: &Held, cell: Cell) -> Result<MarkRow, Failure>
    ensures { OnClosed (Does (ClosedMark cell) (LacksClosedCell cell)) held.now result held.now }
{
    let Held::Closed(closed) = held else {
        return Err(Failure::WrongHolder);
    };
    match closed.mark_of(cell) {
        Ok(mark) => Ok(MarkRow::of(mark)),
        Err(fault) => Err(Failure::of(fault)),
    }
}

/// How large the sheet is.
pub fn size(held: &Held) -> Result<SizeRow, Failure>
    ensures { OnClosed (Does ClosedSize NeverClosed) held.now result held.now }
{
    let Held::Closed(closed) = held else {
        return Err(Failure::WrongHolder);
    };
    Ok(SizeRow::of(closed.layout()))
}

/// The text of a cell, into a buffer of the caller's, and how many bytes it has.
pub fn hand_text(
    alloc: Global,
    held: &Held,
    cell: Cell,
    buffer: &mut [u8],
    length: &mut usize,
) -> u32
    ensures { (told : Result (List ℕ) Failure) × OnClosed (Does (ClosedText cell) (LacksClosedText cell)) held.now told held.now
        × Hands buffer.old buffer.new length.old length.new told result }
{
    let Held::Closed(closed) = held else {
        return Failure::WrongHolder.number();
    };
    match closed.text_of(alloc, cell) {
        Ok(text) => {
            *length = text.len();
            fill(&text, buffer)
        }
        Err(fault) => Failure::of(fault).number(),
    }
}

/// A crash, before which the words were evicted that are chosen, and how many words there are: also where the choice is
/// too short.
pub fn crash_with(alloc: Global, held: &mut Held, choice: &[u8], words: &mut usize) -> u32
    ensures { (told : Result (Unit {0}) Failure) × OnClosed (CrashesClosed choice.now words.old words.new) held.old told held.new
        × TellsCrash words.old words.new told result }
{
    let Held::Closed(closed) = held else {
        return Failure::WrongHolder.number();
    };
    let count = closed.layout().words();
    match closed.crash_with(alloc, choice) {
        Ok(()) => {
            *words = count;
            0
        }
        Err(fault) => {
            if fault == Fault::ShortChoice {
                *words = count;
            }
            Failure::of(fault).number()
        }
    }
}
