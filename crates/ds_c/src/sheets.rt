//! Exports: sheets that threads share, in the hands of their owner.

ghost use Rattle.ds_c.specs.declared.held.Held.TheVariants.{Sheet};
ghost use Rattle.ds_c.specs.Shared.{FreesHeld, Moves};
ghost use Rattle.ds_c.specs.Sheets.{MakesSheet, TakesSeat, Closes, ClosesNot};

use crate::failure::Failure;
use crate::held::Held;
use crate::holder::Holder;
use crate::sheet_calls;
use c_handles::tell::Numbered;
use std::alloc::Global;

/// A holder that holds nothing gets a new sheet of this shape, which threads may share. Every process is between calls.
#[unsafe(no_mangle)]
pub extern "C" fn ds_c_sheet_make(
    alloc: Global,
    sheet: &mut Holder,
    columns: usize,
    rows: usize,
    processes: usize,
) -> u32
    ensures { MakesSheet columns rows processes sheet.old sheet.new result }
{
    if !sheet.is_empty() {
        return Failure::Full.number();
    }
    match sheet_calls::made(alloc, columns, rows, processes) {
        Ok(held) => {
            *sheet = Holder::of(held);
            0
        }
        Err(failure) => failure.number(),
    }
}

/// A holder that holds nothing gets the seat of a process, which another thread may use.
#[unsafe(no_mangle)]
pub extern "C" fn ds_c_sheet_take(
    alloc: Global,
    sheet: &mut Holder,
    process: usize,
    seat: &mut Holder,
) -> u32
    ensures { TakesSeat process sheet.old sheet.new seat.old seat.new result }
{
    if !seat.is_empty() {
        return Failure::Full.number();
    }
    let Some(mut held) = sheet.take(alloc) else {
        return Failure::Empty.number();
    };
    let told = sheet_calls::take(alloc, &mut held, process);
    *sheet = Holder::of(held);
    match told {
        Ok(taken) => {
            *seat = Holder::of(taken);
            0
        }
        Err(failure) => failure.number(),
    }
}

/// The sheet is closed, and a holder that holds nothing gets its words; the sheet's holder holds nothing then.
#[unsafe(no_mangle)]
pub extern "C" fn ds_c_sheet_close(alloc: Global, sheet: &mut Holder, closed: &mut Holder) -> u32
    ensures { Moves Closes ClosesNot sheet.old sheet.new closed.old closed.new result }
{
    if !closed.is_empty() {
        return Failure::Full.number();
    }
    let Some(mut held) = sheet.take(alloc) else {
        return Failure::Empty.number();
    };
    match sheet_calls::close(alloc, &mut held) {
        Ok(()) => {
            *closed = Holder::of(held);
            0
        }
        Err(failure) => {
            *sheet = Holder::of(held);
            failure.number()
        }
    }
}

/// The owner lets the sheet go. Its memory is given back once its seats are freed, too. The holder holds nothing then.
#[unsafe(no_mangle)]
pub extern "C" fn ds_c_sheet_free(alloc: Global, sheet: &mut Holder) -> u32
    ensures { FreesHeld Sheet sheet.old sheet.new result }
{
    let Some(held) = sheet.take(alloc) else {
        return Failure::Empty.number();
    };
    if let Held::Sheet(_) = &*held {
        return 0;
    }
    *sheet = Holder::of(held);
    Failure::WrongHolder.number()
}
