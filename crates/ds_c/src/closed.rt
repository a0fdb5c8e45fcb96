//! Exports: closed sheets.

ghost use Rattle.ds_c.specs.declared.held.Held.TheVariants.{Closed};
ghost use Rattle.ds_c.specs.Calls.{Does, Hands, Tells};
ghost use Rattle.ds_c.specs.Closed.{ClosedSize, ClosedValue, ClosedMark, ClosedText, CrashesClosed, TellsCrash, LacksClosedCell, LacksClosedText, NeverClosed};
ghost use Rattle.ds_c.specs.Events.{cell_of};
ghost use Rattle.ds_c.specs.Shared.{OnHolder, OnClosed, FreesHeld, Moves};
ghost use Rattle.ds_c.specs.Sheets.{Opens, OpensNot};

use crate::failure::Failure;
use crate::held::Held;
use crate::holder::Holder;
use crate::rows::{MarkRow, SizeRow, ValueRow};
use crate::{closed_calls, sheet_calls};
use c_handles::tell::{Numbered, tell};
use ds_formula::cells::Cell;
use std::alloc::Global;

/// How large the sheet is.
#[unsafe(no_mangle)]
pub extern "C" fn ds_c_closed_size(alloc: Global, closed: &mut Holder, size: &mut SizeRow) -> u32
    ensures { OnHolder (OnClosed (Does ClosedSize NeverClosed)) (Tells size.old size.new) closed.old closed.new result }
{
    let Some(held) = closed.take(alloc) else {
        return Failure::Empty.number();
    };
    let told = closed_calls::size(&held);
    *closed = Holder::of(held);
    tell(told, size)
}

/// The value of a cell, as its words show it.
#[unsafe(no_mangle)]
pub extern "C" fn ds_c_closed_value(
    alloc: Global,
    closed: &mut Holder,
    column: usize,
    row: usize,
    value: &mut ValueRow,
) -> u32
    ensures { OnHolder (OnClosed (Does (ClosedValue (cell_of column row)) (LacksClosedCell (cell_of column row)))) (Tells value.old value.new) closed.old closed.new result }
{
    let Some(held) = closed.take(alloc) else {
        return Failure::Empty.number();
    };
    let cell = Cell { column, row };
    let told = closed_calls::value(&held, cell);
    *closed = Holder::of(held);
    tell(told, value)
}

/// The mark of a cell.
#[unsafe(no_mangle)]
pub extern "C" fn ds_c_closed_mark(
    alloc: Global,
    closed: &mut Holder,
    column: usize,
    row: usize,
    mark: &mut MarkRow,
) -> u32
    ensures { OnHolder (OnClosed (Does (ClosedMark (cell_of column row)) (LacksClosedCell (cell_of column row)))) (Tells mark.old mark.new) closed.old closed.new result }
{
    let Some(held) = closed.take(alloc) else {
        return Failure::Empty.number();
    };
    let cell = Cell { column, row };
    let told = closed_calls::mark(&held, cell);
    *closed = Holder::of(held);
    tell(told, mark)
}

/// The text of a cell: that of the last of its edits that count, into a buffer, and how many bytes it has.
#[unsafe(no_mangle)]
pub extern "C" fn ds_c_closed_text(
    alloc: Global,
    closed: &mut Holder,
    column: usize,
    row: usize,
    buffer: &mut [u8],
    length: &mut usize,
) -> u32
    ensures { OnHolder (OnClosed (Does (ClosedText (cell_of column row)) (LacksClosedText (cell_of column row)))) (Hands buffer.old buffer.new length.old length.new) closed.old closed.new result }
{
    let Some(held) = closed.take(alloc) else {
        return Failure::Empty.number();
    };
    let cell = Cell { column, row };
    let told = closed_calls::hand_text(alloc, &held, cell, buffer, length);
    *closed = Holder::of(held);
    told
}

/// A crash, before which the words were evicted whose item of the choice is not 0, and how many words there are.
#[unsafe(no_mangle)]
pub extern "C" fn ds_c_closed_crash(
    alloc: Global,
    closed: &mut Holder,
    choice: &[u8],
    words: &mut usize,
) -> u32
    ensures { OnHolder (OnClosed (CrashesClosed choice.now words.old words.new)) (TellsCrash words.old words.new) closed.old closed.new result }
{
    let Some(mut held) = closed.take(alloc) else {
        return Failure::Empty.number();
    };
    let told = closed_calls::crash_with(alloc, &mut held, choice, words);
    *closed = Holder::of(held);
    told
}

/// The sheet is opened again, with its words and with every process stopped, and a holder that holds nothing gets it; the
/// closed one's holder holds nothing then.
#[unsafe(no_mangle)]
pub extern "C" fn ds_c_closed_reopen(alloc: Global, closed: &mut Holder, sheet: &mut Holder) -> u32
    ensures { Moves Opens OpensNot closed.old closed.new sheet.old sheet.new result }
{
    if !sheet.is_empty() {
        return Failure::Full.number();
    }
    let Some(mut held) = closed.take(alloc) else {
        return Failure::Empty.number();
    };
    match sheet_calls::reopen(alloc, &mut held) {
        Ok(()) => {
            *sheet = Holder::of(held);
            0
        }
        Err(failure) => {
            *closed = Holder::of(held);
            failure.number()
        }
    }
}

/// Gives the memory of a closed sheet back. The holder holds nothing then.
#[unsafe(no_mangle)]
pub extern "C" fn ds_c_closed_free(alloc: Global, closed: &mut Holder) -> u32
    ensures { FreesHeld Closed closed.old closed.new result }
{
    let Some(held) = closed.take(alloc) else {
        return Failure::Empty.number();
    };
    if let Held::Closed(_) = &*held {
        return 0;
    }
    *closed = Holder::of(held);
    Failure::WrongHolder.number()
}
