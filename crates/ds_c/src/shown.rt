//! Exports: what a world shows.

ghost use Rattle.ds_c.specs.Calls.{OnHandle, Does, Tells, Hands};
ghost use Rattle.ds_c.specs.Events.{cell_of, LacksCell, LacksProcess, LacksWord};
ghost use Rattle.ds_c.specs.Reading.{Reads, IsSizeOf, IsValueOf, IsMarkOf, IsTextOf, IsWordOf, AreValuesOf, Never, LacksText};

use crate::failure::Failure;
use crate::handle::Handle;
use crate::reads;
use crate::rows::{MarkRow, PlaceRow, SizeRow, ValueRow, WordRow};
use c_handles::tell::{Numbered, tell};
use ds_formula::cells::Cell;
use std::alloc::Global;

/// How large the sheet is.
#[unsafe(no_mangle)]
pub extern "C" fn ds_c_world_size(alloc: Global, handle: &mut Handle, size: &mut SizeRow) -> u32
    ensures { OnHandle (Does (Reads IsSizeOf) Never) (Tells size.old size.new) handle.old handle.new result }
{
    let Some(world) = handle.take(alloc) else {
        return Failure::Empty.number();
    };
    let told = reads::size(&world);
    *handle = Handle::of(world);
    tell(told, size)
}

/// The value of a cell, as processes see it.
#[unsafe(no_mangle)]
pub extern "C" fn ds_c_world_value(
    alloc: Global,
    handle: &mut Handle,
    column: usize,
    row: usize,
    value: &mut ValueRow,
) -> u32
    ensures { OnHandle (Does (Reads (IsValueOf (cell_of column row))) (LacksCell (cell_of column row))) (Tells value.old value.new) handle.old handle.new result }
{
    let Some(world) = handle.take(alloc) else {
        return Failure::Empty.number();
    };
    let cell = Cell { column, row };
    let told = reads::value(&world, cell);
    *handle = Handle::of(world);
    tell(told, value)
}

/// The mark of a cell, as processes see it.
#[unsafe(no_mangle)]
pub extern "C" fn ds_c_world_mark(
    alloc: Global,
    handle: &mut Handle,
    column: usize,
    row: usize,
    mark: &mut MarkRow,
) -> u32
    ensures { OnHandle (Does (Reads (IsMarkOf (cell_of column row))) (LacksCell (cell_of column row))) (Tells mark.old mark.new) handle.old handle.new result }
{
    let Some(world) = handle.take(alloc) else {
        return Failure::Empty.number();
    };
    let cell = Cell { column, row };
    let told = reads::mark(&world, cell);
    *handle = Handle::of(world);
    tell(told, mark)
}

/// Both sides of the word that a row names.
#[unsafe(no_mangle)]
pub extern "C" fn ds_c_world_word(
    alloc: Global,
    handle: &mut Handle,
    place: &PlaceRow,
    word: &mut WordRow,
) -> u32
    ensures { OnHandle (Does (Reads (IsWordOf place.now)) (LacksWord place.now)) (Tells word.old word.new) handle.old handle.new result }
{
    let Some(world) = handle.take(alloc) else {
        return Failure::Empty.number();
    };
    let told = reads::word(&world, *place);
    *handle = Handle::of(world);
    tell(told, word)
}

/// The text of a cell, as processes see it, into a buffer, and how many bytes it has.
#[unsafe(no_mangle)]
pub extern "C" fn ds_c_world_text(
    alloc: Global,
    handle: &mut Handle,
    column: usize,
    row: usize,
    buffer: &mut [u8],
    length: &mut usize,
) -> u32
    ensures { OnHandle (Does (Reads (IsTextOf (cell_of column row))) (LacksText (cell_of column row))) (Hands buffer.old buffer.new length.old length.new) handle.old handle.new result }
{
    let Some(world) = handle.take(alloc) else {
        return Failure::Empty.number();
    };
    let cell = Cell { column, row };
    let told = reads::hand_text(alloc, &world, cell, buffer, length);
    *handle = Handle::of(world);
    told
}

/// The values of the process's last settled report, row by row from the left, into a buffer, and how many there are.
#[unsafe(no_mangle)]
pub extern "C" fn ds_c_world_values(
    alloc: Global,
    handle: &mut Handle,
    process: usize,
    buffer: &mut [ValueRow],
    count: &mut usize,
) -> u32
    ensures { OnHandle (Does (Reads (AreValuesOf process)) (LacksProcess process)) (Hands buffer.old buffer.new count.old count.new) handle.old handle.new result }
{
    let Some(world) = handle.take(alloc) else {
        return Failure::Empty.number();
    };
    let told = reads::hand_values(&world, process, buffer, count);
    *handle = Handle::of(world);
    told
}
