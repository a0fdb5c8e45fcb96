//! Exports: whole calls.

ghost use Rattle.ds_core.specs.declared.event.Event.TheVariants.{BeginEdit, BeginWork, BeginShow, BeginRecover};
ghost use Rattle.ds_state.specs.declared.answer.Answer.TheVariants.{Edit, Work, Show, Recovery};
ghost use Rattle.ds_calls.specs.Whole.{request};
ghost use Rattle.ds_c.specs.Calls.{OnHandle, Does, Tells};
ghost use Rattle.ds_c.specs.Events.{cell_of, Ended, Migrates, Settles, Recalculates, LacksProcess, LacksRequest};

use crate::answer::AnswerRow;
use crate::calls;
use crate::failure::Failure;
use crate::handle::Handle;
use c_handles::tell::{Numbered, tell};
use ds_formula::cells::Cell;
use std::alloc::Global;

/// A whole edit of a cell to a text by a process. The text is copied.
#[unsafe(no_mangle)]
pub extern "C" fn ds_c_world_edit(
    alloc: Global,
    handle: &mut Handle,
    process: usize,
    column: usize,
    row: usize,
    text: &[u8],
    answer: &mut AnswerRow,
) -> u32
    ensures { OnHandle (Does (Ended Edit process (BeginEdit (request process (cell_of column row) text.now))) (LacksRequest process (cell_of column row))) (Tells answer.old answer.new) handle.old handle.new result }
{
    let Some(mut world) = handle.take(alloc) else {
        return Failure::Empty.number();
    };
    let cell = Cell { column, row };
    let told = calls::edit(alloc, &mut world, process, cell, text);
    *handle = Handle::of(world);
    tell(told, answer)
}

/// Whole work on a cell by a process, with its evaluation.
#[unsafe(no_mangle)]
pub extern "C" fn ds_c_world_work(
    alloc: Global,
    handle: &mut Handle,
    process: usize,
    column: usize,
    row: usize,
    answer: &mut AnswerRow,
) -> u32
    ensures { OnHandle (Does (Ended Work process (BeginWork process (cell_of column row))) (LacksRequest process (cell_of column row))) (Tells answer.old answer.new) handle.old handle.new result }
{
    let Some(mut world) = handle.take(alloc) else {
        return Failure::Empty.number();
    };
    let cell = Cell { column, row };
    let told = calls::work(alloc, &mut world, process, cell);
    *handle = Handle::of(world);
    tell(told, answer)
}

/// A whole report by a process. Where it is settled, `ds_c_world_values` has its values.
#[unsafe(no_mangle)]
pub extern "C" fn ds_c_world_report(
    alloc: Global,
    handle: &mut Handle,
    process: usize,
    answer: &mut AnswerRow,
) -> u32
    ensures { OnHandle (Does (Ended Show process (BeginShow process)) (LacksProcess process)) (Tells answer.old answer.new) handle.old handle.new result }
{
    let Some(mut world) = handle.take(alloc) else {
        return Failure::Empty.number();
    };
    let told = calls::report(alloc, &mut world, process);
    *handle = Handle::of(world);
    tell(told, answer)
}

/// A whole recovery of a process, stopped or idle.
#[unsafe(no_mangle)]
pub extern "C" fn ds_c_world_recover(
    alloc: Global,
    handle: &mut Handle,
    process: usize,
    answer: &mut AnswerRow,
) -> u32
    ensures { OnHandle (Does (Ended Recovery process (BeginRecover process)) (LacksProcess process)) (Tells answer.old answer.new) handle.old handle.new result }
{
    let Some(mut world) = handle.take(alloc) else {
        return Failure::Empty.number();
    };
    let told = calls::recover(alloc, &mut world, process);
    *handle = Handle::of(world);
    tell(told, answer)
}

/// A whole migration of the sheet to the second layout by a process, which it leaves stopped. Every process has to be
/// stopped.
#[unsafe(no_mangle)]
pub extern "C" fn ds_c_world_migrate(
    alloc: Global,
    handle: &mut Handle,
    process: usize,
    answer: &mut AnswerRow,
) -> u32
    ensures { OnHandle (Does (Migrates process) (LacksProcess process)) (Tells answer.old answer.new) handle.old handle.new result }
{
    let Some(mut world) = handle.take(alloc) else {
        return Failure::Empty.number();
    };
    let told = calls::migrate(alloc, &mut world, process);
    *handle = Handle::of(world);
    tell(told, answer)
}

/// Works on all cells that are marked, in rounds, by whole works of a process.
#[unsafe(no_mangle)]
pub extern "C" fn ds_c_world_settle(
    alloc: Global,
    handle: &mut Handle,
    process: usize,
    answer: &mut AnswerRow,
) -> u32
    ensures { OnHandle (Does (Settles process) (LacksProcess process)) (Tells answer.old answer.new) handle.old handle.new result }
{
    let Some(mut world) = handle.take(alloc) else {
        return Failure::Empty.number();
    };
    let told = calls::settle(alloc, &mut world, process);
    *handle = Handle::of(world);
    tell(told, answer)
}

/// Works on each marked cell in the order of the references, and then settles, by whole works of a process; it does nothing
/// without memory for the order.
#[unsafe(no_mangle)]
pub extern "C" fn ds_c_world_recalculate(
    alloc: Global,
    handle: &mut Handle,
    process: usize,
    answer: &mut AnswerRow,
) -> u32
    ensures { OnHandle (Does (Recalculates process) (LacksProcess process)) (Tells answer.old answer.new) handle.old handle.new result }
{
    let Some(mut world) = handle.take(alloc) else {
        return Failure::Empty.number();
    };
    let told = calls::recalculate(alloc, &mut world, process);
    *handle = Handle::of(world);
    tell(told, answer)
}
