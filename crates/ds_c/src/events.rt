//! Exports: events.

ghost use Rattle.std.specs.Prelude.{◌≡◌};
ghost use Rattle.ds_core.specs.declared.event.Event.TheVariants.{BeginEdit, BeginWork, BeginShow, BeginRecover, BeginMigrate, Step, Stop};
ghost use Rattle.ds_calls.specs.Whole.{request};
ghost use Rattle.ds_c.specs.Calls.{OnHandle, Does, Tells, Numbers};
ghost use Rattle.ds_c.specs.Events.{cell_of, Replies, Offers, Evicts, Crashes, LacksProcess, LacksRequest, LacksTask, LacksWord};
ghost use Rattle.ds_c.specs.Reading.{Never};

use crate::answer::AnswerRow;
use crate::calls;
use crate::failure::Failure;
use crate::handle::Handle;
use crate::rows::PlaceRow;
use c_handles::tell::{Numbered, status, tell};
use ds_formula::cells::Cell;
use std::alloc::Global;

/// A process begins an edit of a cell to a text, or is refused. The text is copied.
#[unsafe(no_mangle)]
pub extern "C" fn ds_c_world_begin_edit(
    alloc: Global,
    handle: &mut Handle,
    process: usize,
    column: usize,
    row: usize,
    text: &[u8],
    answer: &mut AnswerRow,
) -> u32
    ensures { OnHandle (Does (Replies (BeginEdit (request process (cell_of column row) text.now))) (LacksRequest process (cell_of column row))) (Tells answer.old answer.new) handle.old handle.new result }
{
    let Some(mut world) = handle.take(alloc) else {
        return Failure::Empty.number();
    };
    let cell = Cell { column, row };
    let told = calls::begin_edit(alloc, &mut world, process, cell, text);
    *handle = Handle::of(world);
    tell(told, answer)
}

/// A process begins to work on a cell, or is refused.
#[unsafe(no_mangle)]
pub extern "C" fn ds_c_world_begin_work(
    alloc: Global,
    handle: &mut Handle,
    process: usize,
    column: usize,
    row: usize,
    answer: &mut AnswerRow,
) -> u32
    ensures { OnHandle (Does (Replies (BeginWork process (cell_of column row))) (LacksRequest process (cell_of column row))) (Tells answer.old answer.new) handle.old handle.new result }
{
    let Some(mut world) = handle.take(alloc) else {
        return Failure::Empty.number();
    };
    let cell = Cell { column, row };
    let told = calls::begin_work(alloc, &mut world, process, cell);
    *handle = Handle::of(world);
    tell(told, answer)
}

/// A process begins a report, or is refused.
#[unsafe(no_mangle)]
pub extern "C" fn ds_c_world_begin_report(
    alloc: Global,
    handle: &mut Handle,
    process: usize,
    answer: &mut AnswerRow,
) -> u32
    ensures { OnHandle (Does (Replies (BeginShow process)) (LacksProcess process)) (Tells answer.old answer.new) handle.old handle.new result }
{
    let Some(mut world) = handle.take(alloc) else {
        return Failure::Empty.number();
    };
    let told = calls::begin_show(alloc, &mut world, process);
    *handle = Handle::of(world);
    tell(told, answer)
}

/// A process begins to recover, or is refused.
#[unsafe(no_mangle)]
pub extern "C" fn ds_c_world_begin_recovery(
    alloc: Global,
    handle: &mut Handle,
    process: usize,
    answer: &mut AnswerRow,
) -> u32
    ensures { OnHandle (Does (Replies (BeginRecover process)) (LacksProcess process)) (Tells answer.old answer.new) handle.old handle.new result }
{
    let Some(mut world) = handle.take(alloc) else {
        return Failure::Empty.number();
    };
    let told = calls::begin_recovery(alloc, &mut world, process);
    *handle = Handle::of(world);
    tell(told, answer)
}

/// A process begins to migrate the sheet to the second layout, or is refused.
#[unsafe(no_mangle)]
pub extern "C" fn ds_c_world_begin_migration(
    alloc: Global,
    handle: &mut Handle,
    process: usize,
    answer: &mut AnswerRow,
) -> u32
    ensures { OnHandle (Does (Replies (BeginMigrate process)) (LacksProcess process)) (Tells answer.old answer.new) handle.old handle.new result }
{
    let Some(mut world) = handle.take(alloc) else {
        return Failure::Empty.number();
    };
    let told = calls::begin_migration(alloc, &mut world, process);
    *handle = Handle::of(world);
    tell(told, answer)
}

/// A process makes the next step of its call.
#[unsafe(no_mangle)]
pub extern "C" fn ds_c_world_step(
    alloc: Global,
    handle: &mut Handle,
    process: usize,
    answer: &mut AnswerRow,
) -> u32
    ensures { OnHandle (Does (Replies (Step process)) (LacksProcess process)) (Tells answer.old answer.new) handle.old handle.new result }
{
    let Some(mut world) = handle.take(alloc) else {
        return Failure::Empty.number();
    };
    let told = calls::step(alloc, &mut world, process);
    *handle = Handle::of(world);
    tell(told, answer)
}

/// A process stops: it loses its call and its buffer.
#[unsafe(no_mangle)]
pub extern "C" fn ds_c_world_stop(
    alloc: Global,
    handle: &mut Handle,
    process: usize,
    answer: &mut AnswerRow,
) -> u32
    ensures { OnHandle (Does (Replies (Stop process)) (LacksProcess process)) (Tells answer.old answer.new) handle.old handle.new result }
{
    let Some(mut world) = handle.take(alloc) else {
        return Failure::Empty.number();
    };
    let told = calls::stop(alloc, &mut world, process);
    *handle = Handle::of(world);
    tell(told, answer)
}

/// The task that the work of a process waits for is evaluated, and its entry is offered to it.
#[unsafe(no_mangle)]
pub extern "C" fn ds_c_world_offer(
    alloc: Global,
    handle: &mut Handle,
    process: usize,
    answer: &mut AnswerRow,
) -> u32
    ensures { OnHandle (Does (Offers process) (LacksTask process)) (Tells answer.old answer.new) handle.old handle.new result }
{
    let Some(mut world) = handle.take(alloc) else {
        return Failure::Empty.number();
    };
    let told = calls::offer(alloc, &mut world, process);
    *handle = Handle::of(world);
    tell(told, answer)
}

/// A word is evicted: its cached side is persisted.
#[unsafe(no_mangle)]
pub extern "C" fn ds_c_world_evict(alloc: Global, handle: &mut Handle, place: &PlaceRow) -> u32
    ensures { OnHandle (Does (Evicts place.now) (LacksWord place.now)) Numbers handle.old handle.new result }
{
    let Some(mut world) = handle.take(alloc) else {
        return Failure::Empty.number();
    };
    let told = calls::evict(alloc, &mut world, *place);
    *handle = Handle::of(world);
    status(told)
}

/// All that is not persisted is lost, and each process stops.
#[unsafe(no_mangle)]
pub extern "C" fn ds_c_world_crash(alloc: Global, handle: &mut Handle) -> u32
    ensures { OnHandle (Does Crashes Never) Numbers handle.old handle.new result }
{
    let Some(mut world) = handle.take(alloc) else {
        return Failure::Empty.number();
    };
    let told = calls::crash(alloc, &mut world);
    *handle = Handle::of(world);
    status(told)
}
