//! Events and whole calls on a world, with the checks of what a caller asks for.

ghost use Rattle.std.specs.Prelude.{◌≡◌, IfOk, IfErr, Some};
ghost use Rattle.ds_formula.specs.Cells.{IsInside};
ghost use Rattle.ds_core.specs.declared.event.Event.TheVariants.{BeginEdit, BeginWork, BeginShow, BeginRecover, BeginMigrate, Step, Offer, Stop};
ghost use Rattle.ds_state.specs.declared.answer.Answer.TheVariants.{Edit, Work, Show, Recovery};
ghost use Rattle.ds_calls.specs.Whole.{HasProcess, request};
ghost use Rattle.ds_c.specs.Calls.{Does};
ghost use Rattle.ds_layout.specs.Places.{IsPlace};
ghost use Rattle.ds_c.specs.Rows.{place_named};
ghost use Rattle.ds_c.specs.Reading.{Never};
ghost use Rattle.ds_c.specs.Events.{evaluated, Replies, Ended, Migrates, Settles, Recalculates, Offers, Evicts, Crashes, LacksProcess, LacksRequest, LacksTask, LacksWord};

use crate::answer::AnswerRow;
use crate::failure::Failure;
use crate::rows::PlaceRow;
use ds_calls::{call, settle};
use ds_core::event::Event;
use ds_core::take::take;
use ds_eval::task::{Task, evaluate};
use ds_formula::cells::Cell;
use ds_layout::place::Place;
use ds_recalculation::recalculation;
use ds_state::world::World;
use ds_work::offer::{TaskFault, task_of};
use std::alloc::Global;

/// Whether the sheet has the process.
pub fn find_process(world: &World, process: usize) -> Result<(), Failure>
    ensures ok { IfOk result (λ _. HasProcess world.now process) }
    ensures err { IfErr result (λ why. LacksProcess process world.now why) }
{
    if process < world.words.layout().processes {
        Ok(())
    } else {
        Err(Failure::NoProcess)
    }
}

/// Whether the sheet has the process and the cell.
pub fn find(world: &World, process: usize, cell: Cell) -> Result<(), Failure>
    ensures process { IfOk result (λ _. HasProcess world.now process) }
    ensures cell { IfOk result (λ _. IsInside world.now.sheet.layout.shape cell) }
    ensures err { IfErr result (λ why. LacksRequest process cell world.now why) }
{
    let layout = world.words.layout();
    if process >= layout.processes {
        Err(Failure::NoProcess)
    } else if !layout.shape.contains(cell) {
        Err(Failure::NoCell)
    } else {
        Ok(())
    }
}

/// The place of the sheet that the row names.
pub fn find_place(world: &World, named: PlaceRow) -> Result<Place, Failure>
    ensures ok { IfOk result (λ place. (place_named named ≡ Some place) × IsPlace world.now.sheet.layout place) }
    ensures err { IfErr result (λ why. LacksWord named world.now why) }
{
    match named.place() {
        Some(place) => if world.words.layout().contains(place) {
            Ok(place)
        } else {
            Err(Failure::NoWord)
        },
        None => Err(Failure::NoWord),
    }
}

/// A process begins an edit, or is refused.
pub fn begin_edit(
    alloc: Global,
    world: &mut World,
    process: usize,
    cell: Cell,
    text: &[u8],
) -> Result<AnswerRow, Failure>
    ensures { Does (Replies (BeginEdit (request process cell text.now))) (LacksRequest process cell) world.old result world.new }
{
    find(world, process, cell)?;
    Ok(AnswerRow::of_reply(call::begin_edit(alloc, world, process, cell, text)))
}

/// A process begins to work on a cell, or is refused.
pub fn begin_work(
    alloc: Global,
    world: &mut World,
    process: usize,
    cell: Cell,
) -> Result<AnswerRow, Failure>
    ensures { Does (Replies (BeginWork process cell)) (LacksRequest process cell) world.old result world.new }
{
    find(world, process, cell)?;
    Ok(AnswerRow::of_reply(take(alloc, world, &Event::BeginWork(process, cell))))
}

/// A process begins a report, or is refused.
pub fn begin_show(alloc: Global, world: &mut World, process: usize) -> Result<AnswerRow, Failure>
    ensures { Does (Replies (BeginShow process)) (LacksProcess process) world.old result world.new }
{
    find_process(world, process)?;
    Ok(AnswerRow::of_reply(take(alloc, world, &Event::BeginShow(process))))
}

/// A process begins to recover, or is refused.
pub fn begin_recovery(
    alloc: Global,
    world: &mut World,
    process: usize,
) -> Result<AnswerRow, Failure>
    ensures { Does (Replies (BeginRecover process)) (LacksProcess process) world.old result world.new }
{
    find_process(world, process)?;
    Ok(AnswerRow::of_reply(take(alloc, world, &Event::BeginRecover(process))))
}

/// A process begins to migrate the sheet to the second layout, or is refused.
pub fn begin_migration(
    alloc: Global,
    world: &mut World,
    process: usize,
) -> Result<AnswerRow, Failure>
    ensures { Does (Replies (BeginMigrate process)) (LacksProcess process) world.old result world.new }
{
    find_process(world, process)?;
    Ok(AnswerRow::of_reply(take(alloc, world, &Event::BeginMigrate(process))))
}

/// A process makes the next step of its call.
pub fn step(alloc: Global, world: &mut World, process: usize) -> Result<AnswerRow, Failure>
    ensures { Does (Replies (Step process)) (LacksProcess process) world.old result world.new }
{
    find_process(world, process)?;
    Ok(AnswerRow::of_reply(take(alloc, world, &Event::Step(process))))
}

// The task is evaluated, and its entry is offered.
fn offer_task(alloc: Global, world: &mut World, task: Task) -> AnswerRow
    ensures { Replies (Offer (evaluated task)) world.old result world.new }
{
    AnswerRow::of_reply(take(alloc, world, &Event::Offer(evaluate(task))))
}

/// The task that the work of a process waits for is evaluated, and its entry is offered.
pub fn offer(alloc: Global, world: &mut World, process: usize) -> Result<AnswerRow, Failure>
    ensures { Does (Offers process) (LacksTask process) world.old result world.new }
{
    find_process(world, process)?;
    match task_of(alloc, world, process) {
        Ok(task) => Ok(offer_task(alloc, world, task)),
        Err(TaskFault::NoTask) => Err(Failure::NoTask),
        Err(TaskFault::NoMemory) => Err(Failure::NoMemory),
    }
}

/// A process stops: it loses its call and its buffer.
pub fn stop(alloc: Global, world: &mut World, process: usize) -> Result<AnswerRow, Failure>
    ensures { Does (Replies (Stop process)) (LacksProcess process) world.old result world.new }
{
    find_process(world, process)?;
    Ok(AnswerRow::of_reply(take(alloc, world, &Event::Stop(process))))
}

/// A word is evicted: its cached side is persisted.
pub fn evict(alloc: Global, world: &mut World, named: PlaceRow) -> Result<(), Failure>
    ensures { Does (Evicts named) (LacksWord named) world.old result world.new }
{
    let place = find_place(world, named)?;
    take(alloc, world, &Event::Evict(place));
    Ok(())
}

/// All that is not persisted is lost, and each process stops.
pub fn crash(alloc: Global, world: &mut World) -> Result<(), Failure>
    ensures { Does Crashes Never world.old result world.new }
{
    take(alloc, world, &Event::Crash);
    Ok(())
}

/// A whole edit.
pub fn edit(
    alloc: Global,
    world: &mut World,
    process: usize,
    cell: Cell,
    text: &[u8],
) -> Result<AnswerRow, Failure>
    ensures { Does (Ended Edit process (BeginEdit (request process cell text.now))) (LacksRequest process cell) world.old result world.new }
{
    find(world, process, cell)?;
    Ok(AnswerRow::of_result(call::whole_edit(alloc, world, process, cell, text)))
}

/// Whole work on a cell.
pub fn work(
    alloc: Global,
    world: &mut World,
    process: usize,
    cell: Cell,
) -> Result<AnswerRow, Failure>
    ensures { Does (Ended Work process (BeginWork process cell)) (LacksRequest process cell) world.old result world.new }
{
    find(world, process, cell)?;
    Ok(AnswerRow::of_result(call::whole_work(alloc, world, process, cell)))
}

/// A whole report. Where it is settled, the world keeps its values as the process's last ones.
pub fn report(alloc: Global, world: &mut World, process: usize) -> Result<AnswerRow, Failure>
    ensures { Does (Ended Show process (BeginShow process)) (LacksProcess process) world.old result world.new }
{
    find_process(world, process)?;
    Ok(AnswerRow::of_result(call::whole_show(alloc, world, process)))
}

/// A whole recovery.
pub fn recover(alloc: Global, world: &mut World, process: usize) -> Result<AnswerRow, Failure>
    ensures { Does (Ended Recovery process (BeginRecover process)) (LacksProcess process) world.old result world.new }
{
    find_process(world, process)?;
    Ok(AnswerRow::of_result(call::whole_recovery(alloc, world, process)))
}

/// A whole migration, which leaves its process stopped.
pub fn migrate(alloc: Global, world: &mut World, process: usize) -> Result<AnswerRow, Failure>
    ensures { Does (Migrates process) (LacksProcess process) world.old result world.new }
{
    find_process(world, process)?;
    Ok(AnswerRow::of_result(call::whole_migration(alloc, world, process)))
}

/// Works on all cells that are marked, in rounds.
pub fn settle(alloc: Global, world: &mut World, process: usize) -> Result<AnswerRow, Failure>
    ensures { Does (Settles process) (LacksProcess process) world.old result world.new }
{
    find_process(world, process)?;
    Ok(AnswerRow::of_settle(settle::settle(alloc, world, process)))
}

/// Works on each marked cell in the order of the references, and then settles. Without memory for the order it does nothing.
pub fn recalculate(alloc: Global, world: &mut World, process: usize) -> Result<AnswerRow, Failure>
    ensures { Does (Recalculates process) (LacksProcess process) world.old result world.new }
{
    find_process(world, process)?;
    let end = recalculation::recalculate(alloc, world, process);
    Ok(AnswerRow::of_settle(end))
}
