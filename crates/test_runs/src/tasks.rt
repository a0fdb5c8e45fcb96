// Tasks that a work does not wait for.

use crate::calls::evaluated;
use crate::row::{Action, RunRow, expect_reply, play_on};
use crate::sheet::{A1, small};
use ds_core::event::Event;
use ds_core::reply::Reply;
use ds_eval::task::Evaluated;
use ds_state::answer::{Answer, EditEnd};
use ds_state::work::WorkEnd;
use ds_state::world::World;
use std::alloc::Global;
use std::test::Fail;

const EDIT: RunRow = RunRow::Event(Action::Edit(0, A1, "=1+2"), Reply::Begun(0));

const EDIT_DONE: RunRow = RunRow::End(0, Answer::Edit(EditEnd::Done(0)));

const WORK: RunRow = RunRow::Event(Action::Work(0, A1), Reply::Entered);

const WORK_DONE: RunRow = RunRow::End(0, Answer::Work(WorkEnd::Published(true)));

// Up to where it waits.
const WORK_STEPS: RunRow = RunRow::Steps(0, 10, Reply::Stepped);

// Two edits of the cell to one text, the first one worked off, so that the second work holds the cell in generation 3,
// and waits.
const TWO_EDITS: [RunRow; 8] = [
    EDIT,
    EDIT_DONE,
    WORK,
    WORK_DONE,
    RunRow::Event(Action::Edit(0, A1, "=1+2"), Reply::Begun(1)),
    RunRow::End(0, Answer::Edit(EditEnd::Done(1))),
    WORK,
    WORK_STEPS,
];

// One edit of that text, and a work that waits, and makes no step.
const ONE_EDIT: [RunRow; 5] = [
    EDIT,
    EDIT_DONE,
    WORK,
    WORK_STEPS,
    RunRow::Event(Action::Step(0), Reply::NotEnabled),
];

// The task of the work of process 0.
fn task_of(alloc: Global, world: &World) -> Result<Evaluated, Fail> {
    Ok(evaluated(alloc, world, 0)?.ok_or("no task")?)
}

// The task on a new sheet, after these rows.
fn task_after(alloc: Global, rows: &[RunRow]) -> Result<Evaluated, Fail> {
    let mut world = small(alloc)?;
    play_on(alloc, &mut world, rows)?;
    task_of(alloc, &world)
}

// The generation in which that work holds its cell.
fn generation_after(alloc: Global, rows: &[RunRow]) -> Result<u64, Fail> {
    Ok(task_after(alloc, rows)?.task().generation)
}

// No work of the sheet waits for the task.
fn expect_wrong(alloc: Global, world: &mut World, task: Evaluated) -> Result<(), Fail> {
    expect_reply(alloc, world, &Event::Offer(task), Reply::WrongTask)?;
    Ok(())
}

// The task of another sheet is wrong.
fn expect_other_wrong(alloc: Global, world: &mut World) -> Result<(), Fail> {
    let task = task_after(alloc, &TWO_EDITS)?;
    expect_wrong(alloc, world, task)
}

const END: [RunRow; 1] = [WORK_DONE];

// It is wrong where no work waits, and where one waits for another task.
fn expect_other_wrong_twice(alloc: Global, world: &mut World) -> Result<(), Fail> {
    expect_other_wrong(alloc, world)?;
    play_on(alloc, world, &ONE_EDIT)?;
    expect_other_wrong(alloc, world)?;
    play_on(alloc, world, &END)
}

#[test]
fn of_another_sheet(rt: HostRuntime) -> Result<(), Fail> {
    assert_eq!(rt; generation_after(rt.alloc(), &TWO_EDITS)?, 3);
    let mut world = small(rt.alloc())?;
    expect_other_wrong_twice(rt.alloc(), &mut world)
}

const OFFERED: [RunRow; 1] = [RunRow::Event(Action::Offer(0), Reply::Stepped)];

fn expect_again_wrong(alloc: Global, world: &mut World) -> Result<(), Fail> {
    play_on(alloc, world, &ONE_EDIT)?;
    let again = task_of(alloc, world)?;
    play_on(alloc, world, &OFFERED)?;
    expect_wrong(alloc, world, again)?;
    play_on(alloc, world, &END)
}

#[test]
fn offered_again(rt: HostRuntime) -> Result<(), Fail> {
    let mut world = small(rt.alloc())?;
    expect_again_wrong(rt.alloc(), &mut world)
}
