// Events that name a cell, a process or a word that the sheet has not: none is enabled.

use crate::row::{Action, RunRow, play_on};
use crate::sheet::{A1, small};
use ds_core::reply::Reply;
use ds_formula::cells::Cell;
use ds_layout::place::{Edition, Place};
use ds_state::answer::{Answer, EditEnd};
use ds_state::world::World;
use std::alloc::Global;
use std::test::Fail;

const BESIDE: Cell = Cell { column: 2, row: 0 };

const BELOW: Cell = Cell { column: 0, row: 2 };

// Process 1 is idle, and there is no third one.
const ABSENT: [RunRow; 17] = [
    RunRow::Event(Action::Edit(1, BESIDE, "1"), Reply::NotEnabled),
    RunRow::Event(Action::Edit(1, BELOW, "=1.5"), Reply::NotEnabled),
    RunRow::Event(Action::Edit(2, A1, "1"), Reply::NotEnabled),
    RunRow::Event(Action::Work(0, BESIDE), Reply::NotEnabled),
    RunRow::Event(Action::Work(2, A1), Reply::NotEnabled),
    RunRow::Event(Action::Show(2), Reply::NotEnabled),
    RunRow::Event(Action::Recover(2), Reply::NotEnabled),
    RunRow::Event(Action::Migrate(2), Reply::NotEnabled),
    RunRow::Event(Action::Step(1), Reply::NotEnabled),
    RunRow::Event(Action::Step(7), Reply::NotEnabled),
    RunRow::Event(Action::Stop(2), Reply::NotEnabled),
    RunRow::Event(Action::Stop(7), Reply::NotEnabled),
    RunRow::Event(Action::Evict(Place::Head(4)), Reply::NotEnabled),
    RunRow::Event(
        Action::Evict(Place::Index { row: 0, part: 1 }),
        Reply::NotEnabled,
    ),
    RunRow::Event(Action::Evict(Place::Announce(2)), Reply::NotEnabled),
    RunRow::Event(
        Action::Evict(Place::Text {
            edition: Edition::First,
            process: 0,
            number: 0,
            part: 15,
        }),
        Reply::NotEnabled,
    ),
    RunRow::Event(
        Action::Evict(Place::Text {
            edition: Edition::Second,
            process: 0,
            number: 0,
            part: 30,
        }),
        Reply::NotEnabled,
    ),
];

const BEGUN: [RunRow; 1] = [RunRow::Event(Action::Edit(0, A1, "1"), Reply::Begun(0))];

const STEP: [RunRow; 1] = [RunRow::Steps(0, 1, Reply::Stepped)];

const LAST_STEP: [RunRow; 1] = [RunRow::Steps(
    0,
    1,
    Reply::Answered(Answer::Edit(EditEnd::Done(0))),
)];

// Before an edit of process 0, before each of its steps, and after it.
fn at_each_step(alloc: Global, world: &mut World) -> Result<(), Fail> {
    play_on(alloc, world, &ABSENT)?;
    play_on(alloc, world, &BEGUN)?;
    for _ in 0..19usize {
        play_on(alloc, world, &ABSENT)?;
        play_on(alloc, world, &STEP)?;
    }
    play_on(alloc, world, &ABSENT)?;
    play_on(alloc, world, &LAST_STEP)?;
    play_on(alloc, world, &ABSENT)
}

#[test]
fn absent(rt: HostRuntime) -> Result<(), Fail> {
    let mut world = small(rt.alloc())?;
    at_each_step(rt.alloc(), &mut world)
}

// Where all processes are stopped, too.
const STOPPED: [RunRow; 4] = [
    RunRow::Event(Action::Crash, Reply::Crashed),
    RunRow::Event(Action::Migrate(2), Reply::NotEnabled),
    RunRow::Event(Action::Recover(2), Reply::NotEnabled),
    RunRow::Event(Action::Stop(2), Reply::NotEnabled),
];

#[test]
fn absent_where_all_are_stopped(rt: HostRuntime) -> Result<(), Fail> {
    let mut world = small(rt.alloc())?;
    play_on(rt.alloc(), &mut world, &STOPPED)
}
