//! What happens to a sheet, and what is counted then, as rows of a table.

use crate::calls::{edit, evaluated, finish};
use crate::mismatch::Mismatch;
use ds_core::event::Event;
use ds_core::reply::Reply;
use ds_core::take::take;
use ds_formula::cells::Cell;
use ds_layout::place::Place;
use ds_state::answer::Answer;
use ds_state::world::World;
use std::alloc::Global;
use std::test::Fail;

/// An event.
#[derive(Clone, Copy, Debug)]
pub enum Action {
    /// A process begins to give a cell this text.
    Edit(usize, Cell, &'static str),
    /// A process begins to work on a cell.
    Work(usize, Cell),
    /// A process begins a report.
    Show(usize),
    /// A process begins to recover.
    Recover(usize),
    /// A process begins to migrate the sheet to the second layout.
    Migrate(usize),
    /// A process makes its next step.
    Step(usize),
    /// The work of a process is offered the entry of its task.
    Offer(usize),
    /// A word is evicted.
    Evict(Place),
    /// A process stops.
    Stop(usize),
    /// All that is not persisted is lost.
    Crash,
}

/// What happens to a sheet, or what is counted.
#[derive(Clone, Copy, Debug)]
pub enum RunRow {
    /// An event, with this reply.
    Event(Action, Reply),
    /// Some steps of a process: the last one has this reply, and the others go on.
    Steps(usize, usize, Reply),
    /// The call under way of a process steps to its end, which is this.
    End(usize, Answer),
    /// How many edits are linearized.
    Counted(usize),
    /// How many edits were answered Done.
    Done(u64),
    /// How many reports were settled.
    Reports(u64),
}

impl Action {
    /// The event on this sheet.
    pub fn event(self, alloc: Global, world: &World) -> Result<Event, Mismatch> {
        Ok(match self {
            Action::Edit(process, cell, text) => edit(alloc, process, cell, text)?,
            Action::Work(process, cell) => Event::BeginWork(process, cell),
            Action::Show(process) => Event::BeginShow(process),
            Action::Recover(process) => Event::BeginRecover(process),
            Action::Migrate(process) => Event::BeginMigrate(process),
            Action::Step(process) => Event::Step(process),
            Action::Offer(process) => match evaluated(alloc, world, process)? {
                Some(entry) => Event::Offer(entry),
                None => return Err(Mismatch::NoTask),
            },
            Action::Evict(place) => Event::Evict(place),
            Action::Stop(process) => Event::Stop(process),
            Action::Crash => Event::Crash,
        })
    }
}

fn reply_is(reply: Reply, wanted: Reply) -> Result<(), Mismatch> {
    if reply == wanted {
        Ok(())
    } else {
        Err(Mismatch::Replied(reply))
    }
}

fn holds(is_so: bool, mismatch: Mismatch) -> Result<(), Mismatch> {
    if is_so { Ok(()) } else { Err(mismatch) }
}

/// One event happens, with this reply.
pub fn expect_reply(
    alloc: Global,
    world: &mut World,
    event: &Event,
    wanted: Reply,
) -> Result<(), Mismatch> {
    reply_is(take(alloc, world, event), wanted)
}

fn expect_steps(
    alloc: Global,
    world: &mut World,
    process: usize,
    count: usize,
    last: Reply,
) -> Result<(), Mismatch> {
    for left in (0..count).rev() {
        let wanted = if left == 0 { last } else { Reply::Stepped };
        expect_reply(alloc, world, &Event::Step(process), wanted)?;
    }
    Ok(())
}

/// The row is true of the sheet.
pub fn carry_out(alloc: Global, world: &mut World, row: RunRow) -> Result<(), Mismatch> {
    match row {
        RunRow::Event(action, wanted) => {
            let event = action.event(alloc, world)?;
            expect_reply(alloc, world, &event, wanted)
        }
        RunRow::Steps(process, count, last) => expect_steps(alloc, world, process, count, last),
        RunRow::End(process, wanted) => {
            let reply = finish(alloc, world, process)?;
            reply_is(reply, Reply::Answered(wanted))
        }
        RunRow::Counted(wanted) => {
            let count = world.counted.len();
            holds(count == wanted, Mismatch::Edits(count))
        }
        RunRow::Done(wanted) => holds(world.done == wanted, Mismatch::Answers(world.done)),
        RunRow::Reports(wanted) => holds(world.settled == wanted, Mismatch::Answers(world.settled)),
    }
}

/// The rows are true of the sheet, one after the other.
pub fn play_on(alloc: Global, world: &mut World, rows: &[RunRow]) -> Result<(), Fail> {
    for (number, row) in rows.iter().enumerate() {
        if let Err(mismatch) = carry_out(alloc, world, *row) {
            return Err(Fail::new(format_args!("row {number}, {row:?}: {mismatch:?}")));
        }
    }
    Ok(())
}
