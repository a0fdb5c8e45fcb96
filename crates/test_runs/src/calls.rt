//! Calls from their begin to their end.

use crate::mismatch::Mismatch;
use ds_core::event::{EditRequest, Event};
use ds_core::reply::Reply;
use ds_core::take::take;
use ds_eval::task::{Evaluated, evaluate};
use ds_formula::cells::Cell;
use ds_state::world::World;
use ds_work::offer::{TaskFault, task_of};
use std::alloc::{AllocError, Global};

/// An edit is asked for.
pub fn edit(alloc: Global, process: usize, cell: Cell, text: &str) -> Result<Event, AllocError> {
    let text = Vec::from_slice(alloc, text.as_bytes())?;
    Ok(Event::BeginEdit(EditRequest {
        process,
        cell,
        text,
    }))
}

/// The task of a work that waits, evaluated: none where the process waits for none.
pub fn evaluated(
    alloc: Global,
    world: &World,
    process: usize,
) -> Result<Option<Evaluated>, Mismatch> {
    match task_of(alloc, world, process) {
        Ok(task) => Ok(Some(evaluate(task))),
        Err(TaskFault::NoTask) => Ok(None),
        Err(TaskFault::NoMemory) => Err(Mismatch::NoMemory),
    }
}

// A work that waits is offered the entry of its task.
fn offer(alloc: Global, world: &mut World, process: usize) -> Result<(), Mismatch> {
    let Some(entry) = evaluated(alloc, world, process)? else {
        return Ok(());
    };
    match take(alloc, world, &Event::Offer(entry)) {
        Reply::Stepped => Ok(()),
        other => Err(Mismatch::Replied(other)),
    }
}

// A process makes its next step, with an offer before it where its work waits for one.
fn advance(alloc: Global, world: &mut World, process: usize) -> Result<Reply, Mismatch> {
    offer(alloc, world, process)?;
    Ok(take(alloc, world, &Event::Step(process)))
}

// More steps than a call of a small sheet has that is no migration.
const STEPS: usize = 500;

/// A process steps until its call ends; where its work waits, the entry of its task is offered. How the call ended:
/// `NotEnabled` where there was none.
pub fn finish(alloc: Global, world: &mut World, process: usize) -> Result<Reply, Mismatch> {
    for _ in 0..STEPS {
        match advance(alloc, world, process)? {
            Reply::Stepped => {}
            ended => return Ok(ended),
        }
    }
    Err(Mismatch::NoEnd)
}
