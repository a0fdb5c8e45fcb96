//! One event, and a list of events.

ghost use Rattle.std.specs.Prelude.{◌≡◌, ◌<◌, ◌+◌, ℕ, IfOk, OnErr};
ghost use Rattle.ds_core.specs.declared.event.Event.TheVariants.{BeginEdit, Step};
ghost use Rattle.ds_core.specs.declared.reply.Reply.TheVariants.{Stepped};
ghost use Rattle.ds_core.specs.Counts.{IsReplyTo, KeepsReports, done_of, settled_of};
ghost use Rattle.ds_core.specs.Own.{steps_left};
ghost use Rattle.ds_core.specs.ShowEvents.{BeginShowTakes};
ghost use Rattle.ds_core.specs.WorkEvents.{BeginWorkTakes, OfferTakes};
ghost use Rattle.ds_core.specs.RecoveryEvents.{BeginRecoverTakes};
ghost use Rattle.ds_core.specs.MigrationEvents.{BeginMigrateTakes};
ghost use Rattle.ds_core.specs.Takes.{BeginTakes, Takes, Fits, WorldRun};

use crate::event::Event;
use crate::reply::Reply;
use crate::step::{evict, step};
use crate::stop::{crash, stop};
use ds_edit::begin::begin;
use ds_eval::task::Evaluated;
use ds_formula::cells::Cell;
use ds_state::world::World;
use std::alloc::{AllocError, Global};

// An edit begins, or is refused.
#[inline(always)]
fn edit_takes(alloc: Global, world: &mut World, process: usize, cell: Cell, text: &[u8]) -> Reply
    ensures { BeginTakes world.old (record { process = process; cell = cell; text = text.now }) result world.new }
{
    let layout = world.words.layout();
    if process >= layout.processes || !layout.shape.contains(cell) {
        return Reply::NotEnabled;
    }
    match begin(alloc, world, process, cell, text) {
        Ok(number) => Reply::Begun(number),
        Err(refusal) => Reply::Refused(refusal),
    }
}

/// A process begins an edit of the cell to the text: what `take` does by that event, which would own the text. It is
/// answered by its number, from 0; by a refusal with its cause, out of memory among them; or as not enabled, where the
/// sheet has no such process or cell. After the last two the world is as before.
pub fn begin_edit(
    alloc: Global,
    world: &mut World,
    process: usize,
    cell: Cell,
    text: &[u8],
) -> Reply
    ensures { Fits world.old (BeginEdit (record { process = process; cell = cell; text = text.now })) result world.new }
{
    world.is_always_good();
    let reply = edit_takes(alloc, world, process, cell, text);
    world.is_always_good();
    reply
}

// Work begins, or is refused.
#[inline(always)]
fn begin_work(alloc: Global, world: &mut World, process: usize, cell: Cell) -> Reply
    ensures { BeginWorkTakes world.old process cell result world.new }
{
    let layout = world.words.layout();
    if process >= layout.processes || !layout.shape.contains(cell) {
        return Reply::NotEnabled;
    }
    match ds_work::begin::begin(alloc, world, process, cell) {
        Ok(()) => Reply::Entered,
        Err(refusal) => Reply::Refused(refusal),
    }
}

// An evaluated task is offered: the work that waits for just this task goes on.
fn offer(world: &mut World, evaluated: &Evaluated) -> Reply
    ensures { OfferTakes world.old evaluated.now result world.new }
{
    if ds_work::offer::accepts(world, evaluated) {
        Reply::Stepped
    } else {
        Reply::WrongTask
    }
}

// A recovery begins, or is refused.
fn begin_recover(world: &mut World, process: usize) -> Reply
    ensures { BeginRecoverTakes world.old process result world.new }
{
    if process >= world.words.layout().processes {
        return Reply::NotEnabled;
    }
    match ds_recover::begin::begin(world, process) {
        Ok(()) => Reply::Entered,
        Err(refusal) => Reply::Refused(refusal),
    }
}

// A migration begins, or is refused.
fn begin_migrate(world: &mut World, process: usize) -> Reply
    ensures { BeginMigrateTakes world.old process result world.new }
{
    if process >= world.words.layout().processes {
        return Reply::NotEnabled;
    }
    match ds_recover::migrate_begin::begin_migration(world, process) {
        Ok(()) => Reply::Entered,
        Err(refusal) => Reply::Refused(refusal),
    }
}

// A show begins, or is refused.
fn begin_show(alloc: Global, world: &mut World, process: usize) -> Reply
    ensures { BeginShowTakes world.old process result world.new }
{
    if process >= world.words.layout().processes {
        return Reply::NotEnabled;
    }
    match ds_show::begin::begin(alloc, world, process) {
        Ok(()) => Reply::Entered,
        Err(refusal) => Reply::Refused(refusal),
    }
}

#[inline(always)]
fn happen(alloc: Global, world: &mut World, event: &Event) -> Reply
    ensures { Takes world.old event.now result world.new }
{
    match event {
        Event::BeginEdit(request) => {
            edit_takes(alloc, world, request.process, request.cell, &request.text)
        }
        Event::Step(process) => step(alloc, world, *process),
        Event::Evict(place) => evict(world, *place),
        Event::Stop(process) => stop(world, *process),
        Event::Crash => crash(world),
        Event::BeginShow(process) => begin_show(alloc, world, *process),
        Event::BeginWork(process, cell) => begin_work(alloc, world, *process, *cell),
        Event::BeginRecover(process) => begin_recover(world, *process),
        Event::BeginMigrate(process) => begin_migrate(world, *process),
        Event::Offer(evaluated) => offer(world, evaluated),
    }
}

/// What happens to a world by one event, and its answer. The world is sound before and after.
///
/// Memory is taken by beginnings, and by the step of work that reads a content. Where a beginning is
/// refused it, the answer is the refusal `NoMemory` and the world is unchanged. The clauses beside `fits` name no other world: what is answered alone
/// says how much each count grows, and a step of a call that is not answered leaves fewer of them.
pub fn take(alloc: Global, world: &mut World, event: &Event) -> Reply
    ensures fits { Fits world.old event.now result world.new }
    ensures reply { IsReplyTo event.now result }
    ensures done { world.new.done ≡ world.old.done + done_of result }
    ensures settled { world.new.settled ≡ world.old.settled + settled_of result }
    ensures reports { KeepsReports world.old event.now result world.new }
    ensures fewer { (p : ℕ) → event.now ≡ Step p → result ≡ Stepped
        → steps_left p world.new < steps_left p world.old }
{
    world.is_always_good();
    let reply = happen(alloc, world, event);
    world.is_always_good();
    reply
}

/// Events one after the other, whether they can happen or not, and the answer to each. Room for the
/// answers is taken first: an error means that an allocation failed, and the world is unchanged.
pub fn run(alloc: Global, world: &mut World, events: &[Event]) -> Result<Vec<Reply>, AllocError>
    ensures run { IfOk result (λ replies. WorldRun world.old events.now replies.items world.new) }
    ensures unchanged { OnErr result (world.new ≡ world.old) }
{
    let mut replies = Vec::with_capacity(alloc, events.len())?;
    for event in events {
        let reply = take(alloc, world, event);
        replies.push_reserved(reply);
    }
    Ok(replies)
}
