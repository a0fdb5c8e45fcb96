//! Carries commands out.

ghost use Rattle.std.specs.Prelude.{◌≡◌, ◌≤◌, IfOk};
ghost use Rattle.ds_state.specs.Value.{world_of};
ghost use Rattle.ds_core.specs.Takes.{Fits};
ghost use Rattle.ds_core.specs.declared.event.Event.TheVariants.{BeginEdit};
ghost use Rattle.ds_script.specs.Orders.{CanDo, command_view, beginning};
ghost use Rattle.ds_script.specs.Doing.{Once, Calls, Drives, to_point};
ghost use Rattle.ds_script.specs.Plays.{Played, IsNoRound};
ghost use Rattle.ds_script.specs.Script.{IsMade};
ghost use Rattle.ds_script.specs.Running.{Obeys};

use crate::drive::{Until, drive, has_come};
use crate::order::{Call, Command};
use crate::point::PointName;
use crate::recalculate::recalculate;
use crate::settle::settle;
use crate::texts::{at_line, halt_bytes, peek_line, reply_bytes, word_line};
use ds_calls::finish::finish;
use ds_core::event::Event;
use ds_core::reply::Reply;
use ds_core::take::{begin_edit, take};
use ds_formula::cells::Cell;
use ds_layout::layout::Layout;
use ds_layout::place::Edition;
use ds_state::answer::Answer;
use ds_state::world::World;
use std::alloc::{AllocError, Global};

/// A new world: a sheet of this shape and that number of processes, in one of the two layouts of its words. An error
/// means that an allocation failed.
pub fn new_world(alloc: Global, layout: Layout, edition: Edition) -> Result<World, AllocError>
    ensures { IfOk result (λ w. IsMade layout.shape.columns layout.shape.rows layout.processes edition w) }
{
    let world = match edition {
        Edition::First => World::first(alloc, layout.shape, layout.processes)?,
        Edition::Second => World::new(alloc, layout.shape, layout.processes)?,
    };
    world.is_always_good();
    Ok(world)
}

fn happen(alloc: Global, world: &mut World, event: &Event) -> Reply
    ensures { Fits world.old event.now result world.new }
{
    take(alloc, world, event)
}

/// A call begins, or is refused: the reply to the event that begins it. An edit's text is not copied.
pub fn begins(alloc: Global, world: &mut World, process: usize, call: Call<'_>) -> Reply
    ensures { Fits world.old (beginning process call.entry) result world.new }
{
    match call {
        Call::Edit(cell, text) => begin_edit(alloc, world, process, cell, text),
        Call::Work(cell) => happen(alloc, world, &Event::BeginWork(process, cell)),
        Call::Show => happen(alloc, world, &Event::BeginShow(process)),
        Call::Recovery => happen(alloc, world, &Event::BeginRecover(process)),
        Call::Migration => happen(alloc, world, &Event::BeginMigrate(process)),
    }
}

// One event, and its reply to the process.
fn once(
    alloc: Global,
    world: &mut World,
    process: usize,
    event: &Event,
) -> Result<Vec<u8>, AllocError>
    ensures { IfOk result (λ answer. Played (Once process event.now) world.old answer.items world.new) }
{
    let reply = happen(alloc, world, event);
    reply_bytes(alloc, world, process, reply)
}

// The beginning of a call.
fn begin(
    alloc: Global,
    world: &mut World,
    process: usize,
    call: Call<'_>,
) -> Result<Vec<u8>, AllocError>
    ensures { IfOk result (λ answer. Played (Once process (beginning process call.entry)) world.old answer.items world.new) }
{
    let reply = begins(alloc, world, process, call);
    reply_bytes(alloc, world, process, reply)
}

// `step`, `run`.
fn run(
    alloc: Global,
    world: &mut World,
    process: usize,
    until: Until,
) -> Result<Vec<u8>, AllocError>
    requires { IsNoRound until }
    ensures { IfOk result (λ answer. Played (Drives process until) world.old answer.items world.new) }
{
    let halt = drive(alloc, world, process, until);
    halt_bytes(alloc, world, process, halt)
}

// A whole call, as sessions make it.
fn whole(
    alloc: Global,
    world: &mut World,
    process: usize,
    call: Call<'_>,
) -> Result<Vec<u8>, AllocError>
    ensures { IfOk result (λ answer. Played (Calls process (beginning process call.entry)) world.old answer.items world.new) }
{
    match begins(alloc, world, process, call) {
        Reply::Begun(_) | Reply::Entered => {
            let answer: Answer = finish(alloc, world, process);
            reply_bytes(alloc, world, process, Reply::Answered(answer))
        }
        reply => reply_bytes(alloc, world, process, reply),
    }
}

// `run P to POINT`.
#[tactic(auto, using(crate::proofs::Played::says_so))]
fn run_to(
    alloc: Global,
    world: &mut World,
    process: usize,
    name: PointName,
) -> Result<Vec<u8>, AllocError>
    ensures { IfOk result (λ answer. Played (to_point process name ((world_of world.old).situation process)) world.old answer.items world.new) }
{
    if has_come(world, process, name) {
        return Ok(at_line(alloc, process, name)?.into_bytes());
    }
    run(alloc, world, process, Until::ToPoint(name))
}

/// Carries a command out, and gives its answer. An error means that an allocation failed.
#[tactic(auto, using(crate::proofs::Played::says_so))]
pub fn carry_out(
    alloc: Global,
    world: &mut World,
    command: Command<'_>,
) -> Result<Vec<u8>, AllocError>
    requires { CanDo world.old.sheet.layout command }
    ensures { IfOk result (λ answer. Obeys world.old (command_view command.entry) answer.items world.new) }
{
    match command {
        Command::Sheet(layout) => {
            *world = new_world(alloc, layout, Edition::Second)?;
            Ok(Vec::new(alloc))
        }
        Command::Layout(layout, edition) => {
            *world = new_world(alloc, layout, edition)?;
            Ok(Vec::new(alloc))
        }
        Command::Whole(process, call) => whole(alloc, world, process, call),
        Command::Begin(process, call) => begin(alloc, world, process, call),
        Command::Settle(process) => settle(alloc, world, process),
        Command::Recalculate(process) => recalculate(alloc, world, process),
        Command::Step(process) => run(alloc, world, process, Until::OneStep),
        Command::RunTo(process, name) => run_to(alloc, world, process, name),
        Command::Run(process) => run(alloc, world, process, Until::ToAnswer),
        Command::Stop(process) => once(alloc, world, process, &Event::Stop(process)),
        Command::Crash => once(alloc, world, 0, &Event::Crash),
        Command::Evict(place) => once(alloc, world, 0, &Event::Evict(place)),
        Command::Peek(cell) => peek_line(alloc, world, cell),
        Command::Word(place) => Ok(word_line(alloc, world, place)?.into_bytes()),
    }
}
