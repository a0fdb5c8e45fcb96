//! What is reported after a crash.

ghost use Rattle.std.specs.Prelude.{◌≡◌, ◌++◌, ℕ, List, IfOk, OnOk};
ghost use Rattle.ds_state.specs.Value.{WorldValue};
ghost use Rattle.ds_core.specs.declared.event.Event.TheVariants.{Crash};
ghost use Rattle.ds_core.specs.declared.reply.Reply.TheVariants.{Crashed};
ghost use Rattle.ds_core.specs.Takes.{Fits};
ghost use Rattle.ds_script.specs.Orders.{CanDo, command_view};
ghost use Rattle.ds_script.specs.Running.{Obeys};
ghost use Rattle.ds_script_stops.specs.StopBlocks.{recoveries, deeds_behind, stop_text};
ghost use Rattle.ds_script_stops.specs.Reaching.{Tells, TellsBlock};

use ds_core::event::Event;
use ds_core::take::take;
use ds_script::carry::carry_out;
use ds_script::order::{Call, Command};
use ds_state::world::World;
use std::alloc::{AllocError, Global};

// Each process stops, and what is not persisted is lost.
fn crash(alloc: Global, world: &mut World)
    ensures { Fits world.old Crash Crashed world.new }
{
    let event = Event::Crash;
    let _crashed = take(alloc, world, &event);
}

// Carries a command out, and appends its answer to the text.
fn tell(
    alloc: Global,
    world: &mut World,
    command: Command<'_>,
    text: &mut Vec<u8>,
) -> Result<(), AllocError>
    requires { CanDo world.old.sheet.layout command }
    ensures { OnOk result ((answer : List ℕ) × Obeys world.old (command_view command.entry) answer world.new × (text.new.items ≡ text.old.items ++ answer)) }
{
    let answer = carry_out(alloc, world, command)?;
    text.extend_from_slice(&answer)
}

// Each process recovers, in their order.
fn recover(alloc: Global, world: &mut World, text: &mut Vec<u8>) -> Result<(), AllocError>
    ensures { OnOk result (Tells world.old (recoveries world.old.sheet.layout.processes) text.old.items text.new.items world.new) }
{
    let processes = world.words.layout().processes;
    for process in 0..processes {
        tell(alloc, world, Command::Whole(process, Call::Recovery), text)?;
    }
    Ok(())
}

// What is reported after the crash, after the text.
fn tell_behind(alloc: Global, world: &mut World, text: &mut Vec<u8>) -> Result<(), AllocError>
    ensures { OnOk result (Tells world.old (deeds_behind world.old.sheet.layout.processes) text.old.items text.new.items world.new) }
{
    recover(alloc, world, text)?;
    tell(alloc, world, Command::Settle(0), text)?;
    tell(alloc, world, Command::Whole(0, Call::Show), text)
}

// The line of a stop.
fn stop_line(alloc: Global, stop: u64) -> Result<Vec<u8>, AllocError>
    ensures { IfOk result (λ line. line.items ≡ stop_text stop) }
{
    Ok(format!(in alloc; "stop {stop}\n")?.into_bytes())
}

// The block of a stop in this world, which it crashes.
fn block(alloc: Global, world: &mut World, stop: u64) -> Result<Vec<u8>, AllocError>
    ensures { IfOk result (λ text. TellsBlock stop world.old text.items world.new) }
{
    let mut text = stop_line(alloc, stop)?;
    crash(alloc, world);
    tell_behind(alloc, world, &mut text)?;
    Ok(text)
}

/// The block of a stop in a world, which stays as it is: `stop K`, then, after a crash of a copy, a recovery of each
/// process, in their order, what a settle of process 0 leaves, and its report. An error means that an allocation
/// failed.
pub fn block_of(alloc: Global, world: &World, stop: u64) -> Result<Vec<u8>, AllocError>
    ensures { IfOk result (λ text. (new : WorldValue) × TellsBlock stop world.now text.items new) }
{
    let mut copy = world.copy(alloc)?;
    block(alloc, &mut copy, stop)
}
