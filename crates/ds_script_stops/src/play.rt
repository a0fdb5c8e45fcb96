//! Plays commands up to a step.

ghost use Rattle.std.specs.Prelude.{ℕ, List, ◌≡◌, ◌<◌, ◌+◌, ◌-◌, ◌^◌, IfSome, IfOk};
ghost use Rattle.ds_recalculation.specs.Plans.{IsPlan};
ghost use Rattle.ds_script.specs.Orders.{CanDo, beginning, command_view};
ghost use Rattle.ds_script.specs.Doing.{Calls, in_order, settle};
ghost use Rattle.ds_script.specs.ScriptTurns.{IsWithin, Remains, doing_of, steps_of};
ghost use Rattle.ds_script_stops.specs.Reaching.{Opens, OpensOrder, IsPlayed, IsCarried, taken_before};

use ds_calls::settle::first_turn;
use ds_recalculation::recalculation::planned;
use ds_script::carry::{begins, carry_out};
use ds_script::drive::Until;
use ds_script::order::{Call, Command};
use ds_script::turn::{CommandTurn, Left, after_begin, in_order, left_of, take_turn, to_point};
use ds_state::world::World;
use std::alloc::{AllocError, Global};

/// How far a command was played, in a run that goes up to a step.
#[derive(Debug, Drop)]
pub enum Played {
    /// To its end: how many steps the run has taken then, fewer than up to that step.
    Ended(u64),
    /// Up to that step: what is left of the command after it; none where the step has ended the command.
    Halted(Option<Left>),
}

// A call begins, or is refused.
fn call(alloc: Global, world: &mut World, process: usize, call: Call<'_>) -> Option<Left>
    ensures opens { Opens (Calls process (beginning process call.entry)) world.old result world.new }
    ensures within { IfSome result (IsWithin world.new) }
{
    let reply = begins(alloc, world, process, call);
    after_begin(process, Until::ToAnswer, reply)
}

// A settle, with two rounds more than the sheet has cells.
fn settle(world: &World, process: usize) -> Option<Left>
    ensures remains { Remains result (settle world.now process) }
    ensures within { IfSome result (IsWithin world.now) }
{
    left_of(process, first_turn(world))
}

// A recalculation, in the order of the references. An error means that an allocation failed.
fn recalculate(alloc: Global, world: &World, process: usize) -> Result<Option<Left>, AllocError>
    ensures opens { IfOk result (λ left. (order : List ℕ) × IsPlan world.now order × Remains left (in_order world.now process order)) }
    ensures within { IfOk result (λ left. IfSome left (IsWithin world.now)) }
{
    let order = planned(alloc, world)?;
    Ok(in_order(world, process, order))
}

// Carries a command out up to its first step, and gives what is left of it then. An error means that an allocation
// failed.
fn open(alloc: Global, world: &mut World, command: Command<'_>) -> Result<Option<Left>, AllocError>
    requires { CanDo world.old.sheet.layout command }
    ensures opens { IfOk result (λ left. OpensOrder world.old (command_view command.entry) left world.new) }
    ensures within { IfOk result (λ left. IfSome left (IsWithin world.new)) }
{
    match command {
        Command::Whole(process, begun) => Ok(call(alloc, world, process, begun)),
        Command::Settle(process) => Ok(settle(world, process)),
        Command::Recalculate(process) => recalculate(alloc, world, process),
        Command::Step(process) => Ok(Some(Left::Drives(process, Until::OneStep))),
        Command::RunTo(process, name) => Ok(to_point(world, process, name)),
        Command::Run(process) => Ok(Some(Left::Drives(process, Until::ToAnswer))),
        command => {
            let _text = carry_out(alloc, world, command)?;
            Ok(None)
        }
    }
}

// How many steps a run has taken after an event, which was a step of it or not.
fn count(taken: u64, stepped: bool) -> u64
    requires { taken < 2 ^ 64 - 1 }
    ensures { result ≡ taken + steps_of stepped }
{
    if stepped { taken + 1 } else { taken }
}

/// Plays a command on, in a run that has taken n steps before it and goes up to the last one.
pub fn play(alloc: Global, world: &mut World, first: Left, before: u64, last: u64) -> Played
    requires within { IsWithin world.old first }
    requires below { before < last }
    ensures { IsPlayed (doing_of first) world.old before last result world.new }
{
    let mut taken = before;
    let mut left = first;
    'turns: loop {
        let CommandTurn {
            stepped,
            reply: _,
            left: after,
        } = take_turn(alloc, world, left);
        taken = count(taken, stepped);
        if taken == last {
            return Played::Halted(after);
        }
        match after {
            Some(next) => left = next,
            None => return Played::Ended(taken),
        }
    }
}

// How many steps a run has taken before the command, which had taken n: a new sheet begins a new run.
fn before(command: Command<'_>, taken: u64) -> u64
    ensures { result ≡ taken_before (command_view command.entry) taken }
{
    match command {
        Command::Sheet(_) | Command::Layout(_, _) => 0,
        _ => taken,
    }
}

/// Carries a command out in a run that has taken n steps and goes up to the last one. An error means that an allocation
/// failed.
pub fn carry_up_to(
    alloc: Global,
    world: &mut World,
    command: Command<'_>,
    taken: u64,
    last: u64,
) -> Result<Played, AllocError>
    requires can { CanDo world.old.sheet.layout command }
    requires below { taken < last }
    ensures { IfOk result (λ played. IsCarried world.old (command_view command.entry) taken last played world.new) }
{
    let taken = before(command, taken);
    match open(alloc, world, command)? {
        Some(left) => Ok(play(alloc, world, left, taken, last)),
        None => Ok(Played::Ended(taken)),
    }
}
