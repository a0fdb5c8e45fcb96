//! Drives a process, step by step.

ghost use Rattle.std.specs.Prelude.{ℕ, ◌≡◌, IfSome, IfNone, option_map};
ghost use Rattle.ds_state.specs.Value.{WorldValue, world_of};
ghost use Rattle.ds_state.specs.Points.{point_of};
ghost use Rattle.ds_core.specs.declared.event.Event.{Event};
ghost use Rattle.ds_core.specs.declared.reply.Reply.TheVariants.{Stepped};
ghost use Rattle.ds_script.specs.Points.{has_passed, name_of};
ghost use Rattle.ds_script.specs.Doing.{Drives, driven};
ghost use Rattle.ds_script.specs.Plays.{Leads, at_end, halted};
ghost use Rattle.ds_script.specs.ScriptTurns.{IsWithin, Remains};

use crate::point::{PointName, is_past};
use crate::turn::{CommandTurn, Left, take_turn};
use ds_core::reply::Reply;
use ds_state::point::Point;
use ds_state::world::World;
use std::alloc::Global;

/// How far a process is driven.
#[derive(Clone, Copy, Debug, PartialEq, Eq)]
pub enum Until {
    /// One step.
    OneStep,
    /// Up to this point of its call, or a later one.
    ToPoint(PointName),
    /// To its answer.
    ToAnswer,
    /// To the answer of its work on a cell, in a round of a settle.
    InRound {
        /// How many rounds are left after this one.
        rounds: usize,
        /// The cell, by its number.
        cell: usize,
    },
}

/// Why a process is driven no further.
#[derive(Clone, Copy, Debug, PartialEq, Eq)]
pub enum Halt {
    /// The process's call has reached the point.
    At(PointName),
    /// The process's last step had this reply.
    Replied(Reply),
}

/// Whether a process's call has passed the point, or a later one.
pub fn has_come(world: &World, process: usize, name: PointName) -> bool
    ensures { result ≡ has_passed ((world_of world.now).situation process) name }
{
    if process < world.situations.len() {
        is_past(&world.situations[process], name)
    } else {
        false
    }
}

/// The last point that the call of a process has passed, by its name: none where it has passed none, is in no call, or is
/// no process of the sheet.
pub fn last_point(world: &World, process: usize) -> Option<PointName>
    ensures { result ≡ option_map name_of (point_of ((world_of world.now).situation process)) }
{
    if process < world.situations.len() {
        Point::of(&world.situations[process]).map(PointName::of)
    } else {
        None
    }
}

// Why a process is driven no further that has made its last step, or its last turn towards a point.
fn at_end(until: Until) -> Halt
    ensures { result ≡ at_end until }
{
    match until {
        Until::ToPoint(name) => Halt::At(name),
        Until::OneStep | Until::ToAnswer | Until::InRound { rounds: _, cell: _ } => {
            Halt::Replied(Reply::Stepped)
        }
    }
}

// Why a process is driven no further after this turn of its, where it isn't.
fn halt_of(until: Until, turn: &CommandTurn) -> Option<Halt>
    ensures halts { IfSome result (λ halt. (w : WorldValue) (p : ℕ) (event : Event) → Remains turn.now.left (driven w p until event turn.now.reply) → driven w p until event turn.now.reply ≡ halted w p until halt) }
    ensures goes { IfNone result ((w : WorldValue) (p : ℕ) (event : Event) → Remains turn.now.left (driven w p until event turn.now.reply) → driven w p until event turn.now.reply ≡ Drives p until) }
    ensures stepped { IfNone result (turn.now.reply ≡ Stepped) }
{
    match turn.reply {
        Reply::Stepped => match turn.left {
            Some(_) => None,
            None => Some(at_end(until)),
        },
        reply => Some(Halt::Replied(reply)),
    }
}

/// Lets a process make steps up to here, or to the end of its call. Where its work waits, it is
/// offered the entry that it waits for, evaluated in place, which takes no memory and is no step.
pub fn drive(alloc: Global, world: &mut World, process: usize, until: Until) -> Halt
    requires { IsWithin world.old (Left.Drives process until) }
    ensures { Leads (Drives process until) world.old (halted world.new process until result) world.new }
{
    'steps: loop {
        let turn = take_turn(alloc, world, Left::Drives(process, until));
        if let Some(halt) = halt_of(until, &turn) {
            return halt;
        }
    }
}
