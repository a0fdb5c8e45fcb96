//! Drives a call to its answer.

ghost use Rattle.std.specs.Prelude.{◌≡◌, ◌<◌, IsTrue, IsFalse, IfSome, IfNone};
ghost use Rattle.ds_state.specs.Value.{world_of};
ghost use Rattle.ds_core.specs.declared.event.Event.TheVariants.{Step};
ghost use Rattle.ds_core.specs.declared.reply.Reply.TheVariants.{Stepped};
ghost use Rattle.ds_core.specs.Takes.{Fits};
ghost use Rattle.ds_core.specs.Own.{steps_left};
ghost use Rattle.ds_core.specs.Kinds.{AnswersTo, RestsAs};
ghost use Rattle.ds_calls.specs.Whole.{IsCalling, IsCallingAs, Finishes};
ghost use Rattle.ds_calls.specs.Driven.{IsNotWaiting, GoesOn, Went, ended};

use ds_core::ends::CallEnd;
use ds_core::event::Event;
use ds_core::reply::Reply;
use ds_core::take::take;
use ds_state::turn::Turn;
use ds_state::world::World;
use ds_work::offer::offer_own;
use std::alloc::Global;

/// One step of the process, if it can make one.
pub fn step_once(alloc: Global, world: &mut World, process: usize) -> Reply
    ensures fits { Fits world.old (Step process) result world.new }
    ensures fewer { result ≡ Stepped → steps_left process world.new < steps_left process world.old }
{
    let event = Event::Step(process);
    take(alloc, world, &event)
}

// The entry that the work of a process waits for is offered to it, and whether it waited for one.
fn offers(world: &mut World, process: usize) -> bool
    requires { IsCalling world.old process }
    ensures goes { IsTrue result → GoesOn world.old process world.new }
    ensures fewer { IsTrue result → steps_left process world.new < steps_left process world.old }
    ensures waits { IsFalse result → IsNotWaiting world.old process }
    ensures unchanged { IsFalse result → world.new ≡ world.old }
{
    let offered = offer_own(world, process);
    world.is_always_good();
    offered
}

// The end of a call, where a step did this to it.
fn ended<E: CallEnd>(turn: Turn<E>) -> Option<E>
    ensures { result ≡ ended turn }
{
    match turn {
        Turn::GoesOn => None,
        Turn::Answers(end) => Some(end),
    }
}

// A step, or an offer where the work waits; and the end where it is the last one.
fn go<E: CallEnd>(alloc: Global, world: &mut World, process: usize) -> Option<E>
    requires { IsCallingAs E.kind.is world.old process }
    ensures { Went E.kind.answer world.old process result world.new }
{
    world.is_always_good();
    match E::step(alloc, world, process) {
        Some(turn) => {
            world.is_always_good();
            ended(turn)
        }
        None => {
            let _offered = offers(world, process);
            None
        }
    }
}

/// Lets a process go on with the call that it is in, to its end: one of this kind of calls, or an answer, which is one of
/// any kind. Where its work waits, it is offered the entry that it waits for, evaluated in place, which takes no memory.
pub fn finish<E: CallEnd>(alloc: Global, world: &mut World, process: usize) -> E
    requires { IsCallingAs E.kind.is world.old process }
    ensures finishes { Finishes process world.old (E.kind.answer result) world.new }
    ensures answers { AnswersTo ((world_of world.old).situation process) (E.kind.answer result) }
    ensures rests { RestsAs (E.kind.answer result) ((world_of world.new).situation process) }
{
    'steps: loop {
        if let Some(end) = go(alloc, world, process) {
            return end;
        }
    }
}
