//! A step of a process, and an eviction.

ghost use Rattle.std.specs.Prelude.{◌≡◌};
ghost use Rattle.ds_core.specs.StepEvents.{StepTakes, EvictTakes};

use crate::ends::CallEnd;
use crate::reply::Reply;
use ds_layout::place::Place;
use ds_state::answer::Answer;
use ds_state::turn::Turn;
use ds_state::world::World;
use std::alloc::Global;

/// A process makes the next step of its call. Where it is in none, or in work that waits for an
/// entry, or the sheet has no such process, the step cannot happen and nothing changes. Only the
/// step of work that reads a content takes memory.
#[tactic(auto, using(crate::proofs::Stepping::of_any))]
pub fn step(alloc: Global, world: &mut World, process: usize) -> Reply
    ensures { StepTakes world.old process result world.new }
{
    match Answer::step(alloc, world, process) {
        Some(Turn::GoesOn) => Reply::Stepped,
        Some(Turn::Answers(answer)) => Reply::Answered(answer),
        None => Reply::NotEnabled,
    }
}

/// A word is evicted: its cached side is persisted. Where the sheet has no such word, nothing
/// changes.
pub fn evict(world: &mut World, place: Place) -> Reply
    ensures { EvictTakes world.old place result world.new }
{
    if !world.words.layout().contains(place) {
        return Reply::NotEnabled;
    }
    world.words.evict(place);
    Reply::Evicted
}
