//! What may come between the steps of calls, or after them.

ghost use Rattle.std.specs.Prelude.{◌≡◌, ◌<◌, ◌↔◌, IsTrue, IsFalse, length};
ghost use Rattle.ds_explore_state.specs.Following.{CanHappen};
ghost use Rattle.ds_explore_state.specs.Orders.{HasDirt, IsBusy};

use crate::position::{Move, Position, is_in_call};
use ds_layout::place::Place;
use ds_state::world::World;

/// What may come between the steps of calls, or after them.
#[derive(Clone, Copy, Debug, PartialEq, Eq)]
pub struct Allowed {
    /// Stops of processes that are in calls.
    pub stops: bool,
    /// Evictions of words whose sides differ.
    pub evictions: bool,
    /// Crashes, each at the end of an order.
    pub crashes: bool,
}

/// Whether both sides of the word at a place differ.
pub fn is_dirty(world: &World, place: Place) -> bool
    ensures { IsTrue result ↔ HasDirt world.now place }
{
    if !world.words.layout().contains(place) {
        return false;
    }
    let word = world.words.word(place);
    word.cached != word.persisted
}

/// Whether a process of the position is in a call.
pub fn is_busy(position: &Position, process: usize) -> bool
    ensures { IsTrue result ↔ IsBusy position.now process }
{
    process < position.seats.len() && is_in_call(&position.world, process)
}

/// Whether this can happen at a position: a step or a stop of a process that is in a call, or an eviction of a word whose
/// sides differ.
pub fn can_happen(position: &Position, next: Move) -> bool
    ensures { IsTrue result → CanHappen position.now next }
{
    match next {
        Move::Step(process) | Move::Stop(process) => is_busy(position, process),
        Move::Evict(place) => is_dirty(&position.world, place),
    }
}
