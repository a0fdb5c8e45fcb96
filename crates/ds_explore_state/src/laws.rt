//! Keys tell states apart, and what is alike goes on alike.

ghost use Rattle.std.specs.Prelude.{◌≡◌, ◌<◌, ℕ, List, []};
ghost use Rattle.ds_layout.specs.declared.place.Place.{Place};
ghost use Rattle.ds_layout.specs.SheetMemory.{memory};
ghost use Rattle.ds_state.specs.Value.{IsGood, WorldValue, world_of};
ghost use Rattle.ds_explore_state.specs.States.{IsKey, PlainPart, SameState, state_of};
ghost use Rattle.ds_explore_state.specs.Alike.{ArePositionsAlike};
ghost use Rattle.ds_explore_state.specs.Buffers.{HasEmptyBuffer};
ghost use Rattle.ds_paths.specs.declared.graph.Edge.{Edge};
ghost use Rattle.ds_explore_state.specs.Closed.{Order};
ghost use Rattle.ds_explore_state.specs.Drawn.{IsGraph, IsPath};
ghost use Rattle.ds_explore_state.specs.declared.choices.Choice.{Choice};
ghost use Rattle.ds_explore_state.specs.Following.{IsKept, KnowsBuffers};
ghost use Rattle.ds_explore_state.specs.Orders.{Happens, MayHappen};
ghost use Rattle.ds_explore_state.specs.declared.orders.Allowed.{Allowed};
ghost use Rattle.ds_explore_state.specs.declared.position.Move.{Move};
ghost use Rattle.ds_explore_state.specs.declared.position.Position.{Position};
ghost use Rattle.ds_explore_state.specs.declared.states.States.{States};

use crate::endings::Endings;

/// Positions with one key are the same in both sides of each word of the groups, in what each process does, in what its
/// buffer holds, and in what it was answered.
#[tactic(auto, using(crate::proofs::Parts::same_by_key))]
pub fn keys_tell_states_apart()
    ensures { (numbered : List PlainPart) (key : List ℕ) (groups : List (List Place)) (x y : Position)
        → IsKey numbered key (state_of groups x) → IsKey numbered key (state_of groups y) → SameState groups x y }
{}

/// Positions that are alike go on alike: what may happen at the one may happen at the other, is answered alike, and leads
/// to positions that are alike.
pub fn positions_go_on_alike()
    ensures may { (allowed : Allowed) (places : List Place) (x y : Position) (move : Move) → ArePositionsAlike x y → MayHappen allowed places x move → MayHappen allowed places y move }
    ensures alike { (allowed : Allowed) (places : List Place) (move : Move) (x y after other : Position)
        → ArePositionsAlike x y → MayHappen allowed places x move → Happens x move after → Happens y move other → ArePositionsAlike after other }
{}

/// Where there is a graph of the states that were found, every order of what may happen is a path in it, by its moves, to the
/// vertex of a state whose position is alike, if the buffers of the first position are known; and wherever an order ends, with
/// its end it is a path to the vertex of its outcome: that of a position that is alike, or of one of which a crash leaves the
/// same.
pub fn orders_are_paths<E: Endings>(endings: &E)
    ensures { (states : States) (groups : List (List Place)) (allowed : Allowed) (places : List Place) (first : Position) (edges : List (Edge Choice)) → IsGraph states groups (E.numbered endings.now) allowed places first edges
        → IsKept groups first first → KnowsBuffers first → (moves : List Move) (y : Position) → Order allowed places first moves y → IsPath states groups (E.numbered endings.now) allowed places first edges moves y }
{
    // The body does not use it: the signature or a clause names it.
    let _endings = endings;
}

/// Buffers are empty before the first step of each call, and wherever nothing is flushed that is not written back.
#[tactic(auto, using(crate::proofs::EmptyBuffers::buffer_is_empty))]
pub fn buffers_are_empty()
    ensures { (w : WorldValue) (p : ℕ) → IsGood w → p < w.sheet.layout.processes → HasEmptyBuffer ((world_of w).situation p) → (memory w.sheet).buffer p ≡ [] }
{}
