//! The outcomes of orders that end at a position.

ghost use Rattle.std.specs.Prelude.{◌≡◌, ◌+◌, [], true, false, ℕ, IfOk, IfSome, IsTrue, OnOk, length, slice_index_or};
ghost use Rattle.ds_explore_state.specs.Closed.{keys_in, keys_of};
ghost use Rattle.ds_explore_state.specs.Drawn.{Adds, IsChoiceEdge, IsCrashOf, KnowsCrashes};
ghost use Rattle.ds_explore_state.specs.Following.{IsKept};
ghost use Rattle.ds_explore_state.specs.Orders.{IsBusy};
ghost use Rattle.ds_explore_state.specs.States.{IsKey, crashed_state_of, groups_of};
ghost use Rattle.ds_explore_state.specs.declared.choices.Choice.TheVariants.{Crashes, Rests};

use crate::choices::Choice;
use crate::closure::Found;
use crate::keys::Keys;
use crate::position::Position;
use crate::states::States;
use ds_paths::graph::Edge;
use std::alloc::{AllocError, Global};

/// The outcomes that are written, by their numbers from 0.
pub trait Endings {
    ghost use Rattle.std.specs.Prelude.{Bool, ℕ};
    ghost use Rattle.ds_explore_state.specs.declared.position.Position.{Position};

    /// The outcome with this number is what an order comes to that ends at a position, with a crash there or without one.
    ghost numbered: { Self → Position → Bool → ℕ → Type 0 };

    /// The number of the outcome to which an order comes that ends at the position, with a crash there or without one; none
    /// where it is not written. An error means that an allocation failed.
    fn number(
        &self,
        alloc: Global,
        position: &Position,
        crashed: bool,
    ) -> Result<Option<usize>, AllocError>
        ensures { IfOk result (λ some. IfSome some (numbered self.now position.now crashed)) };
}

/// The keys of states that crashes leave, and the number of the outcome of each.
#[derive(Drop)]
pub struct CrashOutcomes {
    // The keys.
    pub(crate) keys: Keys,
    // The outcomes.
    pub(crate) outcomes: Vec<usize>,
}

// The vertex of an outcome: the outcomes follow the states.
fn vertex_of(states: &States, outcome: usize) -> Option<u32>
    ensures { IfSome result (λ vertex. vertex ≡ length (keys_of states.now) + outcome) }
{
    let vertex = states.len().checked_add(outcome)?;
    u32::try_from(vertex).ok()
}

/// Adds the edge of the orders that end at the position, if no call is under way. False where their outcome is not written.
pub(crate) fn add_rest<E: Endings>(
    alloc: Global,
    found: Found<'_>,
    endings: &E,
    position: &Position,
    number: u32,
    edges: &mut Vec<Edge<Choice>>,
) -> Result<bool, AllocError>
    ensures { IfOk result (λ b. IsTrue b → Adds (IsChoiceEdge found.entry.states.now (groups_of found.entry.touched.now) (E.numbered endings.now) found.entry.allowed found.entry.touched.now.places.items found.entry.first.now position.now number) ((p : ℕ) → IsBusy position.now p → ⊥) Rests edges.old.items edges.new.items) }
{
    if position.is_under_way() {
        return Ok(true);
    }
    let Some(outcome) = endings.number(alloc, position, false)? else {
        return Ok(false);
    };
    let Some(to) = vertex_of(found.states, outcome) else {
        return Ok(false);
    };
    edges.push(Edge {
        from: number,
        by: Choice::Rests,
        to,
    })?;
    Ok(true)
}

// The outcome of a crash at the position, which leaves a state with this key; none where it is not written. The key is
// added then.
fn new_crash<E: Endings>(
    alloc: Global,
    found: Found<'_>,
    endings: &E,
    position: &Position,
    key: Vec<u32>,
    crashes: &mut CrashOutcomes,
) -> Result<Option<usize>, AllocError>
    requires knows { KnowsCrashes found.states.now (groups_of found.touched.now) (E.numbered endings.now) found.allowed found.touched.now.places.items found.first.now crashes.old }
    requires kept { IsKept (groups_of found.touched.now) found.first.now position.now }
    requires key { IsKey found.states.now.numbers key.items (crashed_state_of (groups_of found.touched.now) position.now) }
    ensures numbered { IfOk result (λ some. IfSome some (E.numbered endings.now position.now true)) }
    ensures knows { OnOk result (KnowsCrashes found.entry.states.now (groups_of found.entry.touched.now) (E.numbered endings.now) found.entry.allowed found.entry.touched.now.places.items found.entry.first.now crashes.new) }
{
    let Some(outcome) = endings.number(alloc, position, true)? else {
        return Ok(None);
    };
    crashes.keys.add(alloc, key)?;
    crashes.outcomes.push(outcome)?;
    Ok(Some(outcome))
}

// The outcome of a crash at the position: of this position, or of one of which a crash leaves the same; none where it is
// not written.
fn crash_outcome<E: Endings>(
    alloc: Global,
    found: Found<'_>,
    endings: &E,
    position: &Position,
    crashes: &mut CrashOutcomes,
) -> Result<Option<usize>, AllocError>
    requires knows { KnowsCrashes found.states.now (groups_of found.touched.now) (E.numbered endings.now) found.allowed found.touched.now.places.items found.first.now crashes.old }
    requires kept { IsKept (groups_of found.touched.now) found.first.now position.now }
    ensures numbered { IfOk result (λ some. IfSome some (IsCrashOf found.entry.states.now (groups_of found.entry.touched.now) (E.numbered endings.now) found.entry.allowed found.entry.touched.now.places.items found.entry.first.now position.now)) }
    ensures knows { OnOk result (KnowsCrashes found.entry.states.now (groups_of found.entry.touched.now) (E.numbered endings.now) found.entry.allowed found.entry.touched.now.places.items found.entry.first.now crashes.new) }
{
    let Some(key) = found.states.find_crashed(alloc, position, found.touched)? else {
        return Ok(None);
    };
    match crashes.keys.find(&key) {
        Some(at) => Ok(crashes.outcome_at(at as usize)),
        None => new_crash(alloc, found, endings, position, key, crashes),
    }
}

impl CrashOutcomes {
    /// No key.
    pub(crate) fn new(alloc: Global) -> CrashOutcomes
        ensures keys { keys_in result.keys ≡ [] }
        ensures outcomes { result.outcomes.items ≡ [] }
    {
        CrashOutcomes {
            keys: Keys::new(alloc),
            outcomes: Vec::new(alloc),
        }
    }

    // The outcome of the key with this number.
    fn outcome_at(&self, at: usize) -> Option<usize>
        ensures { IfSome result (λ outcome. outcome ≡ slice_index_or self.now.outcomes.items at 0) }
    {
        if at < self.outcomes.len() {
            Some(self.outcomes[at])
        } else {
            None
        }
    }
}

/// Adds the edge of the orders that end with a crash at the position, where crashes may come. False where their outcome is
/// not written.
pub(crate) fn add_crash<E: Endings>(
    alloc: Global,
    found: Found<'_>,
    endings: &E,
    position: &Position,
    number: u32,
    crashes: &mut CrashOutcomes,
    edges: &mut Vec<Edge<Choice>>,
) -> Result<bool, AllocError>
    requires knows { KnowsCrashes found.states.now (groups_of found.touched.now) (E.numbered endings.now) found.allowed found.touched.now.places.items found.first.now crashes.old }
    requires kept { IsKept (groups_of found.touched.now) found.first.now position.now }
    ensures adds { IfOk result (λ b. IsTrue b → Adds (IsChoiceEdge found.entry.states.now (groups_of found.entry.touched.now) (E.numbered endings.now) found.entry.allowed found.entry.touched.now.places.items found.entry.first.now position.now number) (IsTrue found.entry.allowed.crashes) Crashes edges.old.items edges.new.items) }
    ensures knows { OnOk result (KnowsCrashes found.entry.states.now (groups_of found.entry.touched.now) (E.numbered endings.now) found.entry.allowed found.entry.touched.now.places.items found.entry.first.now crashes.new) }
{
    if !found.allowed.crashes {
        return Ok(true);
    }
    let Some(outcome) = crash_outcome(alloc, found, endings, position, crashes)? else {
        return Ok(false);
    };
    let Some(to) = vertex_of(found.states, outcome) else {
        return Ok(false);
    };
    edges.push(Edge {
        from: number,
        by: Choice::Crashes,
        to,
    })?;
    Ok(true)
}
