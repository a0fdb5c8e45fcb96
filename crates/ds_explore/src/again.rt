//! An order, carried out again.

ghost use Rattle.std.specs.Prelude.{◌≡◌, ◌++◌, ◌∷◌, [], ℕ, IfOk, IsTrue, List, OnOk, Some, length, slice_get};
ghost use Rattle.ds_explore_state.specs.Orders.{MayHappen};
ghost use Rattle.ds_explore_state.specs.declared.position.Move.{Move};
ghost use Rattle.ds_explore_state.specs.declared.position.Move.TheVariants.{Evict};
ghost use Rattle.ds_explore.specs.Judging.{ComesTo};
ghost use Rattle.ds_explore.specs.Starts.{ComesAgain, IsEnd, IsLedTo, IsOrderTo, MayEnd, allowed_by};

use crate::graph::Circle;
use crate::outcomes::Finding;
use crate::search::Start;
use ds_explore_state::orders::{is_busy, is_dirty};
use ds_explore_state::position::{Move, Position};
use ds_explore_state::states::States;
use ds_layout::place::Place;
use std::alloc::{AllocError, Global};

/// A position at which an order ends, and what the order comes to.
#[derive(Drop)]
pub(crate) struct Again {
    /// The position.
    pub(crate) position: Position,
    /// What it comes to.
    pub(crate) found: Finding,
}

// Whether the place is one of these.
fn is_one_of(places: &[Place], place: Place) -> bool
    ensures { IsTrue result → (i : ℕ) × (slice_get places.now i ≡ Some place) }
{
    for number in 0..places.len() {
        if places[number] == place {
            return true;
        }
    }
    false
}

impl Start {
    // Whether the word may be evicted at the position.
    fn may_evict(&self, position: &Position, place: Place) -> bool
        ensures { IsTrue result → MayHappen (allowed_by self.now.options) self.now.touched.places.items position.now (Evict place) }
    {
        self.options.evictions
            && is_dirty(&position.world, place)
            && is_one_of(&self.touched.places, place)
            && position.is_under_way()
    }

    // Whether this may happen at the position.
    fn allows(&self, position: &Position, next: Move) -> bool
        ensures { IsTrue result → MayHappen (allowed_by self.now.options) self.now.touched.places.items position.now next }
    {
        match next {
            Move::Step(process) => is_busy(position, process),
            Move::Stop(process) => self.options.stops && is_busy(position, process),
            Move::Evict(place) => self.may_evict(position, place),
        }
    }

    /// What has this number happens, if it may. An error is also that it may not.
    pub(crate) fn go_on(
        &self,
        alloc: Global,
        position: &mut Position,
        by: u32,
    ) -> Result<(), AllocError>
        ensures { (moves : List Move) → IsOrderTo self.now moves position.old → OnOk result ((move : Move) × IsOrderTo self.now (moves ++ move ∷ []) position.new) }
    {
        let next = match self.moves.get(by as usize) {
            Some(next) => *next,
            None => return Err(AllocError),
        };
        if !self.allows(position, next) {
            return Err(AllocError);
        }
        let _written = position.apply(alloc, next)?;
        Ok(())
    }

    // What has these numbers happens, one after the other, if it may. An error is also that it may not.
    fn go_along(
        &self,
        alloc: Global,
        position: &mut Position,
        path: &[u32],
    ) -> Result<(), AllocError>
        ensures { (moves : List Move) → IsOrderTo self.now moves position.old → OnOk result ((more : List Move) × (length more ≡ length path.now) × IsOrderTo self.now (moves ++ more) position.new) }
    {
        for by in path {
            self.go_on(alloc, position, *by)?;
        }
        Ok(())
    }

    /// The position after this event, of a position that stays as it is. An error is also that it may not happen there.
    pub(crate) fn gone_on(
        &self,
        alloc: Global,
        position: &Position,
        by: u32,
    ) -> Result<Position, AllocError>
        ensures { IsLedTo self.now position.now → IfOk result (IsLedTo self.now) }
    {
        let mut next = position.copy(alloc)?;
        self.go_on(alloc, &mut next, by)?;
        Ok(next)
    }

    /// The position that an order of these events leads to.
    pub(crate) fn led_to(&self, alloc: Global, path: &[u32]) -> Result<Position, AllocError>
        ensures { IfOk result (IsLedTo self.now) }
    {
        let mut position = self.position(alloc)?;
        self.go_along(alloc, &mut position, path)?;
        Ok(position)
    }

    /// Whether an order comes to one of the states again that was seen to. An error means that an allocation failed, or that
    /// there is no such order.
    pub(crate) fn comes_again(
        &self,
        alloc: Global,
        states: &States,
        circle: &Circle,
    ) -> Result<bool, AllocError>
        ensures { IfOk result (λ again. IsTrue again → ComesAgain self.now) }
    {
        if circle.around.is_empty() {
            return Ok(false);
        }
        let mut position = self.position(alloc)?;
        self.go_along(alloc, &mut position, &circle.before)?;
        let Some(state) = states.number_of(alloc, &position, &self.touched)? else {
            return Ok(false);
        };
        self.go_along(alloc, &mut position, &circle.around)?;
        let Some(later) = states.number_of(alloc, &position, &self.touched)? else {
            return Ok(false);
        };
        Ok(state == later)
    }

    // Whether an order may end at the position.
    fn may_end(&self, position: &Position, crashed: bool) -> bool
        ensures { IsTrue result → MayEnd self.now.options position.now crashed }
    {
        if crashed {
            self.options.crashes
        } else {
            !position.is_under_way()
        }
    }

    /// An order of these events is carried out, with a crash after it or not. An error means that an allocation failed, or
    /// that there is no such order.
    pub(crate) fn again(
        &self,
        alloc: Global,
        path: &[u32],
        crashed: bool,
    ) -> Result<Again, AllocError>
        ensures end { IfOk result (λ again. IsEnd self.now again.position crashed) }
        ensures comes { IfOk result (λ again. ComesTo self.now.judge again.position crashed again.found) }
    {
        let position = self.led_to(alloc, path)?;
        if !self.may_end(&position, crashed) {
            return Err(AllocError);
        }
        let found = self.judge.comes_to(alloc, &position, crashed)?;
        Ok(Again { position, found })
    }
}
