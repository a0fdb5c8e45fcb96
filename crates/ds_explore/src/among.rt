//! What an order comes to, and which of the outcomes that are written that is.

ghost use Rattle.std.specs.Prelude.{◌≡◌, IfOk, IfSome, IsTrue, Some, map, slice_get};
ghost use Rattle.ds_explore_state.specs.States.{seat_of};
ghost use Rattle.ds_explore.specs.Judging.{ComesTo, IsFound, texts_of};
ghost use Rattle.ds_explore.specs.Whole.{IsAmong};

use crate::ends::{Said, end, end_order, what_was_said};
use crate::judge::Judge;
use crate::outcomes::Finding;
use ds_explore_state::endings::Endings;
use ds_explore_state::position::{Position, ProcessState};
use ds_state::world::World;
use std::alloc::{AllocError, Global};

impl Judge {
    // What is found after an order that leaves this world, and has left its processes so.
    fn outcome(
        &self,
        alloc: Global,
        world: &mut World,
        seats: &[ProcessState],
        crashed: bool,
    ) -> Result<Finding, AllocError>
        ensures { IfOk result (IsFound self.now world.old (map seat_of seats.now) crashed) }
    {
        let Said { answers, texts } = what_was_said(alloc, world, seats)?;
        let (ending, tail) = end(alloc, world, answers, crashed)?;
        let flaws = self.flaws(alloc, world, &ending)?;
        Ok(Finding {
            answers: texts,
            tail,
            flaws,
            crashed,
        })
    }

    /// What an order comes to that ends at this position, with a crash there or without one. An error means that an
    /// allocation failed.
    pub(crate) fn comes_to(
        &self,
        alloc: Global,
        position: &Position,
        crashed: bool,
    ) -> Result<Finding, AllocError>
        ensures { IfOk result (ComesTo self.now position.now crashed) }
    {
        let mut world = position.world.copy(alloc)?;
        end_order(alloc, &mut world, crashed);
        self.outcome(alloc, &mut world, &position.seats, crashed)
    }
}

/// The outcomes that are written: who judges them, and the key of each.
#[derive(Clone, Copy)]
pub(crate) struct Outcomes<'a> {
    /// The judge.
    pub(crate) judge: &'a Judge,
    /// What distinguishes each outcome from the others.
    pub(crate) keys: &'a [Vec<u8>],
}

// Whether the key that is there is this one.
fn is_key(found: &Vec<u8>, key: &[u8]) -> bool
    ensures { IsTrue result → found.now.items ≡ key.now }
{
    found.as_slice() == key
}

// The number of a key; none where it is none of these.
fn number_in(keys: &[Vec<u8>], key: &[u8]) -> Option<usize>
    ensures { IfSome result (λ number. slice_get (texts_of keys.now) number ≡ Some key.now) }
{
    for number in 0..keys.len() {
        if is_key(&keys[number], key) {
            return Some(number);
        }
    }
    None
}

impl Endings for Outcomes<'_> {
    ghost numbered = { λ outcomes x crashed number. IsAmong outcomes.judge.now (texts_of outcomes.keys.now) x crashed number };

    fn number(
        &self,
        alloc: Global,
        position: &Position,
        crashed: bool,
    ) -> Result<Option<usize>, AllocError> {
        let found = self.judge.comes_to(alloc, position, crashed)?;
        let key = found.key(alloc)?;
        Ok(number_in(self.keys, &key))
    }
}
