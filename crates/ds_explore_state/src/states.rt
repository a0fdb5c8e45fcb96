//! The states that were found, by their keys.

ghost use Rattle.std.specs.Prelude.{◌≡◌, Some, IfOk, IfSome, length, slice_get};
ghost use Rattle.ds_explore_state.specs.Closed.{HasNumber, keys_of};
ghost use Rattle.ds_explore_state.specs.States.{IsKey, crashed_state_of, groups_of};

use crate::describe::Numbers;
use crate::keys::Keys;
use crate::position::Position;
use crate::touched::Touched;
use std::alloc::{AllocError, Global};

/// The states that were found, numbered in the order in which they were.
#[derive(Drop)]
pub struct States {
    // Numbers of their parts.
    numbers: Numbers,
    // The key of each.
    keys: Keys,
}

impl States {
    /// No state.
    pub fn new(alloc: Global) -> States {
        States {
            numbers: Numbers::new(alloc),
            keys: Keys::new(alloc),
        }
    }

    /// How many there are.
    pub fn len(&self) -> usize
        ensures { result ≡ length (keys_of self.now) }
    {
        self.keys.len()
    }

    /// Whether there is none.
    pub fn is_empty(&self) -> bool {
        self.keys.len() == 0
    }

    /// The key of the state of a position. Errors are those of `Numbers::state`.
    pub fn key(
        &mut self,
        alloc: Global,
        position: &Position,
        touched: &Touched,
    ) -> Result<Vec<u32>, AllocError> {
        self.numbers.state(alloc, position, touched)
    }

    /// The key of the state that a crash leaves of a position. Errors are those of `Numbers::state`.
    pub fn crashed_key(
        &mut self,
        alloc: Global,
        position: &Position,
        touched: &Touched,
    ) -> Result<Vec<u32>, AllocError> {
        self.numbers.crashed(alloc, position, touched)
    }

    /// The number of the state with this key, if it was found.
    pub fn find(&self, key: &[u32]) -> Option<u32>
        ensures { IfSome result (λ number. slice_get (keys_of self.now) number ≡ Some key.now) }
    {
        self.keys.find(key)
    }

    /// The state with this key is found now. An error means that an allocation failed, or that there are 2^32 states.
    pub fn add(&mut self, alloc: Global, key: Vec<u32>) -> Result<(), AllocError> {
        self.keys.add(alloc, key)
    }

    /// The key of the state that a crash leaves of a position, where each part of it has a number. An error means that
    /// an allocation failed.
    pub fn find_crashed(
        &self,
        alloc: Global,
        position: &Position,
        touched: &Touched,
    ) -> Result<Option<Vec<u32>>, AllocError>
        ensures { IfOk result (λ some. IfSome some (λ key. IsKey self.now.numbers key.items (crashed_state_of (groups_of touched.now) position.now))) }
    {
        self.numbers.find_crashed(alloc, position, touched)
    }

    /// The number of the state of a position, if it was found. An error means that an allocation failed.
    pub fn number_of(
        &self,
        alloc: Global,
        position: &Position,
        touched: &Touched,
    ) -> Result<Option<u32>, AllocError>
        ensures { IfOk result (λ some. IfSome some (HasNumber self.now (groups_of touched.now) position.now)) }
    {
        let Some(key) = self.numbers.find(alloc, position, touched)? else {
            return Ok(None);
        };
        Ok(self.find(&key))
    }
}
