//! Keys, and their numbers.

ghost use Rattle.std.specs.Prelude.{◌≡◌, ◌++◌, ◌∷◌, [], Some, IfSome, IsTrue, OnOk, length, slice_get};
ghost use Rattle.ds_explore_state.specs.Closed.{keys_in};

use std::alloc::{AllocError, Global};
use std::collections::HashMap;

/// Keys, numbered in the order in which they were added.
#[derive(Drop)]
pub struct Keys {
    // Each key, by its number.
    all: Vec<Vec<u32>>,
    // Their numbers.
    numbers: HashMap<Vec<u32>, u32>,
}

// Whether a key that was found is this one.
fn is_key(found: &Vec<u32>, key: &[u32]) -> bool
    ensures { IsTrue result → found.now.items ≡ key.now }
{
    found.as_slice() == key
}

impl Keys {
    /// No key.
    pub(crate) fn new(alloc: Global) -> Keys
        ensures { keys_in result ≡ [] }
    {
        Keys {
            all: Vec::new(alloc),
            numbers: HashMap::new(alloc),
        }
    }

    /// How many there are.
    pub(crate) fn len(&self) -> usize
        ensures { result ≡ length (keys_in self.now) }
    {
        self.all.len()
    }

    /// The number of a key, if it was added.
    pub(crate) fn find(&self, key: &[u32]) -> Option<u32>
        ensures { IfSome result (λ number. slice_get (keys_in self.now) number ≡ Some key.now) }
    {
        let number = match self.numbers.get(key) {
            Some(number) => *number,
            None => return None,
        };
        match self.all.get(number as usize) {
            Some(found) if is_key(found, key) => Some(number),
            _ => None,
        }
    }

    /// The key is added. An error means that an allocation failed, or that there are 2^32 keys.
    pub(crate) fn add(&mut self, alloc: Global, key: Vec<u32>) -> Result<(), AllocError>
        ensures { OnOk result (keys_in self.new ≡ keys_in self.old ++ key.items ∷ []) }
    {
        let Ok(number) = u32::try_from(self.all.len()) else {
            return Err(AllocError);
        };
        self.all.push(Vec::from_slice(alloc, &key)?)?;
        self.numbers.insert(key, number)?;
        Ok(())
    }
}
