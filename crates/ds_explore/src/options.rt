//! What may come between the steps of calls.

ghost use Rattle.std.specs.Prelude.{◌≡◌};
ghost use Rattle.ds_explore.specs.Starts.{allowed_by};

use ds_explore_state::orders::Allowed;

/// What may come between the steps of calls, and how much is gone through.
#[derive(Clone, Copy, Debug, PartialEq, Eq)]
pub struct Options {
    /// A crash at each state, one in an order, which ends it.
    pub crashes: bool,
    /// A stop of each process that is in a call, at each state.
    pub stops: bool,
    /// An eviction of each word whose sides differ, at each state.
    pub evictions: bool,
    /// How many states are gone through at most.
    pub most: usize,
}

impl Options {
    /// What may come between the steps of calls, or after them.
    pub(crate) fn allowed(self) -> Allowed
        ensures { result ≡ allowed_by self }
    {
        Allowed {
            stops: self.stops,
            evictions: self.evictions,
            crashes: self.crashes,
        }
    }
}

/// Is shown how many states there are so far, again and again.
pub trait Watcher {
    /// How many states were found so far.
    fn found(&mut self, states: usize);
}
