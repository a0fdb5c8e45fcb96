//! What no transcript can have: readers and writers that fail, explorations of too few states, and what a journal and a store keep.
#![tactic(auto)]

#[cfg(test)]
mod explorations;
#[cfg(test)]
mod grids;
#[cfg(test)]
mod journals;
#[cfg(test)]
mod keys;
#[cfg(test)]
mod pictures;
#[cfg(test)]
mod scripts;
#[cfg(test)]
mod stops;
#[cfg(test)]
mod stores;
