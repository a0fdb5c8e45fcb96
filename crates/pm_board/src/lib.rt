//! The words of a structure on an atomic table that threads share, and the loop that takes the steps of its calls. The
//! table is this crate's own: no step but theirs can be made.
#![tactic(auto)]

pub mod board;
pub mod closed;
pub mod drive;
pub mod fuse;
pub mod laws;
mod spacing;
mod steps;
