//! A stop at each step of a script.
#![tactic(auto)]

pub mod block;
pub mod play;
pub mod range;
pub mod reach;
pub mod stops;
