//! The journal of a sheet: the lines from which it is made again.
#![tactic(auto)]

pub mod counts;
pub mod edit;
pub mod fault;
pub mod joining;
pub mod journal;
pub mod standing;
pub mod standings;
