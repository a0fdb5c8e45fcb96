//! Each run of a sheet as a structure is a run of the core, with its headline.
#![tactic(auto)]

pub mod laws;
