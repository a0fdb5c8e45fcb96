//! The steps of an edit.
#![tactic(auto)]

pub mod begin;
pub mod laws;
pub mod machine;
pub mod step;
