//! A show: its beginning, its steps, and what they are proved to do.
#![tactic(auto)]

pub mod begin;
pub mod laws;
pub mod machine;
pub mod step;
