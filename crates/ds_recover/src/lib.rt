//! A recovery: its beginning, its steps, and what they are proved to do.
#![tactic(auto)]

pub mod begin;
pub mod laws;
pub mod machine;
pub mod migrate;
pub mod migrate_begin;
pub mod migrate_step;
pub mod step;
