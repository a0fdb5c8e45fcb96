//! The scene of a brief picture: the events of a recording that decide, and the words that say so.
#![tactic(auto)]

pub mod columns;
pub mod crash;
pub mod keep;
pub mod rows;
pub mod scene;
