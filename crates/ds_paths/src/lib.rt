//! Paths in a graph, and how many there are.
#![tactic(auto)]

pub mod count;
pub mod graph;
