//! A mark that any process raises and none lowers, in one word that all swap.
#![tactic(auto)]

pub mod laws;
pub mod mark;
