//! The edits that a store keeps, as its clients count them.
#![tactic(auto)]

pub mod edits;
