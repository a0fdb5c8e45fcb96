//! The sums of a journal's lines.
#![tactic(auto)]

pub mod sums;
