//! The blocks of stops, in short: one line for those that follow each other and say the same.
#![tactic(auto)]

pub mod groups;
