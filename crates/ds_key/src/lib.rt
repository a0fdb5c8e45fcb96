//! Keys that clients give their edits.
#![tactic(auto)]

pub mod key;
