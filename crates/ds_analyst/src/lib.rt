//! Questions about a script, and whoever answers them.
#![tactic(auto)]

pub mod question;
