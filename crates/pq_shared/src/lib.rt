//! A detectable queue on words that threads share.
#![tactic(auto)]

pub mod calls;
pub mod laws;
