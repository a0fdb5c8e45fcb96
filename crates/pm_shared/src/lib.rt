//! Registers and a mark on words that threads share.
#![tactic(auto)]

pub mod laws;
pub mod mark;
pub mod registers;
