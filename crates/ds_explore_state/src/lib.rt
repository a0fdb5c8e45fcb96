//! Worlds with calls under way, and what distinguishes two of them.
#![tactic(auto)]

mod buffers;
pub mod choices;
pub mod closure;
pub mod describe;
pub mod endings;
pub mod keys;
pub mod laws;
pub mod orders;
pub mod part;
pub mod position;
mod stages;
pub mod states;
pub mod touched;
