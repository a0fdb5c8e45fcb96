//! A queue that threads share, whose seats are taken from it one by one and go back to it. A seat has the queue with it,
//! so that nobody can use it on another one.
#![tactic(auto)]

mod calls;
mod dealing;
pub mod fault;
mod housing;
pub mod laws;
mod pass;
pub mod queue;
pub mod resting;
mod ring;
pub mod seat;
