//! A queue on persistent words that tells, after any crash, what came of each operation.
#![tactic(auto)]

pub mod calls;
pub mod dequeue;
pub mod enqueue;
pub mod laws;
pub mod places;
pub mod queue;
pub mod recover;
