//! A simulated persistent memory: words with a cached and a persisted side, and a buffer of writes
//! for each process.
#![tactic(auto)]

pub mod access;
pub mod words;
