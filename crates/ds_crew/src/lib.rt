//! The sheet behind a lock: each process is driven by whoever holds its pass, in threads of their own.
#![tactic(auto)]

pub mod audit;
mod calls;
mod came;
mod dealing;
pub mod ended;
mod kept;
pub mod locked;
pub mod pass;
mod steps;
pub mod workers;
