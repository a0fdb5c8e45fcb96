//! The store of a sheet: its journal in a database, from which the sheet is made again.
#![tactic(auto)]

pub mod backup;
pub mod committed;
pub mod compact;
pub mod fault;
pub mod going_over;
pub mod laws;
mod noting;
pub mod open;
mod replay;
pub mod seated;
pub mod snapshot;
pub mod sound;
pub mod store;
pub mod summing;
pub mod texts;
