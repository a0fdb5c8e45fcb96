//! A search through all orders of the steps of calls on a structure, with evictions, stops, crashes and recoveries.
#![tactic(auto)]

pub mod cells;
pub mod closure;
pub mod explored;
pub mod happen;
pub mod judge;
pub mod laws;
pub mod position;
pub mod schedule;
pub mod search;
pub mod setting;
pub mod start;
pub mod table;
