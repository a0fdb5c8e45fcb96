//! The machine of work: the recalculation of one cell.
#![tactic(auto)]

pub mod begin;
pub mod drive;
pub mod laws;
pub mod machine;
pub mod offer;
pub mod reading;
