//! A recalculation: each cell in the order of the references, then a settle.
#![tactic(auto)]

pub mod laws;
pub mod recalculation;
mod references;
mod sheet;
