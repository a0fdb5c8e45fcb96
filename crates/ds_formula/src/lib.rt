//! Contents of cells: blank, a whole number, or a formula of a subset of OpenFormula.
#![tactic(auto)]

pub mod cells;
pub mod content;
mod copies;
pub mod decimal;
pub mod fault;
mod functions;
pub mod laws;
mod names;
mod parser;
mod ranges;
pub mod reading;
mod references;
mod sizes;
mod tokens;
pub mod writing;
