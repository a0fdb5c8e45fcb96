//! The values of a sheet: exact arithmetic, formulas, circular references.
#![tactic(auto)]

mod arithmetic;
mod evaluate;
mod gather;
mod guess;
pub mod inputs;
pub mod laws;
pub mod local;
pub mod same;
pub mod scratch;
pub mod sheet;
mod tally;
pub mod task;
pub mod value;
