//! Lines and scripts whose formulas are in A1 notation, as lines and scripts in OpenFormula.
#![tactic(auto)]

pub mod lines;
pub mod opening;
pub mod script;
