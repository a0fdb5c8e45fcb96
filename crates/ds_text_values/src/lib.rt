//! Values of the texts of a sheet's cells.
#![tactic(auto)]

pub mod values;
