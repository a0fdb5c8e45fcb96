//! Values of a sheet by the edits that a server lists.
#![tactic(auto)]

pub mod values;
