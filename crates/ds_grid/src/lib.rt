//! Grids: the texts of cells as CSV in, the values of the cells as CSV out, beside labels.
#![tactic(auto)]

pub mod ending;
pub mod form;
pub mod grid;
pub mod report;
pub mod table;
