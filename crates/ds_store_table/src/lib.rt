//! The lines of a journal, in a table of a database.
#![tactic(auto)]

pub mod lines;
mod table;
