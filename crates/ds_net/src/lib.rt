//! Servers of sheets over TCP: each keeps its edits in a store, in a file or in memory.
#![tactic(auto)]

mod going_over;
mod held_lines;
pub mod keeper;
pub mod stored;
