//! Rows that say what happens to a small sheet, and what is counted then; and as rows, events that scripts cannot say.
#![tactic(auto)]

#[cfg(test)]
mod absent;
pub mod calls;
#[cfg(test)]
mod counts;
pub mod mismatch;
#[cfg(test)]
mod mismatches;
pub mod row;
pub mod sheet;
#[cfg(test)]
mod tasks;
