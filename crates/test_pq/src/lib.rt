//! Schedules of a small queue: calls that are broken off, or overtaken, after each number of steps.
#![tactic(auto)]

#[cfg(test)]
mod broken;
#[cfg(test)]
mod overtaken;
pub mod schedule;
