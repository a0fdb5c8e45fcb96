//! The order of recalculation: each cell after those that it refers to.
#![tactic(auto)]

pub mod along;
mod bits;
mod components;
pub mod course;
mod dependents;
pub mod known;
pub mod order;
mod plan;
mod position;
pub mod sweep;
mod tours;
mod walk;
