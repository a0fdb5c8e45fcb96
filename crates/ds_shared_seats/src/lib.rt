//! A sheet that threads share, whose seats are taken from it one by one and go back to it. A seat has the sheet with it,
//! so that nobody can use it on another one.
#![tactic(auto)]

pub mod fault;
mod housing;
pub mod resting;
mod ring;
pub mod seat;
pub mod sheet;
pub mod steps;
