//! Scripts whose calls under way are carried out in all orders of their steps.
#![tactic(auto)]

mod again;
mod among;
mod answers;
mod ends;
pub mod exploration;
pub mod explore;
pub mod flaw;
mod graph;
mod judge;
pub mod lines;
mod met;
pub mod options;
mod orders;
mod outcomes;
mod script;
mod search;
pub mod texts;
mod way;
