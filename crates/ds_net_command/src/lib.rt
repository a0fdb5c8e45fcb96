//! `dsheet serve`: a server that a line `stop` on standard input ends.
#![tactic(auto)]

mod control;
pub mod serve;
mod watching;
