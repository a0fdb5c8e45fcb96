//! `dsheet connect`: a client of a server, with the commands of scripts.
#![tactic(auto)]

pub mod connect;
mod notes;
pub mod screen;
