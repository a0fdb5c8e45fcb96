//! `dsheet explore` and `dsheet trace`: what the orders of a script's calls come to, and its run as a picture.
#![tactic(auto)]

pub mod analyst;
pub mod explore;
pub mod form;
mod input;
pub mod status;
pub mod trace;
