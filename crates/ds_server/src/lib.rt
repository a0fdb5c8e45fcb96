//! Sessions: lines of JSON in, lines of JSON out, over any desk.
#![tactic(auto)]

pub mod answer;
pub mod desk;
pub mod line;
pub mod request;
pub mod session;
pub mod world;
