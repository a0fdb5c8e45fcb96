//! The recording of a script: its run, a row for each event, with both sides of the words that it names.
#![tactic(auto)]

pub mod look;
pub mod play;
pub mod record;
pub mod row;
pub mod trace;
pub mod turn;
