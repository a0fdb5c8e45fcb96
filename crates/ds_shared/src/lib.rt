//! A sheet that threads share with no lock: edits, works, recoveries and shows, each step of which
//! is one atomic step on one word.
#![tactic(auto)]

pub mod edit;
pub mod ended;
pub mod note;
pub mod pass;
pub mod recover;
pub mod reopen;
pub mod seats;
pub mod sheet;
pub mod show;
pub mod work;
