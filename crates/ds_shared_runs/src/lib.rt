//! What has happened to a shared sheet is a run of the core, and has its headline.
#![tactic(auto)]

pub mod history;
pub mod laws;
