//! What is wrong with a line of a script, for whoever wrote it: where, and what was expected there.
#![tactic(auto)]

pub mod excerpt;
mod forms;
mod functions;
pub mod hint;
pub mod notes;
pub mod texts;
pub mod wanted;
