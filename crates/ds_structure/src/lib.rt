//! The sheet as a structure of pm_base: its words, its calls, when a world of it is sound, and when an answer is true.
#![tactic(auto)]

pub mod edit;
pub mod laws;
pub mod recover;
pub mod response;
pub mod sheet;
pub mod show;
pub mod work;
