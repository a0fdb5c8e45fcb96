//! Whole calls of a process on a world, each as a run of events: an edit, work, a show, a recovery, a settle.
#![tactic(auto)]

pub mod call;
pub mod finish;
pub mod laws;
pub mod marked;
pub mod settle;
