//! The keys that clients gave their edits, in the lines of a store.
#![tactic(auto)]

pub mod fault;
pub mod laws;
pub mod line;
pub mod note;
pub mod notes;
pub mod table;
