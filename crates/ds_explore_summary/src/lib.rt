//! Explorations at a glance, and as JSON.
#![tactic(auto)]

pub mod json;
pub mod summary;
