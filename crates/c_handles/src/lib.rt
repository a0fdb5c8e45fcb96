//! What libraries for C share: what a handle holds, and results as numbers and rows.
#![tactic(auto)]

pub mod boxed;
pub mod parts;
pub mod tell;
