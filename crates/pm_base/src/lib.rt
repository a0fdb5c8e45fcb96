//! What a structure on persistent words says of itself, what it owes, and what follows for every run of it.
#![tactic(auto)]

pub mod alone;
pub mod history;
pub mod laws;
pub mod machine;
