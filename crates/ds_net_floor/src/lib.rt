//! What a server serves, as its connections see it: the floor, the door that asks it to stop, visits, and what allows that
//! answers leave.
#![tactic(auto)]

pub mod door;
pub mod edit_list;
pub mod floor;
pub mod keeping;
pub mod listing;
pub mod notebook;
pub mod visit;
