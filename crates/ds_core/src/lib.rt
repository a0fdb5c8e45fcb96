//! What the processes of a sheet do, event by event.
#![tactic(auto)]

pub mod ends;
pub mod event;
pub mod laws;
pub mod reply;
pub mod step;
pub mod stop;
pub mod take;
