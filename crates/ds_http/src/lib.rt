//! A sheet over HTTP: what is answered to each request, and sessions over WebSocket. Over any desk.
#![tactic(auto)]

mod edits;
mod events;
mod handshake;
mod lines;
pub mod messages;
pub mod metrics;
mod origin;
pub mod page;
mod problem;
mod reading;
mod reply;
mod resource;
mod script;
pub mod site;
mod status;
mod taking;
mod token;
