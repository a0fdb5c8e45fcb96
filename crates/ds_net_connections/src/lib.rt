//! Connections over TCP, each in its thread, over a floor: accepted, served, and sent away.
#![tactic(auto)]

mod accepting;
mod connection;
pub mod counts;
mod durable_writer;
pub mod entrance;
mod farewell;
mod http_door;
pub mod serving;
mod wire;
