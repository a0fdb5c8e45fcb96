//! The command line: what the words of a call of `dsheet` ask for, or why they are refused.
#![tactic(auto)]

pub mod addresses;
pub mod command_line;
pub mod connecting;
pub mod exploring;
pub mod exporting;
mod help;
pub mod importing;
mod inputs;
pub mod logging;
mod notations;
pub mod reporting;
pub mod running;
pub mod serving;
pub mod tracing;
