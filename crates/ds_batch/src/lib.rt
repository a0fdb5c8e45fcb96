//! `dsheet run`, `dsheet run --stops` and `dsheet report`: scripts and grids from a file or standard input to standard
//! output, with their exit statuses. Nothing here reads the command line or a socket.
#![tactic(auto)]

pub mod closing;
mod copying;
pub mod faults;
mod fields;
pub mod groups;
pub mod json;
pub mod lines;
mod progress;
pub mod refusals;
pub mod report;
pub mod run;
pub mod source;
pub mod status;
pub mod token;
