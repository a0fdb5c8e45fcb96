//! Scripts: the calls that schedule processes by a script, and that crash it after each of its steps.
//!
//! A script is a list of commands, one a line (`docs/SCRIPTS.md`). `run_script` carries it out and writes an answer for
//! each command; `stop_at_each` writes, for each step of the script, what a crash after that step leaves.
#![tactic(auto)]

pub use ds_script::script::run_script;
pub use ds_script_io::ending::{ScriptEnd, ScriptFault};
pub use ds_script_io::streams::{Reading, Writing};
pub use ds_script_stops::range::StopRange;
pub use ds_script_stops::stops::{stop_at_each, stop_in_range};
