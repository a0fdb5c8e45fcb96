//! Scripts whose answers are lines of JSON: the same commands, worlds and replies as those of `ds_script`.
#![tactic(auto)]

pub mod carry;
pub mod line;
pub mod script;
mod values;
