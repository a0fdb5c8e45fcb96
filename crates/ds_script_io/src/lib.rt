//! What scripts and grids are read from and written to: streams, lines and their words, texts of answers.
#![tactic(auto)]

pub mod answer;
pub mod ending;
pub mod fields;
pub mod input;
pub mod line;
pub mod streams;
