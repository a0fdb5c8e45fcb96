//! A recording as a picture: time runs down, a lane for each process, and a column for each word that changes.
#![tactic(auto)]

pub mod brief;
pub mod brief_style;
pub mod brief_words;
pub mod pen;
pub mod processes;
pub mod script;
pub mod style;
pub mod svg;
pub mod words;
