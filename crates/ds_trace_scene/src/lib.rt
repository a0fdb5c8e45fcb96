//! What stands where in a picture of a recording: lanes, columns, and the texts of both.
#![tactic(auto)]

pub mod buffers;
pub mod columns;
pub mod lanes;
pub mod meaning;
pub mod names;
pub mod places;
pub mod points;
pub mod texts;
