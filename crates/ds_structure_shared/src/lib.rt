//! The calls of a sheet on a board of pm_board, which threads share, and the texts that edits have read.
#![tactic(auto)]

pub mod board;
pub mod calls;
pub mod fetch;
pub mod kept;
pub mod work;
