//! What the tests of scripts, grids, blocks and sessions share: a reader and a writer that fail.
#![tactic(auto)]

pub mod streams;
