//! A sheet on a board of the layer: an edit that is crashed after each step, and what a recovery says then.
#![tactic(auto)]

#[cfg(test)]
mod crashes;
