//! Values of drawn sheets, against a second evaluation.
#![tactic(auto)]

#[cfg(test)]
mod random;
