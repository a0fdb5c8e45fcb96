//! Texts: which are read, with which fault the others are refused, and how their contents are written.
#![tactic(auto)]

#[cfg(test)]
mod contents;
