//! A client of a server of sheets: lines of the script language as its requests, and its answers as a script's.
#![tactic(auto)]

pub mod answer;
pub mod ask;
pub mod keys;
pub mod laws;
pub mod request;
