//! A crash after each step of a write, and threads that share registers and a mark.
#![tactic(auto)]

#[cfg(test)]
mod crashes;
#[cfg(test)]
mod threads;
