//! Threads on a shared sheet: calls that are drawn, and what they were answered against the words.
#![tactic(auto)]

#[cfg(test)]
mod account;
#[cfg(test)]
mod crowd;
#[cfg(test)]
mod draw;
#[cfg(test)]
mod ends;
#[cfg(test)]
mod gate;
#[cfg(test)]
mod grid;
#[cfg(test)]
mod hand;
#[cfg(test)]
mod pairs;
#[cfg(test)]
mod rounds;
#[cfg(test)]
mod single;
#[cfg(test)]
mod stale;
#[cfg(test)]
mod twins;
