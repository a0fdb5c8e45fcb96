//! Clients of a server, over loopback.
#![tactic(auto)]

#[cfg(test)]
mod loopback;
#[cfg(test)]
mod serving;
