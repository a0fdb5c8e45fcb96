//! Sessions beside calls under way, with readers and writers that fail, and answers that a sheet alone never gives.
#![tactic(auto)]

#[cfg(test)]
mod answers;
#[cfg(test)]
mod beside;
#[cfg(test)]
mod failing;
#[cfg(test)]
mod reading;
#[cfg(test)]
mod talking;
