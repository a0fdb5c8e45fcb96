//! Small settings of the queue, the mark and the registers, gone through in full, and wrong steps of the queue, which are
//! found.
#![tactic(auto)]

pub mod calls;
pub mod flaws;
pub mod judge;
pub mod marks;
pub mod queues;
pub mod registers;
#[cfg(test)]
mod right;
pub mod settings;
#[cfg(test)]
mod small;
#[cfg(test)]
mod wrong;
