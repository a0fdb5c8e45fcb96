//! Registers that remember across crashes: process `p` has the register `p`, in the words `2 p` (its announcement) and
//! `2 p + 1` (its head). The values that it writes ascend: a caller packs a number and what it keeps into one.
#![tactic(auto)]

pub mod calls;
pub mod laws;
pub mod registers;
