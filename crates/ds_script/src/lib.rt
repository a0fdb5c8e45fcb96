//! Scripts over a world: lines of commands in, answers out.
#![tactic(auto)]

pub mod carry;
pub mod drive;
pub mod order;
pub mod places;
pub mod point;
pub mod recalculate;
pub mod script;
pub mod settle;
pub mod texts;
pub mod turn;
