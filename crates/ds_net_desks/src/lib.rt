//! Sheets that threads share, with a store of their edits: as the desk of one session, and as a floor.
#![tactic(auto)]

mod cell_question;
mod computed;
mod counts;
pub mod keyed;
pub mod numbered_seat;
pub mod numbering;
pub mod seat_pool;
pub mod shared_desk;
mod shared_settle;
pub mod stored_desk;
pub mod stored_floor;
