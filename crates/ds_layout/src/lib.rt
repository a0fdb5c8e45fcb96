//! Where the words of a sheet stand, and what their numbers say.
#![tactic(auto)]

pub mod announcement;
pub mod bits;
pub mod head;
pub mod header;
pub mod layout;
pub mod mark;
pub mod place;
pub mod sheet_words;
pub mod stored;
pub mod text;
