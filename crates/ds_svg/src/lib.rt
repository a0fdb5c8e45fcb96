//! Pages of SVG that are well-formed at each moment, by their type.
#![tactic(auto)]

pub mod escape;
pub mod laws;
pub mod page;
pub mod tag;
