//! The edges of a graph.

/// An edge of a graph whose vertices have numbers, from 0.
#[derive(Clone, Copy, Debug, Drop, PartialEq, Eq)]
pub struct Edge<L> {
    /// The vertex that it leaves.
    pub from: u32,
    /// Its label.
    pub by: L,
    /// The vertex that it enters.
    pub to: u32,
}
