//! The states that were gone through, and how they lead to each other.

use std::alloc::{AllocError, Global};

/// What may happen in a state, by its number, and the number of the state that it leads to.
#[derive(Clone, Copy, Debug, PartialEq, Eq)]
pub(crate) struct Lead {
    /// The number of what happens.
    pub(crate) by: u32,
    /// The number of the state after it.
    pub(crate) to: u32,
}

/// A state that is gone through.
#[derive(Drop)]
pub(crate) struct Node {
    /// The number of the state.
    pub(crate) state: u32,
    /// What may happen in it.
    pub(crate) edges: Vec<Lead>,
    /// The outcome of an order that ends in it, where no call is under way.
    pub(crate) end: Option<usize>,
    /// The outcome of an order that ends with a crash in it.
    pub(crate) crash: Option<usize>,
}

/// An order that comes to a state again: the numbers of what happens before it is there first, and of what happens from there
/// on until it is there again.
#[derive(Drop)]
pub(crate) struct Circle {
    /// What happens before.
    pub(crate) before: Vec<u32>,
    /// What happens from there on.
    pub(crate) around: Vec<u32>,
}

/// How the orders come to a state.
#[derive(Clone, Copy, Debug, PartialEq, Eq)]
pub(crate) struct Way {
    /// How many beginnings of orders lead to it, at most 2^128 - 1.
    pub(crate) orders: u128,
    /// How many events the shortest of them has.
    pub(crate) length: u64,
    /// The last event of that one, with the number of the state before it; none of the first state.
    pub(crate) last: Option<Lead>,
}

// No order comes to a state.
const NONE: Way = Way {
    orders: 0,
    length: u64::MAX,
    last: None,
};

// The way to the first state.
const FIRST: Way = Way {
    orders: 1,
    length: 0,
    last: None,
};

impl Way {
    // More orders come to a state, by what happens in another one.
    fn join(&mut self, before: Way, from: u32, by: u32) {
        self.orders = self.orders.saturating_add(before.orders);
        let length = before.length.saturating_add(1);
        if length < self.length {
            self.length = length;
            self.last = Some(Lead { by, to: from });
        }
    }
}

/// The ways to a state of this number.
pub(crate) fn way_to(ways: &[Way], state: u32) -> Way {
    match ways.get(state as usize) {
        Some(way) => *way,
        None => NONE,
    }
}

// The ways to a state lead on to those that its edges lead to.
fn lead_on(ways: &mut Vec<Way>, node: &Node) {
    let before = way_to(ways, node.state);
    for edge in &node.edges {
        if let Some(way) = ways.get_mut(edge.to as usize) {
            way.join(before, node.state, edge.by);
        }
    }
}

/// The ways to each of that number of states, the first of which has number 0. The nodes stand in the order in which
/// they were left: each after those that it leads to.
pub(crate) fn ways(alloc: Global, states: usize, nodes: &[Node]) -> Result<Vec<Way>, AllocError> {
    let mut ways = vec![in alloc; NONE; states]?;
    if let Some(first) = ways.get_mut(0) {
        *first = FIRST;
    }
    for node in nodes.iter().rev() {
        lead_on(&mut ways, node);
    }
    Ok(ways)
}

/// What happens on the shortest way to a state, from the first state on: the numbers of the events.
pub(crate) fn path(alloc: Global, ways: &[Way], state: u32) -> Result<Vec<u32>, AllocError> {
    let mut path = Vec::new(alloc);
    let mut at = state;
    for _ in 0..ways.len() {
        let Some(last) = way_to(ways, at).last else {
            break;
        };
        path.push(last.by)?;
        at = last.to;
    }
    path.reverse();
    Ok(path)
}
