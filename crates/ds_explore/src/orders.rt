//! How many orders lead to each outcome, and a shortest one.

use crate::graph::{Node, Way, way_to, ways};
use std::alloc::{AllocError, Global};

/// The orders that lead to an outcome.
#[derive(Clone, Copy, Debug, PartialEq, Eq)]
pub(crate) struct Orders {
    /// How many there are, at most 2^128 - 1.
    pub(crate) count: u128,
    /// How many events the shortest of them has.
    pub(crate) length: u64,
    /// The state in which that one ends, or the crash comes.
    pub(crate) state: u32,
}

impl Orders {
    /// No order.
    pub(crate) const NONE: Orders = Orders {
        count: 0,
        length: u64::MAX,
        state: 0,
    };

    // As many more as come to a state.
    fn join(&mut self, way: Way, state: u32) {
        self.count = self.count.saturating_add(way.orders);
        if way.length < self.length {
            self.length = way.length;
            self.state = state;
        }
    }
}

// The orders that come to a state end with an outcome.
fn add(orders: &mut Vec<Orders>, outcome: Option<usize>, way: Way, state: u32) {
    let Some(outcome) = outcome else {
        return;
    };
    if let Some(orders) = orders.get_mut(outcome) {
        orders.join(way, state);
    }
}

/// The orders of each of n outcomes, and the ways to each of m states.
pub(crate) fn count_orders(
    alloc: Global,
    states: usize,
    outcomes: usize,
    nodes: &[Node],
) -> Result<(Vec<Orders>, Vec<Way>), AllocError> {
    let ways = ways(alloc, states, nodes)?;
    let mut orders = vec![in alloc; Orders::NONE; outcomes]?;
    for node in nodes {
        let way = way_to(&ways, node.state);
        add(&mut orders, node.end, way, node.state);
        add(&mut orders, node.crash, way, node.state);
    }
    Ok((orders, ways))
}
