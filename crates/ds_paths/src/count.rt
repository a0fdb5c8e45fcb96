//! How many paths lead to each vertex.

ghost use Rattle.std.specs.Prelude.{◌≡◌, ◌<◌, ℕ, All, IfOk, IsTrue, length, slice_index_or};
ghost use Rattle.ds_paths.specs.Paths.{AreApart, AreCounts};
ghost use Rattle.ds_paths.specs.Sums.{AreSums, LeadsUp};

use crate::graph::Edge;
use std::alloc::{AllocError, Global};

// Whether each edge leads between two of as many vertices, from one of a lower rank to one of a higher rank.
fn leads_up<L>(edges: &[Edge<L>], ranks: &[u32]) -> bool
    ensures { IsTrue result → All (LeadsUp ranks.now) edges.now }
{
    for edge in edges {
        let (from, to) = (edge.from as usize, edge.to as usize);
        if from >= ranks.len() || to >= ranks.len() || ranks[from] >= ranks[to] {
            return false;
        }
    }
    true
}

// Of each vertex the paths that its edges bring to it, where these numbers lead to the vertices that they leave; to vertex 0
// leads one more.
fn sums<L>(alloc: Global, edges: &[Edge<L>], counts: &[u128]) -> Result<Vec<u128>, AllocError>
    requires { All (λ edge. (edge.from < length counts.now) × (edge.to < length counts.now)) edges.now }
    ensures { IfOk result (λ sums. AreSums edges.now counts.now sums.items) }
{
    let mut sums = vec![in alloc; 0u128; counts.len()]?;
    if !sums.is_empty() {
        sums[0] = 1;
    }
    for edge in edges {
        let (from, to) = (edge.from as usize, edge.to as usize);
        sums[to] = sums[to].saturating_add(counts[from]);
    }
    Ok(sums)
}

/// Whether these are the numbers of paths from vertex 0 to each vertex, where ranks rise along the edges. An error means that
/// an allocation failed.
pub fn are_counts<L>(
    alloc: Global,
    edges: &[Edge<L>],
    ranks: &[u32],
    counts: &[u128],
) -> Result<bool, AllocError>
    requires { AreApart edges.now }
    ensures { IfOk result (λ b. IsTrue b → AreCounts edges.now counts.now) }
{
    if ranks.len() != counts.len() || !leads_up(edges, ranks) {
        return Ok(false);
    }
    let sums = sums(alloc, edges, counts)?;
    Ok(sums.as_slice() == counts)
}
