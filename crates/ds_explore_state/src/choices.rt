//! What may come next in an order.

ghost use Rattle.std.specs.Prelude.{◌≡◌, ◌≢◌, ◌↔◌, ◌<◌, ℕ, List, All, AllPairs, Contains, IfOk, IsTrue, OnOk, Some, slice_get};
ghost use Rattle.ds_layout.specs.declared.place.Place.{Place};
ghost use Rattle.ds_explore_state.specs.Drawn.{AreMoves, CanCome, IsOf};
ghost use Rattle.ds_explore_state.specs.declared.position.Move.{Move};
ghost use Rattle.ds_explore_state.specs.declared.position.Move.TheVariants.{Evict, Step, Stop};

use crate::orders::{Allowed, is_busy, is_dirty};
use crate::position::{Move, Position};
use ds_layout::place::Place;
use ds_paths::graph::Edge;
use std::alloc::{AllocError, Global};

/// What comes next in an order.
#[derive(Clone, Copy, Debug, PartialEq, Eq)]
pub enum Choice {
    /// This happens.
    Happens(Move),
    /// The order ends, where no call is under way.
    Rests,
    /// The order ends with a crash.
    Crashes,
}

// The steps of as many processes.
fn steps(alloc: Global, processes: usize) -> Result<Vec<Move>, AllocError>
    ensures each { IfOk result (λ moves. (places : List Place) → All (IsOf places) moves.items) }
    ensures steps { IfOk result (λ moves. (p : ℕ) → p < processes → Contains moves.items (Step p)) }
{
    let mut moves = Vec::new(alloc);
    for process in 0..processes {
        moves.push(Move::Step(process))?;
    }
    Ok(moves)
}

// The stops of as many processes are added.
fn add_stops(moves: &mut Vec<Move>, processes: usize) -> Result<(), AllocError>
    ensures each { (places : List Place) → All (IsOf places) moves.old.items → OnOk result (All (IsOf places) moves.new.items) }
    ensures kept { (move : Move) → Contains moves.old.items move → OnOk result (Contains moves.new.items move) }
    ensures stops { OnOk result ((p : ℕ) → p < processes → Contains moves.new.items (Stop p)) }
{
    for process in 0..processes {
        moves.push(Move::Stop(process))?;
    }
    Ok(())
}

// The evictions of these words are added.
fn add_evictions(moves: &mut Vec<Move>, places: &[Place]) -> Result<(), AllocError>
    ensures each { All (IsOf places.now) moves.old.items → OnOk result (All (IsOf places.now) moves.new.items) }
    ensures kept { (move : Move) → Contains moves.old.items move → OnOk result (Contains moves.new.items move) }
    ensures evictions { OnOk result ((i : ℕ) (place : Place) → slice_get places.now i ≡ Some place → Contains moves.new.items (Evict place)) }
{
    for number in 0..places.len() {
        moves.push(Move::Evict(places[number]))?;
    }
    Ok(())
}

/// All that may happen while there are as many processes: their steps, their stops, and evictions of these words. An error
/// means that an allocation failed.
pub fn moves_of(alloc: Global, processes: usize, places: &[Place]) -> Result<Vec<Move>, AllocError>
    ensures { IfOk result (λ moves. AreMoves processes places.now moves.items) }
{
    let mut moves = steps(alloc, processes)?;
    add_stops(&mut moves, processes)?;
    add_evictions(&mut moves, places)?;
    Ok(moves)
}

/// Whether this may happen at a position, of the evictions those of any words.
pub fn can_come(allowed: Allowed, position: &Position, next: Move) -> bool
    ensures { IsTrue result ↔ CanCome allowed position.now next }
{
    match next {
        Move::Step(process) => is_busy(position, process),
        Move::Stop(process) => allowed.stops && is_busy(position, process),
        Move::Evict(place) => {
            allowed.evictions && is_dirty(&position.world, place) && position.is_under_way()
        }
    }
}

// Whether these are two.
fn differ(a: Choice, b: Choice) -> bool
    ensures { IsTrue result → a ≢ b }
{
    a != b
}

// Whether none of the edges has this label.
fn lack(edges: &[Edge<Choice>], choice: Choice) -> bool
    ensures { IsTrue result → All (λ edge. edge.by ≢ choice) edges.now }
{
    for number in 0..edges.len() {
        if !differ(edges[number].by, choice) {
            return false;
        }
    }
    true
}

/// Whether no two of the edges have one label.
pub(crate) fn are_apart(edges: &[Edge<Choice>]) -> bool
    ensures { IsTrue result → AllPairs (λ a b. a.by ≢ b.by) edges.now }
{
    for number in 0..edges.len() {
        if !lack(&edges[..number], edges[number].by) {
            return false;
        }
    }
    true
}
