//! The graph of the states that were found, where nothing leads out of them and what orders come to is written.

ghost use Rattle.std.specs.Prelude.{◌≡◌, ◌<◌, [], ℕ, All, List, true, false, IfOk, IfSome, IsTrue, OnOk, length, replicate, slice_index_or};
ghost use Rattle.ds_layout.specs.declared.place.Place.{Place};
ghost use Rattle.ds_explore_state.specs.Closed.{AreKept, HasNumber, LeadsTo};
ghost use Rattle.ds_explore_state.specs.Drawn.{Adds, AreChoices, AreDrawn, AreMoves, AreNext, CanCome, IsGraph, IsNextEdge, IsOf, KnowsCrashes};
ghost use Rattle.ds_explore_state.specs.Following.{IsFollowed, IsKept};
ghost use Rattle.ds_explore_state.specs.Orders.{Happens};
ghost use Rattle.ds_explore_state.specs.States.{groups_of};
ghost use Rattle.ds_explore_state.specs.declared.choices.Choice.TheVariants as choices;
ghost use Rattle.ds_explore_state.specs.declared.position.Position.{Position};

use crate::choices::{Choice, are_apart, can_come, moves_of};
use crate::endings::{CrashOutcomes, Endings, add_crash, add_rest};
use crate::orders::{Allowed, can_happen};
use crate::position::{Move, Position};
use crate::states::States;
use crate::touched::Touched;
use ds_paths::graph::Edge;
use std::alloc::{AllocError, Global};

/// The states that were found, the words that are followed, and what may come between steps or after them.
#[derive(Clone, Copy)]
pub struct Found<'a> {
    /// The states.
    pub states: &'a States,
    /// The words.
    pub touched: &'a Touched,
    /// What may come between steps, or after them.
    pub allowed: Allowed,
    /// The position in which all orders begin.
    pub first: &'a Position,
}

// A position whose successors are gone through.
#[derive(Drop)]
struct Visit {
    // The position, as long as something has not happened in it.
    position: Option<Position>,
    // What has not yet happened in it, and how an order may end there.
    ahead: Vec<Edge<Choice>>,
}

// Whether this can happen at the position, and has happened, with words of the groups written alone.
fn lead(
    alloc: Global,
    touched: &Touched,
    position: &mut Position,
    next: Move,
) -> Result<bool, AllocError>
    ensures happens { IfOk result (λ b. IsTrue b → Happens position.old next position.new) }
    ensures follows { IfOk result (λ b. IsTrue b → (first : Position) → IsFollowed (groups_of touched.now) first position.old → IsFollowed (groups_of touched.now) first position.new) }
{
    if !can_happen(position, next) {
        return Ok(false);
    }
    let written = position.apply(alloc, next)?;
    Ok(touched.has_written(written))
}

// The number of the state that this leads to.
fn leads_to(
    alloc: Global,
    states: &States,
    touched: &Touched,
    position: &Position,
    next: Move,
) -> Result<Option<u32>, AllocError>
    ensures { IfOk result (λ some. IfSome some (LeadsTo states.now (groups_of touched.now) position.now next)) }
{
    let mut after = position.copy(alloc)?;
    let led = lead(alloc, touched, &mut after, next)?;
    if !led {
        return Ok(None);
    }
    states.number_of(alloc, &after, touched)
}

// Adds the edge to the state that this leads to, if it may happen at the position, whose state has this number. False where
// that state was not found.
fn add_next(
    alloc: Global,
    found: Found<'_>,
    position: &Position,
    number: u32,
    by: Move,
    edges: &mut Vec<Edge<Choice>>,
) -> Result<bool, AllocError>
    requires { IsOf found.touched.now.places.items by }
    ensures { IfOk result (λ b. IsTrue b → Adds (IsNextEdge found.entry.states.now (groups_of found.entry.touched.now) found.entry.allowed found.entry.touched.now.places.items position.now number) (CanCome found.entry.allowed position.now by) (choices.Happens by) edges.old.items edges.new.items) }
{
    if !can_come(found.allowed, position, by) {
        return Ok(true);
    }
    let Some(to) = leads_to(alloc, found.states, found.touched, position, by)? else {
        return Ok(false);
    };
    edges.push(Edge {
        from: number,
        by: Choice::Happens(by),
        to,
    })?;
    Ok(true)
}

// The edges of all that may happen at the position, whose state has this number. None where something leads to a state that
// was not found, or there are more processes than at first.
fn next_edges(
    alloc: Global,
    found: Found<'_>,
    moves: &[Move],
    position: &Position,
    number: u32,
) -> Result<Option<Vec<Edge<Choice>>>, AllocError>
    requires { AreMoves (length found.first.now.seats.items) found.touched.now.places.items moves.now }
    ensures { IfOk result (λ some. IfSome some (λ edges. AreNext found.entry.states.now (groups_of found.entry.touched.now) found.entry.allowed found.entry.touched.now.places.items position.now number edges.items)) }
{
    if position.seats.len() > found.first.seats.len() {
        return Ok(None);
    }
    let mut edges = Vec::new(alloc);
    for at in 0..moves.len() {
        let led = add_next(alloc, found, position, number, moves[at], &mut edges)?;
        if !led {
            return Ok(None);
        }
    }
    Ok(Some(edges))
}

// The edges of all that may come next in an order at the position, whose state has this number. None where something leads
// to a state that was not found, or to an outcome that is not written.
fn all_choices<E: Endings>(
    alloc: Global,
    found: Found<'_>,
    endings: &E,
    moves: &[Move],
    position: &Position,
    number: u32,
    crashes: &mut CrashOutcomes,
) -> Result<Option<Vec<Edge<Choice>>>, AllocError>
    requires moves { AreMoves (length found.first.now.seats.items) found.touched.now.places.items moves.now }
    requires knows { KnowsCrashes found.states.now (groups_of found.touched.now) (E.numbered endings.now) found.allowed found.touched.now.places.items found.first.now crashes.old }
    requires kept { IsKept (groups_of found.touched.now) found.first.now position.now }
    ensures choices { IfOk result (λ some. IfSome some (λ edges. AreChoices found.entry.states.now (groups_of found.entry.touched.now) (E.numbered endings.now) found.entry.allowed found.entry.touched.now.places.items found.entry.first.now position.now number edges.items)) }
    ensures knows { OnOk result (KnowsCrashes found.entry.states.now (groups_of found.entry.touched.now) (E.numbered endings.now) found.entry.allowed found.entry.touched.now.places.items found.entry.first.now crashes.new) }
{
    let Some(mut edges) = next_edges(alloc, found, moves, position, number)? else {
        return Ok(None);
    };
    let rests = add_rest(alloc, found, endings, position, number, &mut edges)?;
    if !rests {
        return Ok(None);
    }
    let crashed = add_crash(alloc, found, endings, position, number, crashes, &mut edges)?;
    if !crashed || !are_apart(&edges) {
        return Ok(None);
    }
    Ok(Some(edges))
}

// The edges of what may happen at the position, whose state has this number, and leads to a state that was found.
fn found_edges(
    alloc: Global,
    found: Found<'_>,
    moves: &[Move],
    position: &Position,
    number: u32,
) -> Result<Vec<Edge<Choice>>, AllocError> {
    let mut edges = Vec::new(alloc);
    for by in moves {
        if can_come(found.allowed, position, *by) {
            if let Some(to) = leads_to(alloc, found.states, found.touched, position, *by)? {
                edges.push(Edge {
                    from: number,
                    by: Choice::Happens(*by),
                    to,
                })?;
            }
        }
    }
    Ok(edges)
}

/// What was drawn of a graph.
#[derive(Drop)]
pub struct Drawing {
    // The states that were come to.
    seen: Vec<bool>,
    /// The states whose edges were drawn, all of them.
    pub marks: Vec<bool>,
    /// The edges that leave these.
    pub edges: Vec<Edge<Choice>>,
}

// Whether the state with this number is one of those that were found, and not marked.
fn is_new(marks: &[bool], number: u32) -> bool
    ensures there { IsTrue result → number < length marks.now }
    ensures unmarked { IsTrue result → slice_index_or marks.now number false ≡ false }
{
    let at = number as usize;
    at < marks.len() && !marks[at]
}

impl Drawing {
    // The number of the state of a position, where it was not come to before.
    fn comes_to(
        &mut self,
        alloc: Global,
        found: Found<'_>,
        position: &Position,
    ) -> Result<Option<u32>, AllocError>
        ensures marks { self.new.marks ≡ self.old.marks }
        ensures edges { self.new.edges ≡ self.old.edges }
    {
        let Some(number) = found.states.number_of(alloc, position, found.touched)? else {
            return Ok(None);
        };
        match self.seen.get_mut(number as usize) {
            Some(seen) if !*seen => {
                *seen = true;
                Ok(Some(number))
            }
            _ => Ok(None),
        }
    }

    // The edges that leave the state of a position are drawn, where all that may come next there leads to states that were
    // found, or outcomes that are written: a copy of them. None where they were drawn before, or that is not so.
    fn draw<E: Endings>(
        &mut self,
        alloc: Global,
        found: Found<'_>,
        endings: &E,
        moves: &[Move],
        position: &Position,
        crashes: &mut CrashOutcomes,
    ) -> Result<Option<Vec<Edge<Choice>>>, AllocError>
        requires drawn { AreDrawn found.states.now (groups_of found.touched.now) (E.numbered endings.now) found.allowed found.touched.now.places.items found.first.now self.old.edges.items self.old.marks.items }
        requires moves { AreMoves (length found.first.now.seats.items) found.touched.now.places.items moves.now }
        requires knows { KnowsCrashes found.states.now (groups_of found.touched.now) (E.numbered endings.now) found.allowed found.touched.now.places.items found.first.now crashes.old }
        requires kept { IsKept (groups_of found.touched.now) found.first.now position.now }
        ensures drawn { OnOk result (AreDrawn found.entry.states.now (groups_of found.entry.touched.now) (E.numbered endings.now) found.entry.allowed found.entry.touched.now.places.items found.entry.first.now self.new.edges.items self.new.marks.items) }
        ensures knows { OnOk result (KnowsCrashes found.entry.states.now (groups_of found.entry.touched.now) (E.numbered endings.now) found.entry.allowed found.entry.touched.now.places.items found.entry.first.now crashes.new) }
    {
        let Some(number) = found.states.number_of(alloc, position, found.touched)? else {
            return Ok(None);
        };
        if !is_new(&self.marks, number) {
            return Ok(None);
        }
        let Some(edges) = all_choices(alloc, found, endings, moves, position, number, crashes)?
        else {
            return Ok(None);
        };
        self.edges.extend_from_slice(&edges)?;
        self.marks[number as usize] = true;
        Ok(Some(edges))
    }
}

impl Drawing {
    // The edges that lead on from a position whose state was not come to before. They are drawn, where all that may come next
    // leads to states that were found, or to outcomes that are written; else they are those that lead to such states. None
    // where the state was come to before.
    fn lead_on<E: Endings>(
        &mut self,
        alloc: Global,
        found: Found<'_>,
        endings: &E,
        moves: &[Move],
        position: &Position,
        crashes: &mut CrashOutcomes,
    ) -> Result<Option<Vec<Edge<Choice>>>, AllocError>
        requires drawn { AreDrawn found.states.now (groups_of found.touched.now) (E.numbered endings.now) found.allowed found.touched.now.places.items found.first.now self.old.edges.items self.old.marks.items }
        requires moves { AreMoves (length found.first.now.seats.items) found.touched.now.places.items moves.now }
        requires knows { KnowsCrashes found.states.now (groups_of found.touched.now) (E.numbered endings.now) found.allowed found.touched.now.places.items found.first.now crashes.old }
        requires kept { IsKept (groups_of found.touched.now) found.first.now position.now }
        ensures drawn { OnOk result (AreDrawn found.entry.states.now (groups_of found.entry.touched.now) (E.numbered endings.now) found.entry.allowed found.entry.touched.now.places.items found.entry.first.now self.new.edges.items self.new.marks.items) }
        ensures knows { OnOk result (KnowsCrashes found.entry.states.now (groups_of found.entry.touched.now) (E.numbered endings.now) found.entry.allowed found.entry.touched.now.places.items found.entry.first.now crashes.new) }
    {
        let Some(number) = self.comes_to(alloc, found, position)? else {
            return Ok(None);
        };
        match self.draw(alloc, found, endings, moves, position, crashes)? {
            Some(edges) => Ok(Some(edges)),
            None => Ok(Some(found_edges(alloc, found, moves, position, number)?)),
        }
    }
}

// The position that is there, for what happens next in it: a copy as long as more is to happen.
fn taken(
    alloc: Global,
    position: &mut Option<Position>,
    is_last: bool,
) -> Result<Option<Position>, AllocError>
    ensures copy { (groups : List (List Place)) (first : Position) → IfSome position.old (IsKept groups first) → IfOk result (λ some. IfSome some (IsKept groups first)) }
    ensures kept { (groups : List (List Place)) (first : Position) → IfSome position.old (IsKept groups first) → IfSome position.new (IsKept groups first) }
{
    if is_last {
        return Ok(position.take());
    }
    match position {
        Some(position) => Ok(Some(position.copy(alloc)?)),
        None => Ok(None),
    }
}

// What happens along an edge to a state that was not come to.
fn unseen_by(seen: &[bool], edge: Edge<Choice>) -> Option<Move> {
    match edge.by {
        Choice::Happens(by) if seen.get(edge.to as usize) == Some(&false) => Some(by),
        _ => None,
    }
}

impl Visit {
    // The next position whose state was not come to; none where all were.
    fn next(
        &mut self,
        alloc: Global,
        touched: &Touched,
        seen: &[bool],
    ) -> Result<Option<Position>, AllocError>
        ensures next { (first : Position) → IfSome self.old.position (IsKept (groups_of touched.now) first) → IfOk result (λ some. IfSome some (IsKept (groups_of touched.now) first)) }
        ensures kept { (first : Position) → IfSome self.old.position (IsKept (groups_of touched.now) first) → IfSome self.new.position (IsKept (groups_of touched.now) first) }
    {
        for _ in 0..u64::MAX {
            let Some(edge) = self.ahead.pop() else {
                return Ok(None);
            };
            if let Some(by) = unseen_by(seen, edge) {
                let is_last = self.ahead.is_empty();
                let Some(mut after) = taken(alloc, &mut self.position, is_last)? else {
                    return Ok(None);
                };
                let led = lead(alloc, touched, &mut after, by)?;
                if led {
                    return Ok(Some(after));
                }
            }
        }
        Ok(None)
    }
}

// The next position whose state was not come to, of these visits; none where all were.
fn next(
    alloc: Global,
    touched: &Touched,
    visits: &mut Vec<Visit>,
    seen: &[bool],
) -> Result<Option<Position>, AllocError>
    ensures next { (first : Position) → AreKept (groups_of touched.now) first visits.old.items → IfOk result (λ some. IfSome some (IsKept (groups_of touched.now) first)) }
    ensures kept { (first : Position) → AreKept (groups_of touched.now) first visits.old.items → OnOk result (AreKept (groups_of touched.now) first visits.new.items) }
{
    for _ in 0..u64::MAX {
        let Some(mut visit) = visits.pop() else {
            return Ok(None);
        };
        if let Some(after) = visit.next(alloc, touched, seen)? {
            visits.push(visit)?;
            return Ok(Some(after));
        }
    }
    Ok(None)
}

// Nothing was drawn, of this many states.
fn blank(alloc: Global, count: usize) -> Result<Drawing, AllocError>
    ensures marks { IfOk result (λ drawing. drawing.marks.items ≡ replicate count false) }
    ensures edges { IfOk result (λ drawing. drawing.edges.items ≡ []) }
{
    Ok(Drawing {
        seen: vec![in alloc; false; count]?,
        marks: vec![in alloc; false; count]?,
        edges: Vec::new(alloc),
    })
}

// The graph of the states that are come to from the first one on, as far as all that may come next leads to states that were
// found, or outcomes that are written.
fn draw_all<E: Endings>(
    alloc: Global,
    found: Found<'_>,
    endings: &E,
    moves: &[Move],
) -> Result<Drawing, AllocError>
    requires moves { AreMoves (length found.first.now.seats.items) found.touched.now.places.items moves.now }
    requires kept { IsKept (groups_of found.touched.now) found.first.now found.first.now }
    ensures { IfOk result (λ drawing. AreDrawn found.entry.states.now (groups_of found.entry.touched.now) (E.numbered endings.now) found.entry.allowed found.entry.touched.now.places.items found.entry.first.now drawing.edges.items drawing.marks.items) }
{
    let mut drawing = blank(alloc, found.states.len())?;
    let mut crashes = CrashOutcomes::new(alloc);
    let mut visits = Vec::new(alloc);
    let mut position = found.first.copy(alloc)?;
    for _ in 0..u64::MAX {
        if let Some(ahead) = drawing.lead_on(
            alloc,
            found,
            endings,
            moves,
            &position,
            &mut crashes,
        )? {
            visits.push(Visit {
                position: Some(position),
                ahead,
            })?;
        }
        match next(alloc, found.touched, &mut visits, &drawing.seen)? {
            Some(after) => position = after,
            None => return Ok(drawing),
        }
    }
    Ok(drawing)
}

// Whether each of n states is marked.
fn are_marked(marks: &[bool], count: usize) -> bool
    ensures { IsTrue result → (number : ℕ) → number < count → slice_index_or marks.now number false ≡ true }
{
    for number in 0..count {
        if number >= marks.len() || !marks[number] {
            return false;
        }
    }
    true
}

// Whether the position says of each of its processes what that has.
fn is_whole(position: &Position) -> bool
    ensures { IsTrue result → (groups : List (List Place)) → IsKept groups position.now position.now }
{
    position.seats.len() == position.world.words.layout().processes
}

// Whether the state of the position has number 0.
fn begins(alloc: Global, found: Found<'_>) -> Result<bool, AllocError>
    ensures { IfOk result (λ b. IsTrue b → HasNumber found.entry.states.now (groups_of found.entry.touched.now) found.entry.first.now 0) }
{
    match found.states.number_of(alloc, found.first, found.touched)? {
        Some(number) => Ok(number == 0),
        None => Ok(false),
    }
}

/// The graph of the states that were found, as far as all that may come next in a state leads to states that were found, or
/// to outcomes that are written: of each state that is marked that is so. None where the first position lacks what one of its
/// processes has. An error means that an allocation failed.
pub fn draw_part<E: Endings>(
    alloc: Global,
    found: Found<'_>,
    endings: &E,
) -> Result<Option<Drawing>, AllocError>
    ensures kept { IfOk result (λ some. IfSome some (λ drawing. IsKept (groups_of found.entry.touched.now) found.entry.first.now found.entry.first.now)) }
    ensures drawn { IfOk result (λ some. IfSome some (λ drawing. AreDrawn found.entry.states.now (groups_of found.entry.touched.now) (E.numbered endings.now) found.entry.allowed found.entry.touched.now.places.items found.entry.first.now drawing.edges.items drawing.marks.items)) }
{
    if !is_whole(found.first) {
        return Ok(None);
    }
    let moves = moves_of(alloc, found.first.seats.len(), &found.touched.places)?;
    Ok(Some(draw_all(alloc, found, endings, &moves)?))
}

/// The graph of the states that were found, where these are all: the first one has number 0, nothing that may happen leads
/// out of them, and it is written what orders come to that end in one of them. Else none. An error means that an allocation
/// failed.
pub fn draw_graph<E: Endings>(
    alloc: Global,
    found: Found<'_>,
    endings: &E,
) -> Result<Option<Vec<Edge<Choice>>>, AllocError>
    ensures kept { IfOk result (λ some. IfSome some (λ edges. IsKept (groups_of found.entry.touched.now) found.entry.first.now found.entry.first.now)) }
    ensures graph { IfOk result (λ some. IfSome some (λ edges. IsGraph found.entry.states.now (groups_of found.entry.touched.now) (E.numbered endings.now) found.entry.allowed found.entry.touched.now.places.items found.entry.first.now edges.items)) }
{
    let begins = begins(alloc, found)?;
    if !begins {
        return Ok(None);
    }
    let Some(drawing) = draw_part(alloc, found, endings)? else {
        return Ok(None);
    };
    if are_marked(&drawing.marks, found.states.len()) {
        Ok(Some(drawing.edges))
    } else {
        Ok(None)
    }
}
