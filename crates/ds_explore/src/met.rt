//! The states that a search found, come to once more by orders.

ghost use Rattle.std.specs.Prelude.{◌≡◌, ◌<◌, ℕ, false, true, IfOk, IfSome, IsTrue, OnOk, length, replicate, slice_index_or};
ghost use Rattle.ds_explore_state.specs.Closed.{keys_of};
ghost use Rattle.ds_explore.specs.Judging.{texts_of};
ghost use Rattle.ds_explore.specs.Met.{AreLedTo, AreMet};
ghost use Rattle.ds_explore.specs.Starts.{IsLedTo};
ghost use Rattle.ds_explore.specs.Whole.{IsMet};

use crate::among::Outcomes;
use crate::graph::{Lead, Node};
use crate::search::Start;
use ds_explore_state::endings::Endings;
use ds_explore_state::position::Position;
use ds_explore_state::states::States;
use std::alloc::{AllocError, Global};

/// The states that a search found from a start on, how they lead to each other, and the keys of the outcomes that are written.
#[derive(Clone, Copy)]
pub(crate) struct Meeting<'a> {
    pub(crate) start: &'a Start,
    pub(crate) states: &'a States,
    pub(crate) nodes: &'a [Node],
    pub(crate) keys: &'a [Vec<u8>],
}

// A position on the way, the number of its state, and how many of the events that lead on from there were carried out.
#[derive(Drop)]
struct Stop {
    position: Position,
    state: u32,
    done: usize,
}

// Where the node of each state stands.
fn places(alloc: Global, states: usize, nodes: &[Node]) -> Result<Vec<usize>, AllocError> {
    let mut places = vec![in alloc; usize::MAX; states]?;
    for index in 0..nodes.len() {
        if let Some(place) = places.get_mut(nodes[index].state as usize) {
            *place = index;
        }
    }
    Ok(places)
}

// Whether all of these are marked.
fn are_marked(marks: &[bool]) -> bool
    ensures { IsTrue result → (n : ℕ) → n < length marks.now → slice_index_or marks.now n false ≡ true }
{
    for mark in marks {
        if !*mark {
            return false;
        }
    }
    true
}

impl Meeting<'_> {
    // Whether the state of the position has this number, and what an order comes to that ends there is written.
    fn meets(&self, alloc: Global, position: &Position, number: u32) -> Result<bool, AllocError>
        ensures { IfOk result (λ meets. IsTrue meets → IsLedTo self.now.start.now position.now → IsMet self.now.start.now (texts_of self.now.keys.now) self.now.states.now number) }
    {
        let Some(found) = self.states.number_of(alloc, position, &self.start.touched)? else {
            return Ok(false);
        };
        if found != number {
            return Ok(false);
        }
        if position.is_under_way() {
            return Ok(true);
        }
        let outcomes = Outcomes {
            judge: &self.start.judge,
            keys: self.keys,
        };
        let Some(_outcome) = outcomes.number(alloc, position, false)? else {
            return Ok(false);
        };
        Ok(true)
    }

    // The state of the position, which has this number, is marked. An error is also that it has another one, or that what an
    // order comes to that ends there is not written.
    fn mark(
        &self,
        alloc: Global,
        position: &Position,
        number: u32,
        marks: &mut Vec<bool>,
    ) -> Result<(), AllocError>
        ensures { IsLedTo self.now.start.now position.now → AreMet self.now.start.now (texts_of self.now.keys.now) self.now.states.now marks.old.items → OnOk result (AreMet self.now.start.now (texts_of self.now.keys.now) self.now.states.now marks.new.items) }
    {
        if !self.meets(alloc, position, number)? {
            return Err(AllocError);
        }
        let at = number as usize;
        if at >= marks.len() {
            return Err(AllocError);
        }
        marks[at] = true;
        Ok(())
    }

    // The position that the event leads to, where its state was not come to yet.
    fn next(
        &self,
        alloc: Global,
        position: &Position,
        lead: Lead,
        marks: &mut Vec<bool>,
    ) -> Result<Option<Position>, AllocError>
        ensures marks { IsLedTo self.now.start.now position.now → AreMet self.now.start.now (texts_of self.now.keys.now) self.now.states.now marks.old.items → OnOk result (AreMet self.now.start.now (texts_of self.now.keys.now) self.now.states.now marks.new.items) }
        ensures led { IsLedTo self.now.start.now position.now → IfOk result (λ next. IfSome next (IsLedTo self.now.start.now)) }
    {
        if marks.get(lead.to as usize) != Some(&false) {
            return Ok(None);
        }
        let next = self.start.gone_on(alloc, position, lead.by)?;
        self.mark(alloc, &next, lead.to, marks)?;
        Ok(Some(next))
    }

    // The event with this number that leads on from a state.
    fn lead(&self, places: &[usize], state: u32, number: usize) -> Option<Lead> {
        let place = places.get(state as usize)?;
        let node = self.nodes.get(*place)?;
        match node.edges.get(number) {
            Some(lead) => Some(*lead),
            None => None,
        }
    }

    // The way goes on from its last stop: by the next event, or back where none is left.
    fn go_on(
        &self,
        alloc: Global,
        places: &[usize],
        stop: Stop,
        way: &mut Vec<Stop>,
        marks: &mut Vec<bool>,
    ) -> Result<(), AllocError>
        ensures { IsLedTo self.now.start.now stop.position → AreLedTo self.now.start.now way.old.items → AreMet self.now.start.now (texts_of self.now.keys.now) self.now.states.now marks.old.items
            → OnOk result (AreLedTo self.now.start.now way.new.items × AreMet self.now.start.now (texts_of self.now.keys.now) self.now.states.now marks.new.items) }
    {
        let Some(lead) = self.lead(places, stop.state, stop.done) else {
            return Ok(());
        };
        let next = self.next(alloc, &stop.position, lead, marks)?;
        let Stop {
            position,
            state,
            done,
        } = stop;
        way.push(Stop {
            position,
            state,
            done: done.saturating_add(1),
        })?;
        let Some(next) = next else {
            return Ok(());
        };
        way.push(Stop {
            position: next,
            state: lead.to,
            done: 0,
        })?;
        Ok(())
    }

    // The states to which orders come are marked.
    fn marks(&self, alloc: Global) -> Result<Vec<bool>, AllocError>
        ensures { IfOk result (λ marks. AreMet self.now.start.now (texts_of self.now.keys.now) self.now.states.now marks.items) }
    {
        let places = places(alloc, self.states.len(), self.nodes)?;
        let mut marks = vec![in alloc; false; self.states.len()]?;
        let position = self.start.led_to(alloc, &[])?;
        self.mark(alloc, &position, 0, &mut marks)?;
        let mut way = Vec::new(alloc);
        way.push(Stop {
            position,
            state: 0,
            done: 0,
        })?;
        for _ in 0..u64::MAX {
            let Some(stop) = way.pop() else {
                return Ok(marks);
            };
            self.go_on(alloc, &places, stop, &mut way, &mut marks)?;
        }
        Ok(marks)
    }

    /// Whether an order comes to each of the states, and what it comes to where it ends there is written. An error means that an
    /// allocation failed, or that it is not so.
    pub(crate) fn are_met(&self, alloc: Global) -> Result<bool, AllocError>
        ensures { IfOk result (λ met. IsTrue met → (number : ℕ) → number < length (keys_of self.now.states.now) → IsMet self.now.start.now (texts_of self.now.keys.now) self.now.states.now number) }
    {
        let marks = self.marks(alloc)?;
        if marks.len() != self.states.len() {
            return Ok(false);
        }
        Ok(are_marked(&marks))
    }
}
