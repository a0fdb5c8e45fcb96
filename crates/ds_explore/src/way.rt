//! The states of a search that was cut: which were gone through, and which are on the way on which it was cut.

ghost use Rattle.std.specs.Prelude.{◌≡◌, ◌<◌, ◌⊎◌, ℕ, false, true, IfOk, IfSome, IsTrue, OnOk, slice_index_or};
ghost use Rattle.ds_explore_state.specs.Drawn.{AreDrawn};
ghost use Rattle.ds_explore_state.specs.States.{groups_of};
ghost use Rattle.ds_explore_state.specs.declared.position.Position.{Position};
ghost use Rattle.ds_explore.specs.Judging.{texts_of};
ghost use Rattle.ds_explore.specs.Met.{AreOnWay};
ghost use Rattle.ds_explore.specs.Starts.{allowed_by};
ghost use Rattle.ds_explore.specs.Whole.{AreGoneThrough, IsAmong};

use crate::among::Outcomes;
use crate::met::Meeting;
use ds_explore_state::closure::{Drawing, Found, draw_part};
use ds_explore_state::position::Position;
use std::alloc::{AllocError, Global};

// Whether the state with this number has a mark.
fn is_marked(marks: &[bool], number: usize) -> bool
    ensures { IsTrue result → slice_index_or marks.now number false ≡ true }
{
    number < marks.len() && marks[number]
}

// Whether it has a mark of these, or of those.
fn is_either(these: &[bool], those: &[bool], number: usize) -> bool
    ensures { IsTrue result → (slice_index_or these.now number false ≡ true) ⊎ (slice_index_or those.now number false ≡ true) }
{
    is_marked(these, number) || is_marked(those, number)
}

// Whether each of n states has a mark of these, or of those.
fn are_either(these: &[bool], those: &[bool], count: usize) -> bool
    ensures { IsTrue result → (number : ℕ) → number < count → (slice_index_or these.now number false ≡ true) ⊎ (slice_index_or those.now number false ≡ true) }
{
    for number in 0..count {
        if !is_either(these, those, number) {
            return false;
        }
    }
    true
}

impl Meeting<'_> {
    // The state of the position is marked. An error is also that it was not found.
    fn pass(
        &self,
        alloc: Global,
        position: &Position,
        marks: &mut Vec<bool>,
    ) -> Result<(), AllocError>
        ensures { AreOnWay self.now.start.now self.now.states.now marks.old.items position.now → OnOk result (AreOnWay self.now.start.now self.now.states.now marks.new.items position.now) }
    {
        let Some(number) = self.states.number_of(alloc, position, &self.start.touched)? else {
            return Err(AllocError);
        };
        let at = number as usize;
        if at >= marks.len() {
            return Err(AllocError);
        }
        marks[at] = true;
        Ok(())
    }

    // What has this number happens, and the state after it is marked.
    fn pass_on(
        &self,
        alloc: Global,
        position: &mut Position,
        by: u32,
        marks: &mut Vec<bool>,
    ) -> Result<(), AllocError>
        ensures { AreOnWay self.now.start.now self.now.states.now marks.old.items position.old → OnOk result (AreOnWay self.now.start.now self.now.states.now marks.new.items position.new) }
    {
        self.start.go_on(alloc, position, by)?;
        self.pass(alloc, position, marks)
    }

    // The states on the way are marked: those to which these events lead, one after the other. An error is also that one of
    // them may not happen, or that a state was not found.
    fn on_way(&self, alloc: Global, way: &[u32]) -> Result<Vec<bool>, AllocError>
        ensures { IfOk result (λ marks. (x : Position) × AreOnWay self.now.start.now self.now.states.now marks.items x) }
    {
        let mut marks = vec![in alloc; false; self.states.len()]?;
        let mut position = self.start.position(alloc)?;
        self.pass(alloc, &position, &mut marks)?;
        for by in way {
            self.pass_on(alloc, &mut position, *by, &mut marks)?;
        }
        Ok(marks)
    }

    // The graph of the states, as far as they were gone through.
    fn drawn(&self, alloc: Global) -> Result<Option<Drawing>, AllocError>
        ensures { IfOk result (λ some. IfSome some (λ drawing. AreDrawn self.now.states.now (groups_of self.now.start.now.touched) (IsAmong self.now.start.now.judge (texts_of self.now.keys.now)) (allowed_by self.now.start.now.options) self.now.start.now.touched.places.items self.now.start.now.first drawing.edges.items drawing.marks.items)) }
    {
        let found = Found {
            states: self.states,
            touched: &self.start.touched,
            allowed: self.start.options.allowed(),
            first: &self.start.first,
        };
        let outcomes = Outcomes {
            judge: &self.start.judge,
            keys: self.keys,
        };
        draw_part(alloc, found, &outcomes)
    }

    /// Whether each state was gone through, but for those on the way of these events: all that may come next there leads to one
    /// of the states, and what orders come to that end there is written. An error means that an allocation failed, or that
    /// there is no such way.
    pub(crate) fn are_gone_through(&self, alloc: Global, way: &[u32]) -> Result<bool, AllocError>
        ensures { IfOk result (λ gone. IsTrue gone → AreGoneThrough self.now.start.now (texts_of self.now.keys.now) self.now.states.now) }
    {
        let Some(drawing) = self.drawn(alloc)? else {
            return Ok(false);
        };
        let on_way = self.on_way(alloc, way)?;
        Ok(are_either(&drawing.marks, &on_way, self.states.len()))
    }
}
