//! Whole works on a board.

ghost use Rattle.std.specs.Prelude.{◌≡◌, ◌<◌, ℕ, MatchOption};
ghost use Rattle.ds_state.specs.declared.situation.Situation.TheVariants.{Idle};
ghost use Rattle.ds_work.specs.WorkTakes.{IsAskedFor};
ghost use Rattle.pm_board.specs.Fuses.{Asked};
ghost use Rattle.pm_board.specs.Views.{RunsOne, Sits};
ghost use Rattle.ds_structure.specs.Calls.{second_rest};
ghost use Rattle.ds_structure_shared.specs.Works.{EndsWork, StopsWork};

use crate::board::KeptBoard;
use crate::calls::{SheetSeat, work};
use ds_state::work::{WorkCall, WorkEnd};
use ds_structure::work::WorkPause;
use ds_work::laws::works_are_of_a_sheet;
use ds_work::offer::offer_to;
use pm_board::fuse::Fuse;
use std::alloc::Global;

impl KeptBoard {
    /// An idle process works on a cell, from the begin to the answer: how that ended, or None where the fuse broke it off
    /// before. It reads its content, or copies the kept one, and takes its entry with the step before them.
    pub fn work<F: Fuse>(
        &self,
        alloc: Global,
        place: &mut SheetSeat,
        call: &mut WorkCall,
        fuse: &mut F,
    ) -> Option<WorkEnd>
        requires table { place.old.table_id ≡ self.now.words.table.shared.table_id }
        requires sits { Sits place.old.me call.old.process (Idle (second_rest call.old.next)) }
        requires asked { IsAskedFor self.now.layout call.old.process (second_rest call.old.next) call.old.cell call.old }
        ensures table { place.new.table_id ≡ place.old.table_id }
        ensures same { (call.new.process ≡ call.old.process) × (call.new.next ≡ call.old.next) × (call.new.cell ≡ call.old.cell) }
        ensures ended { MatchOption result ((n : ℕ) × Asked F.said fuse.old fuse.new n 1 × StopsWork self.now.layout call.old place.old.me place.new.me n) (λ end. (n : ℕ) × Asked F.said fuse.old fuse.new n 0 × EndsWork call.old place.old.me place.new.me call.new end n) }
        ensures runs { RunsOne place.new.me call.old.process }
    {
        loop {
            let pause = work(&self.words, place, call, fuse);
            works_are_of_a_sheet(call);
            match pause {
                None => return None,
                Some(WorkPause::Answers(end)) => return Some(end),
                Some(WorkPause::Reads) => self.kept.read(alloc, call, self.layout.shape),
                Some(WorkPause::Waits) => offer_to(call, self.layout.shape),
            }
        }
    }
}
