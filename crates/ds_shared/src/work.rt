//! Works on the shared sheet.

ghost use Rattle.std.specs.Prelude.{◌<◌, ◌≡◌, false, ◌+◌, ◌*◌, ◌/◌};
ghost use Rattle.ds_formula.specs.Cells.{IsInside, index_of};
ghost use Rattle.ds_layout.specs.Places.{cells_of};
ghost use Rattle.ds_state.specs.Works.{PlainWorkCall};
ghost use Rattle.ds_work.specs.WorkTakes.{IsAskedFor, RefusesIn};
ghost use Rattle.ds_core.specs.declared.event.Event.TheVariants.{BeginWork};
ghost use Rattle.ds_core.specs.declared.reply.Reply.TheVariants.{Entered};
ghost use Rattle.ds_shared_runs.specs.declared.history.CallEvent.TheVariants.{Began, Worked};
ghost use Rattle.pm_base.specs.Structures.{In};
ghost use Rattle.ds_shared.specs.Rules.{work_rules};
ghost use Rattle.ds_structure.specs.Calls.{second_rest};
ghost use Rattle.ds_structure_shared.specs.Boards.{SheetDeed};
ghost use Rattle.ds_shared.specs.Known.{outcomes};
ghost use Rattle.ds_shared.specs.Answers.{HasFewSteps, IsOf, IfAnswered, IfRefused, IfStopped, IsAskedEachStep, BreaksOff, IsWorkOf, Tells, doing};

use crate::ended::Ended;
use crate::pass::Pass;
use crate::sheet::SharedSheet;
use ds_formula::cells::Cell;
use ds_state::refusal::Refusal;
use ds_state::work::WorkEnd;
use ds_work::begin::fresh;
use pm_board::fuse::Fuse;
use std::alloc::Global;

impl SharedSheet {
    /// Works on a cell: where its mark is dirty, it is claimed, evaluated and published.
    pub fn work<F: Fuse>(
        &self,
        alloc: Global,
        pass: &mut Pass,
        cell: Cell,
        fuse: &mut F,
    ) -> Ended<WorkEnd>
        requires pass { IsOf self.now pass.old }
        requires cell { IsInside self.now.board.layout.shape cell }
        ensures pass { IsOf self.now pass.new × (pass.new.process ≡ pass.old.process) }
        ensures answered { IfAnswered result (λ end. (e : PlainWorkCall) × IsWorkOf e pass.old (index_of self.now.board.layout.shape cell) × Tells self.now.board.layout pass.old pass.new (Began (BeginWork pass.old.process cell) Entered) (Worked e end)) }
        ensures runs { IfAnswered result (λ end. (pass.new.stopped ≡ false) × (pass.new.number ≡ pass.old.number)) }
        ensures steps { IsAskedEachStep F.said fuse.old fuse.new pass.old pass.new result }
        ensures few { HasFewSteps pass.old pass.new (5 * cells_of self.now.board.layout + (cells_of self.now.board.layout + 63) / 64 + 51) }
        ensures stopped { IfStopped result ((e : PlainWorkCall) × IsAskedFor self.now.board.layout pass.old.process (second_rest pass.old.number) (index_of self.now.board.layout.shape cell) e × BreaksOff work_rules self.now.board.layout e pass.old pass.new) }
        ensures kept { (t : SheetDeed) → In (outcomes pass.old.place) t → In (outcomes pass.new.place) t }
        ensures refused { IfRefused result (λ r. RefusesIn (doing pass.old.stopped pass.old.number) r) }
        ensures unchanged { IfRefused result (λ r. pass.new ≡ pass.old) }
    {
        if pass.stopped {
            return Ended::Refused(Refusal::Stopped);
        }
        let mut call = match fresh(alloc, &self.board.layout, pass.process, pass.rest(), cell) {
            Ok(call) => call,
            Err(_) => return Ended::Refused(Refusal::NoMemory),
        };
        match self.board.work(alloc, &mut pass.place, &mut call, fuse) {
            Some(end) => Ended::Answered(end),
            None => {
                pass.stopped = true;
                Ended::Stopped
            }
        }
    }
}
