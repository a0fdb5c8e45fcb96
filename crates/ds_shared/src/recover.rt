//! Recoveries on the shared sheet.

ghost use Rattle.std.specs.Prelude.{◌<◌, ◌≡◌, ◌≤◌, false, ◌+◌, ◌*◌};
ghost use Rattle.ds_layout.specs.Places.{cells_of};
ghost use Rattle.ds_layout.specs.declared.place.TheConstants.{RECORDS};
ghost use Rattle.ds_state.specs.Works.{PlainRecoverCall};
ghost use Rattle.ds_recover.specs.RecoverySteps.{fresh as begun};
ghost use Rattle.ds_core.specs.declared.event.Event.TheVariants.{BeginRecover};
ghost use Rattle.ds_core.specs.declared.reply.Reply.TheVariants.{Entered};
ghost use Rattle.ds_shared_runs.specs.declared.history.CallEvent.TheVariants.{Began, Recovered};
ghost use Rattle.pm_base.specs.Structures.{In};
ghost use Rattle.ds_shared.specs.Rules.{recover_rules};
ghost use Rattle.ds_structure_shared.specs.Boards.{SheetDeed};
ghost use Rattle.ds_shared.specs.Known.{outcomes};
ghost use Rattle.ds_shared.specs.Answers.{HasFewSteps, IsOf, IfAnswered, IfRefused, IfStopped, IsAskedEachStep, BreaksOff, Tells, number_after};

use crate::ended::Ended;
use crate::pass::Pass;
use crate::sheet::SharedSheet;
use ds_recover::begin::fresh;
use ds_state::recovery::RecoveryEnd;
use ds_structure_shared::calls::recover;
use pm_board::fuse::Fuse;
use std::alloc::Global;

// The number of the process's next edit, after a recovery that ended so.
fn next_after(end: RecoveryEnd) -> usize
    requires { number_after end ≤ RECORDS }
    ensures { result ≡ number_after end }
{
    match end {
        RecoveryEnd::Nothing => 0,
        RecoveryEnd::Last(resolved) => resolved.number + 1,
    }
}

impl SharedSheet {
    /// Recovers the process of a pass, also of one that is stopped: after an answer it holds no cell,
    /// and its last edit that was announced has ended as the answer says. It takes no memory, and is
    /// never refused.
    pub fn recover<F: Fuse>(
        &self,
        alloc: Global,
        pass: &mut Pass,
        fuse: &mut F,
    ) -> Ended<RecoveryEnd>
        requires { IsOf self.now pass.old }
        ensures pass { IsOf self.now pass.new × (pass.new.process ≡ pass.old.process) }
        ensures answered { IfAnswered result (λ end. (e : PlainRecoverCall) × (e.process ≡ pass.old.process) × Tells self.now.board.layout pass.old pass.new (Began (BeginRecover pass.old.process) Entered) (Recovered e end)) }
        ensures runs { IfAnswered result (λ end. (pass.new.stopped ≡ false) × (pass.new.number ≡ number_after end)) }
        ensures steps { IsAskedEachStep F.said fuse.old fuse.new pass.old pass.new result }
        ensures few { HasFewSteps pass.old pass.new (cells_of self.now.board.layout * (3 * cells_of self.now.board.layout + 30) + 23) }
        ensures stopped { IfStopped result ((e : PlainRecoverCall) × (e ≡ begun pass.old.process (cells_of self.now.board.layout) self.now.board.layout.processes) × BreaksOff recover_rules self.now.board.layout e pass.old pass.new) }
        ensures kept { (t : SheetDeed) → In (outcomes pass.old.place) t → In (outcomes pass.new.place) t }
        ensures refused { IfRefused result (λ r. ⊥) }
    {
        // It is named as in the other calls; a recovery takes no memory.
        let _alloc = alloc;
        let mut call = fresh(&self.board.layout, pass.process);
        match recover(&self.board.words, &mut pass.place, &mut call, fuse) {
            Some(end) => {
                pass.number = next_after(end);
                pass.stopped = false;
                Ended::Answered(end)
            }
            None => {
                pass.stopped = true;
                Ended::Stopped
            }
        }
    }
}
