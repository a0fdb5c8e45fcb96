//! Shows of the shared sheet.

ghost use Rattle.std.specs.Prelude.{◌<◌, ◌≤◌, ◌≡◌, length, vec_capacity, None, false, ◌+◌, ◌*◌};
ghost use Rattle.ds_layout.specs.Places.{cells_of};
ghost use Rattle.ds_state.specs.Works.{PlainShowCall};
ghost use Rattle.ds_state.specs.ShowStages.{IsShow};
ghost use Rattle.ds_show.specs.ShowSteps.{fresh as begun};
ghost use Rattle.ds_work.specs.WorkTakes.{RefusesIn};
ghost use Rattle.ds_core.specs.declared.event.Event.TheVariants.{BeginShow};
ghost use Rattle.ds_core.specs.declared.reply.Reply.TheVariants.{Entered};
ghost use Rattle.ds_shared_runs.specs.declared.history.CallEvent.TheVariants.{Began, Reported};
ghost use Rattle.pm_base.specs.Structures.{In};
ghost use Rattle.ds_shared.specs.Rules.{IsEnded, show_rules};
ghost use Rattle.ds_structure.specs.Calls.{second_rest};
ghost use Rattle.ds_structure_shared.specs.Boards.{SheetDeed};
ghost use Rattle.ds_shared.specs.Known.{outcomes};
ghost use Rattle.ds_shared.specs.Answers.{HasFewSteps, IsOf, IfAnswered, IfRefused, IfStopped, IsAskedEachStep, BreaksOff, ShowsValues, Tells, doing};

use crate::ended::Ended;
use crate::pass::Pass;
use crate::sheet::SharedSheet;
use ds_eval::value::Value;
use ds_show::begin::fresh;
use ds_state::refusal::Refusal;
use ds_state::reports::fill;
use ds_state::show::{ShowCall, ShowEnd};
use ds_structure_shared::calls::show;
use pm_board::fuse::Fuse;
use std::alloc::Global;

// It is a show of a sheet.
fn is_show(call: &ShowCall)
    ensures { IsShow call.now }
{
    // For the proof: reading the field gives its invariant.
    let _stage = call.stage;
}

// The values of a show that has ended so, in room that is reserved, where it is settled.
fn read_off(call: &ShowCall, end: ShowEnd, mut values: Vec<Value>) -> Option<Vec<Value>>
    requires room { call.now.cells ≤ vec_capacity values }
    requires ended { IsEnded call.now end }
    ensures { ShowsValues call.now end result }
{
    is_show(call);
    match end {
        ShowEnd::Settled => {
            fill(
                &mut values,
                call.cells,
                call.values.as_slice(),
                call.kinds.as_slice(),
            );
            Some(values)
        }
        ShowEnd::Unsettled(_, _) => None,
    }
}

impl SharedSheet {
    /// A show of the whole sheet. Where it is settled, the values are read off what it loaded.
    pub fn show<F: Fuse>(
        &self,
        alloc: Global,
        pass: &mut Pass,
        fuse: &mut F,
    ) -> (Ended<ShowEnd>, Option<Vec<Value>>)
        requires { IsOf self.now pass.old }
        ensures pass { IsOf self.now pass.new × (pass.new.process ≡ pass.old.process) }
        ensures answered { IfAnswered result.0 (λ end. (e : PlainShowCall) × (e.process ≡ pass.old.process) × Tells self.now.board.layout pass.old pass.new (Began (BeginShow pass.old.process) Entered) (Reported e end) × ShowsValues e end result.1) }
        ensures runs { IfAnswered result.0 (λ end. (pass.new.stopped ≡ false) × (pass.new.number ≡ pass.old.number)) }
        ensures steps { IsAskedEachStep F.said fuse.old fuse.new pass.old pass.new result.0 }
        ensures few { HasFewSteps pass.old pass.new (2 * self.now.board.layout.processes + 4 * cells_of self.now.board.layout + 1) }
        ensures stopped { IfStopped result.0 ((result.1 ≡ None) × ((e : PlainShowCall) × (e ≡ begun pass.old.process (second_rest pass.old.number) (cells_of self.now.board.layout) self.now.board.layout.processes) × BreaksOff show_rules self.now.board.layout e pass.old pass.new)) }
        ensures kept { (t : SheetDeed) → In (outcomes pass.old.place) t → In (outcomes pass.new.place) t }
        ensures refused { IfRefused result.0 (λ r. RefusesIn (doing pass.old.stopped pass.old.number) r) }
        ensures unchanged { IfRefused result.0 (λ r. (pass.new ≡ pass.old) × (result.1 ≡ None)) }
    {
        if pass.stopped {
            return (Ended::Refused(Refusal::Stopped), None);
        }
        let values = match Vec::with_capacity(alloc, self.board.layout.cells()) {
            Ok(values) => values,
            Err(_) => return (Ended::Refused(Refusal::NoMemory), None),
        };
        let mut call = match fresh(alloc, &self.board.layout, pass.process, pass.rest()) {
            Ok(call) => call,
            Err(_) => return (Ended::Refused(Refusal::NoMemory), None),
        };
        match show(&self.board.words, &mut pass.place, &mut call, fuse) {
            Some(end) => (Ended::Answered(end), read_off(&call, end, values)),
            None => {
                pass.stopped = true;
                (Ended::Stopped, None)
            }
        }
    }
}
