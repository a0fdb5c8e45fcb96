//! Edits on the shared sheet.

ghost use Rattle.std.specs.Prelude.{◌<◌, ◌≡◌, ◌+◌, false, ℕ, List, length, ◌*◌};
ghost use Rattle.ds_formula.specs.Cells.{IsInside, index_of};
ghost use Rattle.ds_state.specs.Edits.{PlainEditCall};
ghost use Rattle.ds_state.specs.World.{edit_of};
ghost use Rattle.ds_state.specs.declared.stage.Outcome.{Outcome};
ghost use Rattle.ds_edit.specs.Begun.{RefersTo, RefusesIn};
ghost use Rattle.ds_state.specs.EditEndings.{end_of};
ghost use Rattle.ds_core.specs.declared.event.Event.TheVariants.{BeginEdit};
ghost use Rattle.ds_core.specs.declared.reply.Reply.TheVariants.{Begun};
ghost use Rattle.ds_shared_runs.specs.declared.history.CallEvent.TheVariants.{Began, Edited};
ghost use Rattle.pm_base.specs.Structures.{In};
ghost use Rattle.ds_shared.specs.Rules.{IsFirst, edit_rules};
ghost use Rattle.ds_structure_shared.specs.Boards.{SheetDeed};
ghost use Rattle.ds_shared.specs.Known.{outcomes};
ghost use Rattle.ds_shared.specs.Answers.{IfBegun, HasFewSteps, IsOf, IfAnswered, IfRefused, IfStopped, IsAskedEachStep, BreaksOff, Tells, doing};

use crate::ended::Ended;
use crate::pass::Pass;
use crate::sheet::SharedSheet;
use ds_edit::begin::prepared;
use ds_formula::cells::Cell;
use ds_state::answer::EditEnd;
use ds_state::refusal::Refusal;
use ds_structure_shared::calls::edit;
use pm_board::fuse::Fuse;
use std::alloc::Global;

impl SharedSheet {
    /// Sets the text of a cell: the process's edit, with the number of its pass. Refused where the pass is stopped
    /// or the text is none (OpenFormula), where no record is left, or where an allocation fails. Nothing changes
    /// then. Where the fuse stops it, the pass is stopped.
    pub fn edit<F: Fuse>(
        &self,
        alloc: Global,
        pass: &mut Pass,
        cell: Cell,
        text: &[u8],
        fuse: &mut F,
    ) -> Ended<EditEnd>
        requires pass { IsOf self.now pass.old }
        requires cell { IsInside self.now.board.layout.shape cell }
        ensures pass { IsOf self.now pass.new × (pass.new.process ≡ pass.old.process) }
        ensures answered { IfAnswered result (λ end. (e : PlainEditCall) × (how : Outcome) × (edit_of e ≡ record { process = pass.old.process; number = pass.old.number; cell = index_of self.now.board.layout.shape cell; text = text.now }) × (end ≡ end_of self.now.board.layout.processes e.number how) × Tells self.now.board.layout pass.old pass.new (Began (BeginEdit (record { process = pass.old.process; cell = cell; text = text.now })) (Begun pass.old.number)) (Edited e how)) }
        ensures runs { IfAnswered result (λ end. (pass.new.stopped ≡ false) × (pass.new.number ≡ pass.old.number + 1)) }
        ensures steps { IsAskedEachStep F.said fuse.old fuse.new pass.old pass.new result }
        ensures few { IfBegun result ((refs : List ℕ) × RefersTo self.now.board.layout.shape text.now refs × HasFewSteps pass.old pass.new (112 + 3 * length refs)) }
        ensures stopped { IfStopped result ((e : PlainEditCall) × IsFirst self.now.board.layout e × (edit_of e ≡ record { process = pass.old.process; number = pass.old.number; cell = index_of self.now.board.layout.shape cell; text = text.now }) × BreaksOff edit_rules self.now.board.layout e pass.old pass.new) }
        ensures kept { (t : SheetDeed) → In (outcomes pass.old.place) t → In (outcomes pass.new.place) t }
        ensures refused { IfRefused result (λ r. RefusesIn self.now.board.layout.shape text.now (doing pass.old.stopped pass.old.number) r) }
        ensures unchanged { IfRefused result (λ r. pass.new ≡ pass.old) }
    {
        if pass.stopped {
            return Ended::Refused(Refusal::Stopped);
        }
        self.board.fetch(pass.process, pass.number, text.len());
        let (mut call, content) = match prepared(
            alloc,
            &self.board.layout,
            pass.process,
            pass.rest(),
            cell,
            text,
        ) {
            Ok(begun) => begun,
            Err(refusal) => return Ended::Refused(refusal),
        };
        self.board.keep(alloc, &call, content);
        match edit(&self.board.words, &mut pass.place, &mut call, fuse) {
            Some(end) => {
                pass.number += 1;
                Ended::Answered(end)
            }
            None => {
                pass.stopped = true;
                Ended::Stopped
            }
        }
    }
}
