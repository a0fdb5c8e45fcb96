//! What is true of each history of a sheet, as functions that do nothing.

ghost use Rattle.std.specs.Prelude.{◌≤◌, List, ℕ};
ghost use Rattle.pm_base.specs.Structures.{In};
ghost use Rattle.ds_state.specs.World.{PlainWorld};
ghost use Rattle.ds_state.specs.Fresh.{IsNew};
ghost use Rattle.ds_state.specs.declared.reports.TheConstants.{SETTLED_MOST};
ghost use Rattle.ds_shared_runs.specs.Answered.{WasRight};
ghost use Rattle.ds_shared_runs.specs.History.{Happened, Run, Stood, IsStanding, answered_by};
ghost use Rattle.ds_shared_runs.specs.Runs.{begun_in, IsRun};
ghost use Rattle.ds_shared_runs.specs.declared.history.CallEvent.{CallEvent};

/// What has happened to a sheet, from its making on, is a run of the core from a new sheet, as long as its shows can
/// be counted, and the run has the headline.
#[tactic(auto, using(crate::proofs::Converted::histories_are_runs))]
pub fn histories_are_runs()
    ensures { (first last : PlainWorld) (hs : List Happened) → IsNew first → Run first hs last → Stood hs → IsStanding last
        → begun_in hs ≤ SETTLED_MOST → IsRun first hs last }
{}

/// What a process was answered by a history is right. Each call that began and each answer stands in the
/// run, and fits it: an edit that is answered Done stands in the last list of edits exactly once, as it was asked for;
/// one that is answered Overtaken is not linearized, and the edit that it names was linearized in the same cell since
/// it began; a recovery reports the process's edit in doubt, with its number and its cell, or what it was answered
/// last; the values of a settled show are those from scratch of the linearized edits at a moment of its call, and the
/// word of an unsettled one was there at such a moment; a work's answer has its cause in its call.
#[tactic(auto, using(crate::proofs::Right::answered_so))]
pub fn answers_are_right()
    ensures { (first last : PlainWorld) (hs : List Happened) (r : IsRun first hs last) (p : ℕ) (t : CallEvent)
        → In (answered_by p hs) t → WasRight first hs last r p t }
{}
