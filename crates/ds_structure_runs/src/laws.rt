//! What is so of each run of a sheet as a structure.

ghost use Rattle.std.specs.Prelude.{◌≡◌, ◌++◌, ◌∷◌, List};
ghost use Rattle.ds_state.specs.declared.situation.Situation.{Situation};
ghost use Rattle.pm_base.specs.declared.history.Entry.{Entry};
ghost use Rattle.pm_board.specs.Looks.{Extends};
ghost use Rattle.ds_structure.specs.declared.response.Response.{Response};
ghost use Rattle.ds_structure_runs.specs.Boards.{BoardsHaveTheHeadline, StandsAfter};
ghost use Rattle.ds_structure_runs.specs.Runs.{RunsAreTheCores, RunsHaveTheHeadline};

use ds_structure::laws::sheets_are_a_structure;
use ds_structure::sheet::SheetKey;

/// Whatever happens to a new sheet of the layer is a run of the core from a new sheet, through all stops and crashes; what
/// each process began and was answered stands in that, and nothing else of it; and to each moment of the one run belongs a
/// moment of the other, up to which each process had begun and was answered the same.
pub fn runs_are_the_cores(key: &SheetKey)
    ensures { RunsAreTheCores key.now }
{
    sheets_are_a_structure(key);
}

/// As long as its shows can be counted, that run has the headline, and each answer fits it at a place of its own: an edit
/// that is done stands in the last list of edits exactly once, as it was asked for; a settled show has the values from
/// scratch at a moment of its call; a work's answer has its cause in its call.
pub fn runs_have_the_headline(key: &SheetKey)
    ensures { RunsHaveTheHeadline key.now }
{
    runs_are_the_cores(key);
}

/// The words of each board of a sheet, open, closed or crashed, are those of the last world of one run of the core from a
/// new sheet, through all closes, crashes and openings. It has the headline, and all that each process that a seat
/// remembers began and was answered stands in it and fits it. What that process has seen is what the run was up to a moment.
pub fn boards_have_the_headline(key: &SheetKey)
    ensures { BoardsHaveTheHeadline key.now }
{
    runs_have_the_headline(key);
}

/// The order in time of two calls. Where the answer of one stands in a history that the caller of the other one knew, so
/// that what that caller had seen goes on from it, and the other call begins in what it has seen since, the begin stands
/// after the answer; and so they stand in the run. By this and the laws beside it a shared sheet is durably
/// linearizable: there is one run of the core, through all crashes, in which each call stands as a begin and an answer
/// of its own, with the reply that its caller got, in the order that callers could know of (Herlihy and Wing,
/// "Linearizability", TOPLAS 1990; Izraelevitz, Mendes and Scott, DISC 2016).
#[tactic(auto, using(crate::proofs::Orders::stands_after))]
pub fn calls_stand_in_order()
    ensures { (earlier seen late since until after before : List (Entry Situation Response)) (answer begin : Entry Situation Response)
        → earlier ≡ since ++ answer ∷ until → Extends seen earlier → late ≡ after ++ begin ∷ before
        → StandsAfter (late ++ seen) begin (before ++ seen) until }
{}
