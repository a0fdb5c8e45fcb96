//! What is true of each work, as functions that do nothing.

ghost use Rattle.std.specs.Prelude.{ℕ, ◌≡◌, ◌<◌, ◌≤◌, ◌+◌, ◌*◌, List, length, true, false};
ghost use Rattle.ds_formula.specs.declared.cells.Shape.{Shape};
ghost use Rattle.ds_formula.specs.Cells.{count_of};
ghost use Rattle.ds_formula.specs.Limits.{CELLS_MOST};
ghost use Rattle.ds_formula.specs.Plain.{PlainContent};
ghost use Rattle.ds_eval.specs.declared.inputs.Entry as entries;
ghost use Rattle.ds_eval.specs.declared.inputs.Input.{Input};
ghost use Rattle.ds_layout.specs.SheetMemory.{CanPerform};
ghost use Rattle.ds_state.specs.World.{PlainWorld};
ghost use Rattle.ds_state.specs.declared.situation.Rest.{Rest};
ghost use Rattle.ds_state.specs.Works.{PlainWorkCall, IsWork, IsSame, Differs};
ghost use Rattle.ds_state.specs.Sound.{IsSound};
ghost use Rattle.ds_state.specs.Rely.{Keeps};
ghost use Rattle.ds_state.specs.Leaves.{Leaves};
ghost use Rattle.ds_state.specs.declared.situation.Situation.TheVariants.{Working};
ghost use Rattle.ds_state.specs.declared.work.WorkStage.{WorkStage};
ghost use Rattle.ds_state.specs.declared.work.WorkStage.TheVariants as works;
ghost use Rattle.ds_work.specs.WorkSteps.{at, IsContent, BeginsWork, StepsAt, ReadsAt, LacksAt, OffersAt, access_at, next_at, read_from, offered};
ghost use Rattle.ds_state.specs.declared.work.WorkEnd.{WorkEnd};
ghost use Rattle.ds_work.specs.WorkAnswers.{IsDecided, IsTrueAnswer, OrsOnly};
ghost use Rattle.ds_work.specs.WorkRank.{left, steps_left, Falls, GoesOn};
ghost use Rattle.ds_work.specs.WorkTakes.{StepsBy};
ghost use Rattle.ds_state.specs.declared.turn.Turn.TheVariants as does;

use ds_state::work::WorkCall;

/// Each step of work leaves a sound sheet sound, and leaves each other process what it may rely on.
#[tactic(auto, using(crate::proofs::EachWork::work_steps_keep))]
pub fn work_steps_keep_soundness()
    ensures { (e : PlainWorkCall) (stage : WorkStage) (word : ℕ) (old new : PlainWorld) → IsSound old → e.process < old.layout.processes
        → old.situation e.process ≡ Working (at e stage) → StepsAt e stage word old new → Keeps e.process old new }
{}

/// The step that reads the content does so, too.
pub fn reads_keep_soundness()
    ensures { (e : PlainWorkCall) (content : PlainContent) (inputs : List Input) (old new : PlainWorld) → IsSound old → e.process < old.layout.processes
        → old.situation e.process ≡ Working (at e works.Read) → ReadsAt e content inputs old new → Keeps e.process old new }
{}

/// Giving up where an allocation fails does so, too.
pub fn lacks_keep_soundness()
    ensures { (e : PlainWorkCall) (old new : PlainWorld) → IsSound old → e.process < old.layout.processes
        → old.situation e.process ≡ Working (at e works.Read) → LacksAt e old new → Keeps e.process old new }
{}

/// The offer of the entry that the inputs give does so, too.
pub fn offers_keep_soundness()
    ensures { (e : PlainWorkCall) (entry : entries.Entry) (old new : PlainWorld) → IsSound old → e.process < old.layout.processes
        → old.situation e.process ≡ Working (at e works.Wait) → OffersAt e entry old new → Keeps e.process old new }
{}

/// The beginning of work, by an idle process, does so, too.
pub fn begins_of_work_keep_soundness()
    ensures { (next : Rest) (e : PlainWorkCall) (old new : PlainWorld) → IsSound old → e.process < old.layout.processes → BeginsWork next e old new → Keeps e.process old new }
{}

/// Each access of work can be performed.
pub fn work_accesses_are_possible()
    ensures { (w : PlainWorld) (e : PlainWorkCall) → IsSound w → e.process < w.layout.processes → (stage : WorkStage)
        → w.situation e.process ≡ Working (at e stage) → CanPerform w.layout w.memory e.process (access_at w.layout.shape e stage) }
{}

/// Each step of work leaves fewer steps, until the answer's, which is the last; so do reading the
/// content, giving up where an allocation fails, and an offer. A work on a sheet of N cells whose content
/// has r references has at most 2r + 3N + 67 of them, the offer and the answer among them.
#[tactic(auto, using(crate::proofs::Ranks::each_falls, crate::proofs::Ranks::reading_falls, crate::proofs::Ranks::lacking_falls, crate::proofs::Ranks::offer_falls, crate::proofs::Ranks::few))]
pub fn work_steps_are_few()
    ensures falls { (r word : ℕ) (e : PlainWorkCall) → IsWork e → Falls r e (next_at e e.stage word) e.stage }
    ensures reading { (e : PlainWorkCall) (content : PlainContent) (inputs : List Input)
        → steps_left (length inputs) (read_from e content inputs) < left (length inputs) e works.Read }
    ensures lacking { (r : ℕ) (e : PlainWorkCall) → left r e works.Give < left r e works.Read }
    ensures offer { (r : ℕ) (e : PlainWorkCall) (entry : entries.Entry) → steps_left r (offered e entry) < left r e works.Wait }
    ensures few { (r : ℕ) (e : PlainWorkCall) → e.cells ≤ CELLS_MOST → left r e works.LoadMark ≤ 2 * r + 3 * e.cells + 67 }
{}

/// A content has no more references on a sheet than that has cells.
#[tactic(auto, using(crate::proofs::Gathered::content_few))]
pub fn contents_have_few_references()
    ensures { (shape : Shape) (text : List ℕ) (content : PlainContent) (inputs : List Input)
        → IsContent shape text content inputs → length inputs ≤ count_of shape }
{}

/// Each answer of work is true by the step that decides it. `NotDirty`: the mark was clean when it
/// was seen. `Missed`: it was held, or it was another one when the claim was tried. `Worn`: its
/// generation was above 2^58. `Published`: the cell's mark is clean now, and its words are those of
/// the entry. `Again`: the cell was marked meanwhile, and is left dirty. `NoMemory`: it is left dirty.
#[tactic(auto, using(crate::proofs::Answering::answer_true))]
pub fn work_answers_are_true()
    ensures { (e : PlainWorkCall) (stage : WorkStage) (word : ℕ) (old new : PlainWorld) (end : WorkEnd) → IsSound old → e.process < old.layout.processes
        → old.situation e.process ≡ Working (at e stage) → StepsAt e stage word old new
        → IsDecided (next_at e stage word).stage end → IsTrueAnswer e stage old new end }
{}

/// Work that is to say that its value has changed has an entry that differs from the words which it
/// found in its cell; work that is to say that it is as it was has an entry that does not.
#[tactic(auto, using(crate::proofs::Ors::changed_differs, crate::proofs::Ors::unchanged_same))]
pub fn changes_are_marked()
    ensures changed { (e : PlainWorkCall) → IsWork e → e.stage ≡ works.Clear true → Differs e }
    ensures same { (e : PlainWorkCall) → IsWork e → e.stage ≡ works.Clear false → IsSame e }
{}

/// Work adds bits to no word but the mark of a cell whose bit stands in the row that it has loaded,
/// and there the dirty bit alone.
#[tactic(auto, using(crate::proofs::Ors::ors_only))]
pub fn only_cells_of_the_row_are_marked()
    ensures { (shape : Shape) (e : PlainWorkCall) → IsWork e → OrsOnly e (access_at shape e e.stage) }
{}

/// A work that is under way is one of a sheet, whatever its words say.
pub fn works_are_of_a_sheet(call: &WorkCall)
    ensures { IsWork call.now }
{
    // For the proof: reading the field gives its invariant.
    let _stage = call.stage;
}

/// A turn of a work that goes on leaves fewer steps than there were.
#[tactic(auto, using(crate::proofs::Turning::turns_fall))]
pub fn turns_leave_fewer_steps()
    ensures { (p : ℕ) (old new : PlainWorld) → IsSound old → (by : StepsBy old p does.GoesOn new) → GoesOn p by.work new }
{}

/// Each step of work leaves the others what is theirs, and so do reading the content, giving up where
/// an allocation fails, an offer, and its beginning: no edit is linearized, and each show under way
/// still has a middle.
pub fn works_leave_others()
    ensures steps { (e : PlainWorkCall) (stage : WorkStage) (word : ℕ) (old new : PlainWorld) → IsSound old → e.process < old.layout.processes
        → old.situation e.process ≡ Working (at e stage) → StepsAt e stage word old new → Leaves e.process old new }
    ensures reads { (e : PlainWorkCall) (content : PlainContent) (inputs : List Input) (old new : PlainWorld) → IsSound old → e.process < old.layout.processes
        → old.situation e.process ≡ Working (at e works.Read) → ReadsAt e content inputs old new → Leaves e.process old new }
    ensures lacks { (e : PlainWorkCall) (old new : PlainWorld) → IsSound old → e.process < old.layout.processes
        → old.situation e.process ≡ Working (at e works.Read) → LacksAt e old new → Leaves e.process old new }
    ensures offers { (e : PlainWorkCall) (entry : entries.Entry) (old new : PlainWorld) → IsSound old → e.process < old.layout.processes
        → old.situation e.process ≡ Working (at e works.Wait) → OffersAt e entry old new → Leaves e.process old new }
    ensures begins { (next : Rest) (e : PlainWorkCall) (old new : PlainWorld) → IsSound old → e.process < old.layout.processes
        → BeginsWork next e old new → Leaves e.process old new }
{}
