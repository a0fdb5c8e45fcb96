//! What is true of each edit, as functions that do nothing.

ghost use Rattle.std.specs.Prelude.{◌≡◌, ◌<◌, ℕ};
ghost use Rattle.ds_state.specs.Edits.{PlainEditCall, IsEdit};
ghost use Rattle.ds_state.specs.World.{PlainEdit, PlainWorld, edit_of};
ghost use Rattle.ds_state.specs.Sound.{IsSound};
ghost use Rattle.ds_state.specs.Rely.{Keeps};
ghost use Rattle.ds_state.specs.Leaves.{Leaves};
ghost use Rattle.ds_state.specs.CallsFit.{IsSheetOf, HasRefs};
ghost use Rattle.ds_state.specs.declared.stage.Outcome.{Outcome};
ghost use Rattle.ds_state.specs.declared.stage.Stage.TheVariants.{Answer};
ghost use Rattle.ds_state.specs.declared.situation.Situation.TheVariants.{Editing};
ghost use Rattle.ds_edit.specs.EditTakes.{Steps, Begins};
ghost use Rattle.ds_edit.specs.EditAnswers.{IsTrueAnswer};
ghost use Rattle.ds_edit.specs.EditSteps.{access_at};
ghost use Rattle.ds_edit.specs.Early.{StandsUndone, Swings};
ghost use Rattle.ds_layout.specs.SheetMemory.{CanPerform};

/// Each step of an edit, whatever the word that its access answers, leaves a sound sheet sound, and
/// leaves each other process what it may rely on.
#[tactic(auto, using(crate::proofs::Sound::step_sound))]
pub fn steps_keep_soundness()
    ensures { (e : PlainEditCall) (word : ℕ) (old new : PlainWorld) → IsSound old
        → e.process < old.layout.processes → old.situation e.process ≡ Editing e
        → Steps e word old new → Keeps e.process old new }
{}

/// The beginning of an edit of the sheet does the same.
pub fn begins_keep_soundness()
    ensures { (e : PlainEditCall) (old new : PlainWorld) → IsSound old
        → IsEdit e → IsSheetOf old.layout e → HasRefs old.layout.shape e.text e.refs
        → Begins e old new → Keeps e.process old new }
{}

/// An edit that answers Done is linearized; one that answers Overtaken is not, and the head that it met
/// is that of an edit of its cell which was linearized since it was issued.
#[tactic(auto, using(crate::proofs::Truth::answer_true))]
pub fn answers_are_true()
    ensures { (e : PlainEditCall) (how : Outcome) (w : PlainWorld) → IsSound w
        → e.process < w.layout.processes → e.stage ≡ Answer how
        → w.situation e.process ≡ Editing e → IsTrueAnswer w (edit_of e) how }
{}

/// The access of an edit of a sound sheet can be performed: it names a place of the sheet, and the
/// buffer has room for what is flushed, and an entry where one is written back.
#[tactic(auto, using(crate::proofs::Possible::can_perform))]
pub fn accesses_are_possible()
    ensures { (e : PlainEditCall) (w : PlainWorld) → IsSound w
        → e.process < w.layout.processes → w.situation e.process ≡ Editing e
        → CanPerform w.layout w.memory e.process (access_at e e.stage) }
{}

/// Each step of an edit, and its beginning, leave the others what is theirs. What a step adds to the
/// linearized edits is that edit, whose number was not spent; and each show under way still has a
/// middle.
pub fn edits_leave_others()
    ensures steps { (e : PlainEditCall) (word : ℕ) (old new : PlainWorld) → IsSound old
        → e.process < old.layout.processes → old.situation e.process ≡ Editing e
        → Steps e word old new → Leaves e.process old new }
    ensures begins { (e : PlainEditCall) (old new : PlainWorld) → IsSound old
        → IsEdit e → IsSheetOf old.layout e → HasRefs old.layout.shape e.text e.refs
        → Begins e old new → Leaves e.process old new }
{}

/// An edit that swung its cell's head before the done bit of the edit which it replaces is persisted
/// would leave no sound world, whatever else is so. After `set 1 A1 9`, `begin 0 set A1 5` and
/// `run 0 to indexed` the head of A1 is the first edit's, and the bit is not set; the second edit has
/// yet to help it.
pub fn early_swings_are_unsound()
    ensures { (e : PlainEditCall) (head : ℕ) (by : PlainEdit) (old new : PlainWorld)
        → StandsUndone old e.cell by → Swings e head old new → IsSound new → ⊥ }
{}
