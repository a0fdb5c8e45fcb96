//! What is true of each show, as functions that do nothing.

ghost use Rattle.std.specs.Prelude.{ℕ, ◌≡◌, ◌<◌, ◌≤◌, ◌+◌, ◌*◌, List, Contains};
ghost use Rattle.ds_state.specs.declared.situation.Rest.{Rest};
ghost use Rattle.ds_layout.specs.declared.layout.Layout.{Layout};
ghost use Rattle.ds_layout.specs.Places.{cells_of};
ghost use Rattle.ds_layout.specs.SheetMemory.{CanPerform, NamesPlace};
ghost use Rattle.ds_eval.specs.declared.value.Value.{Value};
ghost use Rattle.ds_state.specs.World.{PlainEdit, PlainWorld};
ghost use Rattle.ds_state.specs.Sound.{IsSound};
ghost use Rattle.ds_state.specs.Rely.{Keeps};
ghost use Rattle.ds_state.specs.Middles.{Middle, Middles, HaveMiddles, IsMiddle, but_for};
ghost use Rattle.ds_state.specs.Leaves.{Leaves};
ghost use Rattle.ds_state.specs.Lasts.{Lasts};
ghost use Rattle.ds_state.specs.KnownShow.{middle, seen_at};
ghost use Rattle.ds_state.specs.Works.{PlainShowCall};
ghost use Rattle.ds_state.specs.ShowStages.{IsShow};
ghost use Rattle.ds_state.specs.declared.show.ShowEnd.{ShowEnd};
ghost use Rattle.ds_state.specs.declared.show.ShowEnd.TheVariants.{Settled};
ghost use Rattle.ds_state.specs.declared.show.ShowStage.TheVariants.{Answer};
ghost use Rattle.ds_state.specs.declared.situation.Situation.TheVariants.{Showing};
ghost use Rattle.ds_show.specs.ShowSteps.{Steps, Begins, access_at, next_at, got_at, fresh, rank, Falls};
ghost use Rattle.ds_show.specs.ShowMiddles.{middle_after, WasSettled, IsToldShow};
ghost use Rattle.ds_show.specs.ShowRuns.{Call, IsTrueShow};
ghost use Rattle.ds_show.specs.ShowSolo.{SoloCall};
ghost use Rattle.ds_show.specs.OneCollect.{AreAnEditApart, AreMixed, AreOfNoMoment};

/// Each step of a show, whatever the word that its access answers, leaves a sound sheet sound, and
/// leaves each other process what it may rely on.
#[tactic(auto, using(crate::proofs::ShowLaws::steps))]
pub fn steps_keep_soundness()
    ensures { (e : PlainShowCall) (word : ℕ) (old new : PlainWorld) → IsSound old
        → e.process < old.layout.processes → old.situation e.process ≡ Showing e
        → Steps e word old new → Keeps e.process old new }
{}

/// The beginning of a show does the same.
pub fn begins_keep_soundness()
    ensures { (p : ℕ) (next : Rest) (old new : PlainWorld) → IsSound old → p < old.layout.processes
        → Begins p next old new → Keeps p old new }
{}

/// Each access of a show names a place of its sheet.
#[tactic(auto, using(crate::proofs::ShowLaws::named))]
pub fn accesses_are_of_the_sheet()
    ensures { (layout : Layout) (e : PlainShowCall) → cells_of layout ≡ e.cells → layout.processes ≡ e.processes
        → IsShow e → NamesPlace layout (access_at e.stage) }
{}

/// The access of a show of a sound sheet can be performed.
#[tactic(auto, using(crate::proofs::ShowLaws::accesses))]
pub fn accesses_are_possible()
    ensures { (e : PlainShowCall) (w : PlainWorld) → IsSound w → e.process < w.layout.processes
        → w.situation e.process ≡ Showing e
        → CanPerform w.layout w.memory e.process (access_at e.stage) }
{}

/// Each step of a show leaves fewer steps, until the answer's, which is the last; and it has at
/// most two for each process, four for each cell, and the answer's.
#[tactic(auto, using(crate::proofs::ShowLaws::each_falls, crate::proofs::ShowLaws::each_few))]
pub fn steps_are_few()
    ensures falls { (e : PlainShowCall) (word : ℕ) → IsShow e
        → Falls e e.stage (next_at e e.stage word) }
    ensures few { (e : PlainShowCall) → rank e ≤ 2 * e.processes + 4 * e.cells + 1 }
{}

/// What a show answers is true of the worlds of its call. A settled one: at one of them nothing was
/// announced as pending, every mark was clean, and its values are those from scratch of the edits that were
/// linearized then, a front of those that are linearized now. Another one: its place held its word at one of them,
/// and that is bad, or was another one earlier in the call.
#[tactic(auto, using(crate::proofs::ShowRuns::answer_true))]
pub fn shows_are_true()
    ensures { (p : ℕ) → (now : PlainWorld) (past : List PlainWorld) → Call p now past
        → (e : PlainShowCall) (end : ShowEnd) → now.situation p ≡ Showing e → e.stage ≡ Answer end
        → IsTrueShow now past e end }
{}

/// A show that began in a quiescent world and is alone is settled.
#[tactic(auto, using(crate::proofs::ShowSolo::solo_settles))]
pub fn solo_shows_are_settled()
    ensures { (p : ℕ) → (now : PlainWorld) (past : List PlainWorld) → SoloCall p now past
        → (e : PlainShowCall) (end : ShowEnd) → now.situation p ≡ Showing e → e.stage ≡ Answer end
        → end ≡ Settled }
{}

/// A show has a middle from its begin on: a sound world of its call, of the time up to now. Each
/// load of a kind makes it the world before that step, and the load of the last one, which ends the
/// first collect, does so for good; its other steps leave it.
pub fn shows_have_middles()
    ensures begin { (p : ℕ) (next : Rest) (old new : PlainWorld) → IsSound old → p < old.layout.processes
        → Begins p next old new
        → Middle new new p (fresh p next (cells_of old.layout) old.layout.processes) new }
    ensures step { (e : PlainShowCall) (word : ℕ) (old new : PlainWorld) → IsSound old
        → e.process < old.layout.processes → old.situation e.process ≡ Showing e
        → Steps e word old new → (first mid : PlainWorld) → Middle first old e.process e mid
        → Middle first new e.process (got_at e word) (middle_after old mid e.stage) }
{}

/// All shows under way have their middles, also where one begins, or goes on, or answers.
pub fn middles_go_on()
    ensures begins { (firsts mids : ℕ → PlainWorld) (old new : PlainWorld) → Middles firsts mids old
        → (p : ℕ) (next : Rest) → IsSound old → p < old.layout.processes → Begins p next old new
        → Middles (but_for firsts p new) (but_for mids p new) new }
    ensures steps { (firsts mids : ℕ → PlainWorld) (old new : PlainWorld) → Middles firsts mids old
        → (e : PlainShowCall) (word : ℕ) → IsSound old → e.process < old.layout.processes
        → old.situation e.process ≡ Showing e → Steps e word old new
        → Middles firsts (but_for mids e.process (middle_after old (mids e.process) e.stage)) new }
{}

/// What is so of a show's middle, where its first collect is through: it lies between what was
/// noted and now, and all that was seen again is there as it was noted. Where the show is settled,
/// its values are those from scratch of the edits that were linearized there; each linearized one of its process's
/// was among them, and each that was linearized at its begin.
pub fn middles_are_true()
    ensures says { (first w : PlainWorld) (p : ℕ) (e : PlainShowCall) (mid : PlainWorld) (i j : ℕ)
        → Middle first w p e mid → seen_at e.cells e.processes e.stage ≡ middle i j
        → IsMiddle first w p e i j mid }
    ensures settles { (first w : PlainWorld) (p : ℕ) (e : PlainShowCall) (mid : PlainWorld)
        → Middle first w p e mid → e.stage ≡ Answer Settled → WasSettled first w p e mid }
{}

/// Each step of a show, and its beginning, leave the others what is theirs: no edit is
/// linearized, and each show under way has a middle, this one too.
pub fn shows_leave_others()
    ensures steps { (e : PlainShowCall) (word : ℕ) (old new : PlainWorld) → IsSound old
        → e.process < old.layout.processes → old.situation e.process ≡ Showing e
        → Steps e word old new → Leaves e.process old new }
    ensures begins { (p : ℕ) (next : Rest) (old new : PlainWorld) → IsSound old → p < old.layout.processes
        → Begins p next old new → Leaves p old new }
{}

/// Where shows have middles, one that is settled has had a middle with all edits that its seat was
/// answered are done, and stays such a one.
pub fn settled_shows_last()
    ensures settled { (w : PlainWorld) (p : ℕ) (e : PlainShowCall) (held : List PlainEdit) → HaveMiddles w
        → p < w.layout.processes → w.situation p ≡ Showing e → e.stage ≡ Answer Settled
        → ((d : PlainEdit) → Contains held d → (d.process ≡ p) × Contains w.counted d)
        → IsToldShow w p e held }
    ensures stays { (old new : PlainWorld) (p : ℕ) (e : PlainShowCall) (held : List PlainEdit)
        → Lasts old new → IsToldShow old p e held → IsToldShow new p e held }
{}

/// A show that looked at announcements and marks once could settle with values of no moment: in
/// two quiescent worlds, between which one edit was linearized, it finds nothing pending and each cell
/// clean; and where it notes one cell in the first and another one in the last, and both changed,
/// its values are those from scratch of no edits that were linearized at any time between. On `set 0 A1 1`,
/// `set 0 B1 =[.A1]`, `settle 0` the sheet shows 1 and 1; `set 1 A1 2`, `settle 1` makes that 2 and 2,
/// and such a show, which has noted A1 meanwhile and not B1, answers 1 and 2.
pub fn one_collect_is_not_enough()
    ensures { (first last : PlainWorld) (e : PlainEdit) (values : List Value)
        → AreAnEditApart first last e → AreMixed first last values → AreOfNoMoment first last values }
{}
