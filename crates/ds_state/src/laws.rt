//! What is true of each world, as functions that do nothing.

ghost use Rattle.std.specs.Prelude.{ℕ, ◌≡◌, ◌<◌, ◌≤◌, ◌+◌, ◌-◌, ◌*◌, ◌^◌, List, length, Some, Contains};
ghost use Rattle.ds_state.specs.declared.reports.TheConstants as constants;
ghost use Rattle.ds_layout.specs.Mark.{mark_word};
ghost use Rattle.ds_layout.specs.declared.place.Place.{Place};
ghost use Rattle.ds_layout.specs.declared.place.Place.TheVariants.{Mark};
ghost use Rattle.ds_layout.specs.declared.place.TheConstants.{RECORDS};
ghost use Rattle.ds_state.specs.World.{PlainEdit, PlainWorld, of_cell};
ghost use Rattle.ds_state.specs.Shown.{last_text, mark_at, text_at, IsQuiet, MayHold, values_shown};
ghost use Rattle.ds_state.specs.KnownShow.{AreScratch};
ghost use Rattle.ds_state.specs.Value.{WorldValue, IsGood};
ghost use Rattle.ds_state.specs.Fresh.{IsNew};
ghost use Rattle.ds_state.specs.Events.{Evicts};
ghost use Rattle.ds_state.specs.Sound.{IsSound};
ghost use Rattle.ds_state.specs.Rely.{Rely, Keeps};
ghost use Rattle.ds_state.specs.Lasts.{Lasts};
ghost use Rattle.ds_state.specs.Middles.{Middle, Middles};
ghost use Rattle.ds_state.specs.Leaves.{Leaves};
ghost use Rattle.ds_state.specs.Works.{PlainShowCall};
ghost use Rattle.ds_state.specs.Spent.{IsSpent};
ghost use Rattle.ds_state.specs.Headers.{IsSaid, HasCell};
ghost use Rattle.ds_state.specs.Edits.{PlainEditCall};
ghost use Rattle.ds_state.specs.declared.stage.Outcome.{Outcome};
ghost use Rattle.ds_state.specs.declared.stage.Stage.TheVariants.{Swap, Answer};
ghost use Rattle.ds_state.specs.declared.situation.Situation.TheVariants.{Stopped, Editing, Showing};
ghost use Rattle.ds_state.specs.Crashes.{CrashesTo, StopsIn};
ghost use Rattle.ds_state.specs.CallsFit.{CallFits};
ghost use Rattle.ds_state.specs.LayoutsFit.{LayoutFits};
ghost use Rattle.ds_state.specs.Calm.{IsCalm, IsLocalAt};
ghost use Rattle.ds_state.specs.declared.situation.Situation.{Situation};

/// A new sheet is sound.
pub fn new_is_sound()
    ensures { (w : PlainWorld) → IsNew w → IsSound w }
{}

/// An eviction leaves a sound sheet sound, and leaves each process what it may rely on.
pub fn evictions_keep_soundness()
    ensures { (place : Place) (old new : PlainWorld) → IsSound old → Evicts place old new
        → IsSound new × ((q : ℕ) → q < old.layout.processes → Rely q old new) }
{}

/// What a call knows stays as long as all that it may rely on stays.
#[tactic(auto, using(crate::proofs::Stable::call_stable))]
pub fn calls_are_stable()
    ensures { (old new : PlainWorld) (q : ℕ) (s : Situation) → Rely q old new
        → LayoutFits old q s → CallFits old q s → CallFits new q s }
{}

/// No more edits are linearized than there are records: 256 for each process.
#[tactic(auto, using(crate::proofs::Few::counted_few))]
pub fn few_edits_count()
    ensures { (w : PlainWorld) → IsSound w → length w.counted ≤ RECORDS * w.layout.processes }
{}

/// The text of a cell, as processes see it, is that of the last of its linearized edits, and empty
/// where none is linearized.
#[tactic(auto, using(crate::proofs::LastText::text_right))]
pub fn texts_are_of_last_edits()
    ensures { (w : PlainWorld) (cell : ℕ) → IsSound w
        → text_at w.layout w.memory cell ≡ last_text (of_cell cell w.counted) }
{}

/// A cell's mark is shown with all that its word says. Who holds it, where anyone does, is a process
/// of the sheet, and either works on just this cell, or is stopped or recovers and has not given it
/// back.
#[tactic(auto, using(crate::proofs::MarkLaws::mark_whole, crate::proofs::MarkLaws::mark_names))]
pub fn marks_are_of_their_holders()
    ensures word { (w : PlainWorld) (cell : ℕ) → IsSound w
        → mark_word (mark_at w.layout w.memory cell) ≡ w.memory.cached (Mark cell) }
    ensures holder { (w : PlainWorld) (cell q : ℕ) → IsSound w
        → (mark_at w.layout w.memory cell).holder ≡ Some q
        → (q < w.layout.processes) × MayHold cell (w.situation q) }
{}

/// No more edits were answered Done than are linearized.
#[tactic(auto, using(crate::proofs::Dones::few_dones))]
pub fn few_edits_are_done()
    ensures { (v : WorldValue) → IsGood v → v.done ≤ length v.counted }
{}

/// A crash leaves a sound sheet sound, with the edits whose heads are persisted.
pub fn crashes_keep_soundness()
    ensures { (old new : PlainWorld) → IsSound old → CrashesTo old new → IsSound new }
{}

/// A stop leaves a sound sheet sound, and leaves each other process what it may rely on.
pub fn stops_keep_soundness()
    ensures { (p : ℕ) (old new : PlainWorld) → IsSound old → p < old.layout.processes → StopsIn p old new → Keeps p old new }
{}

/// Whatever happens, a number that is spent stays so: a step, a beginning and a stop of a process,
/// an eviction, a crash.
pub fn spent_numbers_stay()
    ensures kept { (p : ℕ) (old new : PlainWorld) → Keeps p old new
        → (q n : ℕ) → IsSpent old q n → IsSpent new q n }
    ensures evicted { (place : Place) (old new : PlainWorld) → IsSound old → Evicts place old new
        → (q n : ℕ) → IsSpent old q n → IsSpent new q n }
    ensures crashed { (old new : PlainWorld) → CrashesTo old new
        → (q n : ℕ) → IsSpent old q n → IsSpent new q n }
{}

/// Where a side of a process's announcement says a number, in any phase, both sides of the header of
/// that record say one and the same cell of the sheet, also where that edit is not linearized.
pub fn announced_edits_have_their_cell()
    ensures { (w : PlainWorld) (p number : ℕ) → IsSound w → IsSaid w.memory p number → HasCell w p number }
{}

/// An edit that may be linearized with its next step has no spent number, and one that is answered
/// with its next step has.
pub fn spent_numbers_do_not_count()
    ensures swap { (w : PlainWorld) (e : PlainEditCall) (head n : ℕ) → IsSound w
        → e.process < w.layout.processes → w.situation e.process ≡ Editing e → e.stage ≡ Swap head
        → IsSpent w e.process n → n < e.number }
    ensures answer { (w : PlainWorld) (e : PlainEditCall) (how : Outcome) → IsSound w
        → e.process < w.layout.processes → w.situation e.process ≡ Editing e → e.stage ≡ Answer how
        → IsSpent w e.process e.number }
{}

/// Where every mark is clean and every edit is answered, each cell shows what its content gives of what the others show.
#[tactic(auto, using(crate::proofs::QuietRight::quiet_right))]
pub fn calm_sheets_are_right()
    ensures { (w : PlainWorld) → IsSound w → IsCalm w → (cell : ℕ) → IsLocalAt w cell }
{}

/// A quiescent sheet shows the values of the linearized edits, from scratch.
#[tactic(auto, using(crate::proofs::QuietShown::quiet_shows))]
pub fn quiet_sheets_are_right()
    ensures { (w : PlainWorld) → IsSound w → IsQuiet w
        → AreScratch w.layout.shape w.counted (values_shown w) }
{}

/// Whatever a process does, and at each eviction, what lasts does: marks and announcements grow, a
/// cell with a clean mark keeps its value and kind while it has that mark, and the linearized edits
/// stay, in their order. It lasts from any moment to any later one.
pub fn sheets_last()
    ensures kept { (p : ℕ) (old new : PlainWorld) → Keeps p old new → Lasts old new }
    ensures evicted { (place : Place) (old new : PlainWorld) → Evicts place old new → Lasts old new }
    ensures same { (w : PlainWorld) → Lasts w w }
    ensures on { (old mid new : PlainWorld) → Lasts old mid → Lasts mid new → Lasts old new }
    ensures counts { (old new : PlainWorld) → Lasts old new → (d : PlainEdit) → Contains old.counted d → Contains new.counted d }
{}

/// The middle of a show stays that show's while all stays that its process may rely on. So the
/// middles of all shows under way stay while a process steps, begins or answers that shows
/// nothing then, while one stops, and at each eviction. A new
/// sheet, one in which every process is stopped, and one after a crash, has no show under way.
pub fn middles_stay()
    ensures one { (p : ℕ) (first old new : PlainWorld) (e : PlainShowCall) (mid : PlainWorld) → Rely p old new
        → Middle first old p e mid → Middle first new p e mid }
    ensures others { (firsts mids : ℕ → PlainWorld) (old new : PlainWorld) → Middles firsts mids old
        → (p : ℕ) → Keeps p old new → ((e : PlainShowCall) → new.situation p ≡ Showing e → ⊥) → Middles firsts mids new }
    ensures stopped { (firsts mids : ℕ → PlainWorld) (old new : PlainWorld) → Middles firsts mids old
        → (p : ℕ) → IsSound old → p < old.layout.processes → StopsIn p old new → Middles firsts mids new }
    ensures evicted { (firsts mids : ℕ → PlainWorld) (old new : PlainWorld) → Middles firsts mids old
        → (place : Place) → IsSound old → Evicts place old new → Middles firsts mids new }
    ensures none { (firsts mids : ℕ → PlainWorld) (w : PlainWorld) → IsNew w → Middles firsts mids w }
    ensures rest { (firsts mids : ℕ → PlainWorld) (w : PlainWorld)
        → ((p : ℕ) → p < w.layout.processes → w.situation p ≡ Stopped) → Middles firsts mids w }
    ensures crashed { (firsts mids : ℕ → PlainWorld) (old new : PlainWorld) → CrashesTo old new → Middles firsts mids new }
{}

/// What a stop leaves, and what one doing of a process after another leaves.
pub fn doings_leave_others()
    ensures stops { (p : ℕ) (old new : PlainWorld) → IsSound old → p < old.layout.processes → StopsIn p old new → Leaves p old new }
    ensures on { (p : ℕ) (old mid new : PlainWorld) → Leaves p old mid → Leaves p mid new → Leaves p old new }
{}

/// As many shows can be counted as a word has numbers, less one.
pub fn constants_are_limits()
    ensures { constants.SETTLED_MOST ≡ 2 ^ 64 - 1 }
{}
