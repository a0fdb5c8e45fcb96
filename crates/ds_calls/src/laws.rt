//! What is true of whole calls, as functions that do nothing.

ghost use Rattle.std.specs.Prelude.{ℕ, ◌≤◌, ◌+◌, ◌*◌, List, Result, Ok, length};
ghost use Rattle.ds_layout.specs.Places.{cells_of};
ghost use Rattle.ds_state.specs.Value.{WorldValue, world_of, IsGood};
ghost use Rattle.ds_state.specs.Fresh.{IsNew};
ghost use Rattle.ds_state.specs.Works.{SEEN_MOST};
ghost use Rattle.ds_state.specs.declared.refusal.Refusal.{Refusal};
ghost use Rattle.ds_state.specs.declared.answer.Answer.TheVariants.{Edit, Work, Show, Recovery, Migration};
ghost use Rattle.ds_state.specs.declared.answer.EditEnd.{EditEnd};
ghost use Rattle.ds_state.specs.declared.work.WorkEnd.{WorkEnd};
ghost use Rattle.ds_state.specs.declared.show.ShowEnd.{ShowEnd};
ghost use Rattle.ds_state.specs.declared.recovery.RecoveryEnd.{RecoveryEnd};
ghost use Rattle.ds_state.specs.declared.migration.MigrateEnd.{MigrateEnd};
ghost use Rattle.ds_core.specs.Takes.{WorldRun};
ghost use Rattle.ds_core.specs.declared.event.Event.{Event};
ghost use Rattle.ds_core.specs.declared.reply.Reply.{Reply};
ghost use Rattle.ds_calls.specs.declared.settle.SettleEnd.{SettleEnd};
ghost use Rattle.ds_calls.specs.declared.settle.SettleStage.{SettleStage};
ghost use Rattle.ds_calls.specs.declared.settle.SettleStage.TheVariants.{Ends};
ghost use Rattle.ds_calls.specs.Whole.{Whole, HasProcess};
ghost use Rattle.ds_calls.specs.Settling.{Settling};
ghost use Rattle.ds_calls.specs.Traces.{Leads, call_trace, settle_trace};
ghost use Rattle.ds_calls.specs.Found.{HasFound};
ghost use Rattle.ds_state.specs.Editions.{seen_edition};
ghost use Rattle.ds_core.specs.declared.event.Event.TheVariants.{BeginMigrate};
ghost use Rattle.ds_calls.specs.Lone.{AreIdle, AreYoung, EndsClean};

/// What a whole call and a settle do to a world is a run of `ds_core::take`: of just the events and replies that the
/// call consists of (`call_trace`, `settle_trace`), whose last one is its answer. So what is proved of runs is true of
/// them.
#[tactic(auto, using(crate::proofs::Runs::call_leads, crate::proofs::Runs::settle_leads))]
pub fn calls_are_runs()
    ensures edits { (p : ℕ) (event : Event) (old : WorldValue) (result : Result EditEnd Refusal)
        (new : WorldValue) (whole : Whole Edit p event old result new) → Leads old (call_trace Edit p event old result new whole) new }
    ensures works { (p : ℕ) (event : Event) (old : WorldValue) (result : Result WorkEnd Refusal)
        (new : WorldValue) (whole : Whole Work p event old result new) → Leads old (call_trace Work p event old result new whole) new }
    ensures reports { (p : ℕ) (event : Event) (old : WorldValue) (result : Result ShowEnd Refusal)
        (new : WorldValue) (whole : Whole Show p event old result new) → Leads old (call_trace Show p event old result new whole) new }
    ensures recoveries { (p : ℕ) (event : Event) (old : WorldValue) (result : Result RecoveryEnd Refusal)
        (new : WorldValue) (whole : Whole Recovery p event old result new) → Leads old (call_trace Recovery p event old result new whole) new }
    ensures migrations { (p : ℕ) (event : Event) (old : WorldValue) (result : Result MigrateEnd Refusal)
        (new : WorldValue) (whole : Whole Migration p event old result new) → Leads old (call_trace Migration p event old result new whole) new }
    ensures settles { (p : ℕ) (old : WorldValue) (turn : SettleStage) (new : WorldValue)
        (settling : Settling p old turn new) → Leads old (settle_trace p old turn new settling) new }
{}

/// A settle of a world in which each process is idle, as before the first call, between calls, and
/// after a crash once every process has recovered, ends with all cells clean, or with a failed allocation:
/// two rounds more than the sheet has cells are enough, in whatever order its cells refer to each
/// other, and whatever they show at first. The world is quiescent then, so it shows the values from
/// scratch. Each mark must have generations left for that number of rounds.
#[tactic(auto, using(crate::proofs::LoneSettles::settles_clean))]
pub fn lone_settles_are_clean()
    ensures { (p : ℕ) (old : WorldValue) (end : SettleEnd) (new : WorldValue) → IsGood old
        → HasProcess old p → AreIdle (world_of old) → AreYoung (world_of old) (cells_of old.sheet.layout + 2)
        → Settling p old (Ends end) new → EndsClean (world_of new) end }
{}

/// Each mark of a run from a new sheet has at most one generation for each event, so that it has
/// generations left for many rounds: for as many as 2^58 less the events is twice of.
pub fn marks_of_runs_are_young()
    ensures { (old : WorldValue) (events : List Event) (replies : List Reply) (new : WorldValue) (rounds : ℕ)
        → IsNew (world_of old) → IsGood old → WorldRun old events replies new
        → length events + 2 * rounds ≤ SEEN_MOST → AreYoung (world_of new) rounds }
{}

/// A whole migration that is answered Migrated began on a sheet that its processes saw in the first layout, and one that is
/// answered Already on a sheet that they saw in the second.
#[tactic(auto, using(crate::proofs::Found::migrations_found))]
pub fn migrations_say_what_they_found()
    ensures { (p : ℕ) (old new : WorldValue) (how : MigrateEnd) → Whole Migration p (BeginMigrate p) old (Ok how) new
        → HasFound (seen_edition (world_of old).memory) how }
{}
