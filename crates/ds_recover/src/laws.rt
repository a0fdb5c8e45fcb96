//! What is true of each recovery, as functions that do nothing.

ghost use Rattle.std.specs.Prelude.{ℕ, ◌≡◌, ◌<◌, ◌≤◌, ◌+◌, ◌*◌, Bool, Option, Some};
ghost use Rattle.ds_layout.specs.declared.layout.Layout.{Layout};
ghost use Rattle.ds_layout.specs.Places.{cells_of};
ghost use Rattle.ds_layout.specs.SheetMemory.{CanPerform, NamesPlace};
ghost use Rattle.ds_state.specs.World.{PlainIssue, PlainWorld};
ghost use Rattle.ds_layout.specs.declared.place.Place.TheVariants.{Mark};
ghost use Rattle.ds_state.specs.Owing.{HoldsNone, Excuses};
ghost use Rattle.ds_state.specs.Sound.{IsSound};
ghost use Rattle.ds_state.specs.Rely.{Keeps};
ghost use Rattle.ds_state.specs.Leaves.{Leaves};
ghost use Rattle.ds_layout.specs.declared.place.Edition.TheVariants.{Second};
ghost use Rattle.ds_state.specs.Editions.{Agrees};
ghost use Rattle.ds_state.specs.declared.migration.MigrateEnd.{MigrateEnd};
ghost use Rattle.ds_state.specs.declared.migration.MigrateStage.{MigrateStage};
ghost use Rattle.ds_state.specs.declared.migration.MigrateStage.TheVariants as migrate_stages;
ghost use Rattle.ds_state.specs.Works.{PlainRecoverCall, PlainMigrateCall, IsCopied, old_words};
ghost use Rattle.ds_state.specs.RecoverStages.{IsRecovery};
ghost use Rattle.ds_state.specs.declared.recovery.RecoverStage.TheVariants.{Answer};
ghost use Rattle.ds_state.specs.declared.situation.Situation.TheVariants.{Recovering, Migrating};
ghost use Rattle.ds_recover.specs.RecoverySteps.{Steps, access_at, next_at, rank, Falls, end_of, ResolvesAs, RepeatsAs, NamesCell, TellsFound};
ghost use Rattle.ds_recover.specs.RecoverBegun.{IsBegun};
ghost use Rattle.ds_recover.specs.Unmarked.{ReliesOn, AnswersUnmarked};
ghost use Rattle.ds_recover.specs.MigrationSteps.{BeginsMigration};
ghost use Rattle.ds_recover.specs.MigrationSteps as migrations;

/// Each step of a recovery, whatever the word that its access answers, leaves a sound sheet sound,
/// and leaves each other process what it may rely on.
#[tactic(auto, using(crate::proofs::RecoveryLaws::steps))]
pub fn steps_keep_soundness()
    ensures { (e : PlainRecoverCall) (word : ℕ) (old new : PlainWorld) → IsSound old
        → e.process < old.layout.processes → old.situation e.process ≡ Recovering e
        → Steps e word old new → Keeps e.process old new }
{}

/// The beginning of a recovery, of a process that is stopped or idle, does the same.
pub fn begins_keep_soundness()
    ensures { (p : ℕ) (old new : PlainWorld) → IsSound old → p < old.layout.processes
        → IsBegun old p new → Keeps p old new }
{}

/// A migration that begins, and each of its steps, leaves a sound sheet sound, and leaves each other
/// process what it may rely on.
pub fn migrations_keep_soundness()
    ensures begins { (p : ℕ) (old new : PlainWorld) → IsSound old → p < old.layout.processes
        → BeginsMigration p old new → Keeps p old new }
    ensures steps { (e : PlainMigrateCall) (stage : MigrateStage) (word : ℕ) (old new : PlainWorld) → IsSound old
        → e.process < old.layout.processes → old.situation e.process ≡ Migrating (migrations.at e stage)
        → migrations.StepsAt e stage word old new → Keeps e.process old new }
{}

/// A migration has at most 15,360 steps for each process, and five more.
pub fn migrations_are_short()
    ensures falls { (e : PlainMigrateCall) (stage : MigrateStage) (word : ℕ) → IsCopied (old_words e.processes) stage
        → ((how : MigrateEnd) → stage ≡ migrate_stages.Answer how → ⊥)
        → migrations.rank (old_words e.processes) (migrations.next_at e stage word).stage
        < migrations.rank (old_words e.processes) stage }
    ensures few { (p processes : ℕ) → migrations.rank (old_words processes) (migrations.fresh p processes).stage
        ≡ 15360 * processes + 5 }
{}

/// Where a migration answers, both sides of the version's word say the second layout.
pub fn migrations_end_in_the_second_layout()
    ensures { (e : PlainMigrateCall) (how : MigrateEnd) (w : PlainWorld) → IsSound w
        → e.process < w.layout.processes → w.situation e.process ≡ Migrating e → e.stage ≡ migrate_stages.Answer how
        → Agrees w.memory Second }
{}

/// Each step of a migration, and its beginning, leave the others what is theirs: no edit is
/// linearized, and each show under way still has a middle.
pub fn migrations_leave_others()
    ensures steps { (e : PlainMigrateCall) (stage : MigrateStage) (word : ℕ) (old new : PlainWorld) → IsSound old
        → e.process < old.layout.processes → old.situation e.process ≡ Migrating (migrations.at e stage)
        → migrations.StepsAt e stage word old new → Leaves e.process old new }
    ensures begins { (p : ℕ) (old new : PlainWorld) → IsSound old → p < old.layout.processes
        → BeginsMigration p old new → Leaves p old new }
{}

/// Each access of a recovery names a place of its sheet.
#[tactic(auto, using(crate::proofs::RecoveryPossible::each_named))]
pub fn accesses_are_of_the_sheet()
    ensures { (layout : Layout) (e : PlainRecoverCall) → cells_of layout ≡ e.cells → layout.processes ≡ e.processes
        → IsRecovery e → NamesPlace layout (access_at e e.stage) }
{}

/// The access of a recovery of a sound sheet can be performed: the buffer has room for what is
/// flushed, and an entry where one is written back.
#[tactic(auto, using(crate::proofs::RecoveryLaws::accesses))]
pub fn accesses_are_possible()
    ensures { (e : PlainRecoverCall) (w : PlainWorld) → IsSound w → e.process < w.layout.processes
        → w.situation e.process ≡ Recovering e
        → CanPerform w.layout w.memory e.process (access_at e e.stage) }
{}

/// Each step of a recovery leaves fewer steps, until the answer's, which is the last; and a recovery
/// of a sheet of N cells has at most N * (3N + 30) + 23.
#[tactic(auto, using(crate::proofs::RecoveryRank::each_falls, crate::proofs::RecoveryRank::each_few))]
pub fn steps_are_few()
    ensures falls { (e : PlainRecoverCall) (word : ℕ) → IsRecovery e
        → Falls e e.stage (next_at e e.stage word) }
    ensures few { (e : PlainRecoverCall) → IsRecovery e
        → rank e.cells e.stage ≤ e.cells * (3 * e.cells + 30) + 23 }
{}

/// Where an edit of the process is open, the answer resolves it: Last with its number has its cell and
/// says whether it is linearized, and where it is, no crash takes it; Nothing, or Last with a smaller number, says that
/// it is not linearized. What is open no more is never linearized.
#[tactic(auto, using(crate::proofs::RecoveryLaws::answers))]
pub fn answers_resolve()
    ensures { (e : PlainRecoverCall) (how : Option Bool) (w : PlainWorld) (issue : PlainIssue) → IsSound w
        → e.process < w.layout.processes → w.situation e.process ≡ Recovering e → e.stage ≡ Answer how
        → w.open_edits e.process ≡ Some issue → ResolvesAs w issue.edit (end_of e how) }
{}

/// The answer repeats how the last of the process's edits ended whose number is spent, whether one is
/// open or not: Last has that number, and says whether an edit of it is linearized; after Nothing none of the
/// process's edits is linearized.
#[tactic(auto, using(crate::proofs::RecoveryLaws::repeated))]
pub fn answers_repeat()
    ensures { (e : PlainRecoverCall) (how : Option Bool) (w : PlainWorld) → IsSound w
        → e.process < w.layout.processes → w.situation e.process ≡ Recovering e → e.stage ≡ Answer how
        → RepeatsAs w e.process (end_of e how) }
{}

/// The cell that a recovery's answer reports, also of an edit that is not linearized, is a cell of the
/// sheet, and the one that both sides of the header of that record say: a crash keeps it.
pub fn answers_name_their_cell()
    ensures { (e : PlainRecoverCall) (how : Option Bool) (w : PlainWorld) → IsSound w
        → e.process < w.layout.processes → w.situation e.process ≡ Recovering e → e.stage ≡ Answer how
        → NamesCell w e.process (end_of e how) }
{}

/// A recovery marks only cells whose bits it found in the row of a cell that it gives back, and the
/// cell of its edit: no step makes it mark a cell without a bit.
#[tactic(auto, using(crate::proofs::RecoveryRepeats::each_found))]
pub fn only_cells_with_bits_are_marked()
    ensures { (e : PlainRecoverCall) (word : ℕ) → TellsFound e → TellsFound (next_at e e.stage word) }
{}

/// After its answer the process holds no cell.
#[tactic(auto, using(crate::proofs::RecoveryLaws::lets_go))]
pub fn no_cell_stays_held()
    ensures { (e : PlainRecoverCall) (how : Option Bool) (word : ℕ) (old new : PlainWorld) → IsSound old
        → e.process < old.layout.processes → old.situation e.process ≡ Recovering e → e.stage ≡ Answer how
        → Steps e word old new → HoldsNone new e.process }
{}

/// Each step of a recovery, and its beginning, leave the others what is theirs: no edit is
/// linearized, and each show under way still has a middle.
pub fn recoveries_leave_others()
    ensures steps { (e : PlainRecoverCall) (word : ℕ) (old new : PlainWorld) → IsSound old
        → e.process < old.layout.processes → old.situation e.process ≡ Recovering e
        → Steps e word old new → Leaves e.process old new }
    ensures begins { (p : ℕ) (old new : PlainWorld) → IsSound old → p < old.layout.processes
        → IsBegun old p new → Leaves p old new }
{}

/// A cell may be clean and show what its content does not give, because an edit in doubt took the
/// cell, another process worked on it then, and a crash took the edit: it is not linearized. In a sound
/// world that edit's process accounts for it alone. A recovery of that process that answered and left
/// the cell unmarked would leave no sound world. After `set 1 A1 9`, `begin 0 set A1 5`,
/// `run 0 to swung`, `work 1 A1`, `crash`, the cell A1 is clean, shows 5, and has the text 9; the
/// recovery of process 0 reports its edit as not done.
pub fn undone_edits_need_their_mark()
    ensures relied { (w : PlainWorld) (p c : ℕ) → IsSound w → ReliesOn w p c
        → Excuses w p (w.situation p) c (w.memory.cached (Mark c)) }
    ensures unmarked { (p c : ℕ) (old new : PlainWorld) → ReliesOn old p c
        → AnswersUnmarked p c old new → IsSound new → ⊥ }
{}
