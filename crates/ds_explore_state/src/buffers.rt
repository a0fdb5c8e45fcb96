//! In which calls a process has nothing in its buffer.

ghost use Rattle.std.specs.Prelude.{◌≡◌, ℕ, IsFalse, List};
ghost use Rattle.ds_state.specs.CallsFit.{held_at};
ghost use Rattle.ds_state.specs.CallsFit as edits;
ghost use Rattle.ds_state.specs.KnownRecovery.{recovery_held};
ghost use Rattle.ds_state.specs.KnownRecovery as recoveries;
ghost use Rattle.ds_state.specs.Value.{world_of};
ghost use Rattle.ds_state.specs.KnownWork.{work_held};
ghost use Rattle.ds_state.specs.KnownWork as works;
ghost use Rattle.ds_state.specs.Works.{PlainWorkCall};
ghost use Rattle.ds_explore_state.specs.Buffers.{HasEmptyBuffer, MigratesEmpty};

use ds_state::migration::MigrateStage;
use ds_state::recovery::RecoverStage;
use ds_state::situation::Situation;
use ds_state::spread::Spread;
use ds_state::stage::Stage;
use ds_state::work::WorkStage;
use ds_state::world::World;

// Whether an edit has nothing in its buffer at this stage.
fn edits_empty(stage: Stage) -> bool
    ensures { IsFalse result → (parts : ℕ) (refs : List ℕ) → held_at parts refs stage ≡ edits.empty → ⊥ }
{
    !matches!(
        stage,
        Stage::FlushText(_)
            | Stage::BackRecord(_)
            | Stage::BackPending
            | Stage::BackIndex(_)
            | Stage::BackNoted(_)
            | Stage::BackDone(_)
            | Stage::BackOwn(_)
            | Stage::BackMark(_)
            | Stage::BackOutcome(_)
    )
}

// Whether a work has nothing in its buffer at this stage.
fn works_empty(stage: WorkStage) -> bool
    ensures { IsFalse result → (e : PlainWorkCall) → work_held e stage ≡ works.empty → ⊥ }
{
    !matches!(
        stage,
        WorkStage::BackClaim
            | WorkStage::FlushKind
            | WorkStage::BackValue
            | WorkStage::BackKind
            | WorkStage::Telling(Spread::BackTold(_))
            | WorkStage::BackCleared(_)
    )
}

// Whether a recovery has nothing in its buffer at this stage.
fn recovers_empty(stage: RecoverStage) -> bool
    ensures { IsFalse result → (cell : ℕ) → recovery_held cell stage ≡ recoveries.empty → ⊥ }
{
    !matches!(
        stage,
        RecoverStage::BackVersion
            | RecoverStage::FlushKind(_)
            | RecoverStage::BackValue(_)
            | RecoverStage::BackKind(_)
            | RecoverStage::Telling(_, Spread::BackTold(_))
            | RecoverStage::BackGiven(_)
            | RecoverStage::BackHead
            | RecoverStage::BackMark(_)
            | RecoverStage::BackOutcome(_)
    )
}

// Whether a migration has nothing in its buffer at this stage.
fn migrates_empty(stage: MigrateStage) -> bool
    ensures { IsFalse result → MigratesEmpty stage → ⊥ }
{
    !matches!(
        stage,
        MigrateStage::BackNew(_) | MigrateStage::BackVersion(_)
    )
}

/// Whether a process is known to have nothing in its buffer, by what it does.
pub(crate) fn has_empty_buffer(world: &World, process: usize) -> bool
    ensures { IsFalse result → HasEmptyBuffer ((world_of world.now).situation process) → ⊥ }
{
    match world.situations.get(process) {
        Some(Situation::Editing(call)) => edits_empty(call.stage),
        Some(Situation::Working(call)) => works_empty(call.stage),
        Some(Situation::Recovering(call)) => recovers_empty(call.stage),
        Some(Situation::Migrating(call)) => migrates_empty(call.stage),
        _ => true,
    }
}
