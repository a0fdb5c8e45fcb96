//! The beginning of a recovery.

ghost use Rattle.std.specs.Prelude.{◌≡◌, ◌<◌, ◌↔◌, ℕ, IsTrue, IfOk, IfErr, IfSome, IfNone, OnErr, length, slice_index_or};
ghost use Rattle.ds_layout.specs.Places.{cells_of};
ghost use Rattle.ds_state.specs.LayoutsFit.{IsMoving, NoneMoves};
ghost use Rattle.ds_state.specs.declared.situation.Situation.TheVariants.{Idle};
ghost use Rattle.ds_state.specs.Value.{first_rest, world_of};
ghost use Rattle.ds_recover.specs.RecoverySteps.{BeginsRecovery, fresh};
ghost use Rattle.ds_recover.specs.RecoverBegun.{MayRecover, IsBegun, Refuses};

use ds_layout::layout::Layout;
use ds_layout::place::Edition;
use ds_state::recovery::{RecoverCall, RecoverStage};
use ds_state::refusal::Refusal;
use ds_state::row::IndexRow;
use ds_state::situation::{Situation, put};
use ds_state::world::World;

// Whether the process is in no call.
pub(crate) fn may_recover(situation: &Situation) -> bool
    ensures { IsTrue result ↔ MayRecover situation.now }
{
    match situation {
        Situation::Idle(_) | Situation::Stopped => true,
        Situation::Working(_) | Situation::Recovering(_) | Situation::Showing(_) => false,
        Situation::Editing(_) | Situation::Migrating(_) => false,
    }
}

fn is_moving(situation: &Situation) -> bool
    ensures { IsTrue result ↔ IsMoving situation.now }
{
    match situation {
        Situation::Migrating(_) => true,
        Situation::Idle(_) | Situation::Stopped | Situation::Editing(_) => false,
        Situation::Working(_) | Situation::Recovering(_) | Situation::Showing(_) => false,
    }
}

// A process that migrates the sheet.
fn migrating(situations: &[Situation]) -> Option<usize>
    ensures there { IfSome result (λ q. q < length situations.now) }
    ensures some { IfSome result (λ q. IsMoving (slice_index_or situations.now q (Idle first_rest))) }
    ensures none { IfNone result ((q : ℕ) → q < length situations.now → IsMoving (slice_index_or situations.now q (Idle first_rest)) → ⊥) }
{
    let mut process = 0;
    while process < situations.len() {
        if is_moving(&situations[process]) {
            return Some(process);
        }
        process += 1;
    }
    None
}

/// The process's recovery of the sheet, before its first step.
pub fn fresh(layout: &Layout, process: usize) -> RecoverCall
    requires { process < layout.now.processes }
    ensures { result ≡ fresh process (cells_of layout.now) layout.now.processes }
{
    RecoverCall {
        process,
        edition: Edition::First,
        cells: layout.cells(),
        processes: layout.processes,
        mark: 0,
        row: IndexRow::new(),
        announcement: 0,
        cell: 0,
        stage: RecoverStage::LoadVersion,
    }
}

// Begins a recovery of the sheet.
fn enter(world: &mut World, call: RecoverCall)
    requires process { call.process < world.old.sheet.layout.processes }
    requires free { MayRecover ((world_of world.old).situation call.process) }
    requires alone { NoneMoves (world_of world.old) call.process }
    requires first { call ≡ fresh call.process (cells_of world.old.sheet.layout) world.old.sheet.layout.processes }
    ensures begins { BeginsRecovery call (world_of world.old) (world_of world.new) }
    ensures sheet { world.new.sheet ≡ world.old.sheet }
    ensures done { world.new.done ≡ world.old.done }
    ensures settled { world.new.settled ≡ world.old.settled }
    ensures reports { world.new.reports ≡ world.old.reports }
{
    put(
        &mut world.situations,
        call.process,
        Situation::Recovering(call),
    );
}

/// Begins a recovery by a process that is stopped or idle, while no other one migrates. It takes no memory.
///
/// The refusals are `Busy`, where the process is in a call, and `Migrating`, which names the process that migrates.
/// They leave the world as it was.
pub fn begin(world: &mut World, process: usize) -> Result<(), Refusal>
    requires { process < world.old.sheet.layout.processes }
    ensures begun { IfOk result (λ _. IsBegun (world_of world.old) process (world_of world.new)) }
    ensures refused { IfErr result (λ refusal. Refuses (world_of world.old) process refusal) }
    ensures unchanged { OnErr result (world.new ≡ world.old) }
    ensures sheet { world.new.sheet ≡ world.old.sheet }
    ensures done { world.new.done ≡ world.old.done }
    ensures settled { world.new.settled ≡ world.old.settled }
    ensures reports { world.new.reports ≡ world.old.reports }
{
    if !may_recover(&world.situations[process]) {
        return Err(Refusal::Busy);
    }
    if let Some(other) = migrating(&world.situations) {
        return Err(Refusal::Migrating(other));
    }
    let layout = world.words.layout();
    let call = fresh(&layout, process);
    enter(world, call);
    Ok(())
}
