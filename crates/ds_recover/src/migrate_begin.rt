//! The beginning of a migration.

ghost use Rattle.std.specs.Prelude.{◌≡◌, ◌<◌, ◌↔◌, IsTrue, ◌≢◌, ℕ, IfOk, IfErr, IfSome, IfNone, OnErr, length, slice_index_or};
ghost use Rattle.ds_state.specs.Value.{first_rest, world_of};
ghost use Rattle.ds_state.specs.declared.situation.Situation.TheVariants.{Idle, Stopped};
ghost use Rattle.ds_recover.specs.MigrationSteps.{BeginsMigration, fresh};
ghost use Rattle.ds_recover.specs.MigrationTakes.{AllStopped, Refuses};

use crate::begin::may_recover;
use crate::migrate::fresh;
use ds_state::migration::MigrateCall;
use ds_state::refusal::Refusal;
use ds_state::situation::{Situation, put};
use ds_state::world::World;

fn is_stopped(situation: &Situation) -> bool
    ensures { IsTrue result ↔ (situation.now ≡ Stopped) }
{
    match situation {
        Situation::Stopped => true,
        Situation::Idle(_) | Situation::Editing(_) | Situation::Working(_) => false,
        Situation::Recovering(_) | Situation::Showing(_) | Situation::Migrating(_) => false,
    }
}

// The first process that is not stopped.
fn first_running(situations: &[Situation]) -> Option<usize>
    ensures there { IfSome result (λ q. q < length situations.now) }
    ensures some { IfSome result (λ q. slice_index_or situations.now q (Idle first_rest) ≢ Stopped) }
    ensures first { IfSome result (λ q. (r : ℕ) → r < q → slice_index_or situations.now r (Idle first_rest) ≡ Stopped) }
    ensures none { IfNone result ((q : ℕ) → q < length situations.now → slice_index_or situations.now q (Idle first_rest) ≡ Stopped) }
{
    let mut process = 0;
    while process < situations.len() {
        if !is_stopped(&situations[process]) {
            return Some(process);
        }
        process += 1;
    }
    None
}

// Begins a migration of the sheet.
fn enter(world: &mut World, call: MigrateCall)
    requires process { call.process < world.old.sheet.layout.processes }
    requires stopped { AllStopped (world_of world.old) }
    requires first { call ≡ fresh call.process world.old.sheet.layout.processes }
    ensures begins { BeginsMigration call.process (world_of world.old) (world_of world.new) }
    ensures sheet { world.new.sheet ≡ world.old.sheet }
    ensures done { world.new.done ≡ world.old.done }
    ensures settled { world.new.settled ≡ world.old.settled }
    ensures reports { world.new.reports ≡ world.old.reports }
{
    put(
        &mut world.situations,
        call.process,
        Situation::Migrating(call),
    );
}

/// Begins a migration of the sheet to the second layout, by a process that is stopped, as all others are. It takes no
/// memory.
///
/// The refusals are `Busy`, where the process is in a call, and `NotStopped`, which names the first process that is
/// not stopped. They leave the world as it was.
pub fn begin_migration(world: &mut World, process: usize) -> Result<(), Refusal>
    requires { process < world.old.sheet.layout.processes }
    ensures begun { IfOk result (λ _. BeginsMigration process (world_of world.old) (world_of world.new)) }
    ensures refused { IfErr result (λ refusal. Refuses (world_of world.old) process refusal) }
    ensures unchanged { OnErr result (world.new ≡ world.old) }
    ensures sheet { world.new.sheet ≡ world.old.sheet }
    ensures done { world.new.done ≡ world.old.done }
    ensures settled { world.new.settled ≡ world.old.settled }
    ensures reports { world.new.reports ≡ world.old.reports }
{
    if !may_recover(&world.situations[process]) {
        return Err(Refusal::Busy);
    }
    if let Some(running) = first_running(&world.situations) {
        return Err(Refusal::NotStopped(running));
    }
    let layout = world.words.layout();
    let call = fresh(&layout, process);
    enter(world, call);
    Ok(())
}
