//! A step of a migration, in its world.

ghost use Rattle.std.specs.Prelude.{◌≡◌, IfSome, IfNone};
ghost use Rattle.ds_state.specs.Works.{PlainMigrateCall};
ghost use Rattle.ds_state.specs.declared.situation.Situation.TheVariants.{Migrating};
ghost use Rattle.ds_recover.specs.MigrationSteps.{after};
ghost use Rattle.ds_recover.specs.MigrationTakes.{StepTakes};

use crate::migrate::{effect_of, got, want};
use ds_state::migration::{MigrateCall, MigrateEnd, MigrateStage};
use ds_state::situation::Situation;
use ds_state::turn::Turn;
use ds_state::world::World;

// The migration of a process, where it is in one.
fn call_of(situation: &Situation) -> Option<&MigrateCall>
    ensures some { IfSome result (λ call. situation.now ≡ Migrating call.now) }
    ensures none { IfNone result ((e : PlainMigrateCall) → situation.now ≡ Migrating e → ⊥) }
{
    match situation {
        Situation::Migrating(call) => Some(call),
        Situation::Idle(_) | Situation::Stopped | Situation::Editing(_) => None,
        Situation::Working(_) | Situation::Showing(_) | Situation::Recovering(_) => None,
    }
}

// The process goes on with the word that its access answered; after the answer it is stopped.
fn go_on(situation: &mut Situation, word: u64)
    ensures { (e : PlainMigrateCall) → situation.old ≡ Migrating e → situation.new ≡ after e e.stage word }
{
    if let Situation::Migrating(call) = situation {
        match call.stage {
            MigrateStage::Answer(_) => *situation = Situation::Stopped,
            _ => got(call, word),
        }
    }
}

/// A process makes the next step of its migration, and what that did to it. With its answer the process is stopped,
/// and recovers next. It takes no memory. Where the process has no migration under way, or the sheet has no such
/// process, the step cannot happen, and nothing changes.
pub fn step(world: &mut World, process: usize) -> Option<Turn<MigrateEnd>>
    ensures { StepTakes world.old process result world.new }
{
    if process >= world.situations.len() {
        return None;
    }
    let Some(call) = call_of(&world.situations[process]) else {
        return None;
    };
    let (what, access) = (effect_of(call), want(call));
    let word = world.words.perform(process, access);
    go_on(&mut world.situations[process], word);
    Some(what)
}
