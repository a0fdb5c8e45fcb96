//! A step of a recovery, in its world.

ghost use Rattle.std.specs.Prelude.{ℕ, ◌≡◌, IfSome, IfNone};
ghost use Rattle.ds_state.specs.Works.{PlainRecoverCall};
ghost use Rattle.ds_state.specs.declared.recovery.RecoverStage.TheVariants.{Answer};
ghost use Rattle.ds_state.specs.declared.situation.Situation.TheVariants.{Recovering};
ghost use Rattle.ds_recover.specs.RecoverySteps.{after, next_number};
ghost use Rattle.ds_recover.specs.RecoverTakes.{StepTakes, open_edit_by};

use crate::machine::{effect_of, got, number, want};
use ds_state::ledger::Issue;
use ds_state::recovery::{RecoverCall, RecoverStage, RecoveryEnd};
use ds_state::situation::{Rest, Situation};
use ds_state::turn::Turn;
use ds_state::world::World;

// The recovery of a process, where it is in one.
fn call_of(situation: &Situation) -> Option<&RecoverCall>
    ensures some { IfSome result (λ call. situation.now ≡ Recovering call.now) }
    ensures none { IfNone result ((e : PlainRecoverCall) → situation.now ≡ Recovering e → ⊥) }
{
    match situation {
        Situation::Recovering(call) => Some(call),
        Situation::Idle(_) | Situation::Stopped | Situation::Editing(_) => None,
        Situation::Working(_) | Situation::Showing(_) | Situation::Migrating(_) => None,
    }
}

// The number of the process's next edit: that after the one that was announced.
fn next_number(call: &RecoverCall, how: Option<bool>) -> usize
    requires { call.now.stage ≡ Answer how }
    ensures { result ≡ next_number call.now.announcement how }
{
    // For the proof: reading the field gives its invariant.
    let _stage = call.stage;
    match how {
        None => 0,
        Some(_) => number(call) + 1,
    }
}

// The process goes on with the word that its access answered.
fn go_on(situation: &mut Situation, word: u64)
    ensures { (e : PlainRecoverCall) → situation.old ≡ Recovering e → situation.new ≡ after e e.stage word }
{
    if let Situation::Recovering(call) = situation {
        match call.stage {
            RecoverStage::Answer(how) => {
                let rest = Rest {
                    number: next_number(call, how),
                    edition: call.edition,
                };
                *situation = Situation::Idle(rest);
            }
            _ => got(call, word),
        }
    }
}

// The edit in doubt is resolved, where this was the last step.
fn close(open_edit: &mut Option<Issue>, what: Turn<RecoveryEnd>)
    ensures { open_edit.new ≡ open_edit_by open_edit.old what }
{
    if let Turn::Answers(_) = what {
        *open_edit = None;
    }
}

/// A process makes the next step of its recovery, and what that did to it. With its answer no edit of
/// the process is open any more. It takes no memory. Where the process has no recovery under way, or
/// the sheet has no such process, the step cannot happen, and nothing changes.
pub fn step(world: &mut World, process: usize) -> Option<Turn<RecoveryEnd>>
    ensures { StepTakes world.old process result world.new }
{
    if process >= world.situations.len() {
        return None;
    }
    let Some(call) = call_of(&world.situations[process]) else {
        return None;
    };
    let (what, access) = (effect_of(call), want(call));
    let word = world.words.perform(process, access);
    go_on(&mut world.situations[process], word);
    close(&mut world.open_edits[process], what);
    Some(what)
}
