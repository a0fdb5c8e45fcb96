//! A step of an edit, in its world.

ghost use Rattle.std.specs.Prelude.{◌≡◌, ◌<◌, ◌≤◌, ◌++◌, ◌*◌, ℕ, IfSome, IfNone, length, vec_capacity};
ghost use Rattle.ds_formula.specs.Limits.{PROCESSES_MOST, EDITS_MOST};
ghost use Rattle.ds_state.specs.Edits.{PlainEditCall};
ghost use Rattle.ds_state.specs.declared.situation.Situation.TheVariants.{Editing};
ghost use Rattle.ds_state.specs.EditEndings.{outcome_at};
ghost use Rattle.ds_state.specs.World.{edit_of};
ghost use Rattle.ds_edit.specs.EditSteps.{access_at};
ghost use Rattle.ds_edit.specs.EditTakes.{IsEditing, StepTakes, StepsBy, after_by, counted_by, done_by, open_edit_by, outcome_by, turn_at, turn_by};
ghost use Rattle.ds_edit.specs.declared.machine.Effect.TheVariants.{Counts};

use crate::machine::{Effect, effect_of, got, want};
use ds_layout::place::Place;
use ds_state::answer::EditEnd;
use ds_state::edit::EditCall;
use ds_state::ledger::{Edit, Issue};
use ds_state::situation::{Rest, Situation};
use ds_state::stage::{Outcome, Stage};
use ds_state::turn::Turn;
use ds_state::world::World;
use ds_words::access::Access;

// The edit of a process, where it is in one.
#[inline(always)]
fn call_of(situation: &Situation) -> Option<&EditCall>
    ensures some { IfSome result (λ call. situation.now ≡ Editing call.now) }
    ensures none { IfNone result ((e : PlainEditCall) → situation.now ≡ Editing e → ⊥) }
{
    match situation {
        Situation::Editing(call) => Some(call),
        Situation::Idle(_) | Situation::Stopped => None,
        Situation::Working(_) | Situation::Recovering(_) | Situation::Showing(_) => None,
        Situation::Migrating(_) => None,
    }
}

// The process goes on with the word that its access answered; the last step of its edit leaves it idle.
#[inline(always)]
fn go_on(situation: &mut Situation, what: Effect, word: u64)
    ensures { (e : PlainEditCall) → situation.old ≡ Editing e → situation.new ≡ after_by e word what }
{
    if let Situation::Editing(call) = situation {
        match what {
            Effect::GoesOn | Effect::Counts => got(call, word),
            Effect::Answers(_) => {
                let rest = Rest {
                    number: call.number + 1,
                    edition: call.edition,
                };
                *situation = Situation::Idle(rest);
            }
        }
    }
}

// What the step does to the list of linearized edits.
#[inline(always)]
fn count(counted: &mut Vec<Edit>, situation: &Situation, what: Effect)
    requires { what ≡ Counts → length counted.old.items < vec_capacity counted.old }
    ensures items { (e : PlainEditCall) → situation.now ≡ Editing e → counted.new.items ≡ counted.old.items ++ counted_by (edit_of e) what }
    ensures capacity { vec_capacity counted.new ≡ vec_capacity counted.old }
{
    match what {
        Effect::Counts => {
            if let Situation::Editing(call) = situation {
                counted.push_reserved(Edit::of(call));
            }
        }
        Effect::GoesOn | Effect::Answers(_) => {}
    }
}

// The edit is answered, where this was its last step.
#[inline(always)]
fn close(open_edit: &mut Option<Issue>, what: Effect)
    ensures { open_edit.new ≡ open_edit_by open_edit.old what }
{
    match what {
        Effect::Answers(_) => *open_edit = None,
        Effect::GoesOn | Effect::Counts => {}
    }
}

// One more edit was answered Done, where it was.
#[inline(always)]
fn done_after(done: u64, what: Effect) -> u64
    requires { done ≤ PROCESSES_MOST * EDITS_MOST }
    ensures { result ≡ done_by done what }
{
    match what {
        Effect::Answers(Outcome::Done) => done + 1,
        Effect::Answers(Outcome::Overtaken { noted: _, seen: _ }) => done,
        Effect::GoesOn | Effect::Counts => done,
    }
}

// What the step does to the edit with this number.
fn turn(processes: usize, number: usize, what: Effect) -> Turn<EditEnd>
    ensures { result ≡ turn_by processes number what }
{
    match what {
        Effect::GoesOn | Effect::Counts => Turn::GoesOn,
        Effect::Answers(how) => Turn::Answers(EditEnd::of(processes, number, how)),
    }
}

// A process makes the step of its edit that is at this stage, by this access. It answers what the step did.
#[inline(always)]
fn edit_on(world: &mut World, process: usize, stage: Stage, access: Access<Place>) -> Effect
    requires { (e : PlainEditCall) × IsEditing world.old process e × (stage ≡ e.stage) × (access ≡ access_at e e.stage) }
    ensures takes { (e : PlainEditCall) → IsEditing world.old process e → StepsBy world.old process (turn_at world.old.sheet.layout.processes e.number stage) world.new }
    ensures outcome { outcome_by result ≡ outcome_at stage }
{
    let word = world.words.perform(process, access);
    let what = effect_of(stage, word);
    count(&mut world.counted, &world.situations[process], what);
    go_on(&mut world.situations[process], what, word);
    close(&mut world.open_edits[process], what);
    world.done = done_after(world.done, what);
    what
}

/// A process makes the next step of its edit, and what that did to it. Where it has none, or the sheet has no such
/// process, the step cannot happen and nothing changes.
pub fn step(world: &mut World, process: usize) -> Option<Turn<EditEnd>>
    ensures { StepTakes world.old process result world.new }
{
    if process >= world.situations.len() {
        return None;
    }
    let Some(call) = call_of(&world.situations[process]) else {
        return None;
    };
    let (number, stage, access) = (call.number, call.stage, want(call));
    let processes = call.processes;
    let what = edit_on(world, process, stage, access);
    Some(turn(processes, number, what))
}
