//! A step of a show, in its world.

ghost use Rattle.std.specs.Prelude.{ℕ, ◌≡◌, ◌<◌, ◌+◌, IfSome, IfNone, length};
ghost use Rattle.ds_state.specs.Works.{PlainShowCall};
ghost use Rattle.ds_state.specs.declared.reports.TheConstants.{SETTLED_MOST};
ghost use Rattle.ds_state.specs.declared.situation.Situation.TheVariants.{Showing};
ghost use Rattle.ds_show.specs.ShowSteps.{after, effect_at};
ghost use Rattle.ds_show.specs.ShowTakes.{StepTakes, settled_by, reports_by};

use crate::machine::{effect_of, got, want};
use ds_state::reports::Reports;
use ds_state::show::{ShowCall, ShowEnd, ShowStage};
use ds_state::situation::{Rest, Situation};
use ds_state::turn::Turn;
use ds_state::world::World;

// The show of a process, where it is in one.
fn call_of(situation: &Situation) -> Option<&ShowCall>
    ensures some { IfSome result (λ call. situation.now ≡ Showing call.now) }
    ensures none { IfNone result ((e : PlainShowCall) → situation.now ≡ Showing e → ⊥) }
{
    match situation {
        Situation::Showing(call) => Some(call),
        Situation::Idle(_) | Situation::Stopped | Situation::Editing(_) => None,
        Situation::Working(_) | Situation::Recovering(_) | Situation::Migrating(_) => None,
    }
}

// The values of a settled show are kept, in room that is there.
fn keep(reports: &mut Reports, call: &ShowCall)
    requires process { call.now.process < length reports.old.values }
    requires cells { reports.old.cells ≡ call.now.cells }
    ensures { reports.new ≡ reports_by reports.old call.now (effect_at call.now.stage) }
{
    if let ShowStage::Answer(ShowEnd::Settled) = call.stage {
        reports.keep(call.process, &call.values, &call.kinds);
    }
}

// One more show was answered Settled, where it was.
fn settled_after(settled: u64, what: Turn<ShowEnd>) -> u64
    requires { settled < SETTLED_MOST }
    ensures { result ≡ settled + settled_by what }
{
    match what {
        Turn::Answers(ShowEnd::Settled) => settled + 1,
        _ => settled,
    }
}

// The process goes on with the word that its access answered.
fn go_on(situation: &mut Situation, word: u64)
    ensures { (e : PlainShowCall) → situation.old ≡ Showing e → situation.new ≡ after e e.stage word }
{
    if let Situation::Showing(call) = situation {
        match call.stage {
            ShowStage::Answer(_) => {
                let next = Rest {
                    number: call.next,
                    edition: call.edition,
                };
                *situation = Situation::Idle(next);
            }
            _ => got(call, word),
        }
    }
}

/// A process makes the next step of its show, and what that did to it. The answer of a settled
/// show is counted, and its values are kept as the process's last ones; no memory is taken.
/// Where the process has no show under way, or the sheet has no such process, the step cannot
/// happen, and nothing changes.
pub fn step(world: &mut World, process: usize) -> Option<Turn<ShowEnd>>
    ensures { StepTakes world.old process result world.new }
{
    if process >= world.situations.len() {
        return None;
    }
    let Some(call) = call_of(&world.situations[process]) else {
        return None;
    };
    let (what, access) = (effect_of(call), want(call));
    keep(&mut world.reports, call);
    let word = world.words.perform(process, access);
    go_on(&mut world.situations[process], word);
    world.settled = settled_after(world.settled, what);
    Some(what)
}
