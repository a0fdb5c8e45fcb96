//! A step of a process that works.

ghost use Rattle.std.specs.Prelude.{◌≡◌, ◌<◌, IsTrue, IsFalse, IfSome, IfNone};
ghost use Rattle.ds_formula.specs.Cells.{count_of};
ghost use Rattle.ds_state.specs.Works.{PlainWorkCall};
ghost use Rattle.ds_state.specs.Value.{world_of};
ghost use Rattle.ds_state.specs.declared.situation.Situation.TheVariants.{Idle, Working};
ghost use Rattle.ds_work.specs.Noted.{turn_at};
ghost use Rattle.ds_work.specs.Reading.{IsReading};
ghost use Rattle.ds_layout.specs.SheetMemory.{CanPerform, memory};
ghost use Rattle.ds_work.specs.WorkSteps.{access_at, rest_of};
ghost use Rattle.ds_work.specs.WorkTakes.{GoesBy, IsIn, StepsBy, StepTakes};
ghost use Rattle.ds_work.specs.declared.machine.Doing.TheVariants.{Steps, Reads, Answers};
ghost use Rattle.ds_state.specs.declared.turn.Turn.TheVariants as does;

use crate::laws::works_are_of_a_sheet;
use crate::machine::{Doing, got, turn, want};
use crate::reading::reading;
use ds_eval::inputs::Inputs;
use ds_formula::cells::Shape;
use ds_layout::sheet_words::SheetWords;
use ds_state::situation::{Rest, Situation, exchange};
use ds_state::turn::Turn;
use ds_state::work::{WorkCall, WorkEnd};
use ds_state::world::World;
use std::alloc::Global;

// The work of a process, where it is in one.
#[inline(always)]
fn work_of(situation: &Situation) -> Option<&WorkCall>
    ensures some { IfSome result (λ call. situation.now ≡ Working call.now) }
    ensures none { IfNone result ((e : PlainWorkCall) → situation.now ≡ Working e → ⊥) }
{
    match situation {
        Situation::Working(call) => Some(call),
        Situation::Idle(_) | Situation::Stopped | Situation::Editing(_) => None,
        Situation::Recovering(_) | Situation::Showing(_) | Situation::Migrating(_) => None,
    }
}

// It reads the content of its text.
#[inline(always)]
fn read(alloc: Global, situation: &mut Situation, shape: Shape)
    requires { (e : PlainWorkCall) → situation.old ≡ Working e → count_of shape ≡ e.cells }
    ensures { (e : PlainWorkCall) → situation.old ≡ Working e → (f : PlainWorkCall) × (situation.new ≡ Working f) × IsReading shape e f }
{
    if let Situation::Working(call) = situation {
        reading(alloc, call, shape);
    }
}

// The step of the stage of its work: the work goes on with the word that its access answers.
#[inline(always)]
fn go_on(words: &mut SheetWords, situation: &mut Situation, process: usize)
    requires { (e : PlainWorkCall) → situation.old ≡ Working e → CanPerform words.old.layout (memory words.old) process (access_at words.old.layout.shape e e.stage) }
    ensures { (e : PlainWorkCall) → situation.old ≡ Working e → GoesBy e process words.old words.new situation.new }
{
    if let Situation::Working(call) = situation {
        let access = want(call, words.layout().shape);
        let word = words.perform(process, access);
        got(call, word);
    }
}

// The step of its stage.
#[inline(always)]
fn step_on(world: &mut World, process: usize)
    requires { (e : PlainWorkCall) × IsIn (world_of world.old) process e × (turn_at e.stage ≡ Steps) }
    ensures takes { StepsBy (world_of world.old) process does.GoesOn (world_of world.new) }
    ensures done { world.new.done ≡ world.old.done }
    ensures settled { world.new.settled ≡ world.old.settled }
    ensures reports { world.new.reports ≡ world.old.reports }
{
    go_on(&mut world.words, &mut world.situations[process], process);
}

// The step that reads the content.
#[inline(always)]
fn read_on(alloc: Global, world: &mut World, process: usize)
    requires { (e : PlainWorkCall) × IsIn (world_of world.old) process e × (turn_at e.stage ≡ Reads) }
    ensures takes { StepsBy (world_of world.old) process does.GoesOn (world_of world.new) }
    ensures done { world.new.done ≡ world.old.done }
    ensures settled { world.new.settled ≡ world.old.settled }
    ensures reports { world.new.reports ≡ world.old.reports }
{
    let shape = world.words.layout().shape;
    read(alloc, &mut world.situations[process], shape);
}

// The room for inputs that a work has had.
fn room_of(situation: Situation) -> Option<Inputs> {
    match situation {
        Situation::Working(call) => Some(call.inputs),
        _ => None,
    }
}

// The answer: the process is idle after it, and the room of its inputs is left for the next work.
#[inline(always)]
fn close(world: &mut World, process: usize, next: Rest, end: WorkEnd)
    requires { (e : PlainWorkCall) × IsIn (world_of world.old) process e × (turn_at e.stage ≡ Answers end) × (rest_of e ≡ next) }
    ensures takes { StepsBy (world_of world.old) process (does.Answers end) (world_of world.new) }
    ensures done { world.new.done ≡ world.old.done }
    ensures settled { world.new.settled ≡ world.old.settled }
    ensures reports { world.new.reports ≡ world.old.reports }
{
    let ended = exchange(&mut world.situations, process, Situation::Idle(next));
    world.spare = room_of(ended);
}

/// A process makes the next step of its work. Where it has none, or its work waits for an entry, or
/// the sheet has no such process, the step cannot happen and nothing changes. Only the step that
/// reads a content takes memory; where that is refused, the work goes on and answers `NoMemory`.
pub fn step(alloc: Global, world: &mut World, process: usize) -> Option<Turn<WorkEnd>>
    ensures takes { StepTakes (world_of world.old) process result (world_of world.new) }
    ensures unchanged { IfNone result (world.new ≡ world.old) }
    ensures done { world.new.done ≡ world.old.done }
    ensures settled { world.new.settled ≡ world.old.settled }
    ensures reports { world.new.reports ≡ world.old.reports }
{
    if process >= world.situations.len() {
        return None;
    }
    let Some(call) = work_of(&world.situations[process]) else {
        return None;
    };
    works_are_of_a_sheet(call);
    let doing = turn(call);
    let next = Rest {
        number: call.next,
        edition: call.edition,
    };
    match doing {
        Doing::Waits => None,
        Doing::Reads => {
            read_on(alloc, world, process);
            Some(Turn::GoesOn)
        }
        Doing::Steps => {
            step_on(world, process);
            Some(Turn::GoesOn)
        }
        Doing::Answers(end) => {
            close(world, process, next, end);
            Some(Turn::Answers(end))
        }
    }
}
