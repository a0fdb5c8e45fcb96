//! The task of a work that waits, and the offer of its entry.

ghost use Rattle.std.specs.Prelude.{◌≡◌, ◌<◌, ◌≤◌, ◌/◌, IsTrue, IsFalse, IfOk, IfErr, IfSome, IfNone, OnOk, OnErr};
ghost use Rattle.ds_layout.specs.Mark.{generation_of};
ghost use Rattle.ds_formula.specs.Cells.{count_of};
ghost use Rattle.ds_formula.specs.Limits.{CELLS_MOST};
ghost use Rattle.ds_eval.specs.Inputs.{entry_in};
ghost use Rattle.ds_eval.specs.Local as evaluation;
ghost use Rattle.ds_eval.specs.declared.inputs.Entry as entries;
ghost use Rattle.ds_state.specs.Works.{PlainWorkCall};
ghost use Rattle.ds_state.specs.Value.{world_of};
ghost use Rattle.ds_state.specs.declared.situation.Situation.TheVariants.{Working};
ghost use Rattle.ds_state.specs.declared.work.WorkStage.TheVariants.{Wait};
ghost use Rattle.ds_work.specs.WorkSteps.{offered};
ghost use Rattle.ds_work.specs.WorkTakes.{task_at, Waits, WaitsFor, IsOffered};
ghost use Rattle.ds_work.specs.declared.offer.TaskFault.TheVariants.{NoTask, NoMemory};

use crate::machine::stored;
use ds_eval::inputs::Entry;
use ds_eval::local::local;
use ds_eval::task::{Evaluated, Task};
use ds_formula::cells::Shape;
use ds_layout::mark::Mark;
use ds_state::situation::Situation;
use ds_state::work::{WorkCall, WorkStage};
use ds_state::world::World;
use std::alloc::{AllocError, Global};

/// Why a process has no task to be copied.
#[derive(Clone, Copy, Debug, PartialEq, Eq)]
pub enum TaskFault {
    /// It is in no work that waits for an entry.
    NoTask,
    /// An allocation failed.
    NoMemory,
}

// The work of a process, where it waits for an entry.
#[inline(always)]
fn waiting(situation: &Situation) -> Option<&WorkCall>
    ensures works { IfSome result (λ call. situation.now ≡ Working call.now) }
    ensures waits { IfSome result (λ call. call.now.stage ≡ Wait) }
    ensures none { IfNone result ((e : PlainWorkCall) → situation.now ≡ Working e → e.stage ≡ Wait → ⊥) }
{
    match situation {
        Situation::Working(call) => match call.stage {
            WorkStage::Wait => Some(call),
            _ => None,
        },
        Situation::Idle(_) | Situation::Stopped | Situation::Editing(_) => None,
        Situation::Recovering(_) | Situation::Showing(_) | Situation::Migrating(_) => None,
    }
}

// The generation of the claim under which it holds its cell.
fn generation(call: &WorkCall) -> u64
    ensures { result ≡ generation_of call.now.mark }
{
    Mark::read(call.mark, call.processes).generation
}

// Whether this is just the task of the work.
fn is_task(call: &WorkCall, shape: Shape, task: &Task) -> bool
    requires { call.now.cell < count_of shape }
    ensures yes { IsTrue result → task.now ≡ task_at shape call.now }
    ensures no { task.now ≡ task_at shape call.now → IsTrue result }
{
    task.is(
        call.process,
        shape.cell(call.cell),
        generation(call),
        shape,
        &call.content,
        &call.inputs,
    )
}

// The task of the work, in memory of its own.
fn task(alloc: Global, call: &WorkCall, shape: Shape) -> Result<Task, AllocError>
    requires { call.now.cell < count_of shape }
    ensures { IfOk result (λ task. task ≡ task_at shape call.now) }
{
    Ok(Task {
        process: call.process,
        cell: shape.cell(call.cell),
        generation: generation(call),
        shape,
        content: call.content.copy(alloc)?,
        inputs: call.inputs.copy(alloc)?,
    })
}

// The work goes on with this entry: where its words show it already, nothing is stored.
#[inline(always)]
fn take_entry(call: &mut WorkCall, entry: Entry)
    requires { entry.height ≤ CELLS_MOST }
    ensures { call.new ≡ offered call.old entry }
{
    let words = stored(entry);
    let same = call.value == words.value_word() && call.kind == words.kind_word();
    call.entry = entry;
    call.stage = if same {
        WorkStage::Clear(false)
    } else {
        WorkStage::StoreValue
    };
}

// The work of a process takes the entry, too.
#[inline(always)]
fn accept(situation: &mut Situation, entry: Entry)
    requires { entry.height ≤ CELLS_MOST }
    ensures { (e : PlainWorkCall) → situation.old ≡ Working e → situation.new ≡ Working (offered e entry) }
{
    if let Situation::Working(call) = situation {
        take_entry(call, entry);
    }
}

/// Evaluates the task of a work that waits, in place and without memory, and offers it its entry.
pub fn offer_to(call: &mut WorkCall, shape: Shape)
    requires { call.old.stage ≡ Wait }
    ensures { call.new ≡ offered call.old (evaluation.local shape call.old.content (entry_in call.old.inputs)) }
{
    let entry = local(&call.content, shape, &call.inputs);
    take_entry(call, entry);
}

// Whether the task's process waits for the entry of just this task.
fn waits_for(world: &World, task: &Task) -> bool
    ensures yes { IsTrue result → WaitsFor (world_of world.now) task.now }
    ensures no { WaitsFor (world_of world.now) task.now → IsTrue result }
{
    let process = task.process;
    if process >= world.situations.len() {
        return false;
    }
    let shape = world.words.layout().shape;
    match waiting(&world.situations[process]) {
        Some(call) => is_task(call, shape, task),
        None => false,
    }
}

/// The task of a process whose work waits for an entry, in memory of its own: it can be evaluated
/// anywhere. `NoTask` where the process waits for none, `NoMemory` where it waits and an allocation
/// failed.
pub fn task_of(alloc: Global, world: &World, process: usize) -> Result<Task, TaskFault>
    ensures process { IfOk result (λ task. task.process ≡ process) }
    ensures task { IfOk result (λ task. WaitsFor (world_of world.now) task) }
    ensures none { IfErr result (λ fault. fault ≡ NoTask → (e : PlainWorkCall) → Waits (world_of world.now) process e → ⊥) }
    ensures memory { IfErr result (λ fault. fault ≡ NoMemory → (e : PlainWorkCall) × Waits (world_of world.now) process e) }
{
    if process >= world.situations.len() {
        return Err(TaskFault::NoTask);
    }
    let shape = world.words.layout().shape;
    match waiting(&world.situations[process]) {
        Some(call) => match task(alloc, call, shape) {
            Ok(task) => Ok(task),
            Err(_) => Err(TaskFault::NoMemory),
        },
        None => Err(TaskFault::NoTask),
    }
}

/// Offers the entry of an evaluated task: whether it is taken. It is where the task's process waits
/// for just this task: of the same cell, generation, shape, content and inputs. Else nothing changes.
pub fn accepts(world: &mut World, evaluated: &Evaluated) -> bool
    ensures offered { IsTrue result → IsOffered (world_of world.old) evaluated.now.task.process evaluated.now.entry (world_of world.new) }
    ensures waits { IsTrue result → WaitsFor (world_of world.old) evaluated.now.task }
    ensures wrong { IsFalse result → WaitsFor (world_of world.old) evaluated.now.task → ⊥ }
    ensures unchanged { IsFalse result → world.new ≡ world.old }
    ensures sheet { world.new.sheet ≡ world.old.sheet }
    ensures done { world.new.done ≡ world.old.done }
    ensures settled { world.new.settled ≡ world.old.settled }
    ensures reports { world.new.reports ≡ world.old.reports }
{
    if !waits_for(world, evaluated.task()) {
        return false;
    }
    let process = evaluated.task().process;
    let entry = evaluated.entry();
    accept(&mut world.situations[process], entry);
    true
}

// The entry that a work which waits is to be given.
#[inline(always)]
fn own_entry(situation: &Situation, shape: Shape) -> Option<Entry>
    ensures value { IfSome result (λ entry. (e : PlainWorkCall) → situation.now ≡ Working e → entry ≡ evaluation.local shape e.content (entry_in e.inputs)) }
    ensures waits { IfSome result (λ entry. (e : PlainWorkCall) × (situation.now ≡ Working e) × (e.stage ≡ Wait)) }
    ensures none { IfNone result ((e : PlainWorkCall) → situation.now ≡ Working e → e.stage ≡ Wait → ⊥) }
{
    match waiting(situation) {
        Some(call) => Some(local(&call.content, shape, &call.inputs)),
        None => None,
    }
}

/// Evaluates the task of a process whose work waits, in place and without memory, and offers its
/// entry: the work goes on as by an offer of the task that `task_of` copies. Whether the process
/// waited; else nothing changes.
pub fn offer_own(world: &mut World, process: usize) -> bool
    ensures offered { IsTrue result → (entry : entries.Entry) × IsOffered (world_of world.old) process entry (world_of world.new) }
    ensures none { IsFalse result → (e : PlainWorkCall) → Waits (world_of world.old) process e → ⊥ }
    ensures unchanged { IsFalse result → world.new ≡ world.old }
    ensures sheet { world.new.sheet ≡ world.old.sheet }
    ensures done { world.new.done ≡ world.old.done }
    ensures settled { world.new.settled ≡ world.old.settled }
    ensures reports { world.new.reports ≡ world.old.reports }
{
    if process >= world.situations.len() {
        return false;
    }
    let shape = world.words.layout().shape;
    let Some(entry) = own_entry(&world.situations[process], shape) else {
        return false;
    };
    accept(&mut world.situations[process], entry);
    true
}
