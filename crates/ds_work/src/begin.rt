//! The beginning of work.

ghost use Rattle.std.specs.Prelude.{◌≡◌, ◌<◌, ◌≤◌, [], IfOk, IfErr, OnOk, OnErr};
ghost use Rattle.ds_formula.specs.Cells.{IsInside, index_of};
ghost use Rattle.ds_layout.specs.Places.{cells_of};
ghost use Rattle.ds_state.specs.Value.{world_of};
ghost use Rattle.ds_state.specs.declared.situation.Situation.TheVariants.{Idle};
ghost use Rattle.ds_work.specs.WorkSteps.{BeginsWork};
ghost use Rattle.ds_work.specs.WorkTakes.{IsAskedFor, IsBegun, Refuses};

use ds_eval::inputs::{Entry, Inputs};
use ds_eval::value::Value;
use ds_formula::cells::Cell;
use ds_formula::content::Content;
use ds_layout::layout::Layout;
use ds_state::refusal::Refusal;
use ds_state::row::IndexRow;
use ds_state::situation::{Rest, Situation, next_edit, put};
use ds_state::text::Text;
use ds_state::work::{WorkCall, WorkStage};
use ds_state::world::World;
use std::alloc::{AllocError, Global};

// No inputs, with room for that number: that of an answered work, where it is enough.
fn inputs_for(alloc: Global, spare: &mut Option<Inputs>, count: usize) -> Result<Inputs, AllocError>
    ensures items { IfOk result (λ inputs. inputs.items ≡ []) }
    ensures room { IfOk result (λ inputs. count ≤ inputs.room) }
{
    match spare.take() {
        Some(mut inputs) if inputs.room() >= count => {
            inputs.clear();
            Ok(inputs)
        }
        _ => Inputs::with_capacity(alloc, count),
    }
}

// Work of the process on the cell, with room for all that it will gather.
#[inline(always)]
fn prepared(layout: &Layout, process: usize, next: Rest, cell: Cell, inputs: Inputs) -> WorkCall
    requires process { process < layout.now.processes }
    requires cell { IsInside layout.now.shape cell }
    requires none { inputs.items ≡ [] }
    requires room { cells_of layout.now ≤ inputs.room }
    ensures { IsAskedFor layout.now process next (index_of layout.now.shape cell) result }
{
    let nothing = Entry {
        value: Value::Blank,
        height: 0,
    };
    WorkCall {
        process,
        edition: next.edition,
        next: next.number,
        cell: layout.shape.index(cell),
        cells: layout.cells(),
        processes: layout.processes,
        mark: 0,
        head: 0,
        length: 0,
        text: Text::empty(),
        content: Content::Blank,
        inputs,
        value: 0,
        kind: 0,
        entry: nothing,
        row: IndexRow::new(),
        stage: WorkStage::LoadMark,
    }
}

/// Work of the process on the cell, before its first step, with room for all that it will gather. An
/// error means that an allocation failed.
pub fn fresh(
    alloc: Global,
    layout: &Layout,
    process: usize,
    next: Rest,
    cell: Cell,
) -> Result<WorkCall, AllocError>
    requires process { process < layout.now.processes }
    requires cell { IsInside layout.now.shape cell }
    ensures { IfOk result (λ call. IsAskedFor layout.now process next (index_of layout.now.shape cell) call) }
{
    let inputs = Inputs::with_capacity(alloc, layout.cells())?;
    Ok(prepared(layout, process, next, cell, inputs))
}

// The process is in that work from now on.
#[inline(always)]
fn start(world: &mut World, call: WorkCall, cell: Cell, next: Rest)
    requires asked { IsAskedFor world.old.sheet.layout call.process next (index_of world.old.sheet.layout.shape cell) call }
    requires process { call.process < world.old.sheet.layout.processes }
    requires idle { (world_of world.old).situation call.process ≡ Idle next }
    ensures begins { BeginsWork next call (world_of world.old) (world_of world.new) }
    ensures sheet { world.new.sheet ≡ world.old.sheet }
    ensures done { world.new.done ≡ world.old.done }
    ensures settled { world.new.settled ≡ world.old.settled }
    ensures reports { world.new.reports ≡ world.old.reports }
{
    let process = call.process;
    put(&mut world.situations, process, Situation::Working(call));
}

/// Begins work on a cell by an idle process. Nothing is loaded yet: the work's steps do that. Room
/// for an input for each cell of the sheet is taken here, unless an answered work has left it, so that
/// later only the reading of the content takes memory.
///
/// The refusals are tried in this order, and each leaves the world as it was: `Busy` where the
/// process is in a call, `Stopped` where it is stopped, `NoMemory` where an allocation failed.
#[inline(always)]
pub fn begin(alloc: Global, world: &mut World, process: usize, cell: Cell) -> Result<(), Refusal>
    requires process { process < world.old.sheet.layout.processes }
    requires cell { IsInside world.old.sheet.layout.shape cell }
    ensures begun { OnOk result (IsBegun (world_of world.old) process (index_of world.old.sheet.layout.shape cell) (world_of world.new)) }
    ensures refused { IfErr result (λ refusal. Refuses (world_of world.old) process refusal) }
    ensures unchanged { OnErr result (world.new ≡ world.old) }
    ensures sheet { world.new.sheet ≡ world.old.sheet }
    ensures done { world.new.done ≡ world.old.done }
    ensures settled { world.new.settled ≡ world.old.settled }
    ensures reports { world.new.reports ≡ world.old.reports }
{
    let next = next_edit(&world.situations[process])?;
    let layout = world.words.layout();
    let inputs = inputs_for(alloc, &mut world.spare, layout.cells())?;
    let call = prepared(&layout, process, next, cell, inputs);
    start(world, call, cell, next);
    Ok(())
}
