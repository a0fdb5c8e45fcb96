//! Works on each cell in an order of the references, then settles.

ghost use Rattle.std.specs.Prelude.{◌≡◌, ◌<◌, IfNone, IfOk, IfSome, All, []};
ghost use Rattle.ds_formula.specs.Cells.{cell_at};
ghost use Rattle.ds_layout.specs.Places.{cells_of};
ghost use Rattle.ds_state.specs.Value.{world_of};
ghost use Rattle.ds_state.specs.declared.answer.Answer.TheVariants.{Work};
ghost use Rattle.ds_core.specs.declared.event.Event.TheVariants.{BeginWork};
ghost use Rattle.ds_calls.specs.Marked.{state_at, is_marked};
ghost use Rattle.ds_calls.specs.Whole.{HasProcess, IsWhole, KeepsFree};
ghost use Rattle.ds_recalculation.specs.Plans.{IsPlan};
ghost use Rattle.ds_recalculation.specs.Recalculations.{EndsInOrder, Ordered, Recalculates, Stops, TakesTurn, WorksOn, stop_of};

use crate::references::guessed;
use crate::sheet::shown_sheet;
use ds_calls::call::whole_work;
use ds_calls::settle::{SettleEnd, settle};
use ds_layout::mark::State;
use ds_order::along::goes_along;
use ds_state::refusal::Refusal;
use ds_state::shown::mark;
use ds_state::work::WorkEnd;
use ds_state::world::World;
use std::alloc::{AllocError, Global};

/// Whether the cell with this number is marked.
pub fn is_marked(world: &World, cell: usize) -> bool
    requires { cell < cells_of world.now.sheet.layout }
    ensures { result ≡ is_marked (state_at (world_of world.now) cell) }
{
    match mark(&world.words, cell).state() {
        State::Marked => true,
        State::Clean | State::Held(_) => false,
    }
}

/// How a recalculation ends by a work that ended so: where its begin was refused, or it lacked memory; else it goes on.
pub fn stop_of(answered: Result<WorkEnd, Refusal>) -> Option<SettleEnd>
    ensures { result ≡ stop_of answered }
{
    match answered {
        Err(refusal) => Some(SettleEnd::Refused(refusal)),
        Ok(WorkEnd::NoMemory) => Some(SettleEnd::NoMemory),
        Ok(_) => None,
    }
}

/// The order of a recalculation: the cells by their numbers, each once, after those that are written in the text that it
/// shows, but where references can be followed from it for ever. An error is that an allocation failed, or that the order
/// that was found is none.
pub fn planned(alloc: Global, world: &World) -> Result<Vec<usize>, AllocError>
    ensures { IfOk result (λ order. IsPlan world.now order.items) }
{
    let sheet = shown_sheet(alloc, world)?;
    let order = guessed(alloc, &sheet)?;
    if goes_along(alloc, &sheet, order.as_slice())? {
        Ok(order)
    } else {
        Err(AllocError)
    }
}

// A whole work on the cell with this number.
fn whole_work_on(
    alloc: Global,
    world: &mut World,
    process: usize,
    cell: usize,
) -> Result<WorkEnd, Refusal>
    requires process { HasProcess world.old process }
    requires cell { cell < cells_of world.old.sheet.layout }
    ensures { IsWhole Work process (BeginWork process (cell_at world.old.sheet.layout.shape cell)) world.old result world.new }
{
    let shape = world.words.layout().shape;
    whole_work(alloc, world, process, shape.cell(cell))
}

// A whole work on the cell with this number, and how the recalculation ends by it, if it does.
fn work_on(alloc: Global, world: &mut World, process: usize, cell: usize) -> Option<SettleEnd>
    requires process { HasProcess world.old process }
    requires cell { cell < cells_of world.old.sheet.layout }
    ensures { WorksOn process cell world.old result world.new }
{
    let answered = whole_work_on(alloc, world, process, cell);
    stop_of(answered)
}

// Works on the cell with this number where it is marked; and how the recalculation ends by that, if it does.
fn turn(alloc: Global, world: &mut World, process: usize, cell: usize) -> Option<SettleEnd>
    requires process { HasProcess world.old process }
    requires cell { cell < cells_of world.old.sheet.layout }
    ensures { TakesTurn process cell world.old result world.new }
{
    if is_marked(world, cell) {
        work_on(alloc, world, process, cell)
    } else {
        None
    }
}

// Works on each cell that is marked in its turn; and how the recalculation ends by a work, if it does.
fn work_in_order(
    alloc: Global,
    world: &mut World,
    process: usize,
    order: &[usize],
) -> Option<SettleEnd>
    requires process { HasProcess world.old process }
    requires inside { All (λ cell. cell < cells_of world.old.sheet.layout) order.now }
    ensures goes { IfNone result (Ordered process order.now world.old [] world.new) }
    ensures stops { IfSome result (λ end. Stops process order.now world.old end world.new) }
    ensures there { HasProcess world.new process }
    ensures free { KeepsFree process world.old world.new }
{
    for place in 0..order.len() {
        if let Some(end) = turn(alloc, world, process, order[place]) {
            return Some(end);
        }
    }
    None
}

/// Works on each cell that is marked in its turn, in this order, and then settles; each work is a whole one by a process of
/// the sheet.
///
/// It ends as a settle does: by how many cells are marked or held; or by a work whose begin was refused, or that lacked
/// memory.
pub fn recalculate_in(
    alloc: Global,
    world: &mut World,
    process: usize,
    order: &[usize],
) -> SettleEnd
    requires process { HasProcess world.old process }
    requires inside { All (λ cell. cell < cells_of world.old.sheet.layout) order.now }
    ensures ends { EndsInOrder process order.now world.old result world.new }
    ensures free { KeepsFree process world.old world.new }
{
    match work_in_order(alloc, world, process, order) {
        Some(end) => end,
        None => settle(alloc, world, process),
    }
}

/// Works on each cell that is marked in its turn, once, in the order of the references, and then settles; each work is
/// a whole one by a process of the sheet.
///
/// It ends as a settle does: by how many cells are marked or held; or by a work whose begin was refused, or that lacked
/// memory. It ends as where memory lacks, too, where `planned` has no order: then it has done nothing.
pub fn recalculate(alloc: Global, world: &mut World, process: usize) -> SettleEnd
    requires { HasProcess world.old process }
    ensures recalculates { Recalculates process world.old result world.new }
    ensures free { KeepsFree process world.old world.new }
{
    match planned(alloc, world) {
        Ok(order) => recalculate_in(alloc, world, process, order.as_slice()),
        Err(_) => SettleEnd::NoMemory,
    }
}
