//! Works on all cells that are marked, in rounds, until a round finds none.

ghost use Rattle.std.specs.Prelude.{◌≡◌, ◌<◌, ◌≤◌, ◌+◌, ◌*◌};
ghost use Rattle.ds_formula.specs.Cells.{cell_at};
ghost use Rattle.ds_layout.specs.Places.{cells_of};
ghost use Rattle.ds_core.specs.declared.event.Event.TheVariants.{BeginWork};
ghost use Rattle.ds_calls.specs.declared.settle.SettleStage.TheVariants.{Ends, Works};
ghost use Rattle.ds_state.specs.declared.answer.Answer.TheVariants.{Work};
ghost use Rattle.ds_calls.specs.Whole.{HasProcess, KeepsFree, IsWhole};
ghost use Rattle.ds_calls.specs.Settling.{ends, round, first_turn, goes_behind, worked, Settling, works_left, IsInTurn, WorksOnce};

use crate::call::whole_work;
use crate::marked::{cells, left, next_marked};
use ds_state::refusal::Refusal;
use ds_state::work::WorkEnd;
use ds_state::world::World;
use std::alloc::Global;

/// How a settle ended.
#[derive(Clone, Copy, Debug, PartialEq, Eq)]
pub enum SettleEnd {
    /// How many cells are marked or held; 0 where all are clean.
    Left(usize),
    /// The begin of a work of its was refused, for this cause.
    Refused(Refusal),
    /// A work of its lacked memory, and gave its cell back dirty.
    NoMemory,
}

/// What a settle does next.
#[derive(Clone, Copy, Debug, PartialEq, Eq)]
pub enum SettleStage {
    /// It ends.
    Ends(SettleEnd),
    /// A whole work on a cell.
    Works {
        /// How many rounds are left after this one.
        rounds: usize,
        /// The cell, by its number.
        cell: usize,
    },
}

// No work is due, or no round is left.
fn ended(world: &World) -> SettleStage
    ensures { result ≡ ends world.now }
{
    SettleStage::Ends(SettleEnd::Left(left(world)))
}

// The next round begins, with n left.
fn round(world: &World, rounds: usize) -> SettleStage
    ensures value { result ≡ round world.now rounds }
    ensures few { works_left (cells_of world.now.sheet.layout) result ≤ rounds * (cells_of world.now.sheet.layout + 1) }
    ensures inside { IsInTurn (cells_of world.now.sheet.layout) result }
{
    if rounds == 0 {
        return ended(world);
    }
    match next_marked(world, 0) {
        Some(cell) => SettleStage::Works {
            rounds: rounds - 1,
            cell,
        },
        None => ended(world),
    }
}

/// A settle begins, with two rounds more than the sheet has cells: with work on the first marked cell,
/// if there is one.
pub fn first_turn(world: &World) -> SettleStage
    ensures value { result ≡ first_turn world.now }
    ensures inside { IsInTurn (cells_of world.now.sheet.layout) result }
{
    round(world, cells(world) + 2)
}

// A round goes on after a cell.
fn goes_behind(world: &World, rounds: usize, cell: usize) -> SettleStage
    requires { cell < cells_of world.now.sheet.layout }
    ensures value { result ≡ goes_behind world.now rounds cell }
    ensures fewer { works_left (cells_of world.now.sheet.layout) result < works_left (cells_of world.now.sheet.layout) (Works rounds cell) }
    ensures inside { IsInTurn (cells_of world.now.sheet.layout) result }
{
    match next_marked(world, cell + 1) {
        Some(next) => SettleStage::Works { rounds, cell: next },
        None => round(world, rounds),
    }
}

/// What a settle does, with n rounds left after this one, once its work on the cell has ended
/// so: it ends where the begin was refused or an allocation failed, else it goes on after the cell.
pub fn worked(
    world: &World,
    rounds: usize,
    cell: usize,
    answered: Result<WorkEnd, Refusal>,
) -> SettleStage
    requires { cell < cells_of world.now.sheet.layout }
    ensures value { result ≡ worked world.now rounds cell answered }
    ensures fewer { works_left (cells_of world.now.sheet.layout) result < works_left (cells_of world.now.sheet.layout) (Works rounds cell) }
    ensures inside { IsInTurn (cells_of world.now.sheet.layout) result }
{
    match answered {
        Err(refusal) => SettleStage::Ends(SettleEnd::Refused(refusal)),
        Ok(WorkEnd::NoMemory) => SettleStage::Ends(SettleEnd::NoMemory),
        Ok(_) => goes_behind(world, rounds, cell),
    }
}

// A whole work on the cell with this number.
fn work_on(
    alloc: Global,
    world: &mut World,
    process: usize,
    cell: usize,
) -> Result<WorkEnd, Refusal>
    requires process { HasProcess world.old process }
    requires cell { cell < cells_of world.old.sheet.layout }
    ensures { IsWhole Work process (BeginWork process (cell_at world.old.sheet.layout.shape cell)) world.old result world.new }
{
    let shape = world.words.layout().shape;
    whole_work(alloc, world, process, shape.cell(cell))
}

// A whole work of a settle, and what the settle does next.
fn work(alloc: Global, world: &mut World, process: usize, rounds: usize, cell: usize) -> SettleStage
    requires process { HasProcess world.old process }
    requires cell { cell < cells_of world.old.sheet.layout }
    ensures works { WorksOnce process rounds cell world.old result world.new }
    ensures fewer { works_left (cells_of world.new.sheet.layout) result < works_left (cells_of world.old.sheet.layout) (Works rounds cell) }
    ensures inside { IsInTurn (cells_of world.new.sheet.layout) result }
{
    let answered = work_on(alloc, world, process, cell);
    worked(world, rounds, cell, answered)
}

/// Works on each cell that is marked when its turn comes, ascending, in at most two rounds more than
/// the sheet has cells, until a round finds none; each work is a whole one by a process of the sheet.
pub fn settle(alloc: Global, world: &mut World, process: usize) -> SettleEnd
    requires { HasProcess world.old process }
    ensures settles { Settling process world.old (Ends result) world.new }
    ensures free { KeepsFree process world.old world.new }
{
    let mut turn = first_turn(world);
    'works: loop {
        match turn {
            SettleStage::Ends(end) => return end,
            SettleStage::Works { rounds, cell } => turn = work(alloc, world, process, rounds, cell),
        }
    }
}
