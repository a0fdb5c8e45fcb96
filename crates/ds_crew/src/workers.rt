//! Workers: threads that recalculate the sheet.

ghost use Rattle.std.specs.Prelude.{◌≡◌, length};
ghost use Rattle.ds_crew.specs.Passes.{HasServed, HaveServed};
ghost use Rattle.ds_crew.specs.Trails.{HasGoneRound, HasGoneRounds, HasTurned};

use crate::ended::Worked;
use crate::locked::LockedSheet;
use crate::pass::{Pass, Trail};
use ds_core::event::Event;
use ds_formula::cells::Cell;
use ds_state::refusal::Refusal;
use std::alloc::Global;
use std::sync::Wait;
use std::sync::ledger::Ledger;
use std::thread::{Threads, for_each_mut};

/// Is asked before and after each evaluation, while the lock is free. It may let the worker wait.
pub trait Gate {
    /// The process is about to evaluate the task of its work on the cell.
    fn before(&self, process: usize, cell: Cell);

    /// The process has evaluated it.
    fn after(&self, process: usize, cell: Cell);
}

/// A gate that returns at once.
#[derive(Clone, Copy, Debug, PartialEq, Eq)]
pub struct Open;

impl Gate for Open {
    fn before(&self, _process: usize, _cell: Cell) {}

    fn after(&self, _process: usize, _cell: Cell) {}
}

// A worker's turn at a cell: work on it. Where its process is stopped, it recovers.
fn turn<L: Ledger, M: Ledger, G: Gate, R: Wait>(
    rt: &R,
    alloc: Global,
    sheet: &LockedSheet<L, M>,
    process: usize,
    cell: Cell,
    gate: &G,
    trail: &mut Trail,
)
    ensures { HasTurned process cell trail.old trail.new }
{
    let worked = sheet.work_as(rt, alloc, process, cell, gate, trail);
    if worked == Worked::Refused(Refusal::Stopped) {
        let begin = Event::BeginRecover(process);
        let _came = sheet.recover_as(rt, alloc, process, &begin, trail);
    }
}

// One round of a worker: its turn at each cell.
fn round<L: Ledger, M: Ledger, G: Gate, R: Wait>(
    rt: &R,
    alloc: Global,
    sheet: &LockedSheet<L, M>,
    process: usize,
    gate: &G,
    trail: &mut Trail,
)
    ensures { HasGoneRound sheet.now.layout.shape process trail.old trail.new }
{
    let shape = sheet.layout().shape;
    for index in 0..shape.count() {
        turn(rt, alloc, sheet, process, shape.cell(index), gate, trail);
    }
}

// What one worker does.
fn rounds<L: Ledger, M: Ledger, G: Gate, R: Wait>(
    rt: &R,
    alloc: Global,
    sheet: &LockedSheet<L, M>,
    gate: &G,
    turns: u64,
    pass: &mut Pass<L, M>,
)
    ensures { HasServed sheet.now.layout.shape turns pass.old pass.new }
{
    let Pass {
        process,
        last: _,
        dones: _,
        settleds: _,
        calls: _,
        trail,
    } = pass;
    for _ in 0..turns {
        round(rt, alloc, sheet, *process, gate, trail);
    }
}

/// Lends each pass to a worker, which drives its process for `turns` rounds: in each it works on each cell of the sheet, in
/// order, and where its process is stopped it recovers it, and drops what that says. Each worker has a thread of its own
/// where one can be started. Where a process migrates the sheet, its own work is refused, and so are recoveries of the
/// others: then a worker whose process is stopped has nothing to do in its rounds. Returns when all have ended. Work
/// counts nothing, so but for their trails the passes are as they were.
pub fn work_all<
    L: Ledger + Send + Sync,
    M: Ledger + Send + Sync,
    G: Gate + Sync,
    R: Threads + Wait + Sync,
>(rt: &R, alloc: Global, sheet: &LockedSheet<L, M>, passes: &mut [Pass<L, M>], gate: &G, turns: u64)
    ensures { HaveServed sheet.now.layout.shape turns passes.old passes.new }
{
    let threads = passes.len().max(1);
    for_each_mut(
        rt,
        passes,
        threads,
        &|_place, pass| { rounds(rt, alloc, sheet, gate, turns, pass) },
    );
}
