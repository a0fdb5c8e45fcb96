//! Works on all cells that are marked, in rounds, until a round finds none.

ghost use Rattle.std.specs.Prelude.{◌<◌, ◌≤◌, ◌+◌, ℕ, List, IfOk};
ghost use Rattle.ds_formula.specs.Cells.{cell_at};
ghost use Rattle.ds_layout.specs.Places.{cells_of};
ghost use Rattle.ds_core.specs.declared.event.Event.TheVariants.{BeginWork};
ghost use Rattle.ds_core.specs.Takes.{Fits};
ghost use Rattle.ds_state.specs.Value.{WorldValue, world_of, IsGood};
ghost use Rattle.ds_calls.specs.Whole.{HasProcess};
ghost use Rattle.ds_calls.specs.Lone.{AreIdle, AreYoung};
ghost use Rattle.ds_script.specs.LoneSettles.{SaysClean};
ghost use Rattle.ds_script.specs.Doing.{settle};
ghost use Rattle.ds_script.specs.Plays.{Played};

use crate::texts::{end_bytes, reply_bytes};
use ds_calls::settle::{SettleStage, first_turn};
use ds_core::event::Event;
use ds_core::reply::Reply;
use ds_core::take::take;
use ds_state::world::World;
use std::alloc::{AllocError, Global};

/// Work on the cell with this number begins, or is refused.
pub fn begin(alloc: Global, world: &mut World, process: usize, cell: usize) -> Reply
    requires { cell < cells_of world.old.sheet.layout }
    ensures { Fits world.old (BeginWork process (cell_at world.old.sheet.layout.shape cell)) result world.new }
{
    let shape = world.words.layout().shape;
    let event = Event::BeginWork(process, shape.cell(cell));
    take(alloc, world, &event)
}

// A settle by a process that the sheet does not have: its first work, if there is one, cannot begin.
fn of_nobody(alloc: Global, world: &mut World, process: usize) -> Result<Vec<u8>, AllocError>
    requires { world.old.sheet.layout.processes ≤ process }
    ensures { IfOk result (λ answer. Played (settle world.old process) world.old answer.items world.new) }
{
    match first_turn(world) {
        SettleStage::Ends(end) => end_bytes(alloc, world, process, end),
        SettleStage::Works { rounds: _, cell } => {
            let reply = begin(alloc, world, process, cell);
            reply_bytes(alloc, world, process, reply)
        }
    }
}

/// Works on each cell that is marked when its turn comes, ascending, in at most two rounds more than
/// the sheet has cells, until a round finds none; and the text of that. An error means that an allocation failed.
pub fn settle(alloc: Global, world: &mut World, process: usize) -> Result<Vec<u8>, AllocError>
    ensures { IfOk result (λ answer. Played (settle world.old process) world.old answer.items world.new) }
{
    if process >= world.words.layout().processes {
        return of_nobody(alloc, world, process);
    }
    let end = ds_calls::settle::settle(alloc, world, process);
    end_bytes(alloc, world, process, end)
}

/// A settle of a world in which each process is idle answers `clean`, unless an allocation fails: before
/// the first call, between calls, and after a crash once every process has recovered. Two rounds more
/// than the sheet has cells are enough, in whatever order its cells refer to each other.
pub fn lone_settles_are_clean()
    ensures { (p : ℕ) (old : WorldValue) (text : List ℕ) (new : WorldValue) → IsGood old
        → HasProcess old p → AreIdle (world_of old) → AreYoung (world_of old) (cells_of old.sheet.layout + 2)
        → Played (settle old p) old text new → SaysClean p text }
{}
