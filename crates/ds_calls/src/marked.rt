//! Which cells are marked.

ghost use Rattle.std.specs.Prelude.{◌≡◌, ◌<◌, ◌≤◌, ◌-◌, IfSome};
ghost use Rattle.ds_formula.specs.Limits.{CELLS_MOST};
ghost use Rattle.ds_layout.specs.Places.{cells_of};
ghost use Rattle.ds_state.specs.Value.{world_of};
ghost use Rattle.ds_calls.specs.Marked.{state_at, is_marked, marked_from, left_in};

use ds_layout::mark::State;
use ds_state::shown::mark;
use ds_state::world::World;

/// How many cells the sheet has, at most 1,024.
pub fn cells(world: &World) -> usize
    ensures value { result ≡ cells_of world.now.sheet.layout }
    ensures few { result ≤ CELLS_MOST }
{
    world.words.layout().cells()
}

fn is_marked(world: &World, cell: usize) -> bool
    requires { cell < cells_of world.now.sheet.layout }
    ensures { result ≡ is_marked (state_at (world_of world.now) cell) }
{
    match mark(&world.words, cell).state() {
        State::Marked => true,
        State::Clean | State::Held(_) => false,
    }
}

/// The first cell that is marked, from this one on.
pub fn next_marked(world: &World, from: usize) -> Option<usize>
    requires { from ≤ cells_of world.now.sheet.layout }
    ensures value { result ≡ marked_from (world_of world.now) (cells_of world.now.sheet.layout - from) from }
    ensures above { IfSome result (λ cell. from ≤ cell) }
    ensures inside { IfSome result (λ cell. cell < cells_of world.now.sheet.layout) }
{
    let count = cells(world);
    let mut cell = from;
    while cell < count {
        if is_marked(world, cell) {
            return Some(cell);
        }
        cell += 1;
    }
    None
}

/// How many cells are marked or held.
pub fn left(world: &World) -> usize
    ensures { result ≡ left_in (world_of world.now) }
{
    let mut left = 0;
    for cell in 0..cells(world) {
        if mark(&world.words, cell).state() != State::Clean {
            left += 1;
        }
    }
    left
}
