//! Works on the marked cells in the order of their references, then settles.

ghost use Rattle.std.specs.Prelude.{ℕ, List, IfOk};
ghost use Rattle.ds_calls.specs.Whole.{HasProcess};
ghost use Rattle.ds_recalculation.specs.Plans.{IsPlan};
ghost use Rattle.ds_script.specs.Doing.{in_order};
ghost use Rattle.ds_script.specs.Plays.{Played};

use crate::texts::end_bytes;
use ds_recalculation::recalculation::{planned, recalculate_in};
use ds_state::world::World;
use std::alloc::{AllocError, Global};

/// Works on each cell that is marked in its turn, once, in the order of the references of the texts that the sheet shows;
/// then settles; and the text of that. An error means that an allocation failed.
pub fn recalculate(alloc: Global, world: &mut World, process: usize) -> Result<Vec<u8>, AllocError>
    requires { HasProcess world.old process }
    ensures { IfOk result (λ answer. (order : List ℕ) × IsPlan world.old order
        × Played (in_order world.old process order) world.old answer.items world.new) }
{
    let order = planned(alloc, world)?;
    let end = recalculate_in(alloc, world, process, order.as_slice());
    end_bytes(alloc, world, process, end)
}
