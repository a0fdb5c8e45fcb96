//! A small sheet, and some of its cells.

use ds_formula::cells::{Cell, Shape};
use ds_state::world::World;
use std::alloc::Global;
use std::test::Fail;

/// The cell `A1`.
pub const A1: Cell = Cell { column: 0, row: 0 };

/// The cell `B1`.
pub const B1: Cell = Cell { column: 1, row: 0 };

/// The cell `A2`.
pub const A2: Cell = Cell { column: 0, row: 1 };

/// The sheet of two columns, two rows and two processes, new.
pub fn small(alloc: Global) -> Result<World, Fail> {
    let shape = Shape::new(2, 2).ok_or("shape")?;
    Ok(World::new(alloc, shape, 2)?)
}
