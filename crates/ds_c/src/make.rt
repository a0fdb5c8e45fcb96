//! Exports: a world is made, and freed.

ghost use Rattle.std.specs.Prelude.{◌≡◌, ◌≤◌, IfOk, IfErr};
ghost use Rattle.ds_formula.specs.Limits.{PROCESSES_MOST};
ghost use Rattle.ds_layout.specs.declared.place.Edition.TheVariants as editions;
ghost use Rattle.ds_c.specs.Making.{IsMade, CanNotMake, Makes, Frees};

use crate::failure::Failure;
use crate::handle::Handle;
use c_handles::tell::Numbered;
use ds_formula::cells::Shape;
use ds_layout::layout::PROCESS_LIMIT;
use ds_layout::place::Edition;
use ds_state::world::World;
use std::alloc::{AllocError, Global};

// A new world of this shape, in one of the two layouts.
fn new_world(
    alloc: Global,
    shape: Shape,
    processes: usize,
    edition: Edition,
) -> Result<World, AllocError>
    requires some { 1 ≤ processes }
    requires limited { processes ≤ PROCESSES_MOST }
    ensures { IfOk result (λ world. IsMade shape.columns shape.rows processes edition world) }
{
    let world = match edition {
        Edition::First => World::first(alloc, shape, processes)?,
        Edition::Second => World::new(alloc, shape, processes)?,
    };
    world.is_always_good();
    Ok(world)
}

// A new world of this shape, in a box.
fn made(
    alloc: Global,
    columns: usize,
    rows: usize,
    processes: usize,
    edition: Edition,
) -> Result<Box<World>, Failure>
    ensures ok { IfOk result (λ world. IsMade columns rows processes edition world.value) }
    ensures err { IfErr result (CanNotMake columns rows processes) }
{
    let Some(shape) = Shape::new(columns, rows) else {
        return Err(Failure::BadShape);
    };
    if !(1..=PROCESS_LIMIT).contains(&processes) {
        return Err(Failure::BadShape);
    }
    let Ok(world) = new_world(alloc, shape, processes, edition) else {
        return Err(Failure::NoMemory);
    };
    match Box::new(alloc, world) {
        Ok(world) => Ok(world),
        Err(_) => Err(Failure::NoMemory),
    }
}

// A handle that holds none gets a new world.
fn make(
    alloc: Global,
    handle: &mut Handle,
    columns: usize,
    rows: usize,
    processes: usize,
    edition: Edition,
) -> u32
    ensures { Makes columns rows processes edition handle.old handle.new result }
{
    if !handle.is_empty() {
        return Failure::Full.number();
    }
    match made(alloc, columns, rows, processes, edition) {
        Ok(world) => {
            *handle = Handle::of(world);
            0
        }
        Err(failure) => failure.number(),
    }
}

/// A handle that holds none gets a new world: an empty sheet of this shape in the second layout, and processes that are
/// idle.
#[unsafe(no_mangle)]
pub extern "C" fn ds_c_world_make(
    alloc: Global,
    handle: &mut Handle,
    columns: usize,
    rows: usize,
    processes: usize,
) -> u32
    ensures { Makes columns rows processes editions.Second handle.old handle.new result }
{
    make(alloc, handle, columns, rows, processes, Edition::Second)
}

/// A handle that holds none gets a new world as before, but in the first layout: texts have at most 120 bytes until a
/// process has migrated it.
#[unsafe(no_mangle)]
pub extern "C" fn ds_c_world_make_first(
    alloc: Global,
    handle: &mut Handle,
    columns: usize,
    rows: usize,
    processes: usize,
) -> u32
    ensures { Makes columns rows processes editions.First handle.old handle.new result }
{
    make(alloc, handle, columns, rows, processes, Edition::First)
}

/// Gives the memory of a handle's world back. The handle is empty then.
#[unsafe(no_mangle)]
pub extern "C" fn ds_c_world_free(alloc: Global, handle: &mut Handle) -> u32
    ensures { Frees handle.old handle.new result }
{
    match handle.take(alloc) {
        Some(_world) => 0,
        None => Failure::Empty.number(),
    }
}
