//! What a caller reads of a world.

ghost use Rattle.std.specs.Prelude.{ℕ, List, Result, IfOk, IfErr};
ghost use Rattle.ds_formula.specs.Cells.{IsInside};
ghost use Rattle.ds_c.specs.declared.failure.Failure.{Failure};
ghost use Rattle.ds_c.specs.declared.rows.ValueRow.{ValueRow};
ghost use Rattle.ds_c.specs.Calls.{Does, Hands};
ghost use Rattle.ds_c.specs.Events.{LacksCell, LacksProcess, LacksWord};
ghost use Rattle.ds_c.specs.Reading.{Reads, IsSizeOf, IsValueOf, IsMarkOf, IsTextOf, IsWordOf, AreValuesOf, Never, LacksText};

use crate::calls::{find_place, find_process};
use crate::failure::Failure;
use crate::rows::{MarkRow, PlaceRow, SizeRow, ValueRow, WordRow};
use crate::tell::{fill, fill_values};
use c_handles::tell::Numbered;
use ds_formula::cells::Cell;
use ds_state::world::World;
use std::alloc::Global;

/// Whether the sheet has the cell.
pub fn find_cell(world: &World, cell: Cell) -> Result<(), Failure>
    ensures ok { IfOk result (λ _. IsInside world.now.sheet.layout.shape cell) }
    ensures err { IfErr result (λ why. LacksCell cell world.now why) }
{
    if world.words.layout().shape.contains(cell) {
        Ok(())
    } else {
        Err(Failure::NoCell)
    }
}

/// How large the sheet is.
pub fn size(world: &World) -> Result<SizeRow, Failure>
    ensures { Does (Reads IsSizeOf) Never world.now result world.now }
{
    Ok(SizeRow::of(world.words.layout()))
}

/// The value of a cell.
pub fn value(world: &World, cell: Cell) -> Result<ValueRow, Failure>
    ensures { Does (Reads (IsValueOf cell)) (LacksCell cell) world.now result world.now }
{
    find_cell(world, cell)?;
    Ok(ValueRow::of(world.value_of(cell)))
}

/// The mark of a cell.
pub fn mark(world: &World, cell: Cell) -> Result<MarkRow, Failure>
    ensures { Does (Reads (IsMarkOf cell)) (LacksCell cell) world.now result world.now }
{
    find_cell(world, cell)?;
    Ok(MarkRow::of(world.mark_of(cell)))
}

/// Both sides of a word.
pub fn word(world: &World, named: PlaceRow) -> Result<WordRow, Failure>
    ensures { Does (Reads (IsWordOf named)) (LacksWord named) world.now result world.now }
{
    let place = find_place(world, named)?;
    Ok(WordRow::of(world.words.word(place)))
}

// The text of a cell.
fn text(alloc: Global, world: &World, cell: Cell) -> Result<Vec<u8>, Failure>
    ensures ok { IfOk result (λ text. IsTextOf cell world.now text.items) }
    ensures err { IfErr result (λ why. LacksText cell world.now why) }
{
    if !world.words.layout().shape.contains(cell) {
        return Err(Failure::NoCell);
    }
    match world.text_of(alloc, cell) {
        Ok(text) => Ok(text),
        Err(_) => Err(Failure::NoMemory),
    }
}

/// The text of a cell, into a buffer of the caller's, and how many bytes it has.
pub fn hand_text(
    alloc: Global,
    world: &World,
    cell: Cell,
    buffer: &mut [u8],
    length: &mut usize,
) -> u32
    ensures { (told : Result (List ℕ) Failure) × Does (Reads (IsTextOf cell)) (LacksText cell) world.now told world.now
        × Hands buffer.old buffer.new length.old length.new told result }
{
    match text(alloc, world, cell) {
        Ok(text) => {
            *length = text.len();
            fill(&text, buffer)
        }
        Err(failure) => failure.number(),
    }
}

/// The values of the process's last report that was settled, into a buffer of the caller's, and how many there are.
pub fn hand_values(world: &World, process: usize, buffer: &mut [ValueRow], count: &mut usize) -> u32
    ensures { (told : Result (List ValueRow) Failure) × Does (Reads (AreValuesOf process)) (LacksProcess process) world.now told world.now
        × Hands buffer.old buffer.new count.old count.new told result }
{
    world.is_always_good();
    match find_process(world, process) {
        Ok(()) => {
            let values = world.reports.of(process);
            *count = values.len();
            fill_values(values, buffer)
        }
        Err(failure) => failure.number(),
    }
}
