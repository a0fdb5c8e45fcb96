//! Whether an order goes along the references of a sheet.

ghost use Rattle.std.specs.Prelude.{◌≡◌, ◌<◌, ◌+◌, IfOk, IsFalse, IsTrue, All, Contains, length, slice_index_or};
ghost use Rattle.ds_formula.specs.Cells.{IsInside, count_of, index_of};
ghost use Rattle.ds_formula.specs.Plain.{plain};
ghost use Rattle.ds_eval.specs.SheetContents.{contents_of};
ghost use Rattle.ds_order.specs.Along.{ArePlaced, GoesAlong, HasInputs, IsAmong, LacksInput, LacksOne, LeadsOn, content_at};

use ds_eval::sheet::Sheet;
use ds_formula::cells::{Cell, Shape};
use ds_formula::content::Content;
use std::alloc::{AllocError, Global};

// Whether all of these that are cells of the sheet are among the others.
fn are_among(shape: Shape, references: &[Cell], cells: &[bool]) -> bool
    requires { length cells.now ≡ count_of shape }
    ensures all { IsTrue result → (d : Cell) → Contains references.now d → IsInside shape d → IsAmong cells.now (index_of shape d) }
    ensures one { IsFalse result → LacksOne shape references.now cells.now }
{
    for at in 0..references.len() {
        let reference = references[at];
        if shape.contains(reference) && !cells[shape.index(reference)] {
            return false;
        }
    }
    true
}

// Whether all cells of the sheet that are written in the content are among these. An error is that an allocation failed.
fn has_inputs(
    alloc: Global,
    shape: Shape,
    content: &Content,
    cells: &[bool],
) -> Result<bool, AllocError>
    requires { length cells.now ≡ count_of shape }
    ensures all { IfOk result (λ b. IsTrue b → HasInputs shape cells.now (plain content.now)) }
    ensures one { IfOk result (λ b. IsFalse b → LacksInput shape cells.now (plain content.now)) }
{
    let references = content.refs(alloc)?;
    Ok(are_among(shape, references.as_slice(), cells))
}

// The cell at this place of the order is one of these from now on, where all its inputs are.
fn place_next(
    alloc: Global,
    sheet: &Sheet,
    order: &[usize],
    place: usize,
    cells: &mut Vec<bool>,
) -> Result<(), AllocError>
    requires place { place < length order.now }
    requires below { slice_index_or order.now place 0 < count_of sheet.now.shape }
    requires placed { ArePlaced sheet.now.shape (contents_of sheet.now) order.now place cells.old.items }
    ensures { IfOk result (λ done. ArePlaced sheet.now.shape (contents_of sheet.now) order.now (place + 1) cells.new.items) }
{
    let cell = order[place];
    if has_inputs(alloc, sheet.shape, &sheet.contents[cell], cells.as_slice())? {
        cells[cell] = true;
    }
    Ok(())
}

// The cells that stand in the order after all their inputs. An error is that an allocation failed.
fn placed_cells(alloc: Global, sheet: &Sheet, order: &[usize]) -> Result<Vec<bool>, AllocError>
    requires { All (λ c. c < count_of sheet.now.shape) order.now }
    ensures { IfOk result (λ cells. ArePlaced sheet.now.shape (contents_of sheet.now) order.now (length order.now) cells.items) }
{
    let mut cells = Vec::with_capacity(alloc, sheet.shape.count())?;
    cells.resize(sheet.shape.count(), false)?;
    for place in 0..order.len() {
        place_next(alloc, sheet, order, place, &mut cells)?;
    }
    Ok(cells)
}

// Whether each cell of the sheet that is not one of these has an input that is not. An error is that an allocation failed.
fn others_lead_on(alloc: Global, sheet: &Sheet, cells: &[bool]) -> Result<bool, AllocError>
    requires { length cells.now ≡ count_of sheet.now.shape }
    ensures { IfOk result (λ b. IsTrue b → LeadsOn sheet.now.shape (content_at sheet.now) cells.now (count_of sheet.now.shape)) }
{
    for cell in 0..sheet.shape.count() {
        if !cells[cell] && has_inputs(alloc, sheet.shape, &sheet.contents[cell], cells)? {
            return Ok(false);
        }
    }
    Ok(true)
}

/// Whether each cell of the sheet stands in the order after those that are written in it, but where references can be
/// followed from it for ever. It may be denied of an order that is not one of components. An error is that an allocation
/// failed.
pub fn goes_along(alloc: Global, sheet: &Sheet, order: &[usize]) -> Result<bool, AllocError>
    requires { All (λ c. c < count_of sheet.now.shape) order.now }
    ensures { IfOk result (λ b. IsTrue b → GoesAlong sheet.now.shape (contents_of sheet.now) order.now) }
{
    let cells = placed_cells(alloc, sheet, order)?;
    others_lead_on(alloc, sheet, cells.as_slice())
}
