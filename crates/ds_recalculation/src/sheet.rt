//! What the cells of a world hold.

ghost use Rattle.std.specs.Prelude.{◌≡◌, ◌<◌, IfOk, length};
ghost use Rattle.ds_formula.specs.Plain.{plain};
ghost use Rattle.ds_eval.specs.SheetContents.{contents_of};
ghost use Rattle.ds_layout.specs.Places.{cells_of};
ghost use Rattle.ds_recalculation.specs.Plans.{AreHeld, Holds, HoldsSo};

use ds_eval::sheet::Sheet;
use ds_formula::content::Content;
use ds_formula::reading::read_content;
use ds_state::shown::text;
use ds_state::world::World;
use std::alloc::{AllocError, Global};

// What the cell with this number holds, by the text that it shows. An error is that an allocation failed, or that the text has
// a fault, as none of a sound sheet has.
fn content(alloc: Global, world: &World, cell: usize) -> Result<Content, AllocError>
    requires { cell < cells_of world.now.sheet.layout }
    ensures { IfOk result (λ content. HoldsSo world.now cell (plain content)) }
{
    let shape = world.words.layout().shape;
    let text = text(&world.words, alloc, cell)?;
    match read_content(alloc, &shape, text.as_slice()) {
        Ok(content) => Ok(content),
        Err(_) => Err(AllocError),
    }
}

// What all cells hold, by their numbers.
fn contents(alloc: Global, world: &World) -> Result<Vec<Content>, AllocError>
    ensures { IfOk result (λ held. AreHeld world.now held.items (cells_of world.now.sheet.layout)) }
{
    let cells = world.words.layout().cells();
    let mut held = Vec::with_capacity(alloc, cells)?;
    for cell in 0..cells {
        held.push(content(alloc, world, cell)?)?;
    }
    Ok(held)
}

/// The sheet that a world shows. An error is that an allocation failed, or that a text has a fault, as none of a sound sheet
/// has.
pub(crate) fn shown_sheet(alloc: Global, world: &World) -> Result<Sheet, AllocError>
    ensures shape { IfOk result (λ sheet. sheet.shape ≡ world.now.sheet.layout.shape) }
    ensures holds { IfOk result (λ sheet. Holds world.now (contents_of sheet)) }
{
    let contents = contents(alloc, world)?;
    let sheet = Sheet::new(world.words.layout().shape, contents);
    Ok(sheet)
}
