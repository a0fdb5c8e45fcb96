//! The references of a sheet.

ghost use Rattle.std.specs.Prelude.{IfOk};
ghost use Rattle.ds_formula.specs.Cells.{count_of};
ghost use Rattle.ds_order.specs.Orders.{IsOrder};

use ds_eval::sheet::Sheet;
use ds_formula::cells::{Cell, Shape};
use ds_order::order::{References, order};
use std::alloc::{AllocError, Global};

// Which cells of a sheet each of its cells refers to. Orders that are made of it are guesses.
#[derive(Drop)]
struct SheetReferences {
    shape: Shape,
    // A bit for each cell and each cell that it may refer to.
    words: Vec<u64>,
}

impl SheetReferences {
    // Of a sheet of this shape, none of whose cells refers to any.
    fn none(alloc: Global, shape: Shape) -> Result<SheetReferences, AllocError> {
        let count = shape.count() * shape.count().div_ceil(64);
        let mut words = Vec::with_capacity(alloc, count)?;
        words.resize(count, 0)?;
        Ok(SheetReferences { shape, words })
    }

    // Where the word of a cell for the 64 cells from `64 * at` on stands.
    fn place(&self, cell: usize, at: usize) -> usize {
        let width = self.shape.count().div_ceil(64);
        cell.wrapping_mul(width).wrapping_add(at)
    }

    // Notes the cells that a cell refers to.
    fn note(&mut self, cell: usize, references: &[Cell]) {
        for reference in references {
            if self.shape.contains(*reference) {
                let index = self.shape.index(*reference);
                let place = self.place(cell, index / 64);
                if let Some(word) = self.words.get_mut(place) {
                    *word |= 1 << (index % 64);
                }
            }
        }
    }

    // Of the contents of a sheet. An error is that an allocation failed.
    fn of(alloc: Global, sheet: &Sheet) -> Result<SheetReferences, AllocError> {
        let mut references = SheetReferences::none(alloc, sheet.shape)?;
        for cell in 0..sheet.contents.len() {
            let cells = sheet.contents[cell].refs(alloc)?;
            references.note(cell, cells.as_slice());
        }
        Ok(references)
    }
}

impl References for SheetReferences {
    fn word(&self, cell: usize, at: usize) -> u64 {
        match self.words.get(self.place(cell, at)) {
            Some(word) => *word,
            None => 0,
        }
    }
}

/// An order of components, each after those that it refers to. An error is that an allocation failed.
pub(crate) fn guessed(alloc: Global, sheet: &Sheet) -> Result<Vec<usize>, AllocError>
    ensures { IfOk result (λ order. IsOrder (count_of sheet.now.shape) order.items) }
{
    let references = SheetReferences::of(alloc, sheet)?;
    order(alloc, &references, sheet.shape.count())
}
