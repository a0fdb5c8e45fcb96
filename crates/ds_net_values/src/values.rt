//! The values of all cells after the edits of a list.

ghost use Rattle.std.specs.Prelude.{◌≡◌, IfOk, map};
ghost use Rattle.ds_formula.specs.Cells.{count_of};
ghost use Rattle.ds_net_floor.specs.EditLists.{HasText};
ghost use Rattle.ds_net_floor.specs.Entries.{entries};
ghost use Rattle.ds_net_values.specs.ListValues.{AreTexts, AreValues};

use ds_eval::value::Value;
use ds_formula::cells::{Cell, Shape};
use ds_net_floor::edit_list::EditList;
use ds_text_values::values::evaluated;
use std::alloc::{AllocError, Global};

// The text that the cell has after the edits of the list.
fn text_in(alloc: Global, list: &EditList, cell: Cell) -> Result<Vec<u8>, AllocError>
    ensures { IfOk result (λ text. HasText cell (entries list.now) text.items) }
{
    match list.last(alloc, cell)? {
        Some(edit) => Ok(edit.text),
        None => Ok(Vec::new(alloc)),
    }
}

// The texts of all cells after the edits of the list.
fn texts_in(alloc: Global, shape: Shape, list: &EditList) -> Result<Vec<Vec<u8>>, AllocError>
    ensures { IfOk result (λ texts. AreTexts shape (entries list.now) (count_of shape) (map (λ text. text.items) texts.items)) }
{
    let mut texts = Vec::with_capacity(alloc, shape.count())?;
    for number in 0..shape.count() {
        let text = text_in(alloc, list, shape.cell(number))?;
        texts.push(text)?;
    }
    Ok(texts)
}

/// The values of all cells after the edits of the list, row by row from the left, from scratch. An error is that an allocation
/// failed.
pub fn values_in(alloc: Global, shape: Shape, list: &EditList) -> Result<Vec<Value>, AllocError>
    ensures { IfOk result (λ values. AreValues shape (entries list.now) values.items) }
{
    let texts = texts_in(alloc, shape, list)?;
    evaluated(alloc, shape, &texts)
}
