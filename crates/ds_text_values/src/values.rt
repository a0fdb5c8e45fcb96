//! Values of the texts of all cells, from scratch.

ghost use Rattle.std.specs.Prelude.{◌≡◌, IfOk, map};
ghost use Rattle.ds_text_values.specs.TextValues.{AreContents, Holds, IsEvaluated};

use ds_eval::scratch::scratch;
use ds_eval::sheet::Sheet;
use ds_eval::value::Value;
use ds_formula::cells::Shape;
use ds_formula::content::Content;
use ds_formula::fault::FaultKind;
use ds_formula::reading::read_content;
use std::alloc::{AllocError, Global};

// What a text gives its cell. An error means that an allocation failed.
#[tactic(auto, using(crate::proofs::Held::blank_holds))]
fn content_of(alloc: Global, shape: Shape, text: &[u8]) -> Result<Content, AllocError>
    ensures { IfOk result (Holds shape text.now) }
{
    match read_content(alloc, &shape, text) {
        Ok(content) => Ok(content),
        Err(fault) => match fault.kind {
            FaultKind::NoMemory => Err(AllocError),
            _ => Ok(Content::Blank),
        },
    }
}

// What texts give their cells.
fn contents(alloc: Global, shape: Shape, texts: &[Vec<u8>]) -> Result<Vec<Content>, AllocError>
    ensures { IfOk result (λ held. AreContents shape (map (λ text. text.items) texts.now) held.items) }
{
    let mut held = Vec::new(alloc);
    for number in 0..texts.len() {
        let content = content_of(alloc, shape, &texts[number])?;
        held.push(content)?;
    }
    Ok(held)
}

/// The values of the texts of all cells, row by row from the left, from scratch. A cell whose text has a fault is blank. An
/// error is that an allocation failed, or that there is not a text for each cell.
pub fn evaluated(alloc: Global, shape: Shape, texts: &[Vec<u8>]) -> Result<Vec<Value>, AllocError>
    ensures { IfOk result (λ values. IsEvaluated shape (map (λ text. text.items) texts.now) values.items) }
{
    let contents = contents(alloc, shape, texts)?;
    if contents.len() != shape.count() {
        return Err(AllocError);
    }
    let sheet = Sheet::new(shape, contents);
    scratch(alloc, &sheet)
}
