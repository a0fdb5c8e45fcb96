//! The one step of work that takes memory: it reads the content of the text that was gathered.

ghost use Rattle.std.specs.Prelude.{◌≡◌, ◌≤◌, ◌<◌, map, IfOk};
ghost use Rattle.std.specs.List.{Contains, AllPairs};
ghost use Rattle.ds_formula.specs.Cells.{IsInside, count_of};
ghost use Rattle.ds_formula.specs.declared.cells.Cell.{Cell};
ghost use Rattle.ds_formula.specs.Plain.{plain};
ghost use Rattle.ds_formula.specs.Refs.{AreRefs, IsBefore};
ghost use Rattle.ds_formula.specs.Grammar.{Reads};
ghost use Rattle.ds_work.specs.WorkSteps.{read_from};
ghost use Rattle.ds_work.specs.Reading.{unseen, HasRead, IsReading};

use crate::machine::input_from;
use ds_eval::inputs::{Entry, Input, Inputs};
use ds_eval::value::Value;
use ds_formula::cells::{Cell, Shape};
use ds_formula::content::Content;
use ds_formula::reading::read_content;
use ds_state::refusal::Refusal;
use ds_state::work::{WorkCall, WorkStage};
use std::alloc::Global;

// The content of a text, and the cells written in it.
#[inline(always)]
fn references(alloc: Global, shape: &Shape, text: &[u8]) -> Result<(Content, Vec<Cell>), Refusal>
    ensures reads { IfOk result (λ r. Reads shape.now text.now (plain r.0)) }
    ensures cells { IfOk result (λ r. AreRefs (plain r.0) r.1.items) }
{
    let content = read_content(alloc, shape, text)?;
    let cells = content.refs(alloc)?;
    Ok((content, cells))
}

// One input for each of these cells of the sheet, in the room that is there.
#[inline(always)]
fn fill(inputs: &mut Inputs, shape: Shape, cells: &[Cell])
    requires room { count_of shape ≤ inputs.old.room }
    requires ascending { AllPairs IsBefore cells.now }
    requires inside { (cell : Cell) → Contains cells.now cell → IsInside shape cell }
    ensures items { inputs.new.items ≡ map unseen cells.now }
    ensures room { count_of shape ≤ inputs.new.room }
{
    inputs.clear();
    for cell in cells {
        inputs.push(Input {
            cell: *cell,
            entry: Entry {
                value: Value::Blank,
                height: 0,
            },
        });
    }
}

// The work has its content, and looks at its references next.
#[inline(always)]
fn set_content(call: &mut WorkCall, shape: Shape, content: Content, cells: &[Cell])
    requires sheet { count_of shape ≡ call.old.cells }
    requires ascending { AllPairs IsBefore cells.now }
    requires inside { (cell : Cell) → Contains cells.now cell → IsInside shape cell }
    ensures { call.new ≡ read_from call.old (plain content) (map unseen cells.now) }
{
    fill(&mut call.inputs, shape, cells);
    call.content = content;
    call.stage = input_from(cells.len(), 0);
}

/// The work takes this content of the text that it has gathered, on a sheet of this shape, with the cells written in it:
/// whoever has read that text before may give it, so that the work does not read it again. It looks at its references
/// next.
#[inline(always)]
pub fn take_content(call: &mut WorkCall, shape: Shape, content: Content, cells: &[Cell])
    requires sheet { count_of shape ≡ call.old.cells }
    requires reads { Reads shape call.old.text (plain content) }
    requires cells { AreRefs (plain content) cells.now }
    ensures { HasRead shape call.old call.new }
{
    set_content(call, shape, content, cells);
}

/// The work reads the content of the text that it has gathered, on a sheet of this shape, and lists
/// the cells written in it. Where memory is refused for that, it gives its cell back dirty and
/// answers `NoMemory` in the end; so it does where the text has no content, which no text of a sound
/// sheet is without.
#[inline(always)]
pub fn reading(alloc: Global, call: &mut WorkCall, shape: Shape)
    requires sheet { count_of shape ≡ call.old.cells }
    ensures { IsReading shape call.old call.new }
{
    match references(alloc, &shape, call.text.as_slice()) {
        Ok((content, cells)) => take_content(call, shape, content, &cells),
        Err(_) => call.stage = WorkStage::Give,
    }
}
