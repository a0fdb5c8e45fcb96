//! The values of a sheet from its contents alone.

ghost use Rattle.std.specs.Prelude.{◌≡◌, ℕ, ◌<◌, suc, false, IfOk};
ghost use Rattle.ds_formula.specs.Cells.{count_of};
ghost use Rattle.ds_eval.specs.Inputs.{entry_in};
ghost use Rattle.ds_eval.specs.SheetContents.{contents_of};
ghost use Rattle.ds_eval.specs.Scratch.{IsScratch};
ghost use Rattle.ds_eval.specs.Local.{IsLocal};
ghost use Rattle.ds_eval.specs.Rounds.{IsTable, AreSettled, shown};

use crate::guess::guessed;
use crate::inputs::Inputs;
use crate::local::local;
use crate::sheet::Sheet;
use crate::value::Value;
use std::alloc::{AllocError, Global};

// Evaluates each cell in turn on what the others show at that moment. Whether any entry changed.
fn evaluate_all(sheet: &Sheet, table: &mut Inputs) -> bool
    requires { IsTable sheet.now.shape table.old.items }
    ensures table { IsTable sheet.now.shape table.new.items }
    ensures rounds { (n : ℕ) → n < count_of sheet.now.shape → AreSettled sheet.now.shape (contents_of sheet.now) n table.old.items → AreSettled sheet.now.shape (contents_of sheet.now) (suc n) table.new.items }
    ensures unchanged { result ≡ false → IsLocal sheet.now.shape (contents_of sheet.now) (entry_in table.new.items) }
{
    let mut changed = false;
    for k in 0..sheet.shape.count() {
        let entry = local(&sheet.contents[k], sheet.shape, table);
        let differs = table.set(k, entry);
        changed |= differs;
    }
    changed
}

// Evaluates all cells until nothing changes, or as often as there are cells: whatever the first entries are,
// references reach no further. Where they were guessed right, the first round changes nothing.
fn settle(sheet: &Sheet, table: &mut Inputs)
    requires { IsTable sheet.now.shape table.old.items }
    ensures { IsScratch sheet.now.shape (contents_of sheet.now) (shown table.new.items) }
{
    for _ in 0..sheet.shape.count() {
        if !evaluate_all(sheet, table) {
            return;
        }
    }
}

// The values of the entries.
fn values_of(alloc: Global, table: &Inputs) -> Result<Vec<Value>, AllocError>
    ensures { IfOk result (λ values. values.items ≡ shown table.now.items) }
{
    let mut values = Vec::new(alloc);
    for input in table.as_slice() {
        values.push(input.entry.value)?;
    }
    Ok(values)
}

/// The values of all cells, row by row from the left.
///
/// A cell is `Err:522` where references can be followed from it for ever, those in an unchosen branch of IF included;
/// else it has the value that its content and the cells written in it give. It recurses over formulas alone, and
/// stops when nothing changes. It fails only where an allocation is refused. Our own rule.
pub fn scratch(alloc: Global, sheet: &Sheet) -> Result<Vec<Value>, AllocError>
    ensures { IfOk result (λ values. IsScratch sheet.now.shape (contents_of sheet.now) values.items) }
{
    let mut table = guessed(alloc, sheet)?;
    settle(sheet, &mut table);
    values_of(alloc, &table)
}
