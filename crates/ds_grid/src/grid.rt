//! Reads a grid of texts.

ghost use Rattle.std.specs.Prelude.{◌≡◌, ◌<◌, IfOk, IfErr, length, map};
ghost use Rattle.csv.specs.Reading.{AreRecords, default_config, strip_bom};
ghost use Rattle.csv.specs.Records.{fields_of};
ghost use Rattle.csv.specs.declared.parser.State.TheVariants as state;
ghost use Rattle.ds_grid.specs.Labels.{held_text};
ghost use Rattle.ds_grid.specs.Grids.{cell_field, text_at, IsGridOf, HasFault, AllRead, FailsAt};

use crate::ending::{GridEnd, GridFault};
use crate::form::GridForm;
use csv::{ByteRecord, ReaderBuilder};
use ds_a1::texts::read_text;
use ds_formula::cells::{Cell, Shape};
use ds_formula::content::Content;
use ds_formula::fault::FaultKind;
use std::alloc::{AllocError, Global};

/// Every record of a text without a heading line; a byte order mark and blank lines are passed over,
/// as `csv` does. An error means that an allocation failed.
pub fn records(alloc: Global, text: &[u8]) -> Result<Vec<ByteRecord>, AllocError>
    ensures { IfOk result (λ rows. AreRecords default_config state.StartRecord (strip_bom text.now) (map fields_of rows.items)) }
{
    let reader = ReaderBuilder::new()
        .has_headers(false)
        .flexible(true)
        .from_reader(alloc, text);
    let mut rows = Vec::new(alloc);
    for row in reader.into_byte_records() {
        let Ok(row) = row else {
            return Err(AllocError);
        };
        rows.push(row)?;
    }
    Ok(rows)
}

/// As many columns as the first record has fields, and as many rows as there are records.
pub fn shape_of(records: &[ByteRecord]) -> Result<Shape, GridFault>
    ensures shape { IfOk result (λ shape. IsGridOf (map fields_of records.now) shape) }
    ensures fault { IfErr result (λ fault. HasFault (map fields_of records.now) fault) }
{
    if records.is_empty() {
        return Err(GridFault::EmptyGrid);
    }
    let columns = records[0].len();
    for record in records {
        if record.len() != columns {
            return Err(GridFault::BadCsv);
        }
    }
    match Shape::new(columns, records.len()) {
        Some(shape) => Ok(shape),
        None => Err(GridFault::TooLarge),
    }
}

// The field of a cell; it is empty where the grid has none.
fn field<'a>(records: &'a [ByteRecord], cell: Cell) -> &'a [u8]
    requires { cell.row < length records.now }
    ensures { result.now ≡ cell_field (map fields_of records.now) cell }
{
    match records[cell.row].get(cell.column) {
        Some(field) => field,
        None => &[],
    }
}

// The text that a cell holds by its field.
fn held_text(form: GridForm, field: &[u8]) -> &[u8]
    ensures { result.now ≡ held_text form field.now }
{
    if form.passes(field) { &[] } else { field }
}

/// The content of each cell, row by row from the left, of a grid in this form.
pub fn contents(
    alloc: Global,
    form: GridForm,
    shape: &Shape,
    records: &[ByteRecord],
) -> Result<Vec<Content>, GridEnd>
    requires { length records.now ≡ shape.now.rows }
    ensures all { IfOk result (λ contents. AllRead form shape.now (map fields_of records.now) contents.items) }
    ensures fails { IfErr result (λ end. FailsAt form shape.now (map fields_of records.now) end) }
{
    let mut contents = Vec::new(alloc);
    for index in 0..shape.count() {
        let cell = shape.cell(index);
        let text = held_text(form, field(records, cell));
        match read_text(alloc, form.notation, shape, text) {
            Ok(content) => contents.push(content)?,
            Err(fault) => {
                return Err(match fault.kind {
                    FaultKind::NoMemory => GridEnd::NoMemory,
                    _ => GridEnd::CellFault { cell, fault },
                });
            }
        }
    }
    Ok(contents)
}
