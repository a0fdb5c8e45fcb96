//! The table of what is shown.

ghost use Rattle.std.specs.Prelude.{◌≡◌, ◌++◌, ◌∷◌, [], slice_index_or, IfOk, OnOk, length, map};
ghost use Rattle.csv.specs.Records.{fields_of, partial_of};
ghost use Rattle.csv.specs.Writing.{row_text, default_writer};
ghost use Rattle.ds_formula.specs.Cells.{count_of};
ghost use Rattle.ds_script_io.specs.Csv.{IsReady, text_of};
ghost use Rattle.ds_grid.specs.Grids.{IsGridOf};
ghost use Rattle.ds_grid.specs.Labels.{shown_field, shown_fields, table_text};

use crate::form::GridForm;
use csv::{ByteRecord, Writer, WriterBuilder};
use ds_eval::value::Value;
use ds_formula::cells::Shape;
use std::alloc::{AllocError, Global};

// The field of a record; it is empty where the record has none.
fn field(given: &ByteRecord, column: usize) -> &[u8]
    ensures { result.now ≡ slice_index_or (fields_of given.now) column [] }
{
    match given.get(column) {
        Some(field) => field,
        None => &[],
    }
}

// Adds what is shown of a field to a record.
fn add_shown(
    alloc: Global,
    form: GridForm,
    row: &mut ByteRecord,
    field: &[u8],
    value: &Value,
) -> Result<(), AllocError>
    requires { partial_of row.old ≡ [] }
    ensures fields { OnOk result (fields_of row.new ≡ fields_of row.old ++ (shown_field form field.now value.now ∷ [])) }
    ensures partial { OnOk result (partial_of row.new ≡ []) }
{
    if form.passes(field) {
        return row.push_field(field);
    }
    let text = value.to_string(alloc)?;
    row.push_field(text.as_bytes())
}

// What is shown of a record's fields, by the values of their cells.
fn shown_record(
    alloc: Global,
    form: GridForm,
    given: &ByteRecord,
    values: &[Value],
) -> Result<ByteRecord, AllocError>
    requires { length (fields_of given.now) ≡ length values.now }
    ensures { IfOk result (λ row. fields_of row ≡ shown_fields form (fields_of given.now) values.now) }
{
    let mut row = ByteRecord::new(alloc);
    for column in 0..values.len() {
        add_shown(alloc, form, &mut row, field(given, column), &values[column])?;
    }
    Ok(row)
}

// Writes one record more; every one has as many fields as the first, so that a failed allocation is the only error.
fn add_record(writer: &mut Writer<Vec<u8>>, row: &ByteRecord) -> Result<(), AllocError>
    requires { IsReady writer.old }
    ensures ready { OnOk result (IsReady writer.new) }
    ensures text { OnOk result (text_of writer.new ≡ text_of writer.old ++ row_text default_writer (fields_of row.now)) }
{
    match writer.write_byte_record(row) {
        Ok(()) => Ok(()),
        Err(_) => Err(AllocError),
    }
}

/// The table of a grid of this shape as CSV, a record a row: its labels as they stand where the form keeps them, and the
/// values of all other cells. An error means that an allocation failed.
pub fn table_lines(
    alloc: Global,
    form: GridForm,
    shape: &Shape,
    records: &[ByteRecord],
    values: &[Value],
) -> Result<Vec<u8>, AllocError>
    requires grid { IsGridOf (map fields_of records.now) shape.now }
    requires values { length values.now ≡ count_of shape.now }
    ensures { IfOk result (λ lines. lines.items ≡ table_text form shape.now.columns (map fields_of records.now) values.now) }
{
    let mut writer = WriterBuilder::new().from_writer(Vec::new(alloc));
    for row in 0..shape.rows {
        let start = row * shape.columns;
        let own = &values[start..start + shape.columns];
        let shown = shown_record(alloc, form, &records[row], own)?;
        add_record(&mut writer, &shown)?;
    }
    match writer.into_inner() {
        Ok(lines) => Ok(lines),
        Err(_) => Err(AllocError),
    }
}
