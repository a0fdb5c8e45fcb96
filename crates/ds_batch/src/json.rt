//! Tables as JSON.

ghost use Rattle.std.specs.Prelude.{◌≡◌, [], IfOk, map, slice_index_or, string_bytes};
ghost use Rattle.csv.specs.Records.{fields_of};
ghost use Rattle.serde_json.specs.Data.{string};
ghost use Rattle.serde_json.specs.View.{view};
ghost use Rattle.serde_json.specs.Written.{compact_text};
ghost use Rattle.ds_batch.specs.Tables.{IsTableLine, record_data, table_data};

use csv::ByteRecord;
use ds_grid::grid::records;
use serde_json::{Value, json};
use std::alloc::{AllocError, AllocFailed, Global};
use std::str;

/// Why a table is not written as JSON.
#[derive(Clone, Copy, Debug, PartialEq, Eq)]
pub enum TableFault {
    /// A field is not UTF-8.
    NotUtf8,
    /// An allocation failed.
    NoMemory,
}

impl From<AllocError> for TableFault {
    fn from(_error: AllocError) -> TableFault {
        TableFault::NoMemory
    }
}

impl<T: Drop> From<AllocFailed<T>> for TableFault {
    fn from(_failed: AllocFailed<T>) -> TableFault {
        TableFault::NoMemory
    }
}

// The field of a record; it is empty where the record has none.
fn field(row: &ByteRecord, index: usize) -> &[u8]
    ensures { result.now ≡ slice_index_or (fields_of row.now) index [] }
{
    match row.get(index) {
        Some(field) => field,
        None => &[],
    }
}

// A field as a text.
fn field_value(alloc: Global, field: &[u8]) -> Result<Value, TableFault>
    ensures { IfOk result (λ v. view v ≡ string field.now) }
{
    match str::from_utf8(field) {
        Ok(text) => Ok(Value::String(String::from_str(alloc, text)?)),
        Err(_) => Err(TableFault::NotUtf8),
    }
}

// A record as an array of texts.
fn record_value(alloc: Global, row: &ByteRecord) -> Result<Value, TableFault>
    ensures { IfOk result (λ v. view v ≡ record_data (fields_of row.now)) }
{
    let mut items = Vec::with_capacity(alloc, row.len())?;
    for index in 0..row.len() {
        items.push(field_value(alloc, field(row, index))?)?;
    }
    Ok(Value::Array(items))
}

// The records of a table.
fn table_value(alloc: Global, rows: &[ByteRecord]) -> Result<Value, TableFault>
    ensures { IfOk result (λ v. view v ≡ table_data (map fields_of rows.now)) }
{
    let mut items = Vec::with_capacity(alloc, rows.len())?;
    for row in rows {
        items.push(record_value(alloc, row)?)?;
    }
    let rows = Value::Array(items);
    Ok(json!(in alloc; {"rows": rows})?)
}

// The text of the records of a table, without a line feed.
#[tactic(auto, using(crate::proofs::Records::table_no_float))]
fn table_text(alloc: Global, rows: &[ByteRecord]) -> Result<String, TableFault>
    ensures { IfOk result (λ t. string_bytes t ≡ compact_text (table_data (map fields_of rows.now))) }
{
    let value = table_value(alloc, rows)?;
    Ok(value.to_string(alloc)?)
}

/// The line of JSON that has the records of a table of CSV: {"rows":[["3",""],["",""]]}. The fault is that a field is not
/// UTF-8, or that an allocation failed.
pub fn table_line(alloc: Global, table: &[u8]) -> Result<Vec<u8>, TableFault>
    ensures { IfOk result (λ line. IsTableLine table.now line.items) }
{
    let rows = records(alloc, table)?;
    let mut line = table_text(alloc, &rows)?.into_bytes();
    line.push(b'\n')?;
    Ok(line)
}
