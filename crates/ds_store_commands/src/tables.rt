//! The texts of a store's sheet as a table of CSV, and a table as the lines of a journal.

ghost use Rattle.std.specs.Prelude.{◌≡◌, ◌<◌, ◌++◌, ◌∷◌, [], IfOk, List, OnOk, ℕ, Vec, length, map, slice_index_or, true};
ghost use Rattle.std.specs.Global.{Global};
ghost use Rattle.std.specs.String.{string_bytes};
ghost use Rattle.csv.specs.Records.{fields_of, partial_of};
ghost use Rattle.ds_a1.specs.Notation.{opens};
ghost use Rattle.csv.specs.Writing.{default_writer, row_text};
ghost use Rattle.ds_formula.specs.Cells.{cell_at, count_of};
ghost use Rattle.ds_store.specs.Texts.{HasTexts};
ghost use Rattle.ds_grid.specs.Grids.{Shows, cell_field};
ghost use Rattle.ds_store_commands.specs.Exports.{FieldsOpen, RowsOpen};
ghost use Rattle.ds_store_commands.specs.Tables.{HaveSameTexts, IsCellTable, IsTableOf, IsTextsTable, plain_form};

use csv::{ByteRecord, WriterBuilder};
use ds_a1::notation::Notation;
use ds_a1::texts::to_open;
use ds_formula::cells::{Cell, Shape};
use ds_formula::fault::FaultKind;
use ds_grid::ending::GridEnd;
use ds_grid::form::GridForm;
use ds_grid::grid::{records, shape_of};
use ds_grid::report::report_grid;
use ds_layout::layout::Layout;
use ds_script_io::streams::{Reading, Writing};
use ds_store::fault::StoreFault;
use ds_store::texts::{JournalTexts, texts_of};
use ds_store_journal::fault::JournalFault;
use ds_store_journal::journal::sheet_line;
use ds_store_journal::standing::{Mention, Standing, before_line};
use std::alloc::{AllocError, Global};
use std::str;

// How many processes of a store that begins with a table may be joined: as many as a new store has.
const JOINS: usize = 2;

// The field of a record at a place; it is empty where the record has none.
fn field_of(record: &ByteRecord, index: usize) -> &[u8]
    ensures { result.now ≡ slice_index_or (fields_of record.now) index [] }
{
    match record.get(index) {
        Some(field) => field,
        None => &[],
    }
}

// The field of a cell; it is empty where the table has none.
fn field(rows: &[ByteRecord], cell: Cell) -> &[u8]
    requires { cell.row < length rows.now }
    ensures { result.now ≡ cell_field (map fields_of rows.now) cell }
{
    match rows[cell.row].get(cell.column) {
        Some(field) => field,
        None => &[],
    }
}

// Whether each field of a table is the text of its cell in a journal's sheet, which has as many rows.
fn are_texts(texts: &JournalTexts, rows: &[ByteRecord]) -> bool
    requires { length rows.now ≡ texts.now.layout.shape.rows }
    ensures { result ≡ true → (k : ℕ) (d : Vec ℕ Global) → k < count_of texts.now.layout.shape
        → cell_field (map fields_of rows.now) (cell_at texts.now.layout.shape k) ≡ (slice_index_or texts.now.texts.items k d).items }
{
    let shape = texts.layout().shape;
    for index in 0..shape.count() {
        let cell = shape.cell(index);
        if field(rows, cell) != texts.text_of(cell) {
            return false;
        }
    }
    true
}

// Whether a table is a grid of a journal's sheet, whose fields are the texts of its cells.
fn have_same_texts(texts: &JournalTexts, rows: &[ByteRecord]) -> bool
    ensures { result ≡ true → (lines : List (List ℕ)) → HasTexts texts.now.layout texts.now.counts.counts.items texts.now.texts.items lines → HaveSameTexts (map fields_of rows.now) lines }
{
    let shape = texts.layout().shape;
    let Ok(grid) = shape_of(rows) else {
        return false;
    };
    if grid.columns != shape.columns {
        return false;
    }
    if grid.rows != shape.rows {
        return false;
    }
    are_texts(texts, rows)
}

// A record of the texts of a row.
fn record_of(
    alloc: Global,
    shape: &Shape,
    texts: &JournalTexts,
    row: usize,
) -> Result<ByteRecord, AllocError> {
    let mut record = ByteRecord::new(alloc);
    for column in 0..shape.columns {
        record.push_field(texts.text_of(Cell { column, row }))?;
    }
    Ok(record)
}

// The texts of all cells as CSV. Whether it is read again as these is seen when it is.
fn drafted(alloc: Global, texts: &JournalTexts) -> Result<Vec<u8>, AllocError> {
    let shape = texts.layout().shape;
    let mut writer = WriterBuilder::new().from_writer(Vec::new(alloc));
    for row in 0..shape.rows {
        let record = record_of(alloc, &shape, texts, row)?;
        if writer.write_byte_record(&record).is_err() {
            return Err(AllocError);
        }
    }
    match writer.into_inner() {
        Ok(table) => Ok(table),
        Err(_) => Err(AllocError),
    }
}

/// The texts that the lines of a journal lead to, as CSV, a record a row. It was read again. The fault is of a line that is
/// none of a journal, or an allocation failed.
pub fn texts_table(alloc: Global, lines: &[String]) -> Result<Vec<u8>, StoreFault>
    ensures { IfOk result (λ table. IsTextsTable table.items (map string_bytes lines.now)) }
{
    let texts = texts_of(alloc, lines)?;
    let table = drafted(alloc, &texts)?;
    let rows = records(alloc, &table)?;
    if have_same_texts(&texts, &rows) {
        Ok(table)
    } else {
        Err(StoreFault::Edit(JournalFault::Other))
    }
}

/// What is shown of the cells of a sheet.
#[derive(Clone, Copy)]
pub enum Cells {
    /// Their texts.
    Texts,
    /// Their values.
    Values,
}

// The values of the sheet of a table of texts, as `report` writes them.
fn values_table(alloc: Global, table: &[u8]) -> Result<Vec<u8>, StoreFault>
    ensures { IfOk result (λ values. Shows plain_form table.now values.items) }
{
    let form = GridForm {
        notation: Notation::OpenFormula,
        keeps_labels: false,
    };
    let mut reader = Reading::new(table);
    let mut writer = Writing::new(Vec::new(alloc));
    match report_grid(alloc, form, &mut reader, &mut writer) {
        GridEnd::Ended => Ok(writer.into_inner()),
        // Only memory can be missing where a table grows.
        GridEnd::NoMemory | GridEnd::WriteFailed => Err(StoreFault::NoMemory),
        _ => Err(StoreFault::Edit(JournalFault::Other)),
    }
}

/// The texts that the lines of a journal lead to, or the values of its sheet, as CSV, a record a row. The fault is of a line
/// that is none of a journal, or an allocation failed.
pub fn table_of(alloc: Global, cells: Cells, lines: &[String]) -> Result<Vec<u8>, StoreFault>
    ensures { IfOk result (λ table. IsTableOf cells (map string_bytes lines.now) table.items) }
{
    let texts = texts_table(alloc, lines)?;
    match cells {
        Cells::Texts => Ok(texts),
        Cells::Values => values_table(alloc, &texts),
    }
}

// The field of a cell; it is empty where the table has no such cell.
fn field_if_any(rows: &[ByteRecord], cell: Cell) -> &[u8]
    ensures { result.now ≡ cell_field (map fields_of rows.now) cell }
{
    if cell.row < rows.len() {
        field(rows, cell)
    } else {
        &[]
    }
}

// A record of one field, as CSV.
fn lone_field(alloc: Global, field: &[u8]) -> Result<Vec<u8>, AllocError>
    ensures { IfOk result (λ table. table.items ≡ row_text default_writer (field.now ∷ [])) }
{
    let mut record = ByteRecord::new(alloc);
    record.push_field(field)?;
    let mut writer = WriterBuilder::new().from_writer(Vec::new(alloc));
    if writer.write_byte_record(&record).is_err() {
        return Err(AllocError);
    }
    match writer.into_inner() {
        Ok(table) => Ok(table),
        Err(_) => Err(AllocError),
    }
}

/// The field of a table for a cell, as CSV. The fault is that an allocation failed.
pub fn cell_table(alloc: Global, table: &[u8], cell: Cell) -> Result<Vec<u8>, StoreFault>
    ensures { IfOk result (λ only. IsCellTable cell table.now only.items) }
{
    let rows = records(alloc, table)?;
    Ok(lone_field(alloc, field_if_any(&rows, cell))?)
}

// Adds a field, whose formula is in A1 notation, with it in OpenFormula.
fn add_opened(alloc: Global, opened: &mut ByteRecord, field: &[u8]) -> Result<(), StoreFault>
    requires { partial_of opened.old ≡ [] }
    ensures field { OnOk result ((text : List ℕ) × (opens field.now ≡ Ok text) × (fields_of opened.new ≡ fields_of opened.old ++ text ∷ [])) }
    ensures partial { OnOk result (partial_of opened.new ≡ []) }
{
    match to_open(alloc, field) {
        Ok(open) => Ok(opened.push_field(&open)?),
        Err(fault) if fault.kind == FaultKind::NoMemory => Err(StoreFault::NoMemory),
        Err(_) => Err(StoreFault::Edit(JournalFault::NoEdit)),
    }
}

// A record whose formulas are in A1 notation, with them in OpenFormula.
fn opened_record(alloc: Global, record: &ByteRecord) -> Result<ByteRecord, StoreFault>
    ensures { IfOk result (λ opened. FieldsOpen (fields_of record.now) (fields_of opened)) }
{
    let mut opened = ByteRecord::new(alloc);
    for index in 0..record.len() {
        add_opened(alloc, &mut opened, field_of(record, index))?;
    }
    Ok(opened)
}

// The records of a table whose formulas are in A1 notation, with them in OpenFormula.
fn opened_records(alloc: Global, rows: &[ByteRecord]) -> Result<Vec<ByteRecord>, StoreFault>
    ensures { IfOk result (λ opened. map (map opens) (map fields_of rows.now) ≡ map (map Ok) (map fields_of opened.items)) }
{
    let mut opened = Vec::new(alloc);
    for row in rows {
        put(&mut opened, opened_record(alloc, row)?)?;
    }
    Ok(opened)
}

/// The records of a table in this notation, with their formulas in OpenFormula.
pub fn opened_rows(
    alloc: Global,
    notation: Notation,
    rows: Vec<ByteRecord>,
) -> Result<Vec<ByteRecord>, StoreFault>
    ensures { IfOk result (λ opened. RowsOpen notation (map fields_of rows.items) (map fields_of opened.items)) }
{
    match notation {
        Notation::OpenFormula => Ok(rows),
        Notation::A1 => opened_records(alloc, &rows),
    }
}

// Adds a value to others.
fn put<T: Drop>(values: &mut Vec<T>, value: T) -> Result<(), StoreFault>
    ensures { OnOk result (values.new.items ≡ values.old.items ++ value ∷ []) }
{
    match values.push(value) {
        Ok(()) => Ok(()),
        Err(_) => Err(StoreFault::NoMemory),
    }
}

// The line that gives a cell its text.
fn cell_line(alloc: Global, cell: Cell, text: &[u8]) -> Result<String, StoreFault> {
    match str::from_utf8(text) {
        Ok(text) => Ok(format!(in alloc; "set 0 {cell} {text}")?),
        Err(_) => Err(StoreFault::Edit(JournalFault::Other)),
    }
}

// The lines that give the cells of a sheet the texts of a table, and say that nobody has made an edit.
fn drafted_lines(
    alloc: Global,
    shape: &Shape,
    rows: &[ByteRecord],
) -> Result<Vec<String>, StoreFault> {
    let layout = Layout {
        shape: *shape,
        processes: JOINS,
    };
    let mut lines = Vec::new(alloc);
    put(&mut lines, sheet_line(alloc, &layout)?)?;
    for index in 0..shape.count() {
        let cell = shape.cell(index);
        let text = field_if_any(rows, cell);
        if !text.is_empty() {
            put(&mut lines, cell_line(alloc, cell, text)?)?;
        }
    }
    let mention = Mention {
        process: 0,
        standing: Standing {
            edits: 0,
            last: None,
        },
    };
    put(&mut lines, before_line(alloc, &layout, &mention)?)?;
    Ok(lines)
}

/// The lines of a journal of a sheet of this shape that lead to the texts of a table, in OpenFormula. They were read again.
/// The fault is that they do not, as of a table that is no grid of this shape, or that an allocation failed. One process
/// sets all of them: a store goes over to what it can follow.
pub fn grid_lines(
    alloc: Global,
    shape: &Shape,
    rows: &[ByteRecord],
) -> Result<Vec<String>, StoreFault>
    ensures { IfOk result (λ lines. HaveSameTexts (map fields_of rows.now) (map string_bytes lines.items)) }
{
    let lines = drafted_lines(alloc, shape, rows)?;
    let texts = texts_of(alloc, &lines)?;
    if have_same_texts(&texts, rows) {
        Ok(lines)
    } else {
        Err(StoreFault::Edit(JournalFault::Other))
    }
}
