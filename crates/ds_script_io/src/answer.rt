//! The text of each answer.

ghost use Rattle.std.specs.Prelude.{◌≡◌, ◌++◌, IfOk, OnOk, string_bytes, length, map};
ghost use Rattle.csv.specs.Records.{fields_of};
ghost use Rattle.csv.specs.Writing.{row_text, default_writer};
ghost use Rattle.ds_script_io.specs.Csv.{IsReady, text_of};
ghost use Rattle.ds_formula.specs.Cells.{cell_at, count_of};
ghost use Rattle.ds_eval.specs.Numbers.{value_text};
ghost use Rattle.ds_script_io.specs.AnswerTexts.{done_text, refused_text, rows_text, settled_text};

use csv::{ByteRecord, Writer, WriterBuilder};
use ds_eval::value::Value;
use ds_formula::cells::{Cell, Shape};
use ds_state::refusal::Refusal;
use std::alloc::{AllocError, Global};

/// How many bytes a line of a process and a number, or of a process and two words, takes at most: with room for them it
/// is not moved while it is written.
pub const SHORT_LINE: usize = 24;

/// The cell with this number, as answers name it. Of a number that no cell has, it is a cell below the sheet.
pub fn cell_at(shape: Shape, index: usize) -> Cell
    ensures { result ≡ cell_at shape index }
{
    Cell {
        column: index % shape.columns,
        row: index / shape.columns,
    }
}

/// `P NUMBER done`. An error means that an allocation failed.
pub fn done_line(alloc: Global, process: usize, number: usize) -> Result<String, AllocError>
    ensures { IfOk result (λ line. string_bytes line ≡ done_text process number) }
{
    let mut line = String::with_capacity(alloc, SHORT_LINE)?;
    write!(line, "{process} {number} done\n")?;
    Ok(line)
}

/// `P refused CODE NAME`, with code 1 `P refused 1 FAULT OFFSET`. An error means that an allocation failed.
pub fn refused_line(alloc: Global, process: usize, refusal: Refusal) -> Result<String, AllocError>
    ensures { IfOk result (λ line. string_bytes line ≡ refused_text process refusal) }
{
    match refusal {
        Refusal::Text(fault) => format!(in alloc; "{process} refused 1 {fault}\n"),
        Refusal::Busy => format!(in alloc; "{process} refused 2 Busy\n"),
        Refusal::Stopped => format!(in alloc; "{process} refused 3 Stopped\n"),
        Refusal::RecordsFull => format!(in alloc; "{process} refused 4 RecordsFull\n"),
        Refusal::NoMemory => format!(in alloc; "{process} refused 5 NoMemory\n"),
        Refusal::Migrating(_) => format!(in alloc; "{process} refused 6 Migrating\n"),
        Refusal::NotStopped(_) => format!(in alloc; "{process} refused 7 NotStopped\n"),
    }
}

// A record whose fields are the values' texts.
fn record_of(alloc: Global, values: &[Value]) -> Result<ByteRecord, AllocError>
    ensures { IfOk result (λ row. fields_of row ≡ map value_text values.now) }
{
    let mut row = ByteRecord::new(alloc);
    for value in values {
        let text = value.to_string(alloc)?;
        row.push_field(text.as_bytes())?;
    }
    Ok(row)
}

// Writes one record more; every one has as many fields as the first, so that a failed allocation is the only error.
fn add_record(writer: &mut Writer<Vec<u8>>, row: &ByteRecord) -> Result<(), AllocError>
    requires { IsReady writer.old }
    ensures ready { OnOk result (IsReady writer.new) }
    ensures text { OnOk result (text_of writer.new ≡ text_of writer.old ++ row_text default_writer (fields_of row.now)) }
{
    match writer.write_byte_record(row) {
        Ok(()) => Ok(()),
        Err(_) => Err(AllocError),
    }
}

/// A text, and the values after it as CSV, a record a row. An error means that an allocation failed.
pub fn value_lines(
    text: Vec<u8>,
    alloc: Global,
    shape: &Shape,
    values: &[Value],
) -> Result<Vec<u8>, AllocError>
    requires { length values.now ≡ count_of shape.now }
    ensures { IfOk result (λ lines. lines.items ≡ text.items ++ rows_text shape.now.columns shape.now.rows values.now) }
{
    let mut writer = WriterBuilder::new().from_writer(text);
    for row in 0..shape.rows {
        let start = row * shape.columns;
        let fields = record_of(alloc, &values[start..start + shape.columns])?;
        add_record(&mut writer, &fields)?;
    }
    match writer.into_inner() {
        Ok(lines) => Ok(lines),
        Err(_) => Err(AllocError),
    }
}

/// `settled`, and the values as CSV, a record a row. An error means that an allocation failed.
pub fn settled_lines(alloc: Global, shape: &Shape, values: &[Value]) -> Result<Vec<u8>, AllocError>
    requires { length values.now ≡ count_of shape.now }
    ensures { IfOk result (λ text. text.items ≡ settled_text shape.now values.now) }
{
    let heading = Vec::from_slice(alloc, b"settled\n")?;
    value_lines(heading, alloc, shape, values)
}
