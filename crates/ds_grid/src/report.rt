//! Reports a grid.

ghost use Rattle.std.specs.Prelude.{◌≡◌, ◌≢◌, ◌≤◌, ◌+◌, ℕ, List, true, IfOk, IfErr, length, map};
ghost use Rattle.std.specs.Io.KnownBytes.{Consumes, Appends};
ghost use Rattle.ds_formula.specs.Cells.{count_of};
ghost use Rattle.ds_eval.specs.Numbers.{value_text};
ghost use Rattle.ds_script_io.specs.Streams.{reader_of, bytes_given, has_ended, read_failed, writer_of, is_flushed, write_failed};
ghost use Rattle.ds_grid.specs.Grids.{Shows, Fails, Concludes};
ghost use Rattle.ds_grid.specs.declared.ending.GridEnd as GridEnd;
ghost use Rattle.ds_formula.specs.Limits.{INPUT_MOST};

use crate::ending::GridEnd;
use crate::form::GridForm;
use crate::grid::{contents, records, shape_of};
use crate::table::table_lines;
use ds_eval::scratch::scratch;
use ds_eval::sheet::Sheet;
use ds_script_io::input::{InputEnd, read_input};
use ds_script_io::line::INPUT_LIMIT;
use ds_script_io::streams::{Reading, Writing};
use std::alloc::{AllocError, Global};
use std::io::{Read, Write};

// The values of a grid, as CSV.
fn values_of(alloc: Global, form: GridForm, bytes: &[u8]) -> Result<Vec<u8>, GridEnd>
    ensures shows { IfOk result (λ text. Shows form bytes.now text.items) }
    ensures fails { IfErr result (λ end. Fails form bytes.now end) }
{
    let records = records(alloc, bytes)?;
    let shape = shape_of(&records)?;
    let contents = match contents(alloc, form, &shape, &records) {
        Ok(contents) => contents,
        Err(end) => return Err(end),
    };
    let sheet = Sheet::new(shape, contents);
    let values = scratch(alloc, &sheet)?;
    Ok(table_lines(alloc, form, &shape, &records, &values)?)
}

// Writes the values and flushes the writer.
fn write_out<W: Write>(writer: &mut Writing<W>, text: &[u8]) -> GridEnd
    ensures end { result ≢ GridEnd.WriteFailed → result ≡ GridEnd.Ended }
    ensures written { result ≢ GridEnd.WriteFailed → Appends (W.contents (writer_of writer.old)) (W.contents (writer_of writer.new)) text.now }
    ensures no_failure { result ≢ GridEnd.WriteFailed → write_failed writer.new ≡ write_failed writer.old }
    ensures write_failed { result ≡ GridEnd.WriteFailed → write_failed writer.new ≡ true }
    ensures flushed { is_flushed writer.old ≡ true → result ≢ GridEnd.WriteFailed → is_flushed writer.new ≡ true }
{
    if writer.write_all(text).is_err() || writer.flush().is_err() {
        return GridEnd::WriteFailed;
    }
    GridEnd::Ended
}

/// Reads a grid of texts in this form as CSV, a record a row and without a heading line, evaluates the sheet that it
/// gives, and writes the values of its cells as CSV, and the labels that pass through as they are. At most 1,048,577
/// bytes are read.
pub fn report_grid<R: Read, W: Write>(
    alloc: Global,
    form: GridForm,
    reader: &mut Reading<R>,
    writer: &mut Writing<W>,
) -> GridEnd
    ensures given { bytes_given reader.new ≤ bytes_given reader.old + (INPUT_MOST + 1) }
    ensures no_failure { result ≢ GridEnd.WriteFailed → write_failed writer.new ≡ write_failed writer.old }
    ensures write_failed { result ≡ GridEnd.WriteFailed → write_failed writer.new ≡ true }
    ensures flushed { is_flushed writer.old ≡ true → result ≢ GridEnd.WriteFailed → is_flushed writer.new ≡ true }
    ensures outcome { result ≢ GridEnd.WriteFailed → (bytes : List ℕ) × (out : List ℕ) × Consumes (R.remaining (reader_of reader.old)) (R.remaining (reader_of reader.new)) bytes
        × Appends (W.contents (writer_of writer.old)) (W.contents (writer_of writer.new)) out
        × Concludes form INPUT_MOST (R.remaining (reader_of reader.new)) (has_ended reader.new) (read_failed reader.new) bytes out result }
{
    let Ok(input) = read_input(alloc, reader, INPUT_LIMIT) else {
        return GridEnd::NoMemory;
    };
    match input.end {
        InputEnd::TooLong => GridEnd::TooLong,
        InputEnd::Failed => GridEnd::ReadFailed,
        InputEnd::Ended => match values_of(alloc, form, &input.bytes) {
            Ok(text) => write_out(writer, &text),
            Err(end) => end,
        },
    }
}
