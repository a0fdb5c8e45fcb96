//! `dsheet report`.

use crate::closing::{Closing, is_closed};
use crate::copying::Copying;
use crate::fields::field_places;
use crate::json::{TableFault, table_line};
use crate::run::no_memory;
use crate::source::{Source, open};
use crate::status::{CLOSED, REFUSED, grid_status};
use csv::ByteRecord;
use ds_a1::notation::Notation;
use ds_a1::texts::read_text;
use ds_formula::cells::Shape;
use ds_formula::fault::FaultKind;
use ds_grid::ending::{GridEnd, GridFault};
use ds_grid::form::{GridForm, is_label};
use ds_grid::grid::{contents, records, shape_of};
use ds_grid::report::report_grid;
use ds_sched::{Reading, Writing};
use ds_script_hints::texts::excerpt_of_text;
use ds_script_io::input::{InputEnd, read_input};
use ds_script_io::line::INPUT_LIMIT;
use std::alloc::{AllocError, Global};
use std::fs::{File, Files};
use std::io::{self, BufWriter, Read, Write};

// A record that has another number of fields than the first one.
#[derive(Clone, Copy)]
struct OddRecord {
    // Which it is, from 1.
    number: usize,
    fields: usize,
    first: usize,
}

// The first record of a grid that is odd; none where there is no memory, too.
fn odd_record(alloc: Global, grid: &[u8]) -> Option<OddRecord> {
    let records = records(alloc, grid).ok()?;
    let first = records.first()?.len();
    let place = records.iter().position(|record| record.len() != first)?;
    Some(OddRecord {
        number: place.saturating_add(1),
        fields: records.get(place)?.len(),
        first,
    })
}

// The fields of a grid that are refused.
#[derive(Clone, Copy)]
struct Refused {
    all: usize,
    labels: usize,
}

// Reports on standard error each field of a grid that is refused, with its place in the file.
fn print_refused<R: AllocGlobal + Eprint>(
    rt: &R,
    form: GridForm,
    grid: &[u8],
) -> Result<Refused, AllocError> {
    let mut refused = Refused { all: 0, labels: 0 };
    let records = records(rt.alloc(), grid)?;
    let Ok(shape) = shape_of(&records) else {
        return Ok(refused);
    };
    let places = field_places(rt.alloc(), grid)?;
    for index in 0..shape.count() {
        let cell = shape.cell(index);
        let Some(field) = records.get(cell.row).and_then(|row| row.get(cell.column)) else {
            continue;
        };
        if form.passes(field) {
            continue;
        }
        match read_text(rt.alloc(), form.notation, &shape, field) {
            Err(fault) if fault.kind == FaultKind::NoMemory => return Err(AllocError),
            Err(fault) => {
                let _reported = eprintln!(rt; "cell {cell}: {fault}");
                if let Some(place) = places.get(index) {
                    let _reported = eprintln!(rt; "  {place}");
                }
                let excerpt = excerpt_of_text(rt.alloc(), form.notation, field, field, fault);
                let _reported = eprintln!(rt; "{excerpt}");
                refused.all = refused.all.saturating_add(1);
                refused.labels = refused.labels.saturating_add(is_label(field) as usize);
            }
            Ok(_) => {}
        }
    }
    Ok(refused)
}

// Reports on standard error how many fields of a grid are refused.
fn print_count(rt: &impl Eprint, refused: Refused) {
    if refused.all > 1 {
        let _reported = eprintln!(rt; "{} fields are refused", refused.all);
    }
    if refused.labels > 0 {
        let _reported = eprintln!(rt;
            "no number and no formula: {}; with --labels they pass through",
            refused.labels
        );
    }
}

// Reports on standard error how a report ended, where that is not as it should.
fn print_end<R: AllocGlobal + Eprint>(rt: &R, form: GridForm, end: &GridEnd, grid: &[u8]) {
    let _reported = match end {
        GridEnd::Ended => Ok(()),
        GridEnd::Grid(GridFault::BadCsv) => match odd_record(rt.alloc(), grid) {
            Some(
                OddRecord {
                    number,
                    fields,
                    first,
                },
            ) => {
                eprintln!(rt; "{end}\nrecord {number} has {fields} fields, the first one {first}")
            }
            None => eprintln!(rt; "{end}"),
        },
        GridEnd::CellFault { .. } => match print_refused(rt, form, grid) {
            Ok(refused) => {
                print_count(rt, refused);
                Ok(())
            }
            Err(_) => eprintln!(rt; "{end}"),
        },
        GridEnd::Grid(_) => eprintln!(rt; "{end}"),
        _ => eprintln!(rt; "dsheet: {end}"),
    };
}

/// A grid of texts that was read: the shape of its sheet, and its records, of which each field has a content.
#[derive(Drop)]
pub struct ReadGrid {
    /// The shape of its sheet.
    pub shape: Shape,
    /// Its records, as many as the sheet has rows, each of as many fields as it has columns.
    pub rows: Vec<ByteRecord>,
}

// A grid in this form.
fn grid_in(alloc: Global, form: GridForm, bytes: &[u8]) -> Result<ReadGrid, GridEnd> {
    let rows = records(alloc, bytes)?;
    let shape = shape_of(&rows)?;
    match contents(alloc, form, &shape, &rows) {
        Ok(_) => Ok(ReadGrid { shape, rows }),
        Err(end) => Err(end),
    }
}

/// Reads a grid of texts in this notation, of at most 1,048,576 bytes, from a reader. An error is the status, `grid_status`
/// of why there is none, when standard error has the reason, of fields each that is refused.
pub fn read_grid<R: AllocGlobal + Eprint, I: Read + Drop>(
    rt: &R,
    input: I,
    notation: Notation,
) -> Result<ReadGrid, u8> {
    let form = GridForm {
        notation,
        keeps_labels: false,
    };
    let mut reader = Reading::new(input);
    let Ok(input) = read_input(rt.alloc(), &mut reader, INPUT_LIMIT) else {
        return Err(no_memory(rt));
    };
    let read = match input.end {
        InputEnd::TooLong => Err(GridEnd::TooLong),
        InputEnd::Failed => Err(GridEnd::ReadFailed),
        InputEnd::Ended => grid_in(rt.alloc(), form, &input.bytes),
    };
    match read {
        Ok(grid) => Ok(grid),
        Err(end) => {
            print_end(rt, form, &end, &input.bytes);
            Err(grid_status(&end))
        }
    }
}

/// How the values of a grid are written.
#[derive(Clone, Copy, Debug, PartialEq, Eq)]
pub enum TableForm {
    /// As CSV, a record a row.
    Csv,
    /// As one line of JSON, with a list of rows of texts.
    Json,
}

// Writes the values of a grid, which are here as CSV, as JSON, and gives the status.
fn write_json<R: AllocGlobal + Print + Eprint>(rt: &R, form: GridForm, table: &[u8]) -> u8 {
    let line = match table_line(rt.alloc(), table) {
        Ok(line) => line,
        Err(TableFault::NoMemory) => return no_memory(rt),
        Err(TableFault::NotUtf8) => {
            let _reported = eprintln!(rt;
                "dsheet: a label is not UTF-8, as a text of JSON has to be"
            );
            return REFUSED;
        }
    };
    let mut out = io::writer(rt);
    let end = match out.write_all(&line).and_then(|_| out.flush()) {
        Ok(()) => GridEnd::Ended,
        Err(error) if is_closed(&error) => return CLOSED,
        Err(_) => GridEnd::WriteFailed,
    };
    print_end(rt, form, &end, table);
    grid_status(&end)
}

// A grid from a reader, as `report`, its values as JSON.
fn report_json<R: AllocGlobal + Print + Eprint, I: Read + Drop>(
    rt: &R,
    input: I,
    form: GridForm,
) -> u8 {
    let mut grid = Vec::new(rt.alloc());
    let mut table = Vec::new(rt.alloc());
    let end = {
        let mut reader = Reading::new(Copying::new(input, &mut grid));
        let mut writer = Writing::new(&mut table);
        report_grid(rt.alloc(), form, &mut reader, &mut writer)
    };
    match end {
        GridEnd::Ended => write_json(rt, form, &table),
        // Only memory can be missing where a table grows.
        GridEnd::WriteFailed => no_memory(rt),
        _ => {
            print_end(rt, form, &end, &grid);
            grid_status(&end)
        }
    }
}

// A grid from a reader, as `report`, its values as CSV.
fn report_csv<R: AllocGlobal + Print + Eprint, I: Read + Drop>(
    rt: &R,
    input: I,
    form: GridForm,
) -> u8 {
    let mut closed = false;
    let output = Closing::new(io::writer(rt), &mut closed);
    let Ok(buffered) = BufWriter::new(rt.alloc(), output) else {
        return no_memory(rt);
    };
    let mut grid = Vec::new(rt.alloc());
    let end = {
        let mut reader = Reading::new(Copying::new(input, &mut grid));
        let mut writer = Writing::new(buffered);
        report_grid(rt.alloc(), form, &mut reader, &mut writer)
    };
    if closed {
        return CLOSED;
    }
    print_end(rt, form, &end, &grid);
    grid_status(&end)
}

// A grid from a reader, as `report`.
fn report_from<R: AllocGlobal + Print + Eprint, I: Read + Drop>(
    rt: &R,
    input: I,
    form: GridForm,
    table: TableForm,
) -> u8 {
    match table {
        TableForm::Csv => report_csv(rt, input, form),
        TableForm::Json => report_json(rt, input, form),
    }
}

/// `dsheet report`: a grid in this form, of at most 1,048,576 bytes, its values to standard output. A fault of the grid is
/// reported on standard error, of its fields each that is refused, and then nothing is written. Gives the exit status,
/// `grid_status` of how it ended, or 3 where the file cannot be opened, or 141 where nobody reads the values any more.
pub fn report<R: AllocGlobal + Input + Print + Eprint + Files<File = File>>(
    rt: &R,
    source: Source<'_>,
    form: GridForm,
    table: TableForm,
) -> u8 {
    match source {
        Source::StandardInput => report_from(rt, rt.reader(), form, table),
        Source::File(path) => match open(rt, path) {
            Ok(file) => report_from(rt, file, form, table),
            Err(status) => status,
        },
    }
}
