//! What a client does where its streams are a terminal.

use serde_json::Value as Json;
use std::alloc::{AllocError, Global};

/// Which streams of a client are a terminal.
#[derive(Clone, Copy, Debug, PartialEq, Eq)]
pub struct Screen {
    /// Lines are typed: there are prompts, `help` and `quit`, and a line with a fault ends nothing.
    pub input: bool,
    /// Answers are read by a person, if lines are typed too: values stand in a table.
    pub output: bool,
}

/// The lines that a person may type.
pub(crate) const HELP: &str = "\
set CELL TEXT   sets the text of a cell, as set A1 =1+2
undo CELL       sets the text that the cell had before its last edit
report          shows all values
view            shows all values, also without a process
get CELL        shows the value of a cell, its last edit that counts, and its text
history [FROM]  shows the edits that count, from a place on, at most 100
outcome KEY     shows the edit with a key; where none has it, none ever will
last            reports what became of the last edit of the process
help            shows these lines
quit            ends, as the end of the input does
";

/// What a typed line asks for.
#[derive(Clone, Copy, Debug, PartialEq, Eq)]
pub(crate) enum Typed {
    /// The lines that may be typed.
    Help,
    /// The end.
    Quit,
    /// A call of the server, or nothing that is known.
    Call,
}

impl Typed {
    /// What a line asks for that is typed.
    pub(crate) fn of(line: &str) -> Typed {
        match line.trim() {
            "help" => Typed::Help,
            "quit" => Typed::Quit,
            _ => Typed::Call,
        }
    }
}

// What stands between two columns of a table.
const GAP: &str = "  ";

// The texts of a row; none where it is none.
fn texts_of(row: &Json) -> &[Json] {
    match row.as_array() {
        Some(texts) => texts,
        None => &[],
    }
}

// A text of a row; empty where it has none there.
fn text_at(row: &Json, column: usize) -> &str {
    match texts_of(row).get(column) {
        Some(text) => text.as_str().unwrap_or(""),
        None => "",
    }
}

// How many columns the rows have.
fn columns_of(rows: &[Json]) -> usize {
    let mut most = 0usize;
    for row in rows {
        most = most.max(texts_of(row).len());
    }
    most
}

// How many letters the longest text of a column has, at least one, as its heading.
fn width_of(rows: &[Json], column: usize) -> usize {
    let mut most = 1usize;
    for row in rows {
        most = most.max(text_at(row, column).chars().count());
    }
    most
}

// The widths of all columns.
fn widths_of(alloc: Global, rows: &[Json]) -> Result<Vec<usize>, AllocError> {
    let columns = columns_of(rows);
    let mut widths = Vec::with_capacity(alloc, columns)?;
    for column in 0..columns {
        widths.push(width_of(rows, column))?;
    }
    Ok(widths)
}

// The name of a column; there are 26 at most.
fn name_of(column: usize) -> char {
    match u8::try_from(column) {
        Ok(column) if column < 26 => (b'A' + column) as char,
        _ => '?',
    }
}

// The names of the columns, as wide as these, after a margin.
fn heading(alloc: Global, margin: usize, widths: &[usize]) -> Result<String, AllocError> {
    let mut line = format!(in alloc; "{:margin$}", ' ')?;
    for (column, width) in widths.iter().enumerate() {
        write!(line, "{GAP}{:>width$}", name_of(column), width = *width)?;
    }
    line.push('\n')?;
    Ok(line)
}

// A row of this number, in columns as wide as these, after a margin.
fn line_of(
    alloc: Global,
    margin: usize,
    widths: &[usize],
    number: usize,
    row: &Json,
) -> Result<String, AllocError> {
    let mut line = format!(in alloc; "{number:>margin$}")?;
    for (column, width) in widths.iter().enumerate() {
        write!(
            line,
            "{GAP}{:>width$}",
            text_at(row, column),
            width = *width
        )?;
    }
    line.push('\n')?;
    Ok(line)
}

/// The values of a sheet, rows of texts, as a table with the names of its columns and the numbers of its rows. An error means
/// that an allocation failed.
pub(crate) fn table_of(alloc: Global, rows: &[Json]) -> Result<String, AllocError> {
    let widths = widths_of(alloc, rows)?;
    let margin = rows.len().to_string(alloc)?.len();
    let mut table = heading(alloc, margin, &widths)?;
    for (index, row) in rows.iter().enumerate() {
        let number = index.saturating_add(1);
        table.push_str(&line_of(alloc, margin, &widths, number, row)?)?;
    }
    Ok(table)
}
