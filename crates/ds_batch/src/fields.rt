//! Where the fields of a grid stand in its file.

use std::alloc::{AllocError, Global};
use std::fmt;

// What a file in UTF-8 may begin with.
const BYTE_ORDER_MARK: &[u8] = b"\xef\xbb\xbf";

/// A place in a file: a line, and a byte of that line, each from 1.
#[derive(Clone, Copy, Debug, PartialEq, Eq)]
pub struct FilePlace {
    /// The line, as line feeds end them.
    pub line: usize,
    /// The byte of the line.
    pub column: usize,
}

impl FilePlace {
    // The place after this one, at which this byte stands.
    fn behind(self, byte: u8) -> FilePlace {
        if byte == b'\n' {
            FilePlace {
                line: self.line.saturating_add(1),
                column: 1,
            }
        } else {
            FilePlace {
                line: self.line,
                column: self.column.saturating_add(1),
            }
        }
    }
}

impl fmt::Display for FilePlace {
    fn fmt<W: fmt::Write>(&self, f: &mut fmt::Formatter<W>) -> fmt::Result {
        write!(f, "line {}, column {}", self.line, self.column)
    }
}

// What stands before a byte of CSV.
#[derive(Clone, Copy, Debug, PartialEq, Eq)]
enum Before {
    // The end of a record, or nothing.
    RecordEnd,
    // A comma between two fields.
    Comma,
    // A byte of a field, outside of quotes.
    Field,
    // A field's first quote, or a byte within quotes.
    Quoted,
    // A quote within quotes: their end, or the first one of two.
    Quote,
}

fn is_line_end(byte: u8) -> bool {
    byte == b'\r' || byte == b'\n'
}

impl Before {
    // Whether a field begins at this byte.
    fn begins_field(self, byte: u8) -> bool {
        match self {
            Before::RecordEnd => !is_line_end(byte),
            Before::Comma => true,
            Before::Field | Before::Quoted | Before::Quote => false,
        }
    }

    // What stands before the next byte.
    fn behind(self, byte: u8) -> Before {
        match (self, byte) {
            (Before::Quoted, b'"') => Before::Quote,
            (Before::Quoted, _) => Before::Quoted,
            (Before::RecordEnd | Before::Comma | Before::Quote, b'"') => Before::Quoted,
            (_, b',') => Before::Comma,
            (_, b'\r' | b'\n') => Before::RecordEnd,
            _ => Before::Field,
        }
    }
}

/// Where each field of a grid stands, record by record. An error means that an allocation failed.
pub fn field_places(alloc: Global, grid: &[u8]) -> Result<Vec<FilePlace>, AllocError> {
    let mut places = Vec::new(alloc);
    let mut before = Before::RecordEnd;
    let mut place = FilePlace { line: 1, column: 1 };
    for byte in grid.strip_prefix(BYTE_ORDER_MARK).unwrap_or(grid) {
        if before.begins_field(*byte) {
            places.push(place)?;
        }
        before = before.behind(*byte);
        place = place.behind(*byte);
    }
    if before == Before::Comma {
        places.push(place)?;
    }
    Ok(places)
}
