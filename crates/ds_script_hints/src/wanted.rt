//! What the words of a command have to be.

use ds_formula::cells::{COLUMN_LIMIT, ROW_LIMIT};
use ds_layout::layout::{Layout, PROCESS_LIMIT};
use ds_layout::place::{DONE_PARTS, FIRST_PARTS, RECORDS, SECOND_PARTS};
use ds_script_io::fields::{named, numbered};

// The names of the points that a call may have passed.
const POINTS: [&str; 16] = [
    "written",
    "announced",
    "indexed",
    "helped",
    "swung",
    "kept",
    "marked",
    "answered",
    "held",
    "stored",
    "valued",
    "spread",
    "cleared",
    "freed",
    "copied",
    "switched",
];

// The kinds of words of a sheet.
const PLACES: [&str; 11] = [
    "version", "head", "mark", "value", "kind", "index", "announce", "header", "text", "newtext",
    "done",
];

// The calls that begin, each by its name.
const CALLS: [&str; 5] = ["set", "work", "show", "recover", "migrate"];

/// What a word of a command has to be.
#[derive(Clone, Copy, Debug, PartialEq, Eq)]
pub enum Wanted {
    /// The name of a command.
    Command,
    /// How many columns a sheet has.
    Columns,
    /// How many rows.
    Rows,
    /// How many processes.
    Processes,
    /// A layout of a sheet's words: 1 or 2.
    Layout,
    /// A process of the sheet.
    Process,
    /// A cell of the sheet.
    Cell,
    /// The number of an edit.
    Number,
    /// A part of a row of the index.
    RowPart,
    /// A part of a text in the first layout.
    TextPart,
    /// A part of a text in the second layout.
    NewTextPart,
    /// A part of the bits of edits that are done.
    DonePart,
    /// `to`.
    To,
    /// A point of the call that a process is in.
    Point,
    /// A call that begins.
    Call,
    /// A kind of words of the sheet.
    Place,
    /// The text of an edit, up to the end of the line: there may be none.
    Text,
    /// No word.
    Nothing,
}

fn is_one_of(names: &[&str], word: &[u8]) -> bool {
    names.iter().any(|name| name.as_bytes() == word)
}

fn is_below(limit: usize, word: &[u8]) -> bool {
    numbered(limit.min(RECORDS), Some(word)).is_some()
}

fn is_from_one(most: usize, word: &[u8]) -> bool {
    match numbered(most.min(ROW_LIMIT) + 1, Some(word)) {
        Some((number, _)) => number > 0,
        None => false,
    }
}

impl Wanted {
    /// Whether a word, in which no space is, is so on a sheet of this layout.
    pub fn fits(self, layout: &Layout, word: &[u8]) -> bool {
        match self {
            Wanted::Columns => is_from_one(COLUMN_LIMIT, word),
            Wanted::Rows => is_from_one(ROW_LIMIT, word),
            Wanted::Processes => is_from_one(PROCESS_LIMIT, word),
            Wanted::Layout => is_from_one(2, word),
            Wanted::Process => is_below(layout.processes, word),
            Wanted::Cell => named(&layout.shape, Some(word)).is_some(),
            Wanted::Number => is_below(RECORDS, word),
            Wanted::RowPart => is_below(layout.row_parts(), word),
            Wanted::TextPart => is_below(FIRST_PARTS, word),
            Wanted::NewTextPart => is_below(SECOND_PARTS, word),
            Wanted::DonePart => is_below(DONE_PARTS, word),
            Wanted::To => word == b"to".as_slice(),
            Wanted::Point => is_one_of(&POINTS, word),
            Wanted::Call => is_one_of(&CALLS, word),
            Wanted::Place => is_one_of(&PLACES, word),
            Wanted::Text => true,
            Wanted::Command | Wanted::Nothing => false,
        }
    }
}
