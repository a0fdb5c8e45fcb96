//! What C gets of cells, words and sheets.

ghost use Rattle.std.specs.Prelude.{◌≡◌};
ghost use Rattle.ds_c.specs.Rows.{value_row, mark_row, size_row, word_row, place_named};

use ds_eval::value::Value;
use ds_layout::layout::Layout;
use ds_layout::mark::{Mark, State};
use ds_layout::place::{Edition, Place};
use ds_words::words::Word;

/// The value of a cell.
#[repr(C)]
#[derive(Clone, Copy, Debug, PartialEq, Eq)]
pub struct ValueRow {
    /// Which kind of value it is: 0 blank, 1 a number, 2 `#DIV/0!`, 3 `#NUM!`, 4 `Err:522`.
    pub kind: u32,
    /// The number; 0 where it is none.
    pub number: i64,
}

/// The mark of a cell.
#[repr(C)]
#[derive(Clone, Copy, Debug, PartialEq, Eq)]
pub struct MarkRow {
    /// Which state it is in: 0 clean, 1 marked, 2 held.
    pub state: u32,
    /// Whether it is dirty, 1 or 0: also one that is held may be.
    pub dirty: u32,
    /// The process that holds it; 0 where it is not held.
    pub holder: usize,
    /// How often the holder changed.
    pub generation: u64,
}

/// How large a sheet is.
#[repr(C)]
#[derive(Clone, Copy, Debug, PartialEq, Eq)]
pub struct SizeRow {
    /// How many columns it has, from 1 to 26.
    pub columns: usize,
    /// How many rows it has, from 1 to 64.
    pub rows: usize,
    /// How many processes it has, from 1 to 8.
    pub processes: usize,
}

/// The two sides of a word.
#[repr(C)]
#[derive(Clone, Copy, Debug, PartialEq, Eq)]
pub struct WordRow {
    /// What processes see, and a crash loses.
    pub cached: u64,
    /// What a crash leaves.
    pub persisted: u64,
}

/// The name of a word. Fields that its kind does not use are not read.
#[repr(C)]
#[derive(Clone, Copy, Debug, PartialEq, Eq)]
pub struct PlaceRow {
    /// Which word it is: 0 the version, 1 the head, 2 the mark, 3 the value and 4 the kind of a cell, 5 a part of its
    /// index row, 6 the announcement of a process, 7 a header, 8 a part of a text, 9 a part of the done bits.
    pub kind: u32,
    /// The cell, by its number, of the kinds 1 to 5; the process, of the kinds 6 to 9.
    pub owner: usize,
    /// The number of the edit, of the kinds 7 and 8.
    pub number: usize,
    /// Which part, of the kinds 5, 8 and 9.
    pub part: usize,
}

impl ValueRow {
    /// The row of a value.
    pub fn of(value: Value) -> ValueRow
        ensures { result ≡ value_row value }
    {
        match value {
            Value::Blank => ValueRow { kind: 0, number: 0 },
            Value::Number(number) => ValueRow { kind: 1, number },
            Value::DivZero => ValueRow { kind: 2, number: 0 },
            Value::Num => ValueRow { kind: 3, number: 0 },
            Value::Circular => ValueRow { kind: 4, number: 0 },
        }
    }
}

impl MarkRow {
    /// The row of a mark.
    pub fn of(mark: Mark) -> MarkRow
        ensures { result ≡ mark_row mark }
    {
        let (state, holder) = match mark.state() {
            State::Clean => (0, 0),
            State::Marked => (1, 0),
            State::Held(process) => (2, process),
        };
        MarkRow {
            state,
            dirty: mark.dirty as u32,
            holder,
            generation: mark.generation,
        }
    }
}

impl SizeRow {
    /// The row of a layout.
    pub fn of(layout: Layout) -> SizeRow
        ensures { result ≡ size_row layout }
    {
        SizeRow {
            columns: layout.shape.columns,
            rows: layout.shape.rows,
            processes: layout.processes,
        }
    }
}

impl WordRow {
    /// The row of a word.
    pub fn of(word: Word) -> WordRow
        ensures { result ≡ word_row word }
    {
        WordRow {
            cached: word.cached,
            persisted: word.persisted,
        }
    }
}

impl PlaceRow {
    /// The place of the word that it names, which need not be one of a sheet; `None` where its kind is none.
    pub fn place(self) -> Option<Place>
        ensures { result ≡ place_named self }
    {
        let PlaceRow {
            kind,
            owner,
            number,
            part,
        } = self;
        match kind {
            0 => Some(Place::Version),
            1 => Some(Place::Head(owner)),
            2 => Some(Place::Mark(owner)),
            3 => Some(Place::Value(owner)),
            4 => Some(Place::Kind(owner)),
            5 => Some(Place::Index { row: owner, part }),
            6 => Some(Place::Announce(owner)),
            7 => Some(Place::Header {
                process: owner,
                number,
            }),
            8 => Some(Place::Text {
                edition: Edition::First,
                process: owner,
                number,
                part,
            }),
            9 => Some(Place::Done {
                process: owner,
                part,
            }),
            10 => Some(Place::Text {
                edition: Edition::Second,
                process: owner,
                number,
                part,
            }),
            _ => None,
        }
    }
}
