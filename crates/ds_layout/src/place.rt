//! The words of a sheet, by what they are for.

ghost use Rattle.std.specs.Prelude.{◌≡◌};
ghost use Rattle.ds_layout.specs.Places.{class_of, parts_in, edition_of, edition_word};

use ds_formula::cells::CELL_LIMIT;
use ds_words::access::Class;

/// How many edits each process can number, and so how many records it has.
pub const RECORDS: usize = 256;

/// How many words the text of a record has in the first layout, eight bytes each.
pub const FIRST_PARTS: usize = 15;

/// How many words the text of a record has in the second layout, eight bytes each.
pub const SECOND_PARTS: usize = 30;

/// How many words a row of the index has at most, 64 bits each: one bit for each cell.
pub const ROW_PARTS: usize = CELL_LIMIT / 64;

/// How many words the done bits of a process have, 64 bits each: one bit for each record.
pub const DONE_PARTS: usize = RECORDS / 64;

/// Which of its two layouts a sheet has.
#[derive(Clone, Copy, Debug, Default, PartialEq, Eq)]
pub enum Edition {
    /// Texts of 15 words, before the done bits.
    #[default]
    First,
    /// Texts of 30 words, after all other words.
    Second,
}

/// A word of a sheet. Cells are by their number, processes and edits too.
#[derive(Clone, Copy, Debug, Default, PartialEq, Eq)]
pub enum Place {
    /// Which layout the words have.
    #[default]
    Version,
    /// The last linearized edit of a cell.
    Head(usize),
    /// Whether a cell is clean, marked or held.
    Mark(usize),
    /// The number that a cell shows.
    Value(usize),
    /// What a cell shows, and the height of its references.
    Kind(usize),
    /// A part of the row of a cell in the index: which cells may refer to that cell.
    Index {
        /// The cell whose row it is.
        row: usize,
        /// Which part of the row, from 0.
        part: usize,
    },
    /// The last announced edit of a process.
    Announce(usize),
    /// The cell and the length of a text.
    Header {
        /// The process of the edit.
        process: usize,
        /// Which of its edits, from 0.
        number: usize,
    },
    /// Eight bytes of a text.
    Text {
        /// The layout whose text it is.
        edition: Edition,
        /// The process of the edit.
        process: usize,
        /// Which of its edits, from 0.
        number: usize,
        /// Which part of the text, from 0.
        part: usize,
    },
    /// A part of the done bits of a process: which of its edits are linearized and were superseded.
    Done {
        /// The process of the edits.
        process: usize,
        /// Which part of its done bits, from 0.
        part: usize,
    },
}

impl Edition {
    /// How many words the text of a record has in the layout.
    #[inline(always)]
    pub fn parts(self) -> usize
        ensures { result ≡ parts_in self }
    {
        match self {
            Edition::First => FIRST_PARTS,
            Edition::Second => SECOND_PARTS,
        }
    }

    /// The layout that the version's word says: the first one where it is 0, else the second one.
    #[inline(always)]
    pub fn read(word: u64) -> Edition
        ensures { result ≡ edition_of word }
    {
        if word == 0 {
            Edition::First
        } else {
            Edition::Second
        }
    }

    /// The version's word of the layout.
    #[inline(always)]
    pub fn word(self) -> u64
        ensures value { result ≡ edition_word self }
        ensures reads_back { edition_of result ≡ self }
    {
        match self {
            Edition::First => 0,
            Edition::Second => 1,
        }
    }
}

impl Place {
    /// The class of the word.
    pub fn class(self) -> Class
        ensures { result ≡ class_of self }
    {
        match self {
            Place::Version | Place::Head(_) | Place::Mark(_) => Class::Stamped,
            Place::Index { row: _, part: _ }
            | Place::Done {
                process: _,
                part: _,
            } => Class::Bit,
            Place::Value(_) | Place::Kind(_) => Class::Owned,
            Place::Announce(_)
            | Place::Header {
                process: _,
                number: _,
            }
            | Place::Text {
                edition: _,
                process: _,
                number: _,
                part: _,
            } => Class::Owned,
        }
    }
}
