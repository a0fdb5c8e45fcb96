//! What a cell shows, as its value word and its kind word keep it.

ghost use Rattle.std.specs.Prelude.{◌≡◌, ℕ, ◌≤◌};
ghost use Rattle.ds_formula.specs.Limits.{CELLS_MOST};
ghost use Rattle.ds_layout.specs.Stored.{IsStored, kind_code, kind_word, value_word, stored_of};

/// What kind of value a cell shows.
#[derive(Clone, Copy, Debug, PartialEq, Eq)]
pub enum Kind {
    /// Nothing.
    Blank,
    /// A whole number.
    Number,
    /// A division by zero, `#DIV/0!`.
    DivZero,
    /// A number out of range, `#NUM!`.
    Num,
    /// A circular reference, `Err:522`.
    Circular,
}

/// What a cell shows: the value is 0 where the kind is not `Number`. The height, how far its
/// references go, is below the number of cells, or equal to it where the kind is `Circular`.
#[derive(Clone, Copy, Debug, PartialEq, Eq)]
pub struct Stored {
    /// What kind of value it is.
    pub kind: Kind,
    /// How far references lead from the cell: the length of the longest walk along them.
    pub height: usize,
    /// The number, or 0 where the kind is another.
    pub value: i64,
}

impl Kind {
    fn code(self) -> u64
        ensures { result ≡ kind_code self }
    {
        match self {
            Kind::Blank => 0,
            Kind::Number => 1,
            Kind::DivZero => 2,
            Kind::Num => 3,
            Kind::Circular => 4,
        }
    }
}

impl Stored {
    /// The kind's word, `height * 8 + kind`, with the kinds numbered from 0 in their order (our own
    /// rule).
    pub fn kind_word(self) -> u64
        requires { self.height ≤ CELLS_MOST }
        ensures { result ≡ kind_word self }
    {
        self.height as u64 * 8 + self.kind.code()
    }

    /// The value's word: the number as two's complement.
    pub fn value_word(self) -> u64
        ensures value { result ≡ value_word self }
        ensures reads_back { (cells : ℕ) → IsStored cells self
            → stored_of cells result (kind_word self) ≡ self }
    {
        self.value.cast_unsigned()
    }

    /// What the two words of a cell say in a sheet with that number of cells. A kind of 4 or more, or a
    /// height of the number of cells or more, is read as `Circular` at that height; the value is 0
    /// where the kind is not `Number`.
    pub fn read(value: u64, kind: u64, cells: usize) -> Stored
        ensures value { result ≡ stored_of cells value kind }
        ensures stored { IsStored cells result }
    {
        let circular = Stored {
            kind: Kind::Circular,
            height: cells,
            value: 0,
        };
        let height = (kind / 8) as usize;
        if height >= cells {
            return circular;
        }
        match kind % 8 {
            0 => Stored {
                kind: Kind::Blank,
                height,
                value: 0,
            },
            1 => Stored {
                kind: Kind::Number,
                height,
                value: value.cast_signed(),
            },
            2 => Stored {
                kind: Kind::DivZero,
                height,
                value: 0,
            },
            3 => Stored {
                kind: Kind::Num,
                height,
                value: 0,
            },
            _ => circular,
        }
    }
}
