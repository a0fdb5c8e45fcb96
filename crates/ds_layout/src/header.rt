//! The header of a record: the cell of an edit and the length of its text.

ghost use Rattle.std.specs.Prelude.{◌≡◌, ℕ, IfSome};
ghost use Rattle.ds_layout.specs.Header.{CanPack, IsHeader, header_word, header_of};

use ds_formula::reading::TEXT_LIMIT;

/// The cell of an edit, by its number, and the length of its text in bytes.
#[derive(Clone, Copy, Debug, PartialEq, Eq)]
pub struct Header {
    /// The cell's number, row by row from the left, from 0.
    pub cell: usize,
    /// How many bytes the text has, at most 240.
    pub length: usize,
}

impl Header {
    /// The header's word, `cell * 256 + length` (our own rule). The cell is below 2^56, the length
    /// below 256.
    pub fn word(self) -> u64
        requires { CanPack self }
        ensures value { result ≡ header_word self }
        ensures reads_back { (cells : ℕ) → IsHeader cells self
            → header_of cells result ≡ Some self }
    {
        self.cell as u64 * 256 + self.length as u64
    }

    /// What a header's word says in a sheet with that number of cells: `None` where the cell is none of
    /// them or the length is more than a text's.
    pub fn read(word: u64, cells: usize) -> Option<Header>
        ensures value { result ≡ header_of cells word }
        ensures header { IfSome result (IsHeader cells) }
        ensures word { IfSome result (λ h. header_word h ≡ word) }
    {
        let header = Header {
            cell: (word / 256) as usize,
            length: (word % 256) as usize,
        };
        if header.cell < cells && header.length <= TEXT_LIMIT {
            Some(header)
        } else {
            None
        }
    }
}
