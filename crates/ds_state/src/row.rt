//! The row of a cell in the index, as it is read.

ghost use Rattle.std.specs.Prelude.{◌≡◌, ◌<◌, ◌++◌, length, [], ◌∷◌};

use arrayvec::ArrayVec;
use ds_layout::place::ROW_PARTS;
use std::fmt;
use std::marker::Model;

/// The words of an index row that were loaded, in place: it takes no memory.
#[derive(Drop)]
pub struct IndexRow {
    words: ArrayVec<u64, ROW_PARTS>,
}

impl Model for IndexRow {
    ghost use Rattle.std.specs.Prelude.{List, ℕ};

    ghost Value = { List ℕ };

    ghost view = { λ r. r.words.items };
}

impl IndexRow {
    /// No word.
    pub fn new() -> IndexRow
        ensures { result ≡ [] }
    {
        IndexRow {
            words: ArrayVec::new(),
        }
    }

    /// One more word at its end. It has fewer than `ROW_PARTS`.
    #[inline(always)]
    pub fn push(&mut self, word: u64)
        requires { length self.old < ROW_PARTS }
        ensures { self.new ≡ self.old ++ word ∷ [] }
    {
        self.words.push(word);
    }

    /// The row has no words then.
    pub fn clear(&mut self)
        ensures { self.new ≡ [] }
    {
        self.words.clear();
    }

    /// An equal row.
    pub fn copy(&self) -> IndexRow
        ensures { result ≡ self.now }
    {
        let mut words = ArrayVec::new();
        let _fits = words.try_extend_from_slice(self.words.as_slice());
        IndexRow { words }
    }

    /// The words of the row.
    #[inline(always)]
    pub fn as_slice(&self) -> &[u64]
        ensures { result.now ≡ self.now }
    {
        self.words.as_slice()
    }
}

impl fmt::Debug for IndexRow {
    fn fmt<W: fmt::Write>(&self, f: &mut fmt::Formatter<W>) -> fmt::Result {
        fmt::Debug::fmt(&self.as_slice(), f)
    }
}
