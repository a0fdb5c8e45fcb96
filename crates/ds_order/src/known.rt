//! What is known of the references of a sheet that threads edit.

ghost use Rattle.std.specs.Prelude.{◌≡◌, IfOk};

use crate::order::References;
use ds_formula::cells::{Cell, Shape};
use ds_formula::reading::read_content;
use std::alloc::{AllocError, Global};
use std::sync::atomic::{AtomicU64, Ordering};

/// Which cells of a sheet each of its cells refers to, as far as threads have noted it. No call waits. What is noted may be
/// older than the sheet, or newer: orders that are made of it are guesses.
#[derive(Drop)]
pub struct KnownReferences {
    shape: Shape,
    // A bit for each cell and each cell that it may refer to.
    words: Vec<AtomicU64>,
    version: AtomicU64,
}

// The references among the 64 cells from `64 * at` on.
fn bits_of(shape: Shape, references: &[Cell], at: usize) -> u64 {
    let mut bits = 0;
    for cell in references {
        if shape.contains(*cell) {
            let index = shape.index(*cell);
            if index / 64 == at {
                bits |= 1 << (index % 64);
            }
        }
    }
    bits
}

impl KnownReferences {
    /// Of a sheet of this shape whose cells are blank. An error is that an allocation failed.
    pub fn new(alloc: Global, shape: Shape) -> Result<KnownReferences, AllocError>
        ensures { IfOk result (λ known. known.shape ≡ shape) }
    {
        let count = shape.count() * shape.count().div_ceil(64);
        let mut words = Vec::with_capacity(alloc, count)?;
        for _ in 0..count {
            words.push(AtomicU64::new(0))?;
        }
        Ok(KnownReferences {
            shape,
            words,
            version: AtomicU64::new(0),
        })
    }

    /// The shape of its sheet.
    pub fn shape(&self) -> Shape
        ensures { result ≡ self.now.shape }
    {
        self.shape
    }

    /// How often references were noted that were not known before.
    pub fn version(&self) -> u64 {
        self.version.load(Ordering::SeqCst)
    }

    // The word of a cell for the 64 cells from `64 * at` on, where there is one.
    fn word_at(&self, cell: usize, at: usize) -> Option<&AtomicU64> {
        let width = self.shape.count().div_ceil(64);
        self.words.get(cell.wrapping_mul(width).wrapping_add(at))
    }

    // Notes the references of a cell. Whether they are other ones than before.
    fn replace(&self, cell: usize, references: &[Cell]) -> bool {
        let mut changes = false;
        for at in 0..self.shape.count().div_ceil(64) {
            let bits = bits_of(self.shape, references, at);
            if let Some(word) = self.word_at(cell, at) {
                changes = word.swap(bits, Ordering::SeqCst) != bits || changes;
            }
        }
        changes
    }

    /// Notes that a cell has this text. Of a cell that the sheet has not, of a text that has a fault, and where an
    /// allocation fails, nothing is noted.
    pub fn note(&self, alloc: Global, cell: Cell, text: &[u8]) {
        if !self.shape.contains(cell) {
            return;
        }
        let Ok(content) = read_content(alloc, &self.shape, text) else {
            return;
        };
        let Ok(references) = content.refs(alloc) else {
            return;
        };
        if self.replace(self.shape.index(cell), references.as_slice()) {
            let _before = self.version.fetch_add(1, Ordering::SeqCst);
        }
    }
}

impl References for KnownReferences {
    fn word(&self, cell: usize, at: usize) -> u64 {
        match self.word_at(cell, at) {
            Some(word) => word.load(Ordering::SeqCst),
            None => 0,
        }
    }
}
