//! Sets of cells, a bit each.

use crate::order::References;
use std::alloc::{AllocError, Global};

#[derive(Drop)]
pub(crate) struct Bits {
    words: Vec<u64>,
}

impl Bits {
    // None of as many cells.
    pub(crate) fn new(alloc: Global, cells: usize) -> Result<Bits, AllocError> {
        let words = cells.div_ceil(64);
        let mut bits = Vec::with_capacity(alloc, words)?;
        bits.resize(words, 0)?;
        Ok(Bits { words: bits })
    }

    pub(crate) fn add(&mut self, cell: usize) {
        if let Some(word) = self.words.get_mut(cell / 64) {
            *word |= 1 << (cell % 64);
        }
    }

    pub(crate) fn remove(&mut self, cell: usize) {
        if let Some(word) = self.words.get_mut(cell / 64) {
            *word &= !(1 << (cell % 64));
        }
    }

    // Those of the 64 cells from `64 * at` on.
    pub(crate) fn word(&self, at: usize) -> u64 {
        match self.words.get(at) {
            Some(word) => *word,
            None => 0,
        }
    }

    pub(crate) fn len(&self) -> usize {
        self.words.len()
    }

    // Whether a cell refers to one of these.
    pub(crate) fn is_read<R: References>(&self, references: &R, cell: usize) -> bool {
        for at in 0..self.words.len() {
            if references.word(cell, at) & self.words[at] != 0 {
                return true;
            }
        }
        false
    }
}
