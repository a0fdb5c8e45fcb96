//! The references inside of components, the other way round.

use crate::bits::Bits;
use crate::order::References;
use std::alloc::{AllocError, Global};

// Which cells of its component refer to a cell, a bit each.
#[derive(Drop)]
pub(crate) struct Dependents {
    // How many words a cell has.
    width: usize,
    words: Vec<u64>,
}

impl Dependents {
    // Of a sheet of no cells.
    pub(crate) fn new(alloc: Global) -> Dependents {
        Dependents {
            width: 0,
            words: Vec::new(alloc),
        }
    }

    // Of a sheet of as many cells, where it was one of none.
    pub(crate) fn make_room(&mut self, alloc: Global, cells: usize) -> Result<(), AllocError> {
        if !self.words.is_empty() {
            return Ok(());
        }
        self.width = cells.div_ceil(64);
        let count = self.width.wrapping_mul(cells);
        let mut words = Vec::with_capacity(alloc, count)?;
        words.resize(count, 0)?;
        self.words = words;
        Ok(())
    }

    // Where the word of a cell for the 64 cells from `64 * at` on stands.
    fn place(&self, cell: usize, at: usize) -> usize {
        cell.wrapping_mul(self.width).wrapping_add(at)
    }

    // A cell refers to these inputs, of the 64 cells from `64 * at` on.
    fn note_word(&mut self, cell: usize, inputs: u64, at: usize) {
        let mut rest = inputs;
        for _ in 0..inputs.count_ones() {
            let input = at
                .wrapping_mul(64)
                .wrapping_add(rest.trailing_zeros() as usize);
            let place = self.place(input, cell / 64);
            if let Some(word) = self.words.get_mut(place) {
                *word |= 1 << (cell % 64);
            }
            rest &= rest.wrapping_sub(1);
        }
    }

    // Notes the inputs of a cell that are among these.
    pub(crate) fn note<R: References>(&mut self, references: &R, cell: usize, among: &Bits) {
        for at in 0..self.width {
            let inputs = references.word(cell, at) & among.word(at);
            if inputs != 0 {
                self.note_word(cell, inputs, at);
            }
        }
    }

    // Whether a cell refers to another of its component.
    pub(crate) fn refers(&self, cell: usize, input: usize) -> bool {
        self.word(input, cell / 64) >> (cell % 64) & 1 == 1
    }
}

impl References for Dependents {
    fn word(&self, cell: usize, at: usize) -> u64 {
        match self.words.get(self.place(cell, at)) {
            Some(word) => *word,
            None => 0,
        }
    }
}
