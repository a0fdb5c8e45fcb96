//! A walk along the references of cells, depth first. What it finds is a guess, which the order checks.

use crate::order::References;
use std::alloc::{AllocError, Global};

// A cell on the way from where the walk has begun, and the first of its words that may have an input not visited.
#[derive(Clone, Copy)]
struct Station {
    cell: usize,
    at: usize,
}

// What a turn of a walk has done.
#[derive(Clone, Copy)]
pub(crate) enum Step {
    // It has gone to a cell that was not visited.
    Enters(usize),
    // It has gone back from a cell whose inputs are all visited.
    Leaves(usize),
    // Nothing: it is back where it began.
    Ends,
}

// Where a walk over as many cells is: the cells that it has visited, a bit each, and the way to where it is.
#[derive(Drop)]
pub(crate) struct Walk {
    cells: usize,
    visited: Vec<u64>,
    way: Vec<Station>,
}

// The first input from this word on that is not visited, with its word.
fn input_of<R: References>(
    references: &R,
    visited: &[u64],
    from: Station,
) -> Option<(usize, usize)> {
    for at in from.at..visited.len() {
        let open = references.word(from.cell, at) & !visited[at];
        if open != 0 {
            let bit = open.trailing_zeros() as usize;
            return Some((at.wrapping_mul(64).wrapping_add(bit), at));
        }
    }
    None
}

impl Walk {
    pub(crate) fn new(alloc: Global, cells: usize) -> Result<Walk, AllocError> {
        let words = cells.div_ceil(64);
        let mut visited = Vec::with_capacity(alloc, words)?;
        visited.resize(words, 0)?;
        Ok(Walk {
            cells,
            visited,
            way: Vec::with_capacity(alloc, cells)?,
        })
    }

    // Whether the cell is one that is not visited.
    fn is_open(&self, cell: usize) -> bool {
        match self.visited.get(cell / 64) {
            Some(word) => cell < self.cells && word >> (cell % 64) & 1 == 0,
            None => false,
        }
    }

    // Goes to a cell, unless it is visited.
    pub(crate) fn visit(&mut self, cell: usize) -> Step {
        if !self.is_open(cell) {
            return Step::Ends;
        }
        if let Some(word) = self.visited.get_mut(cell / 64) {
            *word |= 1 << (cell % 64);
        }
        let _has_room = self.way.push(Station { cell, at: 0 });
        Step::Enters(cell)
    }

    // Goes on from where it is: to an input that is not visited, or back where there is none.
    pub(crate) fn turn<R: References>(&mut self, references: &R) -> Step {
        let Some(from) = self.way.pop() else {
            return Step::Ends;
        };
        match input_of(references, self.visited.as_slice(), from) {
            Some((input, at)) => {
                let _has_room = self.way.push(Station { at, ..from });
                self.visit(input)
            }
            None => Step::Leaves(from.cell),
        }
    }

    // How long the way is to where it is.
    pub(crate) fn length(&self) -> usize {
        self.way.len()
    }

    // The cell at this place of the way.
    pub(crate) fn station(&self, place: usize) -> Option<usize> {
        match self.way.get(place) {
            Some(station) => Some(station.cell),
            None => None,
        }
    }
}
