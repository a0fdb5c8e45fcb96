// Which cells of a sheet are in a circle, by the closure of its references.

use ds_order::known::KnownReferences;
use ds_order::order::References;
use std::alloc::{AllocError, Global};

#[derive(Drop)]
pub struct Found {
    cells: usize,
    width: usize,
    reached: Vec<u64>,
}

impl Found {
    // Of a sheet whose references are known.
    pub fn new(alloc: Global, known: &KnownReferences) -> Result<Found, AllocError> {
        let cells = known.shape().count();
        let width = cells.div_ceil(64);
        let mut reached = Vec::new(alloc);
        for place in 0..cells.wrapping_mul(width) {
            reached.push(known.word(place / width.max(1), place % width.max(1)))?;
        }
        let mut found = Found {
            cells,
            width,
            reached,
        };
        for over in 0..cells {
            found.reach_over(over);
        }
        Ok(found)
    }

    fn word(&self, cell: usize, at: usize) -> u64 {
        let place = cell.wrapping_mul(self.width).wrapping_add(at);
        self.reached.get(place).copied().unwrap_or(0)
    }

    // Whether references lead from one cell to the other.
    fn reaches(&self, cell: usize, other: usize) -> bool {
        self.word(cell, other / 64) >> (other % 64) & 1 == 1
    }

    // Each cell from which references lead to this one reaches what this one reaches.
    fn reach_over(&mut self, over: usize) {
        for cell in 0..self.cells {
            if self.reaches(cell, over) {
                self.add(cell, over);
            }
        }
    }

    fn add(&mut self, cell: usize, over: usize) {
        for at in 0..self.width {
            let more = self.word(over, at);
            let place = cell.wrapping_mul(self.width).wrapping_add(at);
            if let Some(word) = self.reached.get_mut(place) {
                *word |= more;
            }
        }
    }

    // Whether the cell is in a circle, no cell of which has a smaller number, and which reads no other circle.
    fn is_first(&self, cell: usize) -> bool {
        self.reaches(cell, cell)
            && (0..self.cells).all(|other| {
                !self.reaches(cell, other)
                    || !self.reaches(other, other)
                    || (other >= cell && self.reaches(other, cell))
            })
    }

    // How many works a sweep may do: one for each cell, two for each in a circle, and as many as there are cells for each
    // component with a circle that reads no other circle.
    pub fn most(&self) -> usize {
        let mut most = self.cells;
        for cell in 0..self.cells {
            if self.reaches(cell, cell) {
                most = most.wrapping_add(1);
            }
            if self.is_first(cell) {
                most = most.wrapping_add(self.cells);
            }
        }
        most
    }
}
