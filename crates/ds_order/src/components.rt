//! The components of a sheet: of two cells of one, each refers to the other, over others or itself. Tarjan's search, whose
//! result is a guess.

use crate::bits::Bits;
use crate::order::References;
use crate::walk::{Step, Walk};
use std::alloc::{AllocError, Global};

// The cells of the components, one component after the other, each after those that it refers to; and where each ends.
#[derive(Drop)]
pub(crate) struct Components {
    pub(crate) cells: Vec<usize>,
    pub(crate) ends: Vec<usize>,
}

// Where a search is: the cells that it has visited and that are of no component yet, in the order of visits, and of each cell the
// number of its visit, or of an earlier one of the same component; how many visits there were; and the cell with which it goes
// on where the walk is at its end.
#[derive(Drop)]
struct Search {
    walk: Walk,
    open: Bits,
    stack: Vec<usize>,
    numbers: Vec<usize>,
    visits: usize,
    next: usize,
    found: Components,
}

// The least number of the cells of this word.
fn least_of(numbers: &[usize], word: u64, at: usize) -> usize {
    let mut least = usize::MAX;
    let mut rest = word;
    for _ in 0..word.count_ones() {
        let cell = at
            .wrapping_mul(64)
            .wrapping_add(rest.trailing_zeros() as usize);
        if let Some(number) = numbers.get(cell) {
            least = least.min(*number);
        }
        rest &= rest.wrapping_sub(1);
    }
    least
}

impl Search {
    fn new(alloc: Global, cells: usize) -> Result<Search, AllocError> {
        let mut numbers = Vec::with_capacity(alloc, cells)?;
        numbers.resize(cells, 0)?;
        Ok(Search {
            walk: Walk::new(alloc, cells)?,
            open: Bits::new(alloc, cells)?,
            stack: Vec::with_capacity(alloc, cells)?,
            numbers,
            visits: 0,
            next: 0,
            found: Components {
                cells: Vec::with_capacity(alloc, cells)?,
                ends: Vec::with_capacity(alloc, cells)?,
            },
        })
    }

    fn enter(&mut self, cell: usize) {
        self.open.add(cell);
        let _has_room = self.stack.push(cell);
        if let Some(number) = self.numbers.get_mut(cell) {
            *number = self.visits;
        }
        self.visits = self.visits.saturating_add(1);
    }

    // The least number of the inputs of a cell that are of no component yet.
    fn least_input<R: References>(&self, references: &R, cell: usize) -> usize {
        let mut least = usize::MAX;
        for at in 0..self.open.len() {
            let inputs = references.word(cell, at) & self.open.word(at);
            least = least.min(least_of(self.numbers.as_slice(), inputs, at));
        }
        least
    }

    // The cells that were visited since this one was are a component.
    fn close(&mut self, cell: usize) {
        for _ in 0..self.stack.len() {
            let Some(last) = self.stack.pop() else {
                break;
            };
            self.open.remove(last);
            let _has_room = self.found.cells.push(last);
            if last == cell {
                break;
            }
        }
        let end = self.found.cells.len();
        let _has_room = self.found.ends.push(end);
    }

    fn leave<R: References>(&mut self, references: &R, cell: usize) {
        let least = self.least_input(references, cell);
        match self.numbers.get_mut(cell) {
            Some(number) if least < *number => *number = least,
            _ => self.close(cell),
        }
    }

    // One turn.
    fn turn<R: References>(&mut self, references: &R) {
        let mut step = self.walk.turn(references);
        if let Step::Ends = step {
            let next = self.next;
            step = self.walk.visit(next);
            self.next = next.saturating_add(1);
        }
        match step {
            Step::Enters(cell) => self.enter(cell),
            Step::Leaves(cell) => self.leave(references, cell),
            Step::Ends => {}
        }
    }
}

// The components of as many cells, inputs first.
pub(crate) fn find_components<R: References>(
    alloc: Global,
    references: &R,
    cells: usize,
) -> Result<Components, AllocError> {
    let mut search = Search::new(alloc, cells)?;
    for _ in 0..cells.saturating_mul(3) {
        search.turn(references);
    }
    Ok(search.found)
}
