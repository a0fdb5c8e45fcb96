//! In which order a sweep goes over a component with a circle.

use crate::bits::Bits;
use crate::dependents::Dependents;
use crate::order::References;
use crate::plan::Kind;
use crate::walk::{Step, Walk};
use std::alloc::{AllocError, Global};

// An order of cells, one component after the other; the closed ways in it so far; the cells so far that are in a circle or
// refer to one, over others or not; the references inside of components; and the walk along dependents, with the cells of the
// last component that it has left, and the length of its closed way, 0 before one is found.
#[derive(Drop)]
pub(crate) struct Tours {
    pub(crate) order: Vec<usize>,
    pub(crate) next: Vec<Option<usize>>,
    circular: Bits,
    dependents: Dependents,
    walk: Walk,
    left: Vec<usize>,
    length: usize,
}

// Whether a cell refers to itself.
fn is_own_input<R: References>(references: &R, cell: usize) -> bool {
    references.word(cell, cell / 64) >> (cell % 64) & 1 == 1
}

impl Tours {
    // Over this order.
    pub(crate) fn new(alloc: Global, order: Vec<usize>) -> Result<Tours, AllocError> {
        let cells = order.len();
        let mut next = Vec::with_capacity(alloc, cells)?;
        next.resize(cells, None)?;
        Ok(Tours {
            order,
            next,
            circular: Bits::new(alloc, cells)?,
            dependents: Dependents::new(alloc),
            walk: Walk::new(alloc, cells)?,
            left: Vec::with_capacity(alloc, cells)?,
            length: 0,
        })
    }

    // The cell at this place of the order.
    fn cell(&self, place: usize) -> usize {
        match self.order.get(place) {
            Some(cell) => *cell,
            None => place,
        }
    }

    // The cells between these places are in a circle, or refer to one.
    fn add_circular(&mut self, first: usize, end: usize) {
        for place in first..end {
            let cell = self.cell(place);
            self.circular.add(cell);
        }
    }

    // The cells between these places.
    fn members(&self, alloc: Global, first: usize, end: usize) -> Result<Bits, AllocError> {
        let mut members = Bits::new(alloc, self.order.len())?;
        for place in first..end {
            members.add(self.cell(place));
        }
        Ok(members)
    }

    // Notes the references between the cells between these places.
    fn note<R: References>(
        &mut self,
        alloc: Global,
        references: &R,
        first: usize,
        end: usize,
    ) -> Result<(), AllocError> {
        let members = self.members(alloc, first, end)?;
        let cells = self.order.len();
        self.dependents.make_room(alloc, cells)?;
        for place in first..end {
            let cell = self.cell(place);
            self.dependents.note(references, cell, &members);
        }
        Ok(())
    }
}

impl Tours {
    // The way of the walk is closed: its first cell refers to its last one.
    fn close_way(&mut self) {
        self.length = self.walk.length();
        for place in 0..self.length {
            let after = match self.walk.station(place.wrapping_add(1)) {
                Some(after) => Some(after),
                None => self.walk.station(0),
            };
            if let Some(cell) = self.walk.station(place) {
                if let Some(next) = self.next.get_mut(cell) {
                    *next = after;
                }
            }
        }
    }

    // Walks along dependents from this cell, over those of its component that are not visited. Whether the first closed way
    // through it is wanted.
    fn go(&mut self, root: usize, wants_way: bool) {
        let mut step = self.walk.visit(root);
        for _ in 0..self.order.len().saturating_mul(2) {
            match step {
                Step::Enters(cell) => {
                    if wants_way && self.length == 0 && self.dependents.refers(root, cell) {
                        self.close_way();
                    }
                }
                Step::Leaves(cell) => {
                    let _has_room = self.left.push(cell);
                }
                Step::Ends => break,
            }
            step = self.walk.turn(&self.dependents);
        }
    }

    // Walks from each of these cells that refers to a circle of an earlier component.
    fn spread<R: References>(&mut self, references: &R, first: usize, end: usize) {
        for place in first..end {
            let cell = self.cell(place);
            if self.circular.is_read(references, cell) {
                self.go(cell, false);
            }
        }
    }

    // Puts what the walk has left into these places, the last one first: each after one that it refers to.
    fn arrange(&mut self, first: usize, end: usize) -> Kind {
        if self.left.len() != end.wrapping_sub(first) {
            return Kind::Line;
        }
        for place in first..end {
            if let (Some(cell), Some(left)) = (self.order.get_mut(place), self.left.pop()) {
                *cell = left;
            }
        }
        match self.length {
            0 => Kind::Spread,
            length => Kind::Circle {
                start: self.cell(first),
                length,
            },
        }
    }

    // Arranges the component between these places. How a sweep goes over it.
    pub(crate) fn tour<R: References>(
        &mut self,
        alloc: Global,
        references: &R,
        first: usize,
        end: usize,
    ) -> Result<Kind, AllocError> {
        let root = self.cell(end.wrapping_sub(1));
        if end.wrapping_sub(first) <= 1 && !is_own_input(references, root) {
            if self.circular.is_read(references, root) {
                self.circular.add(root);
            }
            return Ok(Kind::Line);
        }
        self.note(alloc, references, first, end)?;
        self.left.clear();
        self.length = 0;
        self.spread(references, first, end);
        if self.left.is_empty() {
            self.go(root, true);
        }
        self.add_circular(first, end);
        Ok(self.arrange(first, end))
    }
}
