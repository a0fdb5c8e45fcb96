//! A sweep over the cells of a sheet, work by work.
//!
//! A cell without circles takes one work, since its inputs come before it. The cells of a component with a circle are circular
//! once their height is N, the number of cells of the sheet. A work makes a cell one higher at least than each cell that it
//! refers to. So on a closed way, where each cell refers to the one before, each work makes a height that is one more, whatever
//! the heights of the other cells: after N works at most a cell is circular. Then one work makes each other cell circular, and a
//! last one finds that nothing changes: N + 2k works in all, where there are k cells. A component that refers to a circular cell
//! begins with the cells that do, and takes 2k.

ghost use Rattle.std.specs.Prelude.{◌≡◌, ◌<◌, ◌≤◌, ◌+◌, ◌-◌, ◌*◌, IfSome, OnSome};

use crate::course::Course;
use crate::position::Position;

// How many works there may be for each cell beside those that go round closed ways.
const WORKS: usize = 20;

/// What a work on a cell has found.
#[derive(Clone, Copy, Debug, PartialEq, Eq)]
pub enum Outcome {
    /// The cell was not marked.
    Clean,
    /// Somebody else holds it.
    Held,
    /// Its entry was right.
    Unchanged,
    /// It has another entry, or is marked again.
    Changed,
}

/// A sweep over the cells of a sheet: says which cell is the next to be worked on, and hears what each work has found. It goes
/// over each cell once, inputs first; in a component with a circle it goes round a closed way until a cell is circular, and
/// then over all cells, until a pass changes none. It is a guess, and ends after a number of works that is known.
#[derive(Drop)]
pub struct Sweep<'a> {
    course: &'a Course,
    cells: usize,
    // How many works there may be more.
    works: usize,
    position: Position,
}

impl<'a> Sweep<'a> {
    /// Over as many cells in the order of the course, round from this place of it, until it has changed what it can.
    pub fn new(course: &'a Course, cells: usize, from: usize) -> Sweep<'a>
        ensures cells { result.cells ≡ cells }
        ensures bounded { result.works ≤ cells * (cells + WORKS) }
    {
        Sweep {
            course,
            cells,
            works: cells.saturating_mul(cells.saturating_add(WORKS)),
            position: Position::new(course, cells, from),
        }
    }

    /// The same, which ends after four works a cell.
    pub fn short(course: &'a Course, cells: usize, from: usize) -> Sweep<'a>
        ensures cells { result.cells ≡ cells }
        ensures bounded { result.works ≤ cells * 4 }
    {
        Sweep {
            works: cells.saturating_mul(4),
            ..Sweep::new(course, cells, from)
        }
    }

    /// The next cell, unless the sweep is at its end.
    pub fn cell(&self) -> Option<usize>
        ensures below { IfSome result (λ cell. cell < self.now.cells) }
        ensures bounded { OnSome result (0 < self.now.works) }
    {
        if self.works == 0 {
            return None;
        }
        match self.position.cell(self.course, self.cells) {
            Some(cell) if cell < self.cells => Some(cell),
            _ => None,
        }
    }

    /// Takes what a work on the next cell has found.
    pub fn note(&mut self, outcome: Outcome)
        ensures bounded { self.new.works ≤ self.old.works - 1 }
        ensures cells { self.new.cells ≡ self.old.cells }
    {
        self.works = self.works.saturating_sub(1);
        self.position.note(self.course, self.cells, outcome);
    }
}
