// A sheet by a model: marks, entries with heights, and index rows that are exact. A work is what one worker does who is alone.

use ds_formula::cells::Shape;
use ds_order::course::Course;
use ds_order::known::KnownReferences;
use ds_order::order::References;
use ds_order::sweep::{Outcome, Sweep};
use std::alloc::{AllocError, Global};

// What a circular cell has as its value.
const CIRCULAR: u64 = u64::MAX;

// An entry: the value, and how far the cell is above the cells without references; as many as there are cells if circular.
#[derive(Clone, Copy, PartialEq, Eq)]
pub struct Entry {
    value: u64,
    height: usize,
}

#[derive(Drop)]
pub struct Model {
    pub known: KnownReferences,
    cells: usize,
    // Which cells refer to a cell, as many words a cell as hold a bit for each.
    rows: Vec<u64>,
    marked: Vec<bool>,
    // What a cell's own text adds to its value: how many edits there were before.
    own: Vec<u64>,
    edits: u64,
    entries: Vec<Entry>,
    pub works: usize,
    pub looks: usize,
}

// The cells of a word, in turn.
fn first_of(word: u64, at: usize) -> usize {
    at.wrapping_mul(64)
        .wrapping_add(word.trailing_zeros() as usize)
}

impl Model {
    // A sheet whose cells are blank and not marked.
    pub fn new(alloc: Global, shape: Shape) -> Result<Model, AllocError> {
        let cells = shape.count();
        let mut rows = Vec::new(alloc);
        rows.resize(cells.wrapping_mul(cells.div_ceil(64)), 0)?;
        let mut marked = Vec::new(alloc);
        marked.resize(cells, false)?;
        let mut own = Vec::new(alloc);
        own.resize(cells, 0)?;
        let mut entries = Vec::new(alloc);
        entries.resize(
            cells,
            Entry {
                value: 0,
                height: 0,
            },
        )?;
        Ok(Model {
            known: KnownReferences::new(alloc, shape)?,
            cells,
            rows,
            marked,
            own,
            edits: 0,
            entries,
            works: 0,
            looks: 0,
        })
    }

    fn row_place(&self, cell: usize, at: usize) -> usize {
        cell.wrapping_mul(self.cells.div_ceil(64)).wrapping_add(at)
    }

    fn mark(&mut self, cell: usize) {
        if let Some(marked) = self.marked.get_mut(cell) {
            *marked = true;
        }
    }

    // A cell refers to these inputs, of the 64 from `64 * at` on.
    fn add_to_rows(&mut self, cell: usize, inputs: u64, at: usize) {
        let mut rest = inputs;
        for _ in 0..inputs.count_ones() {
            let place = self.row_place(first_of(rest, at), cell / 64);
            if let Some(word) = self.rows.get_mut(place) {
                *word |= 1 << (cell % 64);
            }
            rest &= rest.wrapping_sub(1);
        }
    }

    // An edit of a cell: its row bits, its text, its mark.
    pub fn set(&mut self, alloc: Global, cell: usize, text: &str) {
        let shape = self.known.shape();
        if cell >= shape.count() {
            return;
        }
        self.known.note(alloc, shape.cell(cell), text.as_bytes());
        self.edits = self.edits.wrapping_add(1);
        if let Some(own) = self.own.get_mut(cell) {
            *own = self.edits;
        }
        for at in 0..self.cells.div_ceil(64) {
            let inputs = self.known.word(cell, at);
            self.add_to_rows(cell, inputs, at);
        }
        self.mark(cell);
    }
}

impl Model {
    // The value and the height, with the inputs of this word.
    fn with_word(&self, so_far: Entry, inputs: u64, at: usize) -> Entry {
        let mut entry = so_far;
        let mut rest = inputs;
        for _ in 0..inputs.count_ones() {
            if let Some(input) = self.entries.get(first_of(rest, at)) {
                entry.value = entry.value.wrapping_mul(31).wrapping_add(input.value);
                entry.height = entry.height.max(input.height.saturating_add(1));
            }
            rest &= rest.wrapping_sub(1);
        }
        entry
    }

    // What the entry of a cell is to be, by the entries of its inputs.
    fn local(&self, cell: usize) -> Entry {
        let mut entry = Entry {
            value: self.own.get(cell).copied().unwrap_or(0),
            height: 0,
        };
        for at in 0..self.cells.div_ceil(64) {
            entry = self.with_word(entry, self.known.word(cell, at), at);
        }
        if entry.height >= self.cells {
            Entry {
                value: CIRCULAR,
                height: self.cells,
            }
        } else {
            entry
        }
    }

    // Marks the cells of this word.
    fn mark_word(&mut self, dependents: u64, at: usize) {
        let mut rest = dependents;
        for _ in 0..dependents.count_ones() {
            self.mark(first_of(rest, at));
            rest &= rest.wrapping_sub(1);
        }
    }

    // Stores an entry, and marks the cells of the row.
    fn publish(&mut self, cell: usize, entry: Entry) {
        if let Some(stored) = self.entries.get_mut(cell) {
            *stored = entry;
        }
        for at in 0..self.cells.div_ceil(64) {
            let place = self.row_place(cell, at);
            let dependents = self.rows.get(place).copied().unwrap_or(0);
            self.mark_word(dependents, at);
        }
    }

    // A work on a cell.
    pub fn work(&mut self, cell: usize) -> Outcome {
        self.looks = self.looks.wrapping_add(1);
        match self.marked.get_mut(cell) {
            Some(marked) if *marked => *marked = false,
            _ => return Outcome::Clean,
        }
        self.works = self.works.wrapping_add(1);
        let entry = self.local(cell);
        if self.entries.get(cell).copied() == Some(entry) {
            return Outcome::Unchanged;
        }
        self.publish(cell, entry);
        Outcome::Changed
    }

    // A sweep, round from this place. Whether it has ended.
    pub fn sweep(&mut self, course: &Course, from: usize) -> bool {
        let mut sweep = Sweep::new(course, self.cells, from);
        for _ in 0..4_000_000 {
            let Some(cell) = sweep.cell() else {
                return true;
            };
            let outcome = self.work(cell);
            sweep.note(outcome);
        }
        false
    }

    // A round in the order of the course. Whether there was work.
    fn round(&mut self, course: &Course) -> bool {
        let (before, cells) = (self.works, self.cells);
        for place in 0..cells {
            self.work(course.cell(place, cells));
        }
        self.works != before
    }

    // A sweep, and then rounds until one has no work. Whether it has ended.
    pub fn settle(&mut self, course: &Course) -> bool {
        if !self.sweep(course, 0) {
            return false;
        }
        for _ in 0..self.cells {
            if !self.round(course) {
                return true;
            }
        }
        false
    }

    // How many references are known.
    pub fn references(&self) -> usize {
        let width = self.cells.div_ceil(64);
        let mut count = 0usize;
        for place in 0..self.cells.wrapping_mul(width) {
            let word = self.known.word(place / width.max(1), place % width.max(1));
            count = count.wrapping_add(word.count_ones() as usize);
        }
        count
    }

    // How many cells are marked, or have an entry that is not what it is to be.
    pub fn wrong(&self) -> usize {
        let mut wrong = 0usize;
        for cell in 0..self.cells {
            let is_clean = self.marked.get(cell).copied() == Some(false);
            if !is_clean || self.entries.get(cell).copied() != Some(self.local(cell)) {
                wrong = wrong.wrapping_add(1);
            }
        }
        wrong
    }
}
