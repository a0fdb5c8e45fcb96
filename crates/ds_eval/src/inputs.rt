//! Cells with what they show.

ghost use Rattle.std.specs.Prelude.{◌≡◌, ◌≢◌, ◌↔◌, ℕ, ◌+◌, ◌<◌, ◌≤◌, [], ◌∷◌, ◌++◌, length, false, IsTrue, IfOk, IfSome, IsNone};
ghost use Rattle.ds_formula.specs.Limits.{COLUMNS_MOST};
ghost use Rattle.ds_formula.specs.Refs.{IsBefore};
ghost use Rattle.ds_eval.specs.Inputs.{entry_in, entry_at, with_entry, cell_in, IsAscending, IsBehind};
ghost use Rattle.ds_eval.specs.Rows.{right_of};

use crate::value::Value;
use ds_formula::cells::Cell;
use std::alloc::{AllocError, Global};
use std::marker::Model;

/// What a cell shows: its value, and how far references lead from it.
#[derive(Clone, Copy, Debug, PartialEq, Eq)]
pub struct Entry {
    /// The value.
    pub value: Value,
    /// The length of the longest walk along references that begins at the cell, at most the number of cells.
    pub height: usize,
}

/// A cell that a content refers to, with its entry.
#[derive(Clone, Copy, Debug, PartialEq, Eq)]
pub struct Input {
    /// The cell.
    pub cell: Cell,
    /// What the cell shows.
    pub entry: Entry,
}

/// The entries of some cells. In a table of all cells of a sheet a cell is found at its own place, else by halving.
/// Clauses see the inputs, which ascend row by row from the left, and how many there is room for.
#[derive(Debug, Drop)]
pub struct Inputs {
    items: Vec<Input>,
    // how many columns a table of all cells has, 0 for any other inputs: it says where a cell is looked for first
    columns: usize,
}

impl Model for Inputs {
    ghost use Rattle.std.specs.Prelude.{vec_capacity};
    ghost use Rattle.ds_eval.specs.Inputs.{PlainInputs, IsAscending};

    ghost Value = { PlainInputs };

    ghost view = { λ a. record { items = a.items.items; room = vec_capacity a.items } };

    ghost invariant = { λ a. IsAscending a.items.items };
}

impl Inputs {
    /// No inputs, with room for that number. It fails only where that memory is refused.
    pub fn with_capacity(alloc: Global, count: usize) -> Result<Inputs, AllocError>
        ensures items { IfOk result (λ inputs. inputs.items ≡ []) }
        ensures room { IfOk result (λ inputs. count ≤ inputs.room) }
    {
        Inputs::by_columns(alloc, count, 0)
    }

    /// No inputs, with room for that number. They are found faster where they become all cells of a sheet of n columns.
    pub fn by_columns(alloc: Global, count: usize, columns: usize) -> Result<Inputs, AllocError>
        ensures items { IfOk result (λ inputs. inputs.items ≡ []) }
        ensures room { IfOk result (λ inputs. count ≤ inputs.room) }
    {
        Ok(Inputs {
            items: Vec::with_capacity(alloc, count)?,
            columns,
        })
    }

    /// One more input, whose cell stands after all that are there. It takes no memory.
    pub fn push(&mut self, input: Input)
        requires room { length self.old.items < self.old.room }
        requires behind { IsBehind self.old.items input.cell }
        ensures items { self.new.items ≡ self.old.items ++ input ∷ [] }
        ensures room { self.old.room ≤ self.new.room }
    {
        let _ = self.items.push(input);
    }

    /// How many inputs there is room for.
    pub fn room(&self) -> usize
        ensures { result ≡ self.now.room }
    {
        self.items.capacity()
    }

    /// They become none. The room stays.
    pub fn clear(&mut self)
        ensures items { self.new.items ≡ [] }
        ensures room { self.new.room ≡ self.old.room }
    {
        self.items.clear();
    }

    /// Equal inputs, in memory of their own. It fails only where that is refused.
    pub fn copy(&self, alloc: Global) -> Result<Inputs, AllocError>
        ensures { IfOk result (λ inputs. inputs.items ≡ self.now.items) }
    {
        Ok(Inputs {
            items: Vec::from_slice(alloc, &self.items)?,
            columns: self.columns,
        })
    }

    /// Equal inputs, in memory of their own, with room for at least as many. It fails only where that is refused.
    pub fn copy_with_room(&self, alloc: Global) -> Result<Inputs, AllocError>
        ensures items { IfOk result (λ inputs. inputs.items ≡ self.now.items) }
        ensures room { IfOk result (λ inputs. self.now.room ≤ inputs.room) }
    {
        let mut items = Vec::with_capacity(alloc, self.items.capacity())?;
        items.extend_from_slice(&self.items)?;
        Ok(Inputs {
            items,
            columns: self.columns,
        })
    }

    /// How many inputs there are.
    pub fn len(&self) -> usize
        ensures { result ≡ length self.now.items }
    {
        self.items.len()
    }

    /// Whether there are none.
    pub fn is_empty(&self) -> bool
        ensures { IsTrue result ↔ (self.now.items ≡ []) }
    {
        self.items.is_empty()
    }

    /// The inputs in their order.
    pub fn as_slice(&self) -> &[Input]
        ensures { result.now ≡ self.now.items }
    {
        &self.items
    }

    /// Puts another entry in the place of that of the input with this number. Whether it differs.
    pub fn set(&mut self, place: usize, entry: Entry) -> bool
        requires { place < length self.old.items }
        ensures after { self.new ≡ record self.old { items = with_entry self.old.items place entry } }
        ensures unchanged { result ≡ false → entry_at self.old.items place ≡ entry }
    {
        let input = &mut self.items[place];
        let changed = input.entry != entry;
        input.entry = entry;
        changed
    }

    /// The entry of a cell: a blank of height 0 where it is none of the inputs.
    pub fn entry(&self, cell: Cell) -> Entry
        ensures { result ≡ entry_in self.now.items cell }
    {
        match find_near(&self.items, self.guess(cell), cell) {
            Some(place) => self.items[place].entry,
            None => Entry {
                value: Value::Blank,
                height: 0,
            },
        }
    }

    // The entry of the input that lies n after the one with this number.
    pub(crate) fn at(&self, place: usize, k: usize) -> Entry
        requires { place + k < length self.now.items }
        ensures { result ≡ entry_in self.now.items (cell_in self.now.items (place + k)) }
    {
        self.items[place + k].entry
    }

    // The number that the cell has in a table of all cells.
    fn guess(&self, cell: Cell) -> usize {
        cell.row
            .saturating_mul(self.columns)
            .saturating_add(cell.column)
    }

    // Where the rows of a range are likely to begin: the place of the first one, and how far apart they are.
    pub(crate) fn rows_of(&self, first: Cell, width: usize) -> (usize, usize) {
        if self.columns > 0 {
            (self.guess(first), self.columns)
        } else {
            (count_before(&self.items, first), width)
        }
    }

    // From which place on the inputs are this cell and those to its right, as many as the width says. This place is
    // tried first; `None` where one of the cells is missing.
    pub(crate) fn row_at(&self, first: Cell, width: usize, near: usize) -> Option<usize>
        requires { first.column + width ≤ COLUMNS_MOST }
        ensures within { IfSome result (λ place. place + width ≤ length self.now.items) }
        ensures cells { IfSome result (λ place. (k : ℕ) → k < width → cell_in self.now.items (place + k) ≡ right_of first k) }
    {
        let place = find_near(&self.items, near, first)?;
        if width == 0 || width > self.items.len() - place {
            return None;
        }
        let last = Cell {
            column: first.column + (width - 1),
            row: first.row,
        };
        if self.items[place + (width - 1)].cell == last {
            Some(place)
        } else {
            None
        }
    }
}

// Where the cell is among ascending inputs: this place is tried first.
fn find_near(inputs: &[Input], guess: usize, cell: Cell) -> Option<usize>
    requires { IsAscending inputs.now }
    ensures some { IfSome result (λ place. (place < length inputs.now) × (cell_in inputs.now place ≡ cell)) }
    ensures none { IsNone result → (k : ℕ) → k < length inputs.now → cell_in inputs.now k ≢ cell }
{
    if guess < inputs.len() && inputs[guess].cell == cell {
        Some(guess)
    } else {
        find(inputs, cell)
    }
}

// Where the cell is among ascending inputs.
fn find(inputs: &[Input], cell: Cell) -> Option<usize>
    requires { IsAscending inputs.now }
    ensures some { IfSome result (λ place. (place < length inputs.now) × (cell_in inputs.now place ≡ cell)) }
    ensures none { IsNone result → (k : ℕ) → k < length inputs.now → cell_in inputs.now k ≢ cell }
{
    let place = count_before(inputs, cell);
    if place < inputs.len() && inputs[place].cell == cell {
        Some(place)
    } else {
        None
    }
}

// How many of the ascending inputs stand before the cell.
fn count_before(inputs: &[Input], cell: Cell) -> usize
    requires { IsAscending inputs.now }
    ensures at_most { result ≤ length inputs.now }
    ensures before { (k : ℕ) → k < result → IsBefore (cell_in inputs.now k) cell }
    ensures not_before { (k : ℕ) → result ≤ k → k < length inputs.now → ¬ IsBefore (cell_in inputs.now k) cell }
{
    let mut low = 0;
    let mut high = inputs.len();
    while low < high {
        let middle = low + (high - low) / 2;
        if inputs[middle].cell.is_before(cell) {
            low = middle + 1;
        } else {
            high = middle;
        }
    }
    low
}
