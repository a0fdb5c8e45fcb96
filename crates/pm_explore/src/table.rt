//! The positions that a search has come to.

ghost use Rattle.std.specs.Prelude.{◌≡◌, ◌<◌, IfSome, length};
ghost use Rattle.pm_explore.specs.Tables.{IsFound};

use crate::cells::Cells;
use crate::explored::Explored;
use crate::position::{Position, is_like};
use crate::setting::Move;
use std::alloc::{AllocError, Global};

/// From which position, by its number, and by what a search first came to a position.
#[derive(Clone, Copy, Debug, PartialEq, Eq)]
pub struct Way {
    /// The position before.
    pub from: usize,
    /// What happened there.
    pub by: Move,
}

/// The positions that a search has come to, in the order in which it came to them, and an index of them.
#[derive(Drop)]
pub struct Table<D, T> {
    /// The positions.
    pub positions: Vec<Position<D, T>>,
    /// How each but the first was come to.
    pub ways: Vec<Way>,
    // The hash of each position.
    hashes: Vec<u64>,
    // Numbers of positions by their hashes, one more than each, or 0.
    slots: Vec<usize>,
}

// Mixes a number into a hash.
fn mixed(hash: u64, number: u64) -> u64 {
    (hash ^ number)
        .wrapping_mul(0x9e37_79b9_7f4a_7c15)
        .rotate_left(29)
}

// A hash of words and buffers.
fn hash_cells(cells: &Cells) -> u64 {
    let mut hash = 0;
    for word in &cells.words {
        hash = mixed(mixed(hash, word.cached), word.persisted);
    }
    for buffer in &cells.buffers {
        hash = mixed(hash, 1);
        for entry in buffer.iter() {
            hash = mixed(mixed(hash, entry.place as u64), entry.value);
        }
    }
    hash
}

impl<D: Copy, T: Copy> Table<D, T> {
    /// A table of no position.
    pub fn new(alloc: Global) -> Table<D, T> {
        Table {
            positions: Vec::new(alloc),
            ways: Vec::new(alloc),
            hashes: Vec::new(alloc),
            slots: Vec::new(alloc),
        }
    }

    // A hash of a position. `codes` says what each process does.
    fn hash(position: &Position<D, T>, codes: &[u64]) -> u64 {
        let mut hash = hash_cells(&position.cells);
        for code in codes {
            hash = mixed(hash, *code);
        }
        for begun in &position.begun {
            hash = mixed(hash, *begun as u64);
        }
        mixed(hash, position.told.len() as u64)
    }

    // Notes a position's number in the index, where that has room.
    fn note(&mut self, number: usize, hash: u64) {
        let slots = self.slots.len();
        for probe in 0..slots {
            let at = (hash as usize).wrapping_add(probe) % slots;
            if self.slots[at] == 0 {
                self.slots[at] = number.saturating_add(1);
                return;
            }
        }
    }

    // Makes the index larger, where it is half full.
    fn grow(&mut self, alloc: Global) -> Result<(), AllocError> {
        if self.positions.len() < self.slots.len() / 2 {
            return Ok(());
        }
        let more = self.slots.len().saturating_mul(4).max(64);
        self.slots = vec![in alloc; 0usize; more]?;
        for number in 0..self.hashes.len() {
            if number < self.hashes.len() {
                let hash = self.hashes[number];
                self.note(number, hash);
            }
        }
        Ok(())
    }
}

// The number of a position with this hash, if it is there.
fn find_hashed<P: Explored>(
    table: &Table<P::Doing, P::Response>,
    position: &Position<P::Doing, P::Response>,
    hash: u64,
) -> Option<usize>
    ensures { IfSome result (λ i. IsFound table.now.positions.items position.now i) }
{
    let slots = table.slots.len();
    for probe in 0..slots {
        let at = (hash as usize).wrapping_add(probe) % slots;
        let number = table.slots[at];
        if number == 0 {
            return None;
        }
        if number - 1 < table.positions.len()
            && number - 1 < table.hashes.len()
            && table.hashes[number - 1] == hash
            && is_like::<P>(&table.positions[number - 1], position)
        {
            return Some(number - 1);
        }
    }
    None
}

/// The number of a position, if it is there. `codes` says what each process does.
pub fn find<P: Explored>(
    table: &Table<P::Doing, P::Response>,
    position: &Position<P::Doing, P::Response>,
    codes: &[u64],
) -> Option<usize>
    ensures { IfSome result (λ i. IsFound table.now.positions.items position.now i) }
{
    find_hashed::<P>(table, position, Table::hash(position, codes))
}

/// Adds a position, unless it is there: whether it was added. An error means that an allocation failed.
pub fn add<P: Explored>(
    alloc: Global,
    table: &mut Table<P::Doing, P::Response>,
    position: Position<P::Doing, P::Response>,
    codes: &[u64],
    way: Way,
) -> Result<bool, AllocError> {
    let hash = Table::hash(&position, codes);
    if find_hashed::<P>(table, &position, hash).is_some() {
        return Ok(false);
    }
    table.grow(alloc)?;
    let number = table.positions.len();
    table.note(number, hash);
    table.positions.push(position)?;
    table.ways.push(way)?;
    table.hashes.push(hash)?;
    Ok(true)
}
