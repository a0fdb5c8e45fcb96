//! Orders of cells.

ghost use Rattle.std.specs.Prelude.{◌≡◌, ◌<◌, ℕ, IfOk, IsTrue, All, Contains, length};
ghost use Rattle.ds_order.specs.Orders.{IsOrder};

use crate::components::find_components;
use std::alloc::{AllocError, Global};

/// Which cells each cell refers to, as far as somebody knows. Cells have numbers, from 0.
pub trait References {
    /// The references of a cell to the 64 cells from `64 * at` on: bit `i` says whether it refers to cell `64 * at + i`.
    fn word(&self, cell: usize, at: usize) -> u64;
}

// Where each number stands in the list, if it does.
fn places(alloc: Global, list: &[usize]) -> Result<Vec<usize>, AllocError> {
    let mut places = Vec::with_capacity(alloc, list.len())?;
    places.resize(list.len(), 0)?;
    for place in 0..list.len() {
        if let Some(at) = places.get_mut(list[place]) {
            *at = place;
        }
    }
    Ok(places)
}

// Whether each number below the list's length stands where its place says.
fn are_there(list: &[usize], places: &[usize]) -> bool
    ensures { IsTrue result → ((c : ℕ) → c < length list.now → Contains list.now c) }
{
    for cell in 0..list.len() {
        match places.get(cell) {
            Some(place) if *place < list.len() && list[*place] == cell => {}
            _ => return false,
        }
    }
    true
}

// Whether each number of the list is below its length.
fn are_below(list: &[usize]) -> bool
    ensures { IsTrue result → All (λ c. c < length list.now) list.now }
{
    for place in 0..list.len() {
        if list[place] >= list.len() {
            return false;
        }
    }
    true
}

// Whether the list is an order of as many cells.
pub(crate) fn is_order(alloc: Global, list: &[usize], cells: usize) -> Result<bool, AllocError>
    ensures { IfOk result (λ is. IsTrue is → IsOrder cells list.now) }
{
    let places = places(alloc, list)?;
    Ok(list.len() == cells && are_below(list) && are_there(list, places.as_slice()))
}

// The cells by their numbers.
pub(crate) fn ascending(alloc: Global, cells: usize) -> Result<Vec<usize>, AllocError>
    ensures { IfOk result (λ order. IsOrder cells order.items) }
{
    let mut order = Vec::with_capacity(alloc, cells)?;
    for cell in 0..cells {
        order.push(cell)?;
    }
    Ok(order)
}

/// The order in which as many cells are recalculated: each after those that it refers to, where no references run in a
/// circle. What is known of the references may be wrong: each cell stands in the order once in any case.
///
/// An error is that an allocation failed.
pub fn order<R: References>(
    alloc: Global,
    references: &R,
    cells: usize,
) -> Result<Vec<usize>, AllocError>
    ensures { IfOk result (λ order. IsOrder cells order.items) }
{
    let found = find_components(alloc, references, cells)?.cells;
    if is_order(alloc, found.as_slice(), cells)? {
        Ok(found)
    } else {
        ascending(alloc, cells)
    }
}
