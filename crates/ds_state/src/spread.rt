//! Telling the cells that refer to one.

ghost use Rattle.std.specs.Prelude.{◌≡◌, ◌-◌};
ghost use Rattle.ds_state.specs.Telling.{spread_access, told_from};

use ds_layout::bits;
use ds_layout::mark::DIRTY;
use ds_layout::place::Place;
use ds_words::access::Access;

/// Telling the cells that refer to one: first its index row is loaded part by part, then each cell
/// whose bit stands there is marked.
#[derive(Clone, Copy, Debug, PartialEq, Eq)]
pub enum Spread {
    /// Load a part of the row.
    LoadRow(usize),
    /// Mark a cell.
    OrTold(usize),
    /// Flush its mark.
    FlushTold(usize),
    /// Write that back.
    BackTold(usize),
}

impl Spread {
    /// The access of this stage, where the cells that refer to the one with this number are marked.
    #[inline(always)]
    pub fn access(self, cell: usize) -> Access<Place>
        ensures { result ≡ spread_access cell self }
    {
        match self {
            Spread::LoadRow(part) => Access::Load(Place::Index { row: cell, part }),
            Spread::OrTold(told) => Access::Or(Place::Mark(told), DIRTY),
            Spread::FlushTold(told) => Access::Flush(Place::Mark(told)),
            Spread::BackTold(_) => Access::Back,
        }
    }
}

/// The first cell from this one on, of n, whose bit stands in the row; None where none does.
#[inline(always)]
pub fn told_from(row: &[u64], cells: usize, from: usize) -> Option<usize>
    ensures { result ≡ told_from row.now (cells - from) from }
{
    bits::first_bit(row, from, cells)
}
