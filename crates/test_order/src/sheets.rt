// Sheets of 16 columns by how their cells refer to one another.

use ds_formula::cells::Shape;
use std::alloc::{AllocError, Global};

#[derive(Clone, Copy, Debug, PartialEq, Eq)]
pub enum Sheet {
    // Each to the one before it.
    Chain,
    // Each to the one after it.
    ChainAgainst,
    // Each to the one before it in a shuffled order.
    ChainShuffled,
    // Each to all rows above.
    SumsAbove,
    // Each to all rows below.
    SumsBelow,
    // Each to all that follow.
    AllAfter,
    // Each to three of those that follow, drawn.
    Drawn,
    // Circles of as many cells as this, in a shuffled order.
    Circles(usize),
    // The same, each of which refers to the one before it.
    CirclesInARow(usize),
    // Each to one or two, drawn.
    DrawnWithCircles,
    // Each to all.
    All,
}

// The number of the cell at this place of a shuffled order.
pub fn shuffled(place: usize, cells: usize) -> usize {
    place.wrapping_mul(389).wrapping_add(7) % cells.max(1)
}

// A number below the limit.
pub fn drawn(cell: usize, draw: usize, limit: usize) -> usize {
    let mixed = (cell as u64)
        .wrapping_mul(6364136223846793005)
        .wrapping_add((draw as u64).wrapping_mul(1442695040888963407));
    (mixed >> 33) as usize % limit.max(1)
}

// A reference to a cell.
fn one(alloc: Global, cell: usize) -> Result<String, AllocError> {
    let column = char::from(b'A'.wrapping_add((cell % 16) as u8));
    format!(in alloc; "[.{}{}]", column, (cell / 16).wrapping_add(1))
}

// The text of the cell at a place of circles of this size: it refers to the one before it, round; the first cell of a circle in
// a row refers to the last one of the circle before it, too.
fn circle_text(
    alloc: Global,
    place: usize,
    size: usize,
    cells: usize,
    in_a_row: bool,
) -> Result<String, AllocError> {
    let size = size.max(1);
    let at = place % size;
    let before = match at {
        0 => place.wrapping_add(size.wrapping_sub(1)),
        _ => place.wrapping_sub(1),
    };
    let input = one(alloc, shuffled(before, cells))?;
    if in_a_row && at == 0 && place > 0 {
        let earlier = one(alloc, shuffled(place.wrapping_sub(1), cells))?;
        return format!(in alloc; "={}+{}", input.as_str(), earlier.as_str());
    }
    format!(in alloc; "={}", input.as_str())
}

// The greatest of those that follow, in its row and in the rows below.
fn after_text(alloc: Global, cell: usize, rows: usize) -> Result<String, AllocError> {
    let row = (cell / 16).wrapping_add(1);
    let next = char::from(b'B'.wrapping_add((cell % 16) as u8));
    let below = row.wrapping_add(1);
    match (cell % 16 < 15, row < rows) {
        (true, true) => {
            format!(in alloc;
                "=MAX([.{}{}:.P{}];[.A{}:.P{}])",
                next, row, row, below, rows
            )
        }
        (true, false) => format!(in alloc; "=MAX([.{}{}:.P{}])", next, row, row),
        (false, true) => format!(in alloc; "=MAX([.A{}:.P{}])", below, rows),
        (false, false) => format!(in alloc; "1"),
    }
}

// The sum of these, of which one is left out where it is the cell itself or one before it.
fn drawn_text(alloc: Global, cell: usize, cells: usize) -> Result<String, AllocError> {
    let rest = cells.saturating_sub(cell).saturating_sub(1);
    if rest == 0 {
        return format!(in alloc; "1");
    }
    let a = one(
        alloc,
        cell.wrapping_add(1).wrapping_add(drawn(cell, 1, rest)),
    )?;
    let b = one(
        alloc,
        cell.wrapping_add(1).wrapping_add(drawn(cell, 2, rest)),
    )?;
    let c = one(
        alloc,
        cell.wrapping_add(1).wrapping_add(drawn(cell, 3, rest)),
    )?;
    format!(in alloc; "={}+{}+{}", a.as_str(), b.as_str(), c.as_str())
}

fn drawn_with_circles_text(alloc: Global, cell: usize, cells: usize) -> Result<String, AllocError> {
    let a = one(alloc, drawn(cell, 4, cells))?;
    if drawn(cell, 5, 2) == 0 {
        return format!(in alloc; "={}", a.as_str());
    }
    let b = one(alloc, drawn(cell, 6, cells))?;
    format!(in alloc; "={}+{}", a.as_str(), b.as_str())
}

impl Sheet {
    // The cell at this place of the order in which the sheet is made.
    pub fn cell(self, place: usize, cells: usize) -> usize {
        match self {
            Sheet::ChainShuffled | Sheet::Circles(_) | Sheet::CirclesInARow(_) => shuffled(
                place, cells,
            ),
            Sheet::ChainAgainst => cells.wrapping_sub(1).wrapping_sub(place),
            _ => place,
        }
    }

    // The text of the cell at this place of that order.
    pub fn text(self, alloc: Global, place: usize, shape: Shape) -> Result<String, AllocError> {
        let cells = shape.count();
        let row = place / 16;
        match self {
            Sheet::Chain | Sheet::ChainAgainst | Sheet::ChainShuffled => {
                if place == 0 {
                    return format!(in alloc; "1");
                }
                let before = one(alloc, self.cell(place.wrapping_sub(1), cells))?;
                format!(in alloc; "={}+1", before.as_str())
            }
            Sheet::SumsAbove if row == 0 => format!(in alloc; "1"),
            Sheet::SumsAbove => format!(in alloc; "=SUM([.A1:.P{}])", row),
            Sheet::SumsBelow if row.wrapping_add(1) >= shape.rows => format!(in alloc; "1"),
            Sheet::SumsBelow => {
                format!(in alloc; "=SUM([.A{}:.P{}])", row.wrapping_add(2), shape.rows)
            }
            Sheet::AllAfter => after_text(alloc, place, shape.rows),
            Sheet::Drawn => drawn_text(alloc, place, cells),
            Sheet::Circles(size) => circle_text(alloc, place, size, cells, false),
            Sheet::CirclesInARow(size) => circle_text(alloc, place, size, cells, true),
            Sheet::DrawnWithCircles => drawn_with_circles_text(alloc, place, cells),
            Sheet::All => format!(in alloc; "=SUM([.A1:.P{}])", shape.rows),
        }
    }
}
