// Orders of sheets whose references are known: what no clause of the order says.

use ds_formula::cells::{Cell, Shape};
use ds_order::course::Course;
use ds_order::known::KnownReferences;
use ds_order::order::{References, order};
use std::alloc::{AllocError, Global};
use std::test::Fail;

// How many cells a sheet has: as many as may be.
const CELLS: usize = 1024;

// Which cells a cell refers to.
#[derive(Clone, Copy)]
enum Kind {
    // The one after it.
    Next,
    // All after it.
    AllAfter,
    // Nine after it, at most 100 away, drawn from its number.
    NineAfter,
    // The one after it, and the last one the first one.
    Circle,
    // All.
    All,
}

#[derive(Drop)]
struct Drawn {
    kind: Kind,
}

// Whether the number is drawn: nine of a hundred.
fn is_drawn(cell: usize, other: usize) -> bool {
    let mixed = (cell as u64)
        .wrapping_mul(6364136223846793005)
        .wrapping_add((other as u64).wrapping_mul(1442695040888963407));
    (mixed >> 33) % 100 < 9
}

fn refers(kind: Kind, cell: usize, other: usize) -> bool {
    match kind {
        Kind::Next => other == cell.saturating_add(1),
        Kind::AllAfter => other > cell,
        Kind::NineAfter => other > cell
            && other <= cell.saturating_add(100)
            && is_drawn(cell, other),
        Kind::Circle => other == cell.saturating_add(1) % CELLS,
        Kind::All => true,
    }
}

impl References for Drawn {
    fn word(&self, cell: usize, at: usize) -> u64 {
        if cell >= CELLS || at >= CELLS / 64 {
            return 0;
        }
        let mut word = 0;
        for bit in 0..64 {
            if refers(self.kind, cell, 64 * at + bit) {
                word |= 1 << bit;
            }
        }
        word
    }
}

// How many cells stand before one that they refer to.
fn early(alloc: Global, kind: Kind) -> Result<usize, AllocError> {
    let order = order(alloc, &Drawn { kind }, CELLS)?;
    let mut early = 0usize;
    for place in 0..order.len() {
        let cell = order[place];
        if order[place..]
            .iter()
            .any(|input| *input != cell && refers(kind, cell, *input))
        {
            early = early.wrapping_add(1);
        }
    }
    Ok(early)
}

#[test]
fn inputs_first(rt: HostRuntime) -> Result<(), Fail> {
    assert_eq!(rt;
        early(rt.alloc(), Kind::Next)?,
        0,
        "a chain against the order of cells"
    );
    assert_eq!(rt;
        early(rt.alloc(), Kind::AllAfter)?,
        0,
        "sums of all that follow"
    );
    assert_eq!(rt;
        early(rt.alloc(), Kind::NineAfter)?,
        0,
        "nine of those that follow"
    );
    Ok(())
}

#[test]
fn circles(rt: HostRuntime) -> Result<(), Fail> {
    assert_eq!(rt; early(rt.alloc(), Kind::Circle)?, 1, "a circle of all");
    assert_eq!(rt;
        early(rt.alloc(), Kind::All)?,
        CELLS - 1,
        "each refers to all"
    );
    Ok(())
}

// The cells of a round over a sheet of one column and four rows.
fn round(course: &Course) -> [usize; 4] {
    [
        course.cell(0, 4),
        course.cell(1, 4),
        course.cell(2, 4),
        course.cell(3, 4),
    ]
}

// Notes the text of the cell of a row.
fn note(alloc: Global, known: &KnownReferences, row: usize, text: &str) {
    known.note(alloc, Cell { column: 0, row }, text.as_bytes());
}

#[test]
fn noted(rt: HostRuntime) -> Result<(), Fail> {
    let alloc = rt.alloc();
    let shape = Shape::new(1, 4).ok_or("no shape")?;
    let known = KnownReferences::new(alloc, shape)?;
    let mut course = Course::new(alloc);
    assert_eq!(rt; round(&course), [0, 1, 2, 3], "before any is known");
    note(alloc, &known, 0, "=[.A3]");
    note(alloc, &known, 2, "=SUM([.A4:.A4];[.A2])");
    assert_eq!(rt; round(&course), [0, 1, 2, 3], "before it is renewed");
    course.renew(alloc, &known);
    assert_eq!(rt; round(&course), [1, 3, 2, 0]);
    let version = known.version();
    note(alloc, &known, 0, "=1+[.A3]");
    note(alloc, &known, 2, "=[.A5]");
    note(alloc, &known, 2, "=)");
    assert_eq!(rt; known.version(), version, "no other references");
    note(alloc, &known, 2, "7");
    note(alloc, &known, 1, "=[.A4]");
    course.renew(alloc, &known);
    assert_eq!(rt; round(&course), [2, 0, 3, 1]);
    Ok(())
}
