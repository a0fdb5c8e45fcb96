//! The sheet: two columns and two rows, the texts that its cells are given, and the values that it can come to.

ghost use Rattle.std.specs.Prelude.{IfSome};
ghost use Rattle.ds_formula.specs.Cells.{IsInside};

use ds_eval::scratch::scratch;
use ds_eval::sheet::Sheet;
use ds_eval::value::Value;
use ds_formula::cells::{Cell, Shape};
use ds_formula::reading::read_content;
use std::alloc::{AllocError, Global};

/// How many cells it has.
pub const CELLS: usize = 4;

/// The values of all cells, row by row from the left.
pub type Values = [Value; CELLS];

/// The texts of A1.
const NUMBERS: [&str; 5] = ["1", "7", "-40", "=[.B2]", ""];

/// The texts of B1, which refer to A1.
const SUMS: [&str; 3] = ["=[.A1]+1", "=[.A1]*2+0+0+0+0+0+0+0+0+0+0+0+0", ""];

/// The texts of A2, which refer to the cells above.
const TOTALS: [&str; 3] = ["=[.B1]-3+0+0+0+0+0+0+0+0+0+0+0+0", "=SUM([.A1:.B1])", ""];

/// A text of 240 bytes, which are all that a cell's text may have.
const LONGEST: &str =
    "=SUM(1000000000;1000000;1000000;1000000;1000000;1000000;1000000;1000000;1000000;1000000;1000000;1000000;1000000;1000000;1000000;1000000;1000000;1000000;1000000;1000000;1000000;1000000;1000000;1000000;1000000;1000000;1000000;1000000;1000000)";

/// The texts of B2, which refer to the others, or to it; and the longest one.
const PRODUCTS: [&str; 5] = ["=[.A2]*[.B1]", "=[.B2]", "=[.A1]", LONGEST, ""];

/// A text with a fault, which no cell takes.
pub const FAULTY: &str = "=1.5";

/// The texts that the cell with this number is given. The last one is what it has at first.
pub fn texts(cell: usize) -> &'static [&'static str] {
    match cell {
        0 => &NUMBERS,
        1 => &SUMS,
        2 => &TOTALS,
        _ => &PRODUCTS,
    }
}

/// The cell with this number; `None` where a sheet of this shape has none.
pub fn cell_of(shape: Shape, number: usize) -> Option<Cell>
    ensures { IfSome result (λ cell. IsInside shape cell) }
{
    if number < shape.count() {
        Some(shape.cell(number))
    } else {
        None
    }
}

/// The values from scratch of four texts. `None` where one has a fault, or an allocation fails.
pub fn values_of(alloc: Global, texts: [&[u8]; CELLS]) -> Option<Values> {
    let shape = Shape::new(2, 2)?;
    let mut contents = Vec::new(alloc);
    for text in texts {
        contents.push(read_content(alloc, &shape, text).ok()?).ok()?;
    }
    if contents.len() != shape.count() {
        return None;
    }
    let values = scratch(alloc, &Sheet::new(shape, contents)).ok()?;
    four(&values)
}

/// The first four values.
pub fn four(values: &[Value]) -> Option<Values> {
    Some([
        *values.get(0)?,
        *values.get(1)?,
        *values.get(2)?,
        *values.get(3)?,
    ])
}

// Adds the values of all sheets with this text in A1 and this one in B1.
fn with_first_row(
    alloc: Global,
    all: &mut Vec<Values>,
    number: &'static str,
    sum: &'static str,
) -> Option<()> {
    for total in TOTALS {
        for product in PRODUCTS {
            let texts = [
                number.as_bytes(),
                sum.as_bytes(),
                total.as_bytes(),
                product.as_bytes(),
            ];
            all.push(values_of(alloc, texts)?).ok()?;
        }
    }
    Some(())
}

/// The values of every sheet that these texts make. `None` where an allocation fails.
pub fn all_values(alloc: Global) -> Option<Vec<Values>> {
    let mut all = Vec::new(alloc);
    for number in NUMBERS {
        for sum in SUMS {
            with_first_row(alloc, &mut all, number, sum)?;
        }
    }
    Some(all)
}
