//! Shapes, cells and ranges of a sheet.

ghost use Rattle.std.specs.Prelude.{◌≡◌, ◌<◌, ◌≤◌, ◌↔◌, IsTrue, IsSome, IfSome};
ghost use Rattle.ds_formula.specs.Limits.{CELLS_MOST};
ghost use Rattle.ds_formula.specs.Shapes.{MayHave};

/// How many columns a sheet may have: A to Z.
pub const COLUMN_LIMIT: usize = 26;

/// How many rows a sheet may have.
pub const ROW_LIMIT: usize = 64;

/// How many cells a sheet may have.
pub const CELL_LIMIT: usize = 1024;

/// How many columns and rows a sheet has: columns from 1 to 26 (A to Z), rows from 1 to 64, and at most 1,024 cells.
#[derive(Clone, Copy, Debug, PartialEq, Eq)]
pub struct Shape {
    /// How many columns, from 1 to 26.
    pub columns: usize,
    /// How many rows, from 1 to 64.
    pub rows: usize,
    ghost within: { MayHave columns rows },
}

/// A cell of a sheet, by its column and its row, each from 0: `A1` is column 0 of row 0.
#[derive(Clone, Copy, Debug, PartialEq, Eq)]
pub struct Cell {
    /// The column, from 0: `A` is 0.
    pub column: usize,
    /// The row, from 0: the row that is written `1` is 0.
    pub row: usize,
}

/// The cells between two corners, both included: the upper left one first.
#[derive(Clone, Copy, Debug, PartialEq, Eq)]
pub struct Rect {
    /// The upper left corner.
    pub first: Cell,
    /// The lower right corner.
    pub last: Cell,
}

impl Cell {
    ghost use Rattle.ds_formula.specs.Refs.{IsBefore};

    /// Whether it comes before another one in reading order: row by row from the left.
    #[inline(always)]
    pub fn is_before(self, other: Cell) -> bool
        ensures { IsTrue result ↔ IsBefore self other }
    {
        self.row < other.row || self.row == other.row && self.column < other.column
    }
}

impl Shape {
    ghost use Rattle.ds_formula.specs.Cells.{IsInside, index_of, cell_at, count_of};

    /// A shape within the limits; `None` for any other one.
    pub fn new(columns: usize, rows: usize) -> Option<Shape>
        ensures within { IsSome result ↔ MayHave columns rows }
        ensures value { IfSome result (λ s. (s.columns ≡ columns) × (s.rows ≡ rows)) }
    {
        if (1..=COLUMN_LIMIT).contains(&columns)
            && (1..=ROW_LIMIT).contains(&rows)
            && columns * rows <= CELL_LIMIT
        {
            Some(Shape { columns, rows })
        } else {
            None
        }
    }

    /// How many cells the sheet has, from 1 to 1,024.
    #[inline(always)]
    pub fn count(&self) -> usize
        ensures value { result ≡ count_of self.now }
        ensures at_least_one { 1 ≤ result }
        ensures at_most { result ≤ CELLS_MOST }
    {
        self.columns * self.rows
    }

    /// Whether the cell is one of the sheet.
    pub fn contains(&self, cell: Cell) -> bool
        ensures { IsTrue result ↔ IsInside self.now cell }
    {
        cell.column < self.columns && cell.row < self.rows
    }

    /// The number of a cell of the sheet: row by row from the left, from 0.
    pub fn index(&self, cell: Cell) -> usize
        requires { IsInside self.now cell }
        ensures value { result ≡ index_of self.now cell }
        ensures below { result < count_of self.now }
    {
        cell.row * self.columns + cell.column
    }

    /// The cell with this number.
    pub fn cell(&self, index: usize) -> Cell
        requires { index < count_of self.now }
        ensures value { result ≡ cell_at self.now index }
        ensures inside { IsInside self.now result }
        ensures back { index_of self.now result ≡ index }
    {
        Cell {
            column: index % self.columns,
            row: index / self.columns,
        }
    }
}
