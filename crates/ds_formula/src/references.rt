//! The cells written in a content.

ghost use Rattle.std.specs.Prelude.{◌≡◌, ◌+◌, ◌*◌, ◌<◌, ◌↔◌, IfOk, OnOk, IsTrue};
ghost use Rattle.std.specs.List.{AllPairs, Contains};
ghost use Rattle.ds_formula.specs.Limits.{COLUMNS_MOST, ROWS_MOST};
ghost use Rattle.ds_formula.specs.Plain.{At, Computed, formula, plain};
ghost use Rattle.ds_formula.specs.Refs.{AreRefs, IsBefore, IsListed};
ghost use Rattle.ds_formula.specs.Marks.{cell_by, is_within, marked_below, AreRowsOf, Marks, MarksArea, MarksRows};

use crate::cells::{COLUMN_LIMIT, Cell, ROW_LIMIT, Rect};
use crate::content::{Content, Tree};
use std::alloc::{AllocError, Global};

// How many cells the widest columns and the most rows have: each has a mark, row by row from the left.
const PLACES: usize = COLUMN_LIMIT * ROW_LIMIT;

// Whether the cell comes after all of these, which ascend.
#[inline(always)]
fn is_behind(cell: Cell, cells: &[Cell]) -> bool
    requires { AllPairs IsBefore cells.now }
    ensures { IsTrue result ↔ ((c : Cell) → Contains cells.now c → IsBefore c cell) }
{
    match cells {
        [] => true,
        [.., last] => last.is_before(cell),
    }
}

// Adds a cell that some sheet has where it comes after the cells. Where this says false, nothing is known of them.
#[inline(always)]
fn add_behind(cell: Cell, cells: &mut Vec<Cell>) -> Result<bool, AllocError>
    requires { AllPairs IsBefore cells.old.items }
    ensures { IfOk result (λ added. IsTrue added → IsListed (At cell) cells.old.items cells.new.items) }
{
    if cell.column >= COLUMN_LIMIT || cell.row >= ROW_LIMIT || !is_behind(cell, cells.as_slice()) {
        return Ok(false);
    }
    cells.push(cell)?;
    Ok(true)
}

#[inline(always)]
fn cell_by(place: usize) -> Cell
    ensures { result ≡ cell_by place }
{
    Cell {
        column: place % COLUMN_LIMIT,
        row: place / COLUMN_LIMIT,
    }
}

#[inline(always)]
fn is_within(area: Rect, cell: Cell) -> bool
    ensures { result ≡ is_within area cell }
{
    area.first.column <= cell.column
        && cell.column <= area.last.column
        && area.first.row <= cell.row
        && cell.row <= area.last.row
}

// Marks the cells of the range, and only looks from its first cell to its last one.
#[inline(always)]
fn mark_area(area: Rect, marks: &mut [bool; PLACES])
    ensures { MarksArea area marks.old marks.new }
{
    let from = area.first.row.min(ROW_LIMIT) * COLUMN_LIMIT + area.first.column.min(COLUMN_LIMIT);
    let to = area.last.row.min(ROW_LIMIT - 1) * COLUMN_LIMIT
        + area.last.column.min(COLUMN_LIMIT - 1)
        + 1;
    for place in from..to {
        if is_within(area, cell_by(place)) {
            marks[place] = true;
        }
    }
}

// The rows in which cells have a mark: these, from the first one up to the end.
#[derive(Clone, Copy, Debug)]
struct Rows {
    has_mark: [bool; ROW_LIMIT],
    first: usize,
    end: usize,
}

// Marks the rows of the range.
#[inline(always)]
fn mark_rows(area: Rect, has_mark: &mut [bool; ROW_LIMIT])
    ensures { MarksRows area has_mark.old has_mark.new }
{
    for row in area.first.row..area.last.row.min(ROW_LIMIT - 1) + 1 {
        has_mark[row] = true;
    }
}

// Marks the cells of the range, and its rows.
#[tactic(auto, using(crate::proofs::Marks::area_rows))]
#[inline(always)]
fn mark_range(area: Rect, marks: &mut [bool; PLACES], rows: &mut Rows)
    requires { AreRowsOf marks.old rows.old }
    ensures marks { MarksArea area marks.old marks.new }
    ensures rows { AreRowsOf marks.new rows.new }
{
    mark_area(area, marks);
    mark_rows(area, &mut rows.has_mark);
    rows.first = rows.first.min(area.first.row);
    rows.end = rows.end.max(area.last.row.min(ROW_LIMIT - 1) + 1);
}

impl Tree {
    // Appends the cells that are written in it to the others, where they are single cells that ascend and none
    // stands in a call. Where this says false, nothing is known of the cells: they are to be found by their marks.
    fn list(&self, cells: &mut Vec<Cell>) -> Result<bool, AllocError>
        requires { AllPairs IsBefore cells.old.items }
        ensures { IfOk result (λ listed. IsTrue listed → IsListed (formula self.now) cells.old.items cells.new.items) }
    {
        match self {
            Tree::Number(_) => Ok(true),
            Tree::Reference(cell) => add_behind(*cell, cells),
            Tree::Prefix(_, operand) => operand.list(cells),
            Tree::Binary(_, left, right) => {
                if left.list(cells)? {
                    right.list(cells)
                } else {
                    Ok(false)
                }
            }
            Tree::Range(_) | Tree::Call(_, _) => Ok(false),
        }
    }

    // Marks the cells that are written in it, and their rows.
    fn mark(&self, marks: &mut [bool; PLACES], rows: &mut Rows)
        requires { AreRowsOf marks.old rows.old }
        ensures marks { Marks (formula self.now) marks.old marks.new }
        ensures rows { AreRowsOf marks.new rows.new }
    {
        match self {
            Tree::Number(_) => {}
            Tree::Reference(cell) => mark_range(
                Rect {
                    first: *cell,
                    last: *cell,
                },
                marks,
                rows,
            ),
            Tree::Range(area) => mark_range(*area, marks, rows),
            Tree::Prefix(_, operand) => operand.mark(marks, rows),
            Tree::Binary(_, left, right) => {
                left.mark(marks, rows);
                right.mark(marks, rows);
            }
            Tree::Call(_, arguments) => {
                for argument in arguments {
                    argument.mark(marks, rows);
                }
            }
        }
    }
}

// Adds the cells of a row that have a mark.
#[inline(always)]
fn add_row(marks: &[bool; PLACES], row: usize, cells: &mut Vec<Cell>) -> Result<(), AllocError>
    requires row { row < ROWS_MOST }
    requires before { cells.old.items ≡ marked_below marks.now (COLUMNS_MOST * row) }
    ensures { OnOk result (cells.new.items ≡ marked_below marks.now (COLUMNS_MOST * row + COLUMNS_MOST)) }
{
    for place in COLUMN_LIMIT * row..COLUMN_LIMIT * row + COLUMN_LIMIT {
        if marks[place] {
            cells.push(cell_by(place))?;
        }
    }
    Ok(())
}

// The cells that have a mark. It looks only at these rows.
fn marked(alloc: Global, marks: &[bool; PLACES], rows: &Rows) -> Result<Vec<Cell>, AllocError>
    requires { AreRowsOf marks.now rows.now }
    ensures { IfOk result (λ v. v.items ≡ marked_below marks.now PLACES) }
{
    let mut cells = Vec::new(alloc);
    for row in rows.first..rows.end.min(ROW_LIMIT) {
        if rows.has_mark[row] {
            add_row(marks, row, &mut cells)?;
        }
    }
    Ok(cells)
}

// The cells written in the expression, by a mark for each.
fn marked_in(alloc: Global, tree: &Tree) -> Result<Vec<Cell>, AllocError>
    ensures { IfOk result (λ v. AreRefs (Computed (formula tree.now)) v.items) }
{
    let mut marks = [false; PLACES];
    let mut rows = Rows {
        has_mark: [false; ROW_LIMIT],
        first: ROW_LIMIT,
        end: 0,
    };
    tree.mark(&mut marks, &mut rows);
    marked(alloc, &marks, &rows)
}

// The cells written in the expression. Most expressions name a few single cells that ascend: these need no marks.
fn written_in(alloc: Global, tree: &Tree) -> Result<Vec<Cell>, AllocError>
    ensures { IfOk result (λ v. AreRefs (Computed (formula tree.now)) v.items) }
{
    let mut cells = Vec::new(alloc);
    if tree.list(&mut cells)? {
        return Ok(cells);
    }
    marked_in(alloc, tree)
}

impl Content {
    /// The cells written in it, in reading order, none twice: references, ranges spelled out, and those in an unchosen
    /// branch of `IF` too. Cells beyond column Z or row 64, which no sheet has, are left out. The only error is a
    /// failed allocation.
    pub fn refs(&self, alloc: Global) -> Result<Vec<Cell>, AllocError>
        ensures { IfOk result (λ v. AreRefs (plain self.now) v.items) }
    {
        match self {
            Content::Blank | Content::Number(_) => Ok(Vec::new(alloc)),
            Content::Formula(tree) => written_in(alloc, tree),
        }
    }
}
