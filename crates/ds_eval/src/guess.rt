//! A first table, guessed by a visit of each cell after the cells that are written in it.
//!
//! Nothing is said of its entries, and nobody needs to trust the order: rounds of evaluation confirm them.

ghost use Rattle.std.specs.Prelude.{◌≡◌, ◌<◌, IfOk, IfSome};
ghost use Rattle.ds_formula.specs.Cells.{count_of};
ghost use Rattle.ds_eval.specs.Rounds.{IsTable};

use crate::gather::{height, width};
use crate::inputs::{Entry, Input, Inputs};
use crate::local::local;
use crate::sheet::Sheet;
use crate::value::Value;
use ds_formula::cells::{Cell, ROW_LIMIT, Rect, Shape};
use ds_formula::content::{Content, Tree};
use std::alloc::{AllocError, Global};

// Which cells of a sheet were opened: a bit for each column, row by row.
#[derive(Drop)]
struct Opened {
    shape: Shape,
    rows: [u32; ROW_LIMIT],
}

impl Opened {
    fn new(shape: Shape) -> Opened
        ensures { result.shape ≡ shape }
    {
        Opened {
            shape,
            rows: [0; ROW_LIMIT],
        }
    }

    // Whether the cell with this number was not opened.
    fn is_unopened(&self, place: usize) -> bool
        requires { place < count_of self.now.shape }
    {
        let cell = self.shape.cell(place);
        self.rows[cell.row] & (1 << cell.column) == 0
    }

    // Opens the cell with this number.
    fn open(&mut self, place: usize)
        requires { place < count_of self.old.shape }
        ensures { self.new.shape ≡ self.old.shape }
    {
        let cell = self.shape.cell(place);
        self.rows[cell.row] |= 1 << cell.column;
    }

    // The number of the first cell of the range that was not opened.
    fn unopened(&self, area: Rect) -> Option<usize>
        ensures { IfSome result (λ place. place < count_of self.now.shape) }
    {
        let columns = width(self.shape, area);
        let rows = height(self.shape, area);
        if columns == 0 {
            return None;
        }
        let wanted = ((1u32 << columns) - 1) << area.first.column;
        for row in 0..rows {
            let row = area.first.row + row;
            let column = (wanted & !self.rows[row]).trailing_zeros() as usize;
            let cell = Cell { column, row };
            if self.shape.contains(cell) {
                return Some(self.shape.index(cell));
            }
        }
        None
    }

    // The number of the first cell written in the formula that was not opened.
    fn unopened_in(&self, tree: &Tree) -> Option<usize>
        ensures { IfSome result (λ place. place < count_of self.now.shape) }
    {
        match tree {
            Tree::Number(_) => None,
            Tree::Reference(cell) => self.unopened(Rect {
                first: *cell,
                last: *cell,
            }),
            Tree::Range(area) => self.unopened(*area),
            Tree::Prefix(_, operand) => self.unopened_in(operand),
            Tree::Binary(_, left, right) => match self.unopened_in(left) {
                Some(place) => Some(place),
                None => self.unopened_in(right),
            },
            Tree::Call(_, arguments) => {
                for argument in arguments {
                    if let Some(place) = self.unopened_in(argument) {
                        return Some(place);
                    }
                }
                None
            }
        }
    }

    // The number of the first cell written in the content that was not opened.
    fn next(&self, content: &Content) -> Option<usize>
        ensures { IfSome result (λ place. place < count_of self.now.shape) }
    {
        match content {
            Content::Blank | Content::Number(_) => None,
            Content::Formula(tree) => self.unopened_in(tree),
        }
    }
}

// A blank entry for each cell of the sheet.
fn blank_table(alloc: Global, shape: Shape) -> Result<Inputs, AllocError>
    ensures { IfOk result (λ t. IsTable shape t.items) }
{
    let count = shape.count();
    let mut table = Inputs::by_columns(alloc, count, shape.columns)?;
    for k in 0..count {
        let cell = shape.cell(k);
        table.push(Input {
            cell,
            entry: Entry {
                value: Value::Blank,
                height: 0,
            },
        });
    }
    Ok(table)
}

// Puts an entry into the table.
#[tactic(auto, using(crate::proofs::Rounds::table_with))]
fn put(shape: Shape, table: &mut Inputs, place: usize, entry: Entry)
    requires table { IsTable shape table.old.items }
    requires place { place < count_of shape }
    ensures { IsTable shape table.new.items }
{
    table.set(place, entry);
}

// Opens a cell. As long as it is open it counts as circular: what refers to it then is one that it leads to.
fn open_cell(table: &mut Inputs, opened: &mut Opened, place: usize)
    requires table { IsTable opened.old.shape table.old.items }
    requires place { place < count_of opened.old.shape }
    ensures table { IsTable opened.new.shape table.new.items }
    ensures shape { opened.new.shape ≡ opened.old.shape }
{
    opened.open(place);
    let shape = opened.shape;
    let entry = Entry {
        value: Value::Circular,
        height: shape.count(),
    };
    put(shape, table, place, entry);
}

// Goes on with an open cell: to the first cell written in it that was not opened, or else back with its entry.
fn go_on(
    sheet: &Sheet,
    table: &mut Inputs,
    opened: &mut Opened,
    stack: &mut Vec<usize>,
    place: usize,
) -> Result<(), AllocError>
    requires shape { opened.old.shape ≡ sheet.now.shape }
    requires table { IsTable sheet.now.shape table.old.items }
    requires place { place < count_of sheet.now.shape }
    ensures shape { opened.new.shape ≡ sheet.now.shape }
    ensures table { IsTable sheet.now.shape table.new.items }
{
    match opened.next(&sheet.contents[place]) {
        Some(next) => {
            stack.push(place)?;
            stack.push(next)?;
            open_cell(table, opened, next);
        }
        None => {
            let entry = local(&sheet.contents[place], sheet.shape, table);
            put(sheet.shape, table, place, entry);
        }
    }
    Ok(())
}

// Visits the open cells on the stack, and all that can be reached from them. A cell is opened once and left once.
fn visit(
    sheet: &Sheet,
    table: &mut Inputs,
    opened: &mut Opened,
    stack: &mut Vec<usize>,
) -> Result<(), AllocError>
    requires shape { opened.old.shape ≡ sheet.now.shape }
    requires table { IsTable sheet.now.shape table.old.items }
    ensures shape { opened.new.shape ≡ sheet.now.shape }
    ensures table { IsTable sheet.now.shape table.new.items }
{
    for _ in 0..2 * sheet.shape.count() {
        match stack.pop() {
            Some(place) if place < sheet.shape.count() => {
                go_on(sheet, table, opened, stack, place)?;
            }
            _ => return Ok(()),
        }
    }
    Ok(())
}

/// An entry for each cell, each evaluated after the cells written in it, or circular where references lead back to it.
/// It fails only where an allocation is refused.
pub fn guessed(alloc: Global, sheet: &Sheet) -> Result<Inputs, AllocError>
    ensures { IfOk result (λ t. IsTable sheet.now.shape t.items) }
{
    let mut table = blank_table(alloc, sheet.shape)?;
    let mut opened = Opened::new(sheet.shape);
    let mut stack = Vec::new(alloc);
    for place in 0..sheet.shape.count() {
        if opened.is_unopened(place) {
            open_cell(&mut table, &mut opened, place);
            stack.push(place)?;
            visit(sheet, &mut table, &mut opened, &mut stack)?;
        }
    }
    Ok(table)
}
