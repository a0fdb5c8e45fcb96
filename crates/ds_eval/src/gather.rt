//! Many cells at once: the tally of their values, and how far references lead from what refers to them.

ghost use Rattle.std.specs.Prelude.{◌≡◌, ℕ, ◌+◌, ◌*◌, ◌<◌, ◌≤◌, ◌^◌, suc, min, max, List, [], ◌∷◌, ◌++◌, length, map, IfSome, IfOk, IfErr, Some, None};
ghost use Rattle.ds_formula.specs.Cells.{count_of};
ghost use Rattle.ds_formula.specs.Limits.{COLUMNS_MOST, ROWS_MOST};
ghost use Rattle.ds_eval.specs.declared.value.Value as values;
ghost use Rattle.ds_eval.specs.Evaluation as spec;
ghost use Rattle.ds_eval.specs.Inputs.{values_in, heights_in, entry_in, cell_in};
ghost use Rattle.ds_eval.specs.Local.{above};
ghost use Rattle.ds_eval.specs.Rows.{right_of, row_from, seen_in};
ghost use Rattle.ds_eval.specs.Numbers.{first_error};
ghost use Rattle.ds_eval.specs.Tally.{AreCounted, IsTally};

use crate::inputs::{Entry, Inputs};
use crate::tally::{Fold, Tally, Totals, Wants};
use crate::value::Value;
use ds_formula::cells::{Cell, Rect, Shape};

/// How many columns of the sheet the range has.
pub fn width(shape: Shape, area: Rect) -> usize
    ensures value { result ≡ spec.width shape area }
    ensures within { 0 < result → area.first.column + result ≤ COLUMNS_MOST }
{
    (area.last.column.min(shape.columns - 1) + 1).saturating_sub(area.first.column)
}

/// How many rows of the sheet the range has.
pub fn height(shape: Shape, area: Rect) -> usize
    ensures value { result ≡ spec.height shape area }
    ensures within { 0 < result → area.first.row + result ≤ ROWS_MOST }
{
    (area.last.row.min(shape.rows - 1) + 1).saturating_sub(area.first.row)
}

/// What is known of some cells that an expression refers to.
#[derive(Clone, Copy, Debug)]
pub struct Gathered {
    /// The tally of their values.
    pub tally: Tally,
    /// One more than their greatest height, at most the number of cells of the sheet; 0 without cells.
    pub height: usize,
}

impl Gathered {
    /// What is known of no cells.
    pub fn new() -> Gathered
        ensures tally { (wants : Wants) → IsTally wants [] result.tally }
        ensures count { result.tally.totals.count ≡ 0 }
        ensures height { result.height ≡ 0 }
    {
        Gathered {
            tally: Tally::new(),
            height: 0,
        }
    }

    /// What is gathered with one more value, at a height one more than its cell's.
    pub fn with(self, wants: Wants, value: Value, height: usize) -> Gathered
        requires { self.tally.totals.count < 2 ^ 32 }
        ensures tally { (vs : List values.Value) → IsTally wants vs self.tally → IsTally wants (vs ++ value ∷ []) result.tally }
        ensures count { result.tally.totals.count ≤ self.tally.totals.count + 1 }
        ensures height { result.height ≡ max self.height height }
    {
        Gathered {
            tally: self.tally.with(wants, value),
            height: self.height.max(height),
        }
    }
}

/// One more than a cell's height, at most the number of cells.
pub fn raised(height: usize, most: usize) -> usize
    ensures { result ≡ min most (suc height) }
{
    if height < most { height + 1 } else { most }
}

// The entry of the cell n columns to the right of the first one, which has this place where the whole row is
// there.
fn entry_right_of(inputs: &Inputs, place: Option<usize>, first: Cell, k: usize) -> Entry
    requires column { first.column + k < COLUMNS_MOST }
    requires within { IfSome place (λ p. p + k < length inputs.now.items) }
    requires cell { IfSome place (λ p. cell_in inputs.now.items (p + k) ≡ right_of first k) }
    ensures { result ≡ entry_in inputs.now.items (right_of first k) }
{
    match place {
        Some(place) => inputs.at(place, k),
        None => inputs.entry(Cell {
            column: first.column + k,
            row: first.row,
        }),
    }
}

// The greater of a height and one more than the greatest height in a row of n columns.
fn height_with_row(
    inputs: &Inputs,
    most: usize,
    place: Option<usize>,
    first: Cell,
    columns: usize,
    height: usize,
) -> usize
    requires columns { first.column + columns ≤ COLUMNS_MOST }
    requires within { IfSome place (λ p. p + columns ≤ length inputs.now.items) }
    requires cells { IfSome place (λ p. (k : ℕ) → k < columns → cell_in inputs.now.items (p + k) ≡ right_of first k) }
    ensures { result ≡ max height (min most (above (map (heights_in inputs.now.items) (row_from first columns)))) }
{
    if columns == 0 {
        return height;
    }
    let mut greatest: usize = 0;
    for k in 0..columns {
        greatest = greatest.max(entry_right_of(inputs, place, first, k).height);
    }
    height.max(raised(greatest, most))
}

// The totals with the values of a row of n columns, or the first error there that is heeded. A loop of its own is
// faster than one with the heights.
#[inline(always)]
fn totals_with_row(
    inputs: &Inputs,
    fold: Fold,
    place: Option<usize>,
    first: Cell,
    columns: usize,
    totals: Totals,
) -> Result<Totals, Value>
    requires columns { first.column + columns ≤ COLUMNS_MOST }
    requires within { IfSome place (λ p. p + columns ≤ length inputs.now.items) }
    requires cells { IfSome place (λ p. (k : ℕ) → k < columns → cell_in inputs.now.items (p + k) ≡ right_of first k) }
    requires count { totals.count < 2 ^ 31 }
    ensures counted { IfOk result (λ r. (vs : List values.Value) → AreCounted fold.wants vs totals → AreCounted fold.wants (vs ++ map (seen_in fold.errors inputs.now.items) (row_from first columns)) r) }
    ensures error { IfErr result (λ e. (vs : List values.Value) → first_error vs ≡ None → first_error (vs ++ map (seen_in fold.errors inputs.now.items) (row_from first columns)) ≡ Some e) }
    ensures count { IfOk result (λ r. r.count ≤ totals.count + columns) }
{
    let mut sum = totals;
    for k in 0..columns {
        let value = entry_right_of(inputs, place, first, k).value;
        match value {
            Value::Number(number) => sum = sum.with(fold.wants, number),
            Value::Blank => {}
            Value::DivZero | Value::Num | Value::Circular => {
                if fold.errors.heeds(value) {
                    return Err(value);
                }
            }
        }
    }
    Ok(sum)
}

// The row's values, in a loop that knows what is wanted and that the whole row is there, where it is.
#[inline(always)]
fn wanted_with_row(
    inputs: &Inputs,
    fold: Fold,
    place: Option<usize>,
    first: Cell,
    columns: usize,
    totals: Totals,
) -> Result<Totals, Value>
    requires columns { first.column + columns ≤ COLUMNS_MOST }
    requires within { IfSome place (λ p. p + columns ≤ length inputs.now.items) }
    requires cells { IfSome place (λ p. (k : ℕ) → k < columns → cell_in inputs.now.items (p + k) ≡ right_of first k) }
    requires count { totals.count < 2 ^ 31 }
    ensures counted { IfOk result (λ r. (vs : List values.Value) → AreCounted fold.wants vs totals → AreCounted fold.wants (vs ++ map (seen_in fold.errors inputs.now.items) (row_from first columns)) r) }
    ensures error { IfErr result (λ e. (vs : List values.Value) → first_error vs ≡ None → first_error (vs ++ map (seen_in fold.errors inputs.now.items) (row_from first columns)) ≡ Some e) }
    ensures count { IfOk result (λ r. r.count ≤ totals.count + columns) }
{
    let Some(start) = place else {
        return totals_with_row(inputs, fold, None, first, columns, totals);
    };
    let place = Some(start);
    let errors = fold.errors;
    match fold.wants {
        Wants::Count => {
            let fold = Fold {
                errors,
                wants: Wants::Count,
            };
            totals_with_row(inputs, fold, place, first, columns, totals)
        }
        Wants::Sum => {
            let fold = Fold {
                errors,
                wants: Wants::Sum,
            };
            totals_with_row(inputs, fold, place, first, columns, totals)
        }
        Wants::Least => {
            let fold = Fold {
                errors,
                wants: Wants::Least,
            };
            totals_with_row(inputs, fold, place, first, columns, totals)
        }
        Wants::Greatest => {
            let fold = Fold {
                errors,
                wants: Wants::Greatest,
            };
            totals_with_row(inputs, fold, place, first, columns, totals)
        }
        Wants::Zeros => {
            let fold = Fold {
                errors,
                wants: Wants::Zeros,
            };
            totals_with_row(inputs, fold, place, first, columns, totals)
        }
    }
}

// The tally with the values of a row of n columns.
fn tally_with_row(
    inputs: &Inputs,
    fold: Fold,
    place: Option<usize>,
    first: Cell,
    columns: usize,
    tally: Tally,
) -> Tally
    requires columns { first.column + columns ≤ COLUMNS_MOST }
    requires within { IfSome place (λ p. p + columns ≤ length inputs.now.items) }
    requires cells { IfSome place (λ p. (k : ℕ) → k < columns → cell_in inputs.now.items (p + k) ≡ right_of first k) }
    requires count { tally.totals.count < 2 ^ 31 }
    ensures tally { (vs : List values.Value) → IsTally fold.wants vs tally → IsTally fold.wants (vs ++ map (seen_in fold.errors inputs.now.items) (row_from first columns)) result }
    ensures count { result.totals.count ≤ tally.totals.count + columns }
{
    if tally.error.is_some() {
        return tally;
    }
    match wanted_with_row(inputs, fold, place, first, columns, tally.totals) {
        Ok(totals) => Tally {
            totals,
            error: None,
        },
        Err(error) => Tally {
            totals: tally.totals,
            error: Some(error),
        },
    }
}

// What is gathered with the cells of a row of n columns, which is looked for at this place first.
fn with_row(
    inputs: &Inputs,
    fold: Fold,
    most: usize,
    first: Cell,
    columns: usize,
    near: usize,
    gathered: Gathered,
) -> Gathered
    requires within { first.column + columns ≤ COLUMNS_MOST }
    requires count { gathered.tally.totals.count < 2 ^ 31 }
    ensures tally { (vs : List values.Value) → IsTally fold.wants vs gathered.tally → IsTally fold.wants (vs ++ map (seen_in fold.errors inputs.now.items) (row_from first columns)) result.tally }
    ensures count { result.tally.totals.count ≤ gathered.tally.totals.count + columns }
    ensures height { result.height ≡ max gathered.height (min most (above (map (heights_in inputs.now.items) (row_from first columns)))) }
{
    let place = inputs.row_at(first, columns, near);
    Gathered {
        tally: tally_with_row(inputs, fold, place, first, columns, gathered.tally),
        height: height_with_row(inputs, most, place, first, columns, gathered.height),
    }
}

/// What is gathered with the cells of a range. Values are read up to the height at which references lead round.
pub fn with_range(
    shape: Shape,
    inputs: &Inputs,
    fold: Fold,
    area: Rect,
    gathered: Gathered,
) -> Gathered
    requires count { gathered.tally.totals.count < 2 ^ 30 }
    requires height { gathered.height ≤ count_of shape }
    ensures tally { result.height < count_of shape → (vs : List values.Value) → IsTally fold.wants vs gathered.tally → IsTally fold.wants (vs ++ map (seen_in fold.errors inputs.now.items) (spec.cells_of shape area)) result.tally }
    ensures count { result.tally.totals.count ≤ gathered.tally.totals.count + 2048 }
    ensures height { result.height ≡ max gathered.height (min (count_of shape) (above (map (heights_in inputs.now.items) (spec.cells_of shape area)))) }
{
    let columns = width(shape, area);
    let rows = height(shape, area);
    let most = shape.count();
    if columns == 0 {
        return gathered;
    }
    let (mut near, apart) = inputs.rows_of(area.first, columns);
    let mut sum = gathered;
    for row in 0..rows {
        if sum.height < most {
            let first = Cell {
                column: area.first.column,
                row: area.first.row + row,
            };
            sum = with_row(inputs, fold, most, first, columns, near, sum);
            near = near.saturating_add(apart);
        }
    }
    sum
}
