//! The value of a formula where the values of the cells are known, and how far references lead from it.
//!
//! Both are found in one pass. Where references lead round and round, at the height of all cells, no value is claimed.

ghost use Rattle.std.specs.Prelude.{◌≡◌, ◌<◌, ◌≤◌, true, false, List, length, map, min};
ghost use Rattle.ds_formula.specs.Cells.{count_of};
ghost use Rattle.ds_formula.specs.Plain.{formula, listed, Called};
ghost use Rattle.ds_eval.specs.Evaluation as spec;
ghost use Rattle.ds_eval.specs.Inputs.{values_in, heights_in};
ghost use Rattle.ds_eval.specs.Local as heights;
ghost use Rattle.ds_formula.specs.Functions.{takes_ranges};
ghost use Rattle.ds_eval.specs.Tally.{IsTally};
ghost use Rattle.ds_eval.specs.Operands.{errors_of, wants_of, operand_height, AreOperands};

use crate::arithmetic::{absolute, choice, joined, modulo, negated, never_blank, quotient, signed};
use crate::gather::{Gathered, raised, with_range};
use crate::inputs::{Entry, Inputs};
use crate::tally::{CellErrors, Fold, Tally, Wants};
use crate::value::Value;
use ds_formula::cells::{Cell, Shape};
use ds_formula::content::{Function, Tree};

// The value of a cell, and one more than its height, at most the number of cells: outside of the sheet all is blank,
// and no references lead there.
fn look(shape: Shape, inputs: &Inputs, cell: Cell) -> Entry
    ensures value { result.value ≡ spec.look shape (values_in inputs.now.items) cell }
    ensures height { result.height ≡ min (count_of shape) (heights.reference_height shape (heights_in inputs.now.items) cell) }
{
    if cell.column < shape.columns && cell.row < shape.rows {
        let entry = inputs.entry(cell);
        Entry {
            value: entry.value,
            height: raised(entry.height, shape.count()),
        }
    } else {
        Entry {
            value: Value::Blank,
            height: 0,
        }
    }
}

/// The value of a formula (OpenFormula 6, our profile), and one more than the greatest height of a cell written in it, at
/// most the number of cells. It recurses over the formula alone.
#[cycle(evaluation)]
pub fn evaluate(tree: &Tree, shape: Shape, inputs: &Inputs) -> Entry
    ensures value { result.height < count_of shape → result.value ≡ spec.formula_value shape (values_in inputs.now.items) (formula tree.now) }
    ensures height { result.height ≡ min (count_of shape) (heights.formula_height shape (heights_in inputs.now.items) (formula tree.now)) }
{
    match tree {
        Tree::Number(number) => Entry {
            value: Value::Number(*number),
            height: 0,
        },
        Tree::Reference(cell) => {
            let entry = look(shape, inputs, *cell);
            Entry {
                value: never_blank(entry.value),
                height: entry.height,
            }
        }
        Tree::Range(area) => Entry {
            value: Value::Num,
            height: with_range(shape, inputs, HEIGHTS, *area, Gathered::new()).height,
        },
        Tree::Prefix(sign, operand) => {
            let entry = evaluate(operand, shape, inputs);
            Entry {
                value: signed(*sign, entry.value),
                height: entry.height,
            }
        }
        Tree::Binary(operator, left, right) => {
            let left = evaluate(left, shape, inputs);
            let right = evaluate(right, shape, inputs);
            Entry {
                value: joined(*operator, left.value, right.value),
                height: left.height.max(right.height),
            }
        }
        Tree::Call(function, arguments) => call(*function, arguments, shape, inputs),
    }
}

// How a range is read whose values nobody wants.
const HEIGHTS: Fold = Fold {
    errors: CellErrors::Heeded,
    wants: Wants::Count,
};

// How many arguments are looked at. No reader gives as many: it bounds the sums.
const ARGUMENTS_MOST: usize = 255;

// The value of a function. What the reader of formulas never gives has some value all the same: a number of arguments that
// the function does not take is `#NUM!`.
#[cycle(evaluation)]
fn call(function: Function, arguments: &[Tree], shape: Shape, inputs: &Inputs) -> Entry
    ensures value { result.height < count_of shape → result.value ≡ spec.formula_value shape (values_in inputs.now.items) (Called function (listed (map formula arguments.now))) }
    ensures height { result.height ≡ min (count_of shape) (heights.formulas_height shape (heights_in inputs.now.items) (listed (map formula arguments.now))) }
{
    let count = arguments.len();
    if count > ARGUMENTS_MOST || !function.takes(count) {
        return unfit(arguments, shape, inputs);
    }
    if function.takes_ranges() {
        let gathered = gather(fold_of(function), arguments, shape, inputs);
        Entry {
            value: summary(function, gathered.tally),
            height: gathered.height,
        }
    } else {
        let operands = operands_of(arguments, shape, inputs);
        Entry {
            value: operation(function, operands),
            height: operands.height,
        }
    }
}

// What a function of many values makes of the errors of cells.
fn cell_errors(function: Function) -> CellErrors
    ensures { result ≡ errors_of function }
{
    match function {
        Function::Count => CellErrors::Skipped,
        Function::Sum
        | Function::Min
        | Function::Max
        | Function::Abs
        | Function::Mod
        | Function::Quotient
        | Function::If
        | Function::And
        | Function::Or
        | Function::Not => CellErrors::Heeded,
    }
}

// What a function of many values wants of their numbers.
fn wants(function: Function) -> Wants
    ensures { result ≡ wants_of function }
{
    match function {
        Function::Sum => Wants::Sum,
        Function::Min => Wants::Least,
        Function::Max => Wants::Greatest,
        Function::And | Function::Or => Wants::Zeros,
        Function::Count
        | Function::Abs
        | Function::Mod
        | Function::Quotient
        | Function::If
        | Function::Not => Wants::Count,
    }
}

// How a function of many values reads them.
fn fold_of(function: Function) -> Fold
    ensures errors { result.errors ≡ errors_of function }
    ensures wants { result.wants ≡ wants_of function }
{
    Fold {
        errors: cell_errors(function),
        wants: wants(function),
    }
}

// The value of a function of many values, by their tally.
fn summary(function: Function, tally: Tally) -> Value
    requires { takes_ranges function ≡ true }
    ensures { (all : List spec.Argument) → IsTally (wants_of function) (spec.all_values (errors_of function) all) tally → result ≡ spec.applied function all }
{
    match function {
        Function::Sum => tally.total(),
        Function::Min => tally.least(),
        Function::Max => tally.greatest(),
        Function::Count => tally.count(),
        Function::And => tally.all_true(),
        Function::Or => tally.some_true(),
        Function::Abs | Function::Mod | Function::Quotient | Function::If | Function::Not => {
            Value::Num
        }
    }
}

// The values of up to three arguments, 0 for one that is left out, and one more than the greatest height of a cell written
// in them.
#[derive(Clone, Copy, Debug)]
struct Operands {
    first: Value,
    second: Value,
    third: Value,
    height: usize,
}

// The value of a function of a few values.
fn operation(function: Function, operands: Operands) -> Value
    requires { takes_ranges function ≡ false }
    ensures { (all : List spec.Argument) → AreOperands all operands → result ≡ spec.applied function all }
{
    let Operands {
        first,
        second,
        third,
        ..
    } = operands;
    match function {
        Function::Abs => absolute(first),
        Function::Mod => modulo(first, second),
        Function::Quotient => quotient(first, second),
        Function::If => choice(first, second, third),
        Function::Not => negated(first),
        Function::Sum
        | Function::Min
        | Function::Max
        | Function::Count
        | Function::And
        | Function::Or => Value::Num,
    }
}

// A function with a number of arguments that it does not take: `#NUM!`, and how far references lead all the same.
#[cycle(evaluation)]
fn unfit(arguments: &[Tree], shape: Shape, inputs: &Inputs) -> Entry
    ensures value { result.value ≡ Value.Num }
    ensures height { result.height ≡ min (count_of shape) (heights.formulas_height shape (heights_in inputs.now.items) (listed (map formula arguments.now))) }
{
    let mut height = 0;
    for argument in arguments {
        let next = evaluate(argument, shape, inputs).height;
        height = height.max(next);
    }
    Entry {
        value: Value::Num,
        height,
    }
}

// The value of the argument with this number, 0 where it is left out, and one more than the greatest height of a cell
// written in it.
#[cycle(evaluation)]
fn operand(arguments: &[Tree], k: usize, shape: Shape, inputs: &Inputs) -> Entry
    ensures value { result.height < count_of shape → result.value ≡ spec.operand k (spec.arguments shape (values_in inputs.now.items) false (listed (map formula arguments.now))) }
    ensures height { result.height ≡ min (count_of shape) (operand_height shape (heights_in inputs.now.items) k (listed (map formula arguments.now))) }
{
    if k < arguments.len() {
        evaluate(&arguments[k], shape, inputs)
    } else {
        Entry {
            value: Value::Number(0),
            height: 0,
        }
    }
}

// The values of the arguments. A branch of IF that is not chosen adds to the height, and so it is read too; its value
// is dropped, an error included.
#[cycle(evaluation)]
fn operands_of(arguments: &[Tree], shape: Shape, inputs: &Inputs) -> Operands
    requires { length arguments.now ≤ 3 }
    ensures values { result.height < count_of shape → AreOperands (spec.arguments shape (values_in inputs.now.items) false (listed (map formula arguments.now))) result }
    ensures height { result.height ≡ min (count_of shape) (heights.formulas_height shape (heights_in inputs.now.items) (listed (map formula arguments.now))) }
{
    let first = operand(arguments, 0, shape, inputs);
    let second = operand(arguments, 1, shape, inputs);
    let third = operand(arguments, 2, shape, inputs);
    Operands {
        first: first.value,
        second: second.value,
        third: third.value,
        height: first.height.max(second.height.max(third.height)),
    }
}

// What the arguments stand for: a reference or a range stands for its cells.
#[cycle(evaluation)]
fn gather(fold: Fold, arguments: &[Tree], shape: Shape, inputs: &Inputs) -> Gathered
    requires { length arguments.now ≤ spec.most_arguments }
    ensures tally { result.height < count_of shape → IsTally fold.wants (spec.all_values fold.errors (spec.arguments shape (values_in inputs.now.items) true (listed (map formula arguments.now)))) result.tally }
    ensures height { result.height ≡ min (count_of shape) (heights.formulas_height shape (heights_in inputs.now.items) (listed (map formula arguments.now))) }
{
    let mut gathered = Gathered::new();
    for argument in arguments {
        gathered = match argument {
            Tree::Reference(cell) => {
                let entry = look(shape, inputs, *cell);
                gathered.with(fold.wants, fold.errors.seen(entry.value), entry.height)
            }
            Tree::Range(area) => with_range(shape, inputs, fold, *area, gathered),
            Tree::Number(_) | Tree::Prefix(_, _) | Tree::Binary(_, _, _) | Tree::Call(_, _) => {
                let entry = evaluate(argument, shape, inputs);
                gathered.with(fold.wants, entry.value, entry.height)
            }
        };
    }
    gathered
}
