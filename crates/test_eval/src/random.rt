// Fifty sheets drawn at random, each cell evaluated once more by plain recursion over its references, in 128 bits.

use ds_eval::scratch::scratch;
use ds_eval::sheet::Sheet;
use ds_eval::value::Value;
use ds_formula::cells::{Cell, Rect, Shape};
use ds_formula::content::{Content, Function, Operator, Sign, Tree};
use std::alloc::{AllocError, Global};
use std::test::Fail;

// How many cells a sheet has: three columns of four rows.
const CELLS: usize = 12;

// A number below the bound, and the next state of the generator.
fn draw(state: &mut u64, bound: u64) -> u64 {
    *state = state
        .wrapping_mul(6364136223846793005)
        .wrapping_add(1442695040888963407);
    (*state >> 33).checked_rem(bound).unwrap_or(0)
}

fn draw_cell(state: &mut u64) -> Cell {
    Cell {
        column: draw(state, 3) as usize,
        row: draw(state, 4) as usize,
    }
}

fn draw_number(state: &mut u64) -> i64 {
    match draw(state, 6) {
        0 => 0,
        1 => 9223372036854775807,
        2 => 7,
        3 => 3,
        _ => i64::try_from(draw(state, 100)).unwrap_or(5),
    }
}

fn leaf(state: &mut u64) -> Tree {
    match draw(state, 3) {
        0 => Tree::Number(draw_number(state)),
        _ => Tree::Reference(draw_cell(state)),
    }
}

fn argument(state: &mut u64) -> Tree {
    if draw(state, 3) > 0 {
        return leaf(state);
    }
    let first = draw_cell(state);
    let last = Cell {
        column: first.column.max(draw(state, 3) as usize),
        row: first.row.max(draw(state, 4) as usize),
    };
    Tree::Range(Rect { first, last })
}

fn draw_operator(state: &mut u64) -> Operator {
    match draw(state, 9) {
        0 => Operator::Multiply,
        1 => Operator::Add,
        2 => Operator::Subtract,
        3 => Operator::Equal,
        4 => Operator::NotEqual,
        5 => Operator::Less,
        6 => Operator::Greater,
        7 => Operator::LessOrEqual,
        _ => Operator::GreaterOrEqual,
    }
}

// A function of many values.
fn draw_function(state: &mut u64) -> Function {
    match draw(state, 6) {
        0 => Function::Sum,
        1 => Function::Min,
        2 => Function::Max,
        3 => Function::Count,
        4 => Function::And,
        _ => Function::Or,
    }
}

fn small(alloc: Global, state: &mut u64) -> Result<Tree, AllocError> {
    match draw(state, 5) {
        0 => Ok(leaf(state)),
        1 => {
            let operand = Box::new(alloc, leaf(state))?;
            Ok(Tree::Prefix(Sign::Minus, operand))
        }
        2 => {
            let mut arguments = Vec::new(alloc);
            arguments.push(argument(state))?;
            arguments.push(argument(state))?;
            Ok(Tree::Call(draw_function(state), arguments))
        }
        _ => {
            let left = Box::new(alloc, leaf(state))?;
            let right = Box::new(alloc, leaf(state))?;
            Ok(Tree::Binary(draw_operator(state), left, right))
        }
    }
}

// A function of as many values as there are arguments, one to three.
fn draw_few(state: &mut u64, count: u64) -> Function {
    match count {
        1 if draw(state, 2) == 0 => Function::Abs,
        1 => Function::Not,
        2 if draw(state, 2) == 0 => Function::Mod,
        2 => Function::Quotient,
        _ => Function::If,
    }
}

fn large(alloc: Global, state: &mut u64) -> Result<Tree, AllocError> {
    let first = small(alloc, state)?;
    let second = small(alloc, state)?;
    let mut arguments = Vec::new(alloc);
    match draw(state, 6) {
        0 => {
            arguments.push(first)?;
            Ok(Tree::Call(draw_few(state, 1), arguments))
        }
        1 => {
            arguments.push(first)?;
            arguments.push(second)?;
            Ok(Tree::Call(draw_few(state, 2), arguments))
        }
        2 => {
            arguments.push(first)?;
            arguments.push(second)?;
            arguments.push(small(alloc, state)?)?;
            Ok(Tree::Call(draw_few(state, 3), arguments))
        }
        3 => {
            arguments.push(first)?;
            arguments.push(argument(state))?;
            arguments.push(second)?;
            Ok(Tree::Call(draw_function(state), arguments))
        }
        _ => {
            let left = Box::new(alloc, first)?;
            let right = Box::new(alloc, second)?;
            Ok(Tree::Binary(draw_operator(state), left, right))
        }
    }
}

fn draw_content(alloc: Global, state: &mut u64) -> Result<Content, AllocError> {
    match draw(state, 8) {
        0 | 1 => Ok(Content::Blank),
        2 | 3 | 4 => Ok(Content::Number(draw_number(state))),
        _ => Ok(Content::Formula(large(alloc, state)?)),
    }
}

// ---- a formula from the values of the cells that it reads

fn place(cell: Cell) -> usize {
    cell.row.wrapping_mul(3).wrapping_add(cell.column)
}

// The cell with this number.
fn cell_at(k: usize) -> Cell {
    Cell {
        column: k % 3,
        row: k / 3,
    }
}

fn read(values: &[Value], cell: Cell) -> Value {
    values.get(place(cell)).copied().unwrap_or(Value::Blank)
}

fn fit(number: i128) -> Value {
    match i64::try_from(number) {
        Ok(number) => Value::Number(number),
        Err(_) => Value::Num,
    }
}

fn plain(value: Value) -> Result<i128, Value> {
    match value {
        Value::Blank => Ok(0),
        Value::Number(number) => Ok(i128::from(number)),
        error => Err(error),
    }
}

fn compute(operator: Operator, a: i128, b: i128) -> Value {
    let truth = match operator {
        Operator::Multiply => return fit(a.wrapping_mul(b)),
        Operator::Add => return fit(a.wrapping_add(b)),
        Operator::Subtract => return fit(a.wrapping_sub(b)),
        Operator::Equal => a == b,
        Operator::NotEqual => a != b,
        Operator::Less => a < b,
        Operator::Greater => a > b,
        Operator::LessOrEqual => a <= b,
        Operator::GreaterOrEqual => a >= b,
    };
    fit(if truth { 1 } else { 0 })
}

fn divide(function: Function, a: i128, b: i128) -> Value {
    match (a.checked_div(b), a.checked_rem(b)) {
        (Some(quotient), Some(rest)) => match function {
            Function::Quotient => fit(quotient),
            _ => {
                if rest != 0 && (rest < 0) != (b < 0) {
                    fit(rest.wrapping_add(b))
                } else {
                    fit(rest)
                }
            }
        },
        _ => Value::DivZero,
    }
}

fn both(left: Value, right: Value) -> Result<(i128, i128), Value> {
    let left = plain(left)?;
    let right = plain(right)?;
    Ok((left, right))
}

// What functions of many values make of their numbers, and the first error among them.
#[derive(Clone, Copy)]
struct RandomTally {
    // whether `#DIV/0!` and `#NUM!` of cells are passed over
    skips: bool,
    count: i128,
    zeros: i128,
    sum: i128,
    least: Option<i128>,
    greatest: Option<i128>,
    error: Option<Value>,
}

impl RandomTally {
    fn new(skips: bool) -> RandomTally {
        RandomTally {
            skips,
            count: 0,
            zeros: 0,
            sum: 0,
            least: None,
            greatest: None,
            error: None,
        }
    }

    // Blank cells are skipped.
    fn add(&mut self, value: Value) {
        if value == Value::Blank {
            return;
        }
        match plain(value) {
            Ok(number) => {
                self.count = self.count.wrapping_add(1);
                if number == 0 {
                    self.zeros = self.zeros.wrapping_add(1);
                }
                self.sum = self.sum.wrapping_add(number);
                self.least = Some(self.least.unwrap_or(number).min(number));
                self.greatest = Some(self.greatest.unwrap_or(number).max(number));
            }
            Err(fault) => self.error = Some(self.error.unwrap_or(fault)),
        }
    }

    fn add_cell(&mut self, value: Value) {
        let passed = self.skips && (value == Value::DivZero || value == Value::Num);
        if !passed {
            self.add(value);
        }
    }

    fn add_all(&mut self, area: Rect, values: &[Value]) {
        for k in 0..CELLS {
            let cell = cell_at(k);
            if is_within(area, cell) {
                self.add_cell(read(values, cell));
            }
        }
    }

    fn truth(&self, holds: bool) -> Value {
        self.answer(Some(if holds { 1 } else { 0 }))
    }

    fn answer(&self, number: Option<i128>) -> Value {
        match self.error {
            Some(error) => error,
            None => fit(number.unwrap_or(0)),
        }
    }
}

fn is_within(area: Rect, cell: Cell) -> bool {
    (area.first.column..=area.last.column).contains(&cell.column)
        && (area.first.row..=area.last.row).contains(&cell.row)
}

// A function's value from the values of its first three arguments and from the tally of all.
fn called(function: Function, values: [Value; 3], tally: &RandomTally) -> Value {
    match function {
        Function::Sum => tally.answer(Some(tally.sum)),
        Function::Min => tally.answer(tally.least),
        Function::Max => tally.answer(tally.greatest),
        Function::Count => tally.answer(Some(tally.count)),
        Function::And => tally.truth(tally.zeros == 0),
        Function::Or => tally.truth(tally.zeros < tally.count),
        Function::Not => match plain(values[0]) {
            Ok(number) => fit(if number == 0 { 1 } else { 0 }),
            Err(error) => error,
        },
        Function::Abs => match plain(values[0]) {
            Ok(number) => fit(number.wrapping_abs()),
            Err(error) => error,
        },
        Function::Mod | Function::Quotient => match both(values[0], values[1]) {
            Ok((a, b)) => divide(function, a, b),
            Err(error) => error,
        },
        Function::If => match plain(values[0]) {
            Ok(0) => values[2],
            Ok(_) => values[1],
            Err(error) => error,
        },
    }
}

// A formula's value from the values of the cells.
fn formula_value(tree: &Tree, values: &[Value]) -> Value {
    match tree {
        Tree::Number(number) => Value::Number(*number),
        Tree::Reference(cell) => match plain(read(values, *cell)) {
            Ok(number) => fit(number),
            Err(error) => error,
        },
        Tree::Range(_) => Value::Num,
        Tree::Prefix(_, operand) => match plain(formula_value(operand, values)) {
            Ok(number) => fit(number.wrapping_neg()),
            Err(error) => error,
        },
        Tree::Binary(operator, left, right) => {
            match both(formula_value(left, values), formula_value(right, values)) {
                Ok((a, b)) => compute(*operator, a, b),
                Err(error) => error,
            }
        }
        Tree::Call(function, arguments) => {
            let mut first_values = [Value::Blank; 3];
            let mut tally = RandomTally::new(*function == Function::Count);
            for (i, argument) in arguments.iter().enumerate() {
                let value = formula_value(argument, values);
                if i < 3 {
                    first_values[i] = value;
                }
                match argument {
                    Tree::Reference(cell) => tally.add_cell(read(values, *cell)),
                    Tree::Range(area) => tally.add_all(*area, values),
                    _ => tally.add(value),
                }
            }
            called(*function, first_values, &tally)
        }
    }
}

// ---- a cell by recursion over its references

// Whether the cell is written in the formula.
fn refers(tree: &Tree, cell: Cell) -> bool {
    match tree {
        Tree::Number(_) => false,
        Tree::Reference(written) => place(*written) == place(cell),
        Tree::Range(area) => is_within(*area, cell),
        Tree::Prefix(_, operand) => refers(operand, cell),
        Tree::Binary(_, left, right) => refers(left, cell) || refers(right, cell),
        Tree::Call(_, arguments) => {
            for argument in arguments {
                if refers(argument, cell) {
                    return true;
                }
            }
            false
        }
    }
}

// Whether a walk of n steps begins at the cell with this number.
fn begins_walk(contents: &[Content], steps: usize, k: usize) -> bool {
    if steps == 0 {
        return true;
    }
    let Some(Content::Formula(tree)) = contents.get(k) else {
        return false;
    };
    for next in 0..CELLS {
        if refers(tree, cell_at(next)) && begins_walk(contents, steps - 1, next) {
            return true;
        }
    }
    false
}

// The value of the cell with this number where references are followed for n steps.
fn value_after(contents: &[Content], steps: usize, k: usize) -> Value {
    let tree = match contents.get(k) {
        None | Some(Content::Blank) => return Value::Blank,
        Some(Content::Number(number)) => return Value::Number(*number),
        Some(Content::Formula(tree)) => tree,
    };
    if steps == 0 {
        return Value::Blank;
    }
    let mut values = [Value::Blank; CELLS];
    for next in 0..CELLS {
        if refers(tree, cell_at(next)) {
            values[next] = value_after(contents, steps - 1, next);
        }
    }
    formula_value(tree, &values)
}

// Err:522 just where a walk of as many steps as there are cells begins, else the value after that many steps. A cell
// where no such walk begins reads only cells of its kind, and those have no circle: so each recursion is short.
fn value_of(contents: &[Content], k: usize) -> Value {
    if begins_walk(contents, CELLS, k) {
        Value::Circular
    } else {
        value_after(contents, CELLS, k)
    }
}

fn values_of(alloc: Global, contents: &[Content]) -> Result<Vec<Value>, AllocError> {
    let mut values = Vec::new(alloc);
    for k in 0..contents.len() {
        values.push(value_of(contents, k))?;
    }
    Ok(values)
}

// How many values are numbers, and how many circular.
fn kinds_of(values: &[Value]) -> (usize, usize) {
    let numbers = values
        .iter()
        .filter(|value| matches!(value, Value::Number(_)))
        .count();
    let circular = values
        .iter()
        .filter(|value| matches!(value, Value::Circular))
        .count();
    (numbers, circular)
}

#[test]
fn fifty_sheets(rt: HostRuntime) -> Result<(), Fail> {
    let alloc = rt.alloc();
    let Some(shape) = Shape::new(3, 4) else {
        return Err(Fail::from("no shape"));
    };
    let mut state = 2026u64;
    let mut compared = 0usize;
    let mut numbers = 0usize;
    let mut circular = 0usize;
    for _ in 0..50usize {
        let mut contents = Vec::new(alloc);
        for _ in 0..CELLS {
            contents.push(draw_content(alloc, &mut state)?)?;
        }
        let expected = values_of(alloc, &contents)?;
        if contents.len() == shape.count() {
            let values = scratch(alloc, &Sheet::new(shape, contents))?;
            assert!(rt; values.as_slice() == expected.as_slice());
            compared = compared.wrapping_add(1);
            let (more_numbers, more_circular) = kinds_of(&values);
            numbers = numbers.wrapping_add(more_numbers);
            circular = circular.wrapping_add(more_circular);
        }
    }
    assert_eq!(rt; compared, 50usize);
    // The draw meets both kinds.
    assert!(rt; numbers > 100);
    assert!(rt; circular > 20);
    Ok(())
}
