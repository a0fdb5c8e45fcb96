//! Exact arithmetic on values.

ghost use Rattle.std.specs.Prelude.{◌≡◌, ◌≢◌, ◌<◌, ◌^◌, pos};
ghost use Rattle.ds_eval.specs.Numbers as exact;
ghost use Rattle.ds_eval.specs.Evaluation.{chosen as branch};
ghost use Rattle.ds_eval.specs.CodeSteps.{exactly, number_or_error, size_of_rest, with_sign, is_chosen};

use crate::value::Value;
use ds_formula::content::{Operator, Sign};

// An exact result, where it is in range.
fn exact(outcome: Option<i64>) -> Value
    ensures { result ≡ exactly outcome }
{
    match outcome {
        Some(number) => Value::Number(number),
        None => Value::Num,
    }
}

/// What a comparison gives: 1 or 0.
pub fn truth(is_true: bool) -> Value
    ensures { result ≡ exact.truth is_true }
{
    Value::Number(if is_true { 1 } else { 0 })
}

// A value as a number, a blank being 0, or its error.
fn as_number(value: Value) -> Result<i64, Value>
    ensures { result ≡ number_or_error value }
{
    match value {
        Value::Blank => Ok(0),
        Value::Number(number) => Ok(number),
        Value::DivZero | Value::Num | Value::Circular => Err(value),
    }
}

/// The value of a reference to a cell: a formula's value is never blank.
pub fn never_blank(value: Value) -> Value
    ensures { result ≡ exact.with_number value Value.Number }
{
    match value {
        Value::Blank => Value::Number(0),
        Value::Number(_) | Value::DivZero | Value::Num | Value::Circular => value,
    }
}

/// A sign before a value (OpenFormula 6.4.14 and 6.4.15).
pub fn signed(sign: Sign, value: Value) -> Value
    ensures { result ≡ exact.with_number value (exact.signed sign) }
{
    match as_number(value) {
        Ok(number) => match sign {
            Sign::Plus => Value::Number(number),
            Sign::Minus => exact(number.checked_neg()),
        },
        Err(error) => error,
    }
}

// An operator between two numbers.
fn joined_numbers(operator: Operator, a: i64, b: i64) -> Value
    ensures { result ≡ exact.joined operator a b }
{
    match operator {
        Operator::Multiply => exact(a.checked_mul(b)),
        Operator::Add => exact(a.checked_add(b)),
        Operator::Subtract => exact(a.checked_sub(b)),
        Operator::Equal => truth(a == b),
        Operator::NotEqual => truth(a != b),
        Operator::Less => truth(a < b),
        Operator::Greater => truth(a > b),
        Operator::LessOrEqual => truth(a <= b),
        Operator::GreaterOrEqual => truth(a >= b),
    }
}

/// An operator between two values (OpenFormula 6.4.2 to 6.4.4 and 6.4.7 to 6.4.9): the error of the left one goes first.
pub fn joined(operator: Operator, left: Value, right: Value) -> Value
    ensures { result ≡ exact.with_numbers left right (exact.joined operator) }
{
    match (as_number(left), as_number(right)) {
        (Ok(a), Ok(b)) => joined_numbers(operator, a, b),
        (Err(error), _) => error,
        (Ok(_), Err(error)) => error,
    }
}

/// ABS (OpenFormula 6.16.2).
pub fn absolute(value: Value) -> Value
    ensures { result ≡ exact.with_number value exact.absolute }
{
    match as_number(value) {
        Ok(number) => exact(number.checked_abs()),
        Err(error) => error,
    }
}

fn negated_number(number: i64) -> Value
    ensures { result ≡ exact.negated number }
{
    truth(number == 0)
}

/// NOT (OpenFormula 6.15.7): 1 for 0, else 0.
pub fn negated(value: Value) -> Value
    ensures { result ≡ exact.with_number value exact.negated }
{
    match as_number(value) {
        Ok(number) => negated_number(number),
        Err(error) => error,
    }
}

// The remainder of a division by a number that is not 0: it has the sign of the divisor.
fn remainder(a: i64, b: i64) -> i64
    requires { b ≢ pos 0 }
    ensures { result ≡ exact.floor_rest a b }
{
    let size = b.unsigned_abs();
    let rest = rest_of((a < 0) == (b < 0), a.unsigned_abs() % size, size);
    signed_size(b < 0, rest)
}

// How large the remainder is: what is left where the signs are the same, else what lacks.
fn rest_of(same_sign: bool, rest: u64, size: u64) -> u64
    requires { rest < size }
    ensures value { result ≡ size_of_rest same_sign rest size }
    ensures below { result < size }
{
    if same_sign {
        rest
    } else if rest == 0 {
        0
    } else {
        size - rest
    }
}

// The number of this size and sign.
fn signed_size(negative: bool, size: u64) -> i64
    requires { size < 2 ^ 63 }
    ensures { result ≡ with_sign negative size }
{
    if negative {
        -(size as i64)
    } else {
        size as i64
    }
}

// Whether a condition holds: its number is not 0.
fn chosen(condition: Value) -> Result<bool, Value>
    ensures { result ≡ is_chosen condition }
{
    match as_number(condition) {
        Ok(number) => Ok(number != 0),
        Err(error) => Err(error),
    }
}

/// IF (OpenFormula 6.15.4): the value of one of two branches, by the condition. An error in the condition goes
/// before both, and one in the other branch adds nothing.
pub fn choice(condition: Value, then_value: Value, else_value: Value) -> Value
    ensures { result ≡ branch condition then_value else_value }
{
    match chosen(condition) {
        Ok(true) => then_value,
        Ok(false) => else_value,
        Err(error) => error,
    }
}

fn modulo_numbers(a: i64, b: i64) -> Value
    ensures { result ≡ exact.modulo a b }
{
    if b == 0 {
        Value::DivZero
    } else {
        Value::Number(remainder(a, b))
    }
}

/// MOD (OpenFormula 6.16.42): `a - b * floor(a / b)`, and `#DIV/0!` where `b` is 0.
pub fn modulo(left: Value, right: Value) -> Value
    ensures { result ≡ exact.with_numbers left right exact.modulo }
{
    match (as_number(left), as_number(right)) {
        (Ok(a), Ok(b)) => modulo_numbers(a, b),
        (Err(error), _) => error,
        (Ok(_), Err(error)) => error,
    }
}

fn quotient_numbers(a: i64, b: i64) -> Value
    ensures { result ≡ exact.quotient a b }
{
    if b == 0 {
        Value::DivZero
    } else {
        exact(a.checked_div(b))
    }
}

/// QUOTIENT (OpenFormula 6.16.48): `a / b`, cut towards 0, and `#DIV/0!` where `b` is 0.
pub fn quotient(left: Value, right: Value) -> Value
    ensures { result ≡ exact.with_numbers left right exact.quotient }
{
    match (as_number(left), as_number(right)) {
        (Ok(a), Ok(b)) => quotient_numbers(a, b),
        (Err(error), _) => error,
        (Ok(_), Err(error)) => error,
    }
}
