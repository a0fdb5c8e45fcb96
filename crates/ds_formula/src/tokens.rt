//! The tokens of a formula, read from the front of its bytes.

ghost use Rattle.std.specs.Prelude.{◌≡◌, ◌≤◌, ◌<◌, ◌^◌, ◌-◌, min, length, IfOk, IfSome};
ghost use Rattle.ds_formula.specs.Cells.{IsInside};
ghost use Rattle.ds_formula.specs.Bytes.{begins, unexpected_stop, result_of, number_from, number_at, byte_at, is_space, skipped};
ghost use Rattle.ds_formula.specs.References.{letters_from, letters_at, row_at, without_dollar, cell_of, corner_at, area_of, reference_at, capped};
ghost use Rattle.ds_formula.specs.Functions.{all_functions, scope_of};
ghost use Rattle.ds_formula.specs.Tokens.{is_name_byte, word_length, name_at, lead_of, lead_at, follow_of, follow_at, after_less, after_greater};

use crate::cells::{Cell, Rect, Shape};
use crate::content::{Function, Operator, Sign};
use crate::decimal::digits;
use crate::fault::FaultKind;

// How many letters there are: the base of the numbers that letters stand for.
const LETTERS: u64 = 26;

/// A fault, and how many bytes are left from the one that it stands at.
#[derive(Clone, Copy, Debug, PartialEq, Eq)]
pub struct Stop {
    /// What is wrong.
    pub kind: FaultKind,
    /// How many bytes are left from the fault on.
    pub left: usize,
}

/// An operand of one token.
#[derive(Clone, Copy, Debug, PartialEq, Eq)]
pub enum Leaf {
    /// A number.
    Number(i64),
    /// A reference to one cell.
    Reference(Cell),
    /// A range, and how many bytes are left from its bracket on.
    Range(Rect, usize),
}

/// A token that may stand where an operand is due.
#[derive(Clone, Copy, Debug, PartialEq, Eq)]
pub enum Lead {
    /// An operand of one token.
    Leaf(Leaf),
    /// A sign before an operand.
    Prefix(Sign),
    /// `(`.
    Open,
    /// A function's name, and how many bytes are left from it on.
    Name(Function, usize),
}

/// A token that may stand after an operand.
#[derive(Clone, Copy, Debug, PartialEq, Eq)]
pub enum Follow {
    /// An operator between two operands.
    Infix(Operator),
    /// `)`.
    Close,
    /// `;`.
    Semicolon,
    /// The end of the text.
    End,
}

// The bytes don't go on as they should.
#[inline(always)]
pub(crate) fn unexpected(text: &[u8]) -> Stop
    ensures { result ≡ unexpected_stop text.now }
{
    let kind = if text.is_empty() {
        FaultKind::Unfinished
    } else {
        FaultKind::BadToken
    };
    Stop {
        kind,
        left: text.len(),
    }
}

#[inline(always)]
pub(crate) fn begins(byte: u8, text: &[u8]) -> bool
    ensures { result ≡ begins byte text.now }
{
    match text {
        [first, ..] => *first == byte,
        [] => false,
    }
}

#[inline(always)]
fn is_space(byte: u8) -> bool
    ensures { result ≡ is_space byte }
{
    byte == b' ' || byte == b'\t' || byte == b'\n' || byte == b'\r'
}

// What is after the white space at the front.
#[inline(always)]
pub(crate) fn skip(text: &[u8]) -> &[u8]
    ensures is { result.now ≡ skipped text.now }
    ensures shorter { length result.now ≤ length text.now }
{
    let mut rest = text;
    while let [byte, after @ ..] = rest
        && is_space(*byte)
    {
        rest = after;
    }
    rest
}

// Digits, at least one, of a whole number that is at most the limit.
#[tactic(auto, unfolding(crate::specs::Bytes::number_at))]
pub(crate) fn number(limit: u64, text: &[u8]) -> Result<(u64, &[u8]), Stop>
    requires { limit < 2 ^ 64 - 1 }
    ensures is { result_of (λ x. (x.0, x.1.now)) result ≡ number_at limit text.now }
    ensures at_most { IfOk result (λ x. x.0 ≤ limit) }
    ensures shorter { IfOk result (λ x. length x.1.now < length text.now) }
{
    match text {
        [first, ..] if first.is_ascii_digit() => {
            let (value, rest) = digits(text);
            if begins(b'.', rest) || begins(b'e', rest) || begins(b'E', rest) {
                Err(Stop {
                    kind: FaultKind::NotWhole,
                    left: rest.len(),
                })
            } else if value <= limit {
                Ok((value, rest))
            } else {
                Err(Stop {
                    kind: FaultKind::NumberTooLarge,
                    left: text.len(),
                })
            }
        }
        _ => Err(unexpected(text)),
    }
}

// A byte that has to come.
#[tactic(auto, unfolding(crate::specs::Bytes::byte_at))]
#[inline(always)]
pub(crate) fn byte(wanted: u8, text: &[u8]) -> Result<&[u8], Stop>
    ensures is { result_of (λ x. x.now) result ≡ byte_at wanted text.now }
    ensures shorter { IfOk result (λ x. length x.now < length text.now) }
{
    match text {
        [first, rest @ ..] if *first == wanted => Ok(rest),
        _ => Err(unexpected(text)),
    }
}

#[inline(always)]
fn without_dollar(text: &[u8]) -> &[u8]
    ensures is { result.now ≡ without_dollar text.now }
    ensures shorter { length result.now ≤ length text.now }
{
    match text {
        [b'$', rest @ ..] => rest,
        _ => text,
    }
}

// The number of the letters, or the greatest one where it is greater, and what is after them.
#[inline(always)]
fn letters(text: &[u8]) -> (u64, &[u8])
    ensures value { result.0 ≡ min (letters_from 0 text.now).0 (2 ^ 64 - 1) }
    ensures rest { result.1.now ≡ (letters_from 0 text.now).1 }
    ensures shorter { length result.1.now ≤ length text.now }
{
    let mut value = 0u64;
    let mut rest = text;
    while let [letter, after @ ..] = rest
        && letter.is_ascii_alphabetic()
    {
        value = value
            .saturating_mul(LETTERS)
            .saturating_add((letter.to_ascii_uppercase() - b'@') as u64);
        rest = after;
    }
    (value, rest)
}

// A cell by its column and its row, each from 1, where it is one of the sheet.
#[inline(always)]
pub(crate) fn cell_of(shape: &Shape, column: u64, row: u64) -> Option<Cell>
    ensures value { result ≡ cell_of shape.now column row }
    ensures inside { IfSome result (IsInside shape.now) }
{
    let column = column as usize;
    let row = row as usize;
    if column <= shape.columns && row <= shape.rows {
        Some(Cell {
            column: column.saturating_sub(1),
            row: row.saturating_sub(1),
        })
    } else {
        None
    }
}

// A dot, a column and a row: the cell, where it is one of the sheet.
#[tactic(auto, unfolding(crate::specs::References::corner_at))]
#[inline(always)]
fn corner<'a>(shape: &Shape, text: &'a [u8]) -> Result<(Option<Cell>, &'a [u8]), Stop>
    ensures is { result_of (λ x. (x.0, x.1.now)) result ≡ corner_at shape.now text.now }
    ensures shorter { IfOk result (λ x. length x.1.now ≤ length text.now) }
{
    let text = byte(b'.', text)?;
    let (column, text) = column(without_dollar(text))?;
    let (row, text) = row(without_dollar(text))?;
    Ok((cell_of(shape, column, row), text))
}

#[tactic(auto, unfolding(crate::specs::References::letters_at))]
#[inline(always)]
pub(crate) fn column(text: &[u8]) -> Result<(u64, &[u8]), Stop>
    ensures is { result_of (λ x. (x.0, x.1.now)) result ≡ capped (letters_at text.now) }
    ensures shorter { IfOk result (λ x. length x.1.now ≤ length text.now) }
{
    match text {
        [first, ..] if first.is_ascii_alphabetic() => Ok(letters(text)),
        _ => Err(unexpected(text)),
    }
}

#[tactic(auto, unfolding(crate::specs::References::row_at))]
#[inline(always)]
pub(crate) fn row(text: &[u8]) -> Result<(u64, &[u8]), Stop>
    ensures is { result_of (λ x. (x.0, x.1.now)) result ≡ capped (row_at text.now) }
    ensures shorter { IfOk result (λ x. length x.1.now ≤ length text.now) }
{
    match text {
        [b'1'..=b'9', ..] => Ok(digits(text)),
        _ => Err(unexpected(text)),
    }
}

// The range between two corners, whichever way round they are.
fn area_of(one: Cell, other: Cell) -> Rect
    ensures { result ≡ area_of one other }
{
    Rect {
        first: Cell {
            column: one.column.min(other.column),
            row: one.row.min(other.row),
        },
        last: Cell {
            column: one.column.max(other.column),
            row: one.row.max(other.row),
        },
    }
}

// A reference or a range, in its brackets.
#[tactic(auto, unfolding(crate::specs::References::reference_at))]
#[inline(always)]
fn reference<'a>(shape: &Shape, text: &'a [u8]) -> Result<(Leaf, &'a [u8]), Stop>
    ensures is { result_of (λ x. (x.0, x.1.now)) result ≡ reference_at shape.now text.now }
    ensures shorter { IfOk result (λ x. length x.1.now < length text.now) }
{
    let outside = Stop {
        kind: FaultKind::OutsideSheet,
        left: text.len(),
    };
    let rest = byte(b'[', text)?;
    let (one, rest) = corner(shape, rest)?;
    if begins(b':', rest) {
        let (other, rest) = corner(shape, &rest[1..])?;
        let rest = byte(b']', rest)?;
        match (one, other) {
            (Some(one), Some(other)) => { Ok((Leaf::Range(area_of(one, other), text.len()), rest)) }
            _ => Err(outside),
        }
    } else {
        let rest = byte(b']', rest)?;
        match one {
            Some(cell) => Ok((Leaf::Reference(cell), rest)),
            None => Err(outside),
        }
    }
}

fn is_name_byte(byte: u8) -> bool
    ensures { result ≡ is_name_byte byte }
{
    byte.is_ascii_alphabetic() || byte.is_ascii_digit() || byte == b'.' || byte == b'_'
}

// How many bytes of a name are at the front.
fn word_length(text: &[u8]) -> usize
    ensures value { result ≡ word_length text.now }
    ensures at_most { result ≤ length text.now }
{
    let mut rest = text;
    let mut count = 0;
    while let [byte, after @ ..] = rest
        && is_name_byte(*byte)
    {
        rest = after;
        count += 1;
    }
    count
}

// A function's name: the longest run of a name's bytes.
#[tactic(auto, unfolding(crate::specs::Tokens::name_at))]
fn name(text: &[u8]) -> Result<(Lead, &[u8]), Stop>
    requires { 1 ≤ word_length text.now }
    ensures is { result_of (λ x. (x.0, x.1.now)) result ≡ name_at all_functions text.now }
    ensures shorter { IfOk result (λ x. length x.1.now < length text.now) }
{
    let end = word_length(text);
    match Function::named(&text[..end]) {
        Some(function) => Ok((Lead::Name(function, text.len()), &text[end..])),
        None => Err(Stop {
            kind: FaultKind::UnknownFunction,
            left: text.len(),
        }),
    }
}

#[tactic(auto, unfolding(crate::specs::Tokens::lead_of))]
#[inline(always)]
fn lead_of<'a>(shape: &Shape, text: &'a [u8]) -> Result<(Lead, &'a [u8]), Stop>
    ensures is { result_of (λ x. (x.0, x.1.now)) result ≡ lead_of (scope_of shape.now) text.now }
    ensures shorter { IfOk result (λ x. length x.1.now < length text.now) }
{
    match text {
        [b'(', rest @ ..] => Ok((Lead::Open, rest)),
        [b'+', rest @ ..] => Ok((Lead::Prefix(Sign::Plus), rest)),
        [b'-', rest @ ..] => Ok((Lead::Prefix(Sign::Minus), rest)),
        [b'[', ..] => {
            let (leaf, rest) = reference(shape, text)?;
            Ok((Lead::Leaf(leaf), rest))
        }
        [first, ..] if first.is_ascii_digit() => {
            let (number, rest) = number(i64::MAX as u64, text)?;
            Ok((Lead::Leaf(Leaf::Number(number as i64)), rest))
        }
        [first, ..] if first.is_ascii_alphabetic() => name(text),
        _ => Err(unexpected(text)),
    }
}

// The token at the front where an operand is due, after white space, and what is after it.
#[tactic(auto, unfolding(crate::specs::Tokens::lead_at))]
#[inline(always)]
pub(crate) fn read_lead<'a>(shape: &Shape, text: &'a [u8]) -> Result<(Lead, &'a [u8]), Stop>
    ensures is { result_of (λ x. (x.0, x.1.now)) result ≡ lead_at (scope_of shape.now) text.now }
    ensures shorter { IfOk result (λ x. length x.1.now < length text.now) }
{
    lead_of(shape, skip(text))
}

// What a `<` begins, and what is after it.
fn after_less(text: &[u8]) -> (Operator, &[u8])
    ensures is { (result.0, result.1.now) ≡ after_less text.now }
    ensures shorter { length result.1.now ≤ length text.now }
{
    match text {
        [b'>', rest @ ..] => (Operator::NotEqual, rest),
        [b'=', rest @ ..] => (Operator::LessOrEqual, rest),
        _ => (Operator::Less, text),
    }
}

// What a `>` begins, and what is after it.
fn after_greater(text: &[u8]) -> (Operator, &[u8])
    ensures is { (result.0, result.1.now) ≡ after_greater text.now }
    ensures shorter { length result.1.now ≤ length text.now }
{
    match text {
        [b'=', rest @ ..] => (Operator::GreaterOrEqual, rest),
        _ => (Operator::Greater, text),
    }
}

#[tactic(auto, unfolding(crate::specs::Tokens::follow_of))]
#[inline(always)]
fn follow_of(text: &[u8]) -> Result<(Follow, &[u8]), Stop>
    ensures is { result_of (λ x. (x.0, x.1.now)) result ≡ follow_of text.now }
    ensures shorter { IfOk result (λ x. length x.1.now ≤ length text.now) }
{
    match text {
        [] => Ok((Follow::End, text)),
        [b')', rest @ ..] => Ok((Follow::Close, rest)),
        [b';', rest @ ..] => Ok((Follow::Semicolon, rest)),
        [b'*', rest @ ..] => Ok((Follow::Infix(Operator::Multiply), rest)),
        [b'+', rest @ ..] => Ok((Follow::Infix(Operator::Add), rest)),
        [b'-', rest @ ..] => Ok((Follow::Infix(Operator::Subtract), rest)),
        [b'=', rest @ ..] => Ok((Follow::Infix(Operator::Equal), rest)),
        [b'<', rest @ ..] => {
            let (operator, rest) = after_less(rest);
            Ok((Follow::Infix(operator), rest))
        }
        [b'>', rest @ ..] => {
            let (operator, rest) = after_greater(rest);
            Ok((Follow::Infix(operator), rest))
        }
        _ => Err(unexpected(text)),
    }
}

// The token at the front where an operand has ended, after white space, and what is after it.
#[tactic(auto, unfolding(crate::specs::Tokens::follow_at))]
#[inline(always)]
pub(crate) fn read_follow(text: &[u8]) -> Result<(Follow, &[u8]), Stop>
    ensures is { result_of (λ x. (x.0, x.1.now)) result ≡ follow_at text.now }
    ensures shorter { IfOk result (λ x. length x.1.now ≤ length text.now) }
{
    follow_of(skip(text))
}
