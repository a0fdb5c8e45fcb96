//! What there is to say of a fault of a text: one table for all who show faults.

use crate::excerpt::write_part;
use crate::functions::{arguments_of, instead, near, write_known};
use ds_a1::notation::Notation;
use ds_a1::tokens::begins_reference;
use ds_formula::content::Function;
use ds_formula::fault::FaultKind;
use ds_formula::reading::{DEPTH_LIMIT, NODE_LIMIT, TEXT_LIMIT};
use std::fmt;

/// What there is to say of a fault of a text: what could stand there, or what is near.
#[derive(Clone, Copy, Debug, PartialEq, Eq)]
pub enum TextNote<'a> {
    /// In OpenFormula's notation: a reference stands there without brackets.
    NoBrackets,
    /// In A1 notation: a bracket stands there.
    Bracket,
    /// In A1 notation: the text is too long once its references have brackets.
    TooLongOpened,
    /// The text has more than this many bytes.
    TooLong(usize),
    /// The text is no number, and does not begin as a formula.
    NoNumber,
    /// A number has other bytes than digits after its sign.
    NotDigits,
    /// A number has a point or an exponent.
    NotWhole,
    /// A number is out of range.
    NumberTooLarge,
    /// No function has this name.
    Unknown(&'a [u8]),
    /// A function, with a wrong number of arguments.
    Arguments(Function),
    /// A reference to a cell that the sheet has not.
    OutsideSheet,
    /// A range that is no whole argument of a function that takes ranges.
    RangeNotAllowed,
    /// The formula has too many nodes, or is too deep.
    TooDeep,
    /// A `/`, in this notation.
    Division(Notation),
    /// In OpenFormula's notation: a comma.
    Comma,
    /// `!=` or `==`, and how that is written.
    Comparison(&'static str),
    /// A quote.
    Quote,
    /// A sign that is an operator elsewhere.
    NoOperator,
    /// Something else in the brackets of a reference.
    Reference,
    /// Something else where an operand is due.
    Operand,
    /// Something else after an operand.
    Operator,
    /// The same after a parenthesis that is open, in this notation.
    OperatorInside(Notation),
    /// Something else after a function's name.
    Open,
    /// The text ends where `)` is due.
    Close,
    /// Memory ran out.
    NoMemory,
}

// The name at the front.
fn name_at(text: &[u8]) -> &[u8] {
    let length = text
        .iter()
        .take_while(|byte| byte.is_ascii_alphanumeric() || matches!(byte, b'.' | b'_'))
        .count();
    text.get(..length).unwrap_or(text)
}

fn is_formula(text: &[u8]) -> bool {
    matches!(text, [b'=', ..] | [b'o', b'f', b':', b'=', ..])
}

// What there is to say of a text that is no formula.
fn constant_note<'a>(text: &[u8]) -> TextNote<'a> {
    match text {
        [b'0'..=b'9', ..] | [b'+' | b'-', b'0'..=b'9', ..] => TextNote::NotDigits,
        _ => TextNote::NoNumber,
    }
}

// Whether the bytes end within the brackets of a reference.
fn ends_in_reference(front: &[u8]) -> bool {
    let bracket = front.iter().rev().find(|byte| matches!(byte, b'[' | b']'));
    matches!(bracket, Some(b'['))
}

// The last byte that is no white space.
fn last_of(front: &[u8]) -> Option<u8> {
    front
        .iter()
        .rev()
        .find(|byte| !byte.is_ascii_whitespace())
        .copied()
}

// Whether a parenthesis is open after these bytes.
fn is_open(front: &[u8]) -> bool {
    let opened = front.iter().filter(|byte| **byte == b'(').count();
    let closed = front.iter().filter(|byte| **byte == b')').count();
    opened > closed
}

// What could stand after the front of a formula.
fn due_after<'a>(notation: Notation, front: &[u8]) -> TextNote<'a> {
    if ends_in_reference(front) {
        return TextNote::Reference;
    }
    match last_of(front) {
        Some(b'=' | b'(' | b';' | b',' | b'+' | b'-' | b'*' | b'<' | b'>') | None => {
            TextNote::Operand
        }
        Some(byte) if byte.is_ascii_alphabetic() => TextNote::Open,
        Some(_) if is_open(front) => TextNote::OperatorInside(notation),
        Some(_) => TextNote::Operator,
    }
}

// What there is to say of a byte that may not stand where it stands.
fn token_note<'a>(notation: Notation, text: &'a [u8], front: &[u8], rest: &[u8]) -> TextNote<'a> {
    if !is_formula(text) {
        return constant_note(text);
    }
    match (notation, rest) {
        (Notation::A1, [b'[' | b']', ..]) => TextNote::Bracket,
        (Notation::OpenFormula, _) if !ends_in_reference(front) && begins_reference(rest) => {
            TextNote::NoBrackets
        }
        (_, [b'/', ..]) => TextNote::Division(notation),
        (Notation::OpenFormula, [b',', ..]) => TextNote::Comma,
        (_, [b'!', b'=', ..]) => TextNote::Comparison("not equal is written <>"),
        (_, [b'=', ..]) if matches!(last_of(front), Some(b'=')) => {
            TextNote::Comparison("equal is written =")
        }
        (_, [b'"' | b'\'', ..]) => TextNote::Quote,
        (_, [b'^' | b'&' | b'%' | b'!', ..]) => TextNote::NoOperator,
        _ => due_after(notation, front),
    }
}

// What there is to say of the end of a text.
fn end_note<'a>(notation: Notation, text: &'a [u8]) -> TextNote<'a> {
    if !is_formula(text) {
        return constant_note(text);
    }
    match due_after(notation, text) {
        TextNote::OperatorInside(_) => TextNote::Close,
        due => due,
    }
}

// What there is to say of a name that is no function's.
fn name_note<'a>(notation: Notation, rest: &'a [u8]) -> TextNote<'a> {
    if notation == Notation::OpenFormula && begins_reference(rest) {
        TextNote::NoBrackets
    } else {
        TextNote::Unknown(name_at(rest))
    }
}

/// What there is to say of a fault of this kind that stands at this byte of a text in this notation.
pub fn note_of<'a>(
    notation: Notation,
    text: &'a [u8],
    kind: FaultKind,
    offset: usize,
) -> TextNote<'a> {
    let front = text.get(..offset).unwrap_or(text);
    let rest = text.get(offset..).unwrap_or(&[]);
    match kind {
        FaultKind::TooLong if text.len() <= offset => TextNote::TooLongOpened,
        FaultKind::TooLong => TextNote::TooLong(offset),
        FaultKind::BadToken => token_note(notation, text, front, rest),
        FaultKind::NotWhole => TextNote::NotWhole,
        FaultKind::NumberTooLarge => TextNote::NumberTooLarge,
        FaultKind::UnknownFunction => name_note(notation, rest),
        FaultKind::WrongArguments => match Function::named(name_at(rest)) {
            Some(function) => TextNote::Arguments(function),
            None => TextNote::Unknown(name_at(rest)),
        },
        FaultKind::OutsideSheet => TextNote::OutsideSheet,
        FaultKind::RangeNotAllowed => TextNote::RangeNotAllowed,
        FaultKind::TooDeep => TextNote::TooDeep,
        FaultKind::Unfinished => end_note(notation, text),
        FaultKind::NoMemory => TextNote::NoMemory,
    }
}

// The kinds of faults, each known by its name.
const KINDS: [FaultKind; 11] = [
    FaultKind::TooLong,
    FaultKind::BadToken,
    FaultKind::NotWhole,
    FaultKind::NumberTooLarge,
    FaultKind::UnknownFunction,
    FaultKind::WrongArguments,
    FaultKind::OutsideSheet,
    FaultKind::RangeNotAllowed,
    FaultKind::TooDeep,
    FaultKind::Unfinished,
    FaultKind::NoMemory,
];

/// The kind of fault that has this name.
pub fn kind_named(name: &str) -> Option<FaultKind> {
    KINDS.iter().find(|kind| kind.name() == name).copied()
}

// What parts the arguments of a function.
fn separator(notation: Notation) -> char {
    match notation {
        Notation::OpenFormula => ';',
        Notation::A1 => ',',
    }
}

// Says that a name is no function's, what stands for it or is near, and which names are.
fn write_unknown<W: fmt::Write>(name: &[u8], f: &mut fmt::Formatter<W>) -> fmt::Result {
    write_part(name, f)?;
    f.write_str(" is unknown")?;
    match (instead(name), near(name)) {
        (Some(here), _) => write!(f, ": {here}")?,
        (None, Some(function)) => write!(f, ": {} is near", function.name())?,
        (None, None) => {}
    }
    f.write_str("; known are ")?;
    write_known(f)
}

impl fmt::Display for TextNote<'_> {
    fn fmt<W: fmt::Write>(&self, f: &mut fmt::Formatter<W>) -> fmt::Result {
        match self {
            TextNote::NoBrackets => f.write_str("references are written [.A1]; --a1 reads A1"),
            TextNote::Bracket => f.write_str("with --a1 references are written A1"),
            TextNote::TooLongOpened => {
                write!(f, "written as [.A1] it has more than {TEXT_LIMIT} bytes")
            }
            TextNote::TooLong(most) => write!(f, "a text has at most {most} bytes"),
            TextNote::NoNumber => f.write_str("no number; a formula begins with ="),
            TextNote::NotDigits => f.write_str("a number has nothing but digits after its sign"),
            TextNote::NotWhole => f.write_str("numbers are whole"),
            TextNote::NumberTooLarge => write!(f, "numbers are from {} to {}", i64::MIN, i64::MAX),
            TextNote::Unknown(name) => write_unknown(name, f),
            TextNote::Arguments(function) => {
                write!(f, "{} takes {}", function.name(), arguments_of(*function))
            }
            TextNote::OutsideSheet => f.write_str("the sheet has no such cell"),
            TextNote::RangeNotAllowed => {
                f.write_str("a range is a whole argument of SUM, MIN, MAX, COUNT, AND or OR")
            }
            TextNote::TooDeep => {
                write!(
                    f,
                    "a formula has at most {NODE_LIMIT} nodes and depth {DEPTH_LIMIT}"
                )
            }
            TextNote::Division(notation) => {
                let mark = separator(*notation);
                write!(
                    f,
                    "no / here: QUOTIENT(1{mark}2), or MOD(1{mark}2) for the remainder"
                )
            }
            TextNote::Comma => f.write_str("; parts arguments; --a1 reads commas"),
            TextNote::Comparison(how) => f.write_str(how),
            TextNote::Quote => f.write_str("formulas have no texts"),
            TextNote::NoOperator => f.write_str("operators are + - * = <> < > <= and >="),
            TextNote::Reference => f.write_str("a reference is written [.A1], a range [.A1:.B3]"),
            TextNote::Operand => {
                f.write_str("a number, a reference, a function or ( could stand here")
            }
            TextNote::Operator => f.write_str("an operator or the end could stand here"),
            TextNote::OperatorInside(notation) => {
                let mark = separator(*notation);
                write!(f, "an operator, {mark} or ) could stand here")
            }
            TextNote::Open => f.write_str("( stands after a function's name"),
            TextNote::Close => f.write_str(") is missing"),
            TextNote::NoMemory => f.write_str("out of memory"),
        }
    }
}
