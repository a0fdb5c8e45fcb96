//! Names of functions, and what stands for those that there are not.

use ds_formula::content::Function;
use std::fmt;

// All functions, as they are listed.
const KNOWN: [Function; 11] = [
    Function::Sum,
    Function::Min,
    Function::Max,
    Function::Count,
    Function::And,
    Function::Or,
    Function::Not,
    Function::Abs,
    Function::Mod,
    Function::Quotient,
    Function::If,
];

// Names that other programs know, each with what stands for it here.
const ELSEWHERE: [(&str, &str); 14] = [
    ("AVERAGE", "a mean is the QUOTIENT of a SUM and a COUNT"),
    ("COUNTA", "COUNT counts numbers"),
    ("COUNTIF", "a COUNT of cells, each with an IF"),
    ("DIV", "QUOTIENT divides"),
    ("FALSE", "it is 0"),
    ("IFERROR", "no function takes an error"),
    ("INT", "numbers are whole"),
    ("POWER", "a power is written with *"),
    ("PRODUCT", "a product is written with *"),
    ("ROUND", "numbers are whole"),
    ("SUMIF", "a SUM of cells, each with an IF"),
    ("TRUE", "it is 1"),
    ("TRUNC", "numbers are whole"),
    ("VLOOKUP", "a cell is named by its reference"),
];

// How many bytes two names begin with alike, in letters of either case.
fn alike(one: &[u8], other: &[u8]) -> usize {
    one.iter()
        .zip(other)
        .take_while(|(left, right)| left.eq_ignore_ascii_case(right))
        .count()
}

// What is left of two names after what they begin with alike.
fn unlike_parts<'a>(one: &'a [u8], other: &'a [u8]) -> (&'a [u8], &'a [u8]) {
    let count = alike(one, other);
    (
        one.get(count..).unwrap_or(&[]),
        other.get(count..).unwrap_or(&[]),
    )
}

// Whether two names have the same end from these bytes on.
fn end_alike(one: Option<&[u8]>, other: Option<&[u8]>) -> bool {
    match (one, other) {
        (Some(one), Some(other)) => one.eq_ignore_ascii_case(other),
        _ => false,
    }
}

// Whether a name is another one but for one byte that is wrong, missing or too much, or two that are swapped.
fn is_near(name: &[u8], other: &[u8]) -> bool {
    let (own, wanted) = unlike_parts(name, other);
    end_alike(own.get(1..), wanted.get(1..))
        || end_alike(own.get(1..), Some(wanted))
        || end_alike(Some(own), wanted.get(1..))
        || is_swapped(own, wanted)
}

fn is_swapped(own: &[u8], wanted: &[u8]) -> bool {
    match (own, wanted) {
        ([first, second, own @ ..], [third, fourth, wanted @ ..]) => {
            first.eq_ignore_ascii_case(fourth)
                && second.eq_ignore_ascii_case(third)
                && own.eq_ignore_ascii_case(wanted)
        }
        _ => false,
    }
}

/// The function whose name is near this one, which is none.
pub(crate) fn near(name: &[u8]) -> Option<Function> {
    KNOWN
        .iter()
        .find(|function| is_near(name, function.name().as_bytes()))
        .copied()
}

/// What stands here for a name that other programs know.
pub(crate) fn instead(name: &[u8]) -> Option<&'static str> {
    ELSEWHERE
        .iter()
        .find(|(known, _)| known.as_bytes().eq_ignore_ascii_case(name))
        .map(|(_, here)| *here)
}

/// Writes the names of all functions.
pub(crate) fn write_known<W: fmt::Write>(f: &mut fmt::Formatter<W>) -> fmt::Result {
    for (place, function) in KNOWN.iter().enumerate() {
        let between = if place == 0 {
            ""
        } else if place + 1 == KNOWN.len() {
            " and "
        } else {
            ", "
        };
        write!(f, "{between}{}", function.name())?;
    }
    Ok(())
}

/// How many arguments a function takes.
pub(crate) fn arguments_of(function: Function) -> &'static str {
    match function {
        Function::Sum
        | Function::Min
        | Function::Max
        | Function::Count
        | Function::And
        | Function::Or => "one argument or more",
        Function::Abs | Function::Not => "one argument",
        Function::Mod | Function::Quotient => "two arguments",
        Function::If => "two or three arguments",
    }
}
