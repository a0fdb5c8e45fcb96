//! Reads what a cell holds from its text.

ghost use Rattle.std.specs.Prelude.{◌≡◌, ℕ, ◌≤◌, ◌<◌, ◌^◌, ◌-◌, ◌↔◌, IsTrue, List, IfOk, IfErr, pos, neg_ℤ, option_map};
ghost use Rattle.ds_formula.specs.declared.cells.Shape.{Shape};
ghost use Rattle.ds_formula.specs.Bytes.{result_of};
ghost use Rattle.ds_formula.specs.Ranges.{misplaced};
ghost use Rattle.ds_formula.specs.declared.cells.Cell.{Cell};
ghost use Rattle.ds_formula.specs.Cells.{IsInside};
ghost use Rattle.ds_formula.specs.Plain.{PlainContent, formula, plain};
ghost use Rattle.ds_formula.specs.Refs.{Refers};
ghost use Rattle.ds_formula.specs.Sizes.{Fits};
ghost use Rattle.ds_formula.specs.Limits.{COLUMNS_MOST, ROWS_MOST, CELLS_MOST, TEXT_MOST, NODES_MOST, DEPTH_MOST};
ghost use Rattle.ds_formula.specs.declared.cells.TheConstants as shapes;
ghost use Rattle.ds_formula.specs.declared.reading.TheConstants as constants;
ghost use Rattle.ds_formula.specs.Parsing.{IsAccepted, IsRefused};
ghost use Rattle.ds_formula.specs.Grammar.{whole_of, constant_of, without_equals, expression_of, placed, Reads, Answers, OneAnswer};

use crate::cells::Shape;
use crate::content::{Content, Tree};
use crate::fault::{FaultKind, TextFault};
use crate::parser::{Parsed, Refusal, expression};
use crate::ranges::Ranges;
use crate::tokens::{Stop, begins, number, unexpected};
use std::alloc::Global;

/// How many bytes a text may have.
pub const TEXT_LIMIT: usize = 240;

/// How many nodes the tree of a formula may have.
pub const NODE_LIMIT: usize = 64;

/// How deep the tree of a formula may be: a number has depth 1.
pub const DEPTH_LIMIT: usize = 16;

// A number and nothing after it.
#[tactic(auto, unfolding(crate::specs::Grammar::whole_of))]
fn whole(limit: u64, text: &[u8]) -> Result<u64, Stop>
    requires { limit < 2 ^ 64 - 1 }
    ensures is { result_of (λ n. n) result ≡ whole_of limit text.now }
    ensures at_most { IfOk result (λ n. n ≤ limit) }
{
    let (value, rest) = number(limit, text)?;
    match rest {
        [] => Ok(value),
        [_, ..] => Err(unexpected(rest)),
    }
}

// Minus a number, also where that is the least one.
fn negated(magnitude: u64) -> i64
    requires { magnitude ≤ 2 ^ 63 }
    ensures { result ≡ neg_ℤ (pos magnitude) }
{
    if magnitude == 0 {
        0
    } else {
        -((magnitude - 1) as i64) - 1
    }
}

#[tactic(auto, unfolding(crate::specs::Grammar::constant_of))]
fn constant(text: &[u8]) -> Result<i64, Stop>
    ensures { result_of (λ z. z) result ≡ constant_of text.now }
{
    if begins(b'-', text) {
        let magnitude = whole(1 << 63, &text[1..])?;
        Ok(negated(magnitude))
    } else if begins(b'+', text) {
        let value = whole(i64::MAX as u64, &text[1..])?;
        Ok(value as i64)
    } else {
        let value = whole(i64::MAX as u64, text)?;
        Ok(value as i64)
    }
}

fn without_equals(text: &[u8]) -> &[u8]
    ensures { result.now ≡ without_equals text.now }
{
    match text {
        [b'=', rest @ ..] => rest,
        _ => text,
    }
}

// The expression of a text that is a formula.
#[tactic(auto, unfolding(crate::specs::Grammar::expression_of))]
fn expression_of(text: &[u8]) -> Option<&[u8]>
    ensures { option_map (λ r. r.now) result ≡ expression_of text.now }
{
    match text {
        [b'=', rest @ ..] => Some(without_equals(rest)),
        [b'o', b'f', b':', b'=', rest @ ..] => Some(without_equals(rest)),
        _ => None,
    }
}

fn placed(text: &[u8], stop: Stop) -> TextFault
    ensures { result ≡ placed text.now stop }
{
    TextFault {
        kind: stop.kind,
        offset: text.len().saturating_sub(stop.left),
    }
}

// The place of the leftmost range that stands where none may.
fn misplaced(ranges: Ranges) -> Option<usize>
    ensures { result ≡ misplaced ranges }
{
    match ranges {
        Ranges::Placed => None,
        Ranges::Bare(left) | Ranges::Misplaced(left) => Some(left),
    }
}

fn fits(tree: &Tree) -> bool
    ensures { IsTrue result ↔ Fits (formula tree.now) }
{
    tree.nodes() <= NODE_LIMIT && tree.depth() <= DEPTH_LIMIT
}

/// Reads what a cell holds from its text: an empty text is blank, a text that begins with `=` or `of:=` is a formula
/// (OpenFormula 5.2), any other one a constant.
///
/// The first fault from the left is answered: `TooLong` before all else, then what is wrong with a token, then
/// `RangeNotAllowed`, then `TooDeep`. `NoMemory` is answered to formulas within the limit of length alone, and says no more
/// of the text.
pub fn read_content(alloc: Global, shape: &Shape, text: &[u8]) -> Result<Content, TextFault>
    ensures { Answers shape.now text.now result }
{
    if text.len() > TEXT_LIMIT {
        return Err(TextFault {
            kind: FaultKind::TooLong,
            offset: TEXT_LIMIT,
        });
    }
    if text.is_empty() {
        return Ok(Content::Blank);
    }
    let Some(body) = expression_of(text) else {
        return match constant(text) {
            Ok(number) => Ok(Content::Number(number)),
            Err(stop) => Err(placed(text, stop)),
        };
    };
    match expression(alloc, shape, body) {
        Ok(parsed) => accepted(text, parsed),
        Err(Refusal::Memory) => Err(TextFault {
            kind: FaultKind::NoMemory,
            offset: 0,
        }),
        Err(Refusal::Stopped(stop)) => Err(placed(text, stop)),
    }
}

// The content of a text whose expression was read, where its ranges and its size allow it.
fn accepted(text: &[u8], parsed: Parsed) -> Result<Content, TextFault>
    ensures ok { IfOk result (λ c. IsAccepted parsed.ranges (formula parsed.tree) (plain c)) }
    ensures err { IfErr result (λ e. IsRefused text.now parsed.ranges (formula parsed.tree) e) }
{
    if let Some(left) = misplaced(parsed.ranges) {
        return Err(placed(
            text,
            Stop {
                kind: FaultKind::RangeNotAllowed,
                left,
            },
        ));
    }
    if !fits(&parsed.tree) {
        return Err(TextFault {
            kind: FaultKind::TooDeep,
            offset: 0,
        });
    }
    Ok(Content::Formula(parsed.tree))
}

/// Each text has one content or one fault, and never both.
pub fn one_answer()
    ensures { (shape : Shape) (text : List ℕ) → OneAnswer shape text }
{}

/// Every cell written in a content that was read is one of the sheet.
pub fn read_is_inside()
    ensures { (shape : Shape) (text : List ℕ) (content : PlainContent) (cell : Cell) → Reads shape text content → Refers content cell → IsInside shape cell }
{}

/// The constants of this crate are the limits of the definitions.
pub fn constants_are_limits()
    ensures columns { shapes.COLUMN_LIMIT ≡ COLUMNS_MOST }
    ensures rows { shapes.ROW_LIMIT ≡ ROWS_MOST }
    ensures cells { shapes.CELL_LIMIT ≡ CELLS_MOST }
    ensures text { constants.TEXT_LIMIT ≡ TEXT_MOST }
    ensures nodes { constants.NODE_LIMIT ≡ NODES_MOST }
    ensures depth { constants.DEPTH_LIMIT ≡ DEPTH_MOST }
{}
