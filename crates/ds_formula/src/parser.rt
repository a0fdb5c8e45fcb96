//! Reads the expression of a formula.

ghost use Rattle.std.specs.Prelude.{◌≡◌, ◌≤◌, ◌<◌, IfOk, IfErr, IfSome, option_map, length, map};
ghost use Rattle.ds_formula.specs.Plain.{formula, listed, Joined, Signed};
ghost use Rattle.ds_formula.specs.Functions.{scope_of};
ghost use Rattle.ds_formula.specs.Ranges.{used, first_of};
ghost use Rattle.ds_formula.specs.Bytes.{result_of};
ghost use Rattle.ds_formula.specs.Forms.{level_of, leaf_formula, leaf_ranges, Operand, Call, Arguments, Level, Expression};
ghost use Rattle.ds_formula.specs.Parsing.{operator_from, semicolon_at, close_at, end_at, Refuses, CallRefuses, ArgumentsRefuse, WholeRefuses};
ghost use Rattle.ds_formula.specs.declared.parser.Refusal.TheVariants.{Memory, Stopped};

use crate::cells::Shape;
use crate::content::{Function, Operator, Sign, Tree};
use crate::fault::FaultKind;
use crate::ranges::Ranges;
use crate::tokens::{
    Follow, Lead, Leaf, Stop, begins, byte, read_follow, read_lead, skip, unexpected,
};
use std::alloc::{AllocFailed, Global};

/// Why a text gave no expression.
#[derive(Debug, Drop)]
pub enum Refusal {
    /// An allocation failed.
    Memory,
    /// The text goes wrong here.
    Stopped(Stop),
}

impl From<Stop> for Refusal {
    ghost from_gives = { λ s e. e ≡ Stopped s };

    fn from(stop: Stop) -> Refusal {
        Refusal::Stopped(stop)
    }
}

impl<T: Drop> From<AllocFailed<T>> for Refusal {
    ghost from_gives = { λ _ e. e ≡ Memory };

    fn from(_failed: AllocFailed<T>) -> Refusal {
        Refusal::Memory
    }
}

/// An expression, and how its ranges stand.
#[derive(Debug, Drop)]
pub struct Parsed {
    /// The expression.
    pub tree: Tree,
    /// How its ranges stand.
    pub ranges: Ranges,
}

// How tightly it binds.
#[inline(always)]
pub(crate) fn level_of(operator: Operator) -> usize
    ensures value { result ≡ level_of operator }
    ensures few { result < 3 }
{
    match operator {
        Operator::Multiply => 2,
        Operator::Add | Operator::Subtract => 1,
        Operator::Equal
        | Operator::NotEqual
        | Operator::Less
        | Operator::Greater
        | Operator::LessOrEqual
        | Operator::GreaterOrEqual => 0,
    }
}

// The operator of this level or a tighter one at the front, and the bytes after it.
#[inline(always)]
fn operator(level: usize, text: &[u8]) -> Option<(Operator, &[u8])>
    ensures is { option_map (λ x. (x.0, x.1.now)) result ≡ operator_from level text.now }
    ensures shorter { IfSome result (λ x. length x.1.now ≤ length text.now) }
{
    match read_follow(text) {
        Ok((Follow::Infix(operator), rest)) if level <= level_of(operator) => {
            Some((operator, rest))
        }
        _ => None,
    }
}

// What is after a semicolon at the front.
#[inline(always)]
fn semicolon(text: &[u8]) -> Option<&[u8]>
    ensures is { option_map (λ r. r.now) result ≡ semicolon_at text.now }
    ensures shorter { IfSome result (λ x. length x.now ≤ length text.now) }
{
    match read_follow(text) {
        Ok((Follow::Semicolon, rest)) => Some(rest),
        _ => None,
    }
}

// What is after a closing bracket, which has to come.
#[inline(always)]
fn close(text: &[u8]) -> Result<&[u8], Stop>
    ensures is { result_of (λ r. r.now) result ≡ close_at text.now }
    ensures shorter { IfOk result (λ x. length x.now ≤ length text.now) }
{
    match read_follow(text) {
        Ok((Follow::Close, rest)) => Ok(rest),
        _ => Err(unexpected(skip(text))),
    }
}

// The end, which has to come.
#[inline(always)]
fn end(text: &[u8]) -> Result<&[u8], Stop>
    ensures { result_of (λ r. r.now) result ≡ end_at text.now }
{
    match read_follow(text) {
        Ok((Follow::End, rest)) => Ok(rest),
        _ => Err(unexpected(skip(text))),
    }
}

#[inline(always)]
fn of_leaf(leaf: Leaf) -> Parsed
    ensures tree { formula result.tree ≡ leaf_formula leaf }
    ensures ranges { result.ranges ≡ leaf_ranges leaf }
{
    match leaf {
        Leaf::Number(number) => Parsed {
            tree: Tree::Number(number),
            ranges: Ranges::Placed,
        },
        Leaf::Reference(cell) => Parsed {
            tree: Tree::Reference(cell),
            ranges: Ranges::Placed,
        },
        Leaf::Range(area, left) => Parsed {
            tree: Tree::Range(area),
            ranges: Ranges::Bare(left),
        },
    }
}

fn signed(alloc: Global, sign: Sign, operand: Parsed) -> Result<Parsed, Refusal>
    ensures tree { IfOk result (λ x. formula x.tree ≡ Signed sign (formula operand.tree)) }
    ensures ranges { IfOk result (λ x. x.ranges ≡ used operand.ranges) }
    ensures refused { IfErr result (λ e. e ≡ Memory) }
{
    Ok(Parsed {
        ranges: operand.ranges.used(),
        tree: Tree::Prefix(sign, Box::new(alloc, operand.tree)?),
    })
}

#[inline(always)]
fn joined(alloc: Global, operator: Operator, left: Parsed, right: Parsed) -> Result<Parsed, Refusal>
    ensures tree { IfOk result (λ x. formula x.tree ≡ Joined operator (formula left.tree) (formula right.tree)) }
    ensures ranges { IfOk result (λ x. x.ranges ≡ first_of (used left.ranges) (used right.ranges)) }
    ensures refused { IfErr result (λ e. e ≡ Memory) }
{
    let ranges = left.ranges.used().first_of(right.ranges.used());
    let left = Box::new(alloc, left.tree)?;
    let right = Box::new(alloc, right.tree)?;
    Ok(Parsed {
        tree: Tree::Binary(operator, left, right),
        ranges,
    })
}

// The form of this level at the front, and what is after it: an operand, and each operator of the level or a tighter
// one with a right side that only tighter operators add to (precedence climbing).
#[cycle(parser)]
fn level<'a>(
    alloc: Global,
    shape: &Shape,
    at: usize,
    text: &'a [u8],
) -> Result<(Parsed, &'a [u8]), Refusal>
    requires { at ≤ 3 }
    ensures found { IfOk result (λ x. Level (scope_of shape.now) at text.now (formula x.0.tree) x.0.ranges x.1.now) }
    ensures shorter { IfOk result (λ x. length x.1.now < length text.now) }
    ensures refused { IfErr result (λ e. Refuses (scope_of shape.now) text.now e) }
{
    let (mut left, mut rest) = operand(alloc, shape, text)?;
    while let Some((operator, after)) = operator(at, rest) {
        let (right, behind) = level(alloc, shape, level_of(operator) + 1, after)?;
        left = joined(alloc, operator, left, right)?;
        rest = behind;
    }
    Ok((left, rest))
}

// The operand at the front, after any number of signs, and what is after it.
#[cycle(parser)]
fn operand<'a>(alloc: Global, shape: &Shape, text: &'a [u8]) -> Result<(Parsed, &'a [u8]), Refusal>
    ensures found { IfOk result (λ x. Operand (scope_of shape.now) text.now (formula x.0.tree) x.0.ranges x.1.now) }
    ensures shorter { IfOk result (λ x. length x.1.now < length text.now) }
    ensures refused { IfErr result (λ e. Refuses (scope_of shape.now) text.now e) }
{
    let (lead, rest) = read_lead(shape, text)?;
    match lead {
        Lead::Leaf(leaf) => Ok((of_leaf(leaf), rest)),
        Lead::Prefix(sign) => {
            let (inner, rest) = operand(alloc, shape, rest)?;
            Ok((signed(alloc, sign, inner)?, rest))
        }
        Lead::Open => {
            let (inner, rest) = level(alloc, shape, 0, rest)?;
            let rest = close(rest)?;
            Ok((inner, rest))
        }
        Lead::Name(function, place) => {
            let (trees, ranges, rest) = call(alloc, shape, function, place, rest)?;
            Ok((
                Parsed {
                    tree: Tree::Call(function, trees),
                    ranges,
                },
                rest,
            ))
        }
    }
}

// The arguments of a call after its name, which began at the place, and what is after the call.
#[cycle(parser)]
fn call<'a>(
    alloc: Global,
    shape: &Shape,
    function: Function,
    place: usize,
    text: &'a [u8],
) -> Result<(Vec<Tree>, Ranges, &'a [u8]), Refusal>
    ensures found { IfOk result (λ x. Call (scope_of shape.now) function text.now (listed (map formula x.0.items)) x.1 x.2.now) }
    ensures shorter { IfOk result (λ x. length x.2.now < length text.now) }
    ensures refused { IfErr result (λ e. CallRefuses (scope_of shape.now) function place text.now e) }
{
    let rest = byte(b'(', skip(text))?;
    let wrong = Stop {
        kind: FaultKind::WrongArguments,
        left: place,
    };
    if begins(b')', skip(rest)) {
        return Err(Refusal::Stopped(wrong));
    }
    let (trees, ranges, rest) = arguments(alloc, shape, function, rest)?;
    let rest = close(rest)?;
    if !function.takes(trees.len()) {
        return Err(Refusal::Stopped(wrong));
    }
    Ok((trees, ranges, rest))
}

// Expressions, parted by semicolons, and what is after them.
#[cycle(parser)]
fn arguments<'a>(
    alloc: Global,
    shape: &Shape,
    function: Function,
    text: &'a [u8],
) -> Result<(Vec<Tree>, Ranges, &'a [u8]), Refusal>
    ensures found { IfOk result (λ x. Arguments (scope_of shape.now) function text.now (listed (map formula x.0.items)) x.1 x.2.now) }
    ensures shorter { IfOk result (λ x. length x.2.now < length text.now) }
    ensures refused { IfErr result (λ e. ArgumentsRefuse (scope_of shape.now) text.now e) }
{
    let mut trees = Vec::new(alloc);
    let (first, mut rest) = level(alloc, shape, 0, text)?;
    let mut ranges = first.ranges.as_argument(function);
    trees.push(first.tree)?;
    while let Some(after) = semicolon(rest) {
        let (next, behind) = level(alloc, shape, 0, after)?;
        ranges = ranges.first_of(next.ranges.as_argument(function));
        trees.push(next.tree)?;
        rest = behind;
    }
    Ok((trees, ranges, rest))
}

// The whole text's expression.
pub(crate) fn expression(alloc: Global, shape: &Shape, text: &[u8]) -> Result<Parsed, Refusal>
    ensures found { IfOk result (λ x. Expression (scope_of shape.now) text.now (formula x.tree) x.ranges) }
    ensures refused { IfErr result (λ e. WholeRefuses (scope_of shape.now) text.now e) }
{
    let (parsed, rest) = level(alloc, shape, 0, text)?;
    end(rest)?;
    Ok(parsed)
}
