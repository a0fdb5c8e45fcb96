//! What a cell holds.

use crate::cells::{Cell, Rect};

/// What a cell holds: nothing (OpenFormula 4.7), a number (4.3) or a formula (5.2).
#[derive(Debug, Drop)]
pub enum Content {
    /// Nothing: the empty text.
    Blank,
    /// A constant, a whole number.
    Number(i64),
    /// A formula, evaluated when the sheet is calculated.
    Formula(Tree),
}

/// The expression of a formula. Parentheses leave no node.
#[derive(Debug, Drop)]
pub enum Tree {
    /// A number as it is written: the reader gives none below 0.
    Number(i64),
    /// A reference to one cell, as `[.A1]`.
    Reference(Cell),
    /// A range of cells, as `[.A1:.B3]`.
    Range(Rect),
    /// A sign before an operand.
    Prefix(Sign, Box<Tree>),
    /// An operator between two operands.
    Binary(Operator, Box<Tree>, Box<Tree>),
    /// A function and its arguments, in the order in which they are written.
    Call(Function, Vec<Tree>),
}

/// A prefix operator (OpenFormula 6.4.14 and 6.4.15).
#[derive(Clone, Copy, Debug, PartialEq, Eq)]
pub enum Sign {
    /// `+`: the operand as a number.
    Plus,
    /// `-`: the operand with the other sign.
    Minus,
}

/// An infix operator (OpenFormula 6.4.2 to 6.4.4 and 6.4.7 to 6.4.9).
#[derive(Clone, Copy, Debug, PartialEq, Eq)]
pub enum Operator {
    /// `*`.
    Multiply,
    /// `+`.
    Add,
    /// `-`.
    Subtract,
    /// `=`.
    Equal,
    /// `<>`.
    NotEqual,
    /// `<`.
    Less,
    /// `>`.
    Greater,
    /// `<=`.
    LessOrEqual,
    /// `>=`.
    GreaterOrEqual,
}

/// A function (OpenFormula 6.13, 6.15, 6.16 and 6.18).
#[derive(Clone, Copy, Debug, PartialEq, Eq)]
pub enum Function {
    /// `SUM`: the sum of its numbers.
    Sum,
    /// `MIN`: the least of its numbers.
    Min,
    /// `MAX`: the greatest of its numbers.
    Max,
    /// `ABS`: the absolute value.
    Abs,
    /// `MOD`: the remainder, with the sign of the divisor.
    Mod,
    /// `QUOTIENT`: the whole part of a division.
    Quotient,
    /// `IF`: one of two branches, by a condition.
    If,
    /// `COUNT`: how many numbers there are.
    Count,
    /// `AND`: whether none of its numbers is 0.
    And,
    /// `OR`: whether some of its numbers is not 0.
    Or,
    /// `NOT`: whether its number is 0.
    Not,
}
