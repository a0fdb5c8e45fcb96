//! What is wrong with a text.

use std::fmt;

/// Why a text is refused: the numbers from 1 to 11 are in the order of the variants.
#[derive(Clone, Copy, Debug, PartialEq, Eq)]
pub enum FaultKind {
    /// More than 240 bytes, or than a sheet has room for in its layout of words. The offset is that limit.
    TooLong,
    /// A byte that cannot stand where it stands.
    BadToken,
    /// A `.`, `e` or `E` directly after the digits of a number or of a constant.
    NotWhole,
    /// A number out of range. The offset is that of its first digit.
    NumberTooLarge,
    /// A name that is no function's. The offset is that of its first byte.
    UnknownFunction,
    /// A function with a wrong number of arguments. The offset is that of its name.
    WrongArguments,
    /// A reference to a cell outside the sheet. The offset is that of its `[`.
    OutsideSheet,
    /// A range that is no whole argument of SUM, MIN or MAX. The offset is that of its `[`.
    RangeNotAllowed,
    /// More than 64 nodes, or deeper than 16. The offset is 0.
    TooDeep,
    /// The text ends where it may not. The offset is its length.
    Unfinished,
    /// An allocation failed. The offset is 0.
    NoMemory,
}

/// A fault and the byte that it stands at, from 0.
#[derive(Clone, Copy, Debug, PartialEq, Eq)]
pub struct TextFault {
    /// What is wrong.
    pub kind: FaultKind,
    /// How many bytes of the text stand before it.
    pub offset: usize,
}
