//! Reads the words of a line: numbers and cells.

ghost use Rattle.std.specs.Prelude.{◌≡◌, ◌-◌, ◌<◌, ◌≤◌, ◌^◌, ℕ, min, option_map, IfSome, IfOk};
ghost use Rattle.ds_script_io.specs.Fields.{number_below, field_view, number_field, cell_field, is_skipped};
ghost use Rattle.ds_formula.specs.Cells.{IsInside};
ghost use Rattle.ds_formula.specs.Limits.{CELLS_MOST};

use crate::line::word;
use ds_formula::cells::{Cell, Shape};
use ds_formula::decimal::digits;

// A number in digits alone, leading zeros allowed, below the limit.
fn number(limit: usize, word: &[u8]) -> Option<usize>
    requires { limit ≤ CELLS_MOST }
    ensures value { result ≡ number_below limit word.now }
    ensures below { IfSome result (λ n. n < limit) }
{
    let (value, rest) = digits(word);
    if word.is_empty() || !rest.is_empty() || value >= limit as u64 {
        None
    } else {
        Some(value as usize)
    }
}

/// A number below the limit that is the next word, and what is after it.
pub fn numbered<'a>(limit: usize, rest: Option<&'a [u8]>) -> Option<(usize, Option<&'a [u8]>)>
    requires { limit ≤ CELLS_MOST }
    ensures value { option_map field_view result ≡ number_field limit (option_map (λ r. r.now) rest.entry) }
    ensures below { IfSome result (λ x. x.0 < limit) }
{
    let (first, rest) = word(rest?);
    Some((number(limit, first)?, rest))
}

/// A cell that is the next word, and what is after it.
pub fn named<'a>(shape: &Shape, rest: Option<&'a [u8]>) -> Option<(Cell, Option<&'a [u8]>)>
    ensures value { option_map field_view result ≡ cell_field shape.now (option_map (λ r. r.now) rest.entry) }
    ensures inside { IfSome result (λ x. IsInside shape.now x.0) }
{
    let (first, rest) = word(rest?);
    Some((shape.named(first)?, rest))
}

/// Whether the line is empty or a comment.
pub fn is_skipped(line: &[u8]) -> bool
    ensures { result ≡ is_skipped line.now }
{
    matches!(line, [] | [b'#', ..])
}
