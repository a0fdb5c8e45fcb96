//! What a process of a store has done, as its clients count it, and the line that says so.

ghost use Rattle.std.specs.Prelude.{◌≡◌, ◌<◌, IfOk, IfErr, IfSome, Some, option_map, true, false};
ghost use Rattle.ds_store_journal.specs.Faults.{IsUnwritten, MayStand};
ghost use Rattle.ds_store_journal.specs.Written.{before_text};
ghost use Rattle.std.specs.String.{string_bytes};
ghost use Rattle.ds_script_io.specs.Fields.{field_view, is_skipped, number_below, number_field};
ghost use Rattle.ds_store_journal.specs.Standings.{EDITS_LIMIT as EDITS_MOST, before_in, last_in};

use crate::fault::JournalFault;
use crate::journal::after;
use ds_formula::cells::{Cell, Shape};
use ds_formula::decimal::digits;
use ds_layout::layout::Layout;
use ds_script_io::fields::{is_skipped, named, numbered};
use ds_script_io::line::word;
use std::alloc::{AllocError, Global};

/// Below how many edits of a process are counted: 2^53, where numbers of JSON are exact.
pub const EDITS_LIMIT: usize = 9_007_199_254_740_992;

/// What a process has done, as its clients count it: in all sheets of a store, one after another.
#[derive(Clone, Copy, Debug, PartialEq, Eq)]
pub struct Standing {
    /// How many edits it has made.
    pub edits: usize,
    /// The cell of the last one, where it has made one.
    pub last: Option<Cell>,
}

/// What a line says of a process.
#[derive(Clone, Copy, Debug, PartialEq, Eq)]
pub struct Mention {
    /// The process, below those of the sheet.
    pub process: usize,
    /// How it stood before the line.
    pub standing: Standing,
}

// The count of edits that a word gives.
fn edits_in(word: &[u8]) -> Option<usize>
    ensures { result ≡ number_below EDITS_MOST word.now }
{
    let (value, rest) = digits(word);
    if word.is_empty() || !rest.is_empty() || value >= EDITS_LIMIT as u64 {
        None
    } else {
        Some(value as usize)
    }
}

/// A count of edits, below 2^53, that is the next word, and what is after it.
pub fn counted<'a>(rest: Option<&'a [u8]>) -> Option<(usize, Option<&'a [u8]>)>
    ensures { option_map field_view result ≡ number_field EDITS_MOST (option_map (λ r. r.now) rest.entry) }
{
    let (first, rest) = word(rest?);
    Some((edits_in(first)?, rest))
}

// How a process stands with that many edits, where the rest of a line names the cell of the last one.
fn last(shape: &Shape, edits: usize, rest: Option<&[u8]>) -> Option<Standing>
    ensures { result ≡ last_in shape.now edits (option_map (λ r. r.now) rest.entry) }
{
    if edits == 0 {
        return if rest.is_none() {
            Some(Standing { edits, last: None })
        } else {
            None
        };
    }
    let (cell, rest) = named(shape, rest)?;
    if rest.is_some() {
        return None;
    }
    Some(Standing {
        edits,
        last: Some(cell),
    })
}

/// What a line says of a process, where it says how one stood: `# before PROCESS EDITS CELL`.
pub fn read_before(layout: &Layout, line: &[u8]) -> Option<Mention>
    ensures says { result ≡ before_in layout.now line.now }
    ensures inside { IfSome result (λ mention. mention.process < layout.now.processes) }
{
    let rest = after(b"before", after(b"#", line)?);
    let (process, rest) = numbered(layout.processes, rest)?;
    let (edits, rest) = counted(rest)?;
    let standing = last(&layout.shape, edits, rest)?;
    Some(Mention { process, standing })
}

// Whether a line says this of a process, and is skipped.
fn says(layout: &Layout, line: &[u8], mention: &Mention) -> bool
    ensures says { result ≡ true → (is_skipped line.now ≡ true) × (before_in layout.now line.now ≡ Some mention.now) }
    ensures other { result ≡ false → is_skipped line.now ≡ true → before_in layout.now line.now ≡ Some mention.now → ⊥ }
{
    is_skipped(line) && read_before(layout, line) == Some(*mention)
}

// The line that says this of a process, as yet unread.
fn before_text(alloc: Global, mention: &Mention) -> Result<String, AllocError>
    ensures { IfOk result (λ line. string_bytes line ≡ before_text mention.now) }
{
    let Mention { process, standing } = *mention;
    match standing.last {
        Some(cell) => format!(in alloc; "# before {process} {} {cell}", standing.edits),
        None => format!(in alloc; "# before {process} {}", standing.edits),
    }
}

/// The line that says how a process stood. It was read again, and says so. The fault is that it does not, as of a process
/// or a cell that the sheet has not, or that an allocation failed.
pub fn before_line(
    alloc: Global,
    layout: &Layout,
    mention: &Mention,
) -> Result<String, JournalFault>
    ensures text { IfOk result (λ line. string_bytes line ≡ before_text mention.now) }
    ensures says { IfOk result (λ line. (is_skipped (string_bytes line) ≡ true) × (before_in layout.now (string_bytes line) ≡ Some mention.now)) }
    ensures unwritten { IfErr result (IsUnwritten (MayStand layout.now mention.now)) }
{
    let line = before_text(alloc, mention)?;
    if says(layout, line.as_bytes(), mention) {
        Ok(line)
    } else {
        Err(JournalFault::Other)
    }
}
