//! Lines whose texts are in A1 notation.

ghost use Rattle.std.specs.Prelude.{◌≡◌, ◌-◌, ◌++◌, IfOk, length, take};
ghost use Rattle.ds_a1_script.specs.OpenScripts.{IsOrNoMemory, LineOpensAs};

use crate::lines::{Commands, line_text};
use ds_a1::texts::to_open;
use ds_formula::fault::{FaultKind, TextFault};
use std::alloc::{AllocError, Global};

// A line with this in the place of its text.
fn with_text(alloc: Global, line: &[u8], text: &[u8], opened: &[u8]) -> Result<Vec<u8>, AllocError>
    ensures { IfOk result (λ v. v.items ≡ take (length line.now - length text.now) line.now ++ opened.now) }
{
    let front = line.len().saturating_sub(text.len());
    let mut new = Vec::from_slice(alloc, &line[..front])?;
    new.extend_from_slice(opened)?;
    Ok(new)
}

// A new line, or that memory ran out.
fn or_no_memory(line: Result<Vec<u8>, AllocError>) -> Result<Vec<u8>, TextFault>
    ensures { IsOrNoMemory line result }
{
    match line {
        Ok(line) => Ok(line),
        Err(_) => Err(TextFault {
            kind: FaultKind::NoMemory,
            offset: 0,
        }),
    }
}

/// A line with its text, where it has one, in OpenFormula; the words before the text stay as they are. The faults are those
/// of `ds_a1::texts::to_open`, whose offsets are of the text.
pub fn open_line(alloc: Global, commands: Commands, line: &[u8]) -> Result<Vec<u8>, TextFault>
    ensures { LineOpensAs commands line.now result }
{
    match line_text(commands, line) {
        Some(text) => match to_open(alloc, text) {
            Ok(open) => or_no_memory(with_text(alloc, line, text, &open)),
            Err(fault) => Err(fault),
        },
        None => or_no_memory(Vec::from_slice(alloc, line)),
    }
}
