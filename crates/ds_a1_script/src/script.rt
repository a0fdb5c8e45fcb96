//! Scripts whose formulas are in A1 notation.

ghost use Rattle.std.specs.Prelude.{◌≡◌, ◌++◌, ◌∷◌, [], IfOk, None, OnOk};
ghost use Rattle.ds_a1_script.specs.OpenScripts.{OpensScript};

use crate::lines::Commands;
use crate::opening::open_line;
use ds_formula::fault::{FaultKind, TextFault};
use ds_script_io::line::{NextLine, next_line};
use std::alloc::{AllocError, Global};

/// A line of a script whose text is refused.
#[derive(Clone, Copy, Debug, PartialEq, Eq)]
pub struct RefusedLine {
    /// Which line it is, from 1.
    pub line: usize,
    /// The fault of its text.
    pub fault: TextFault,
}

/// A script in OpenFormula.
#[derive(Debug, Drop)]
pub struct OpenScript {
    /// Its lines, each ended by a line feed, up to the first whose text is refused.
    pub text: Vec<u8>,
    /// That line, where there is one.
    pub refused: Option<RefusedLine>,
}

// Appends a line and its end.
fn add_line(text: &mut Vec<u8>, line: &[u8]) -> Result<(), AllocError>
    ensures { OnOk result (text.new.items ≡ text.old.items ++ (line.now ++ (10 ∷ []))) }
{
    text.extend_from_slice(line)?;
    text.push(b'\n')?;
    Ok(())
}

// A script that ends with what is left of it.
fn ended(mut text: Vec<u8>, rest: &[u8]) -> Result<OpenScript, AllocError>
    ensures { IfOk result (λ open_script. (open_script.text.items ≡ text.items ++ rest.now) × (open_script.refused ≡ None)) }
{
    text.extend_from_slice(rest)?;
    let refused = None;
    Ok(OpenScript { text, refused })
}

/// A script with formulas in A1 notation, in OpenFormula: each line with its text in the place of the one it had, and ended
/// by a line feed alone, up to the first line whose text is refused. A line of more than 512 bytes, at which a script ends,
/// and what is after it stay as they stand. An error means that an allocation failed.
pub fn open_script(alloc: Global, script: &[u8]) -> Result<OpenScript, AllocError>
    ensures { IfOk result (λ open_script. OpensScript 0 script.now open_script.text.items open_script.refused) }
{
    let mut text = Vec::new(alloc);
    let mut rest = script;
    let mut lines = 0;
    'lines: loop {
        match next_line(rest, true) {
            NextLine::Line(line, left) => match open_line(alloc, Commands::OfScript, line) {
                Ok(open) => {
                    add_line(&mut text, &open)?;
                    lines += 1;
                    rest = left;
                }
                Err(fault) => match fault.kind {
                    FaultKind::NoMemory => return Err(AllocError),
                    _ => {
                        let line = lines + 1;
                        let refused = Some(RefusedLine { line, fault });
                        return Ok(OpenScript { text, refused });
                    }
                },
            },
            NextLine::Nothing => return ended(text, rest),
            NextLine::TooLong => return ended(text, rest),
        }
    }
}
