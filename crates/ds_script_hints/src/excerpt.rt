//! A line as it is shown beside what is wrong with it.

use crate::hint::{Hint, hint_at, layout_of, line_at};
use ds_script_io::ending::ScriptFault;
use std::fmt;

// How many bytes of a line are shown before the wrong word, and in all.
const BEFORE: usize = 48;

const MOST: usize = 72;

/// A line of a script that is wrong, with a caret below the word that is, and what was expected there. What cannot be
/// printed of it is shown as `?`, and of a long line only what stands around the word.
#[derive(Clone, Copy, Debug)]
pub struct Excerpt<'a> {
    line: &'a [u8],
    hint: Hint,
}

/// The excerpt of a script that ended in its line of this number, from 1, with this fault; none where there is nothing to
/// say beside the fault.
pub fn excerpt_of(script: &[u8], number: usize, fault: ScriptFault) -> Option<Excerpt<'_>> {
    let line = line_at(script, number)?;
    let hint = hint_at(&layout_of(script), line, fault)?;
    Some(Excerpt { line, hint })
}

// A byte as it is shown.
fn shown(byte: u8) -> char {
    if byte.is_ascii_graphic() || byte == b' ' {
        char::from(byte)
    } else {
        '?'
    }
}

/// Writes bytes as they are shown.
pub(crate) fn write_part<W: fmt::Write>(part: &[u8], f: &mut fmt::Formatter<W>) -> fmt::Result {
    for byte in part {
        f.write_char(shown(*byte))?;
    }
    Ok(())
}

/// Writes what stands in a line around this byte, and below it a caret.
pub(crate) fn write_marked<W: fmt::Write>(
    line: &[u8],
    offset: usize,
    f: &mut fmt::Formatter<W>,
) -> fmt::Result {
    let from = offset.saturating_sub(BEFORE);
    let part = line.get(from..).unwrap_or(&[]);
    let part = part.get(..MOST).unwrap_or(part);
    f.write_str("    ")?;
    write_part(part, f)?;
    let column = offset.saturating_sub(from) + 5;
    write!(f, "\n{:>column$}", '^')
}

impl fmt::Display for Excerpt<'_> {
    fn fmt<W: fmt::Write>(&self, f: &mut fmt::Formatter<W>) -> fmt::Result {
        write_marked(self.line, self.hint.offset, f)?;
        write!(f, " expected: {}", self.hint)
    }
}
