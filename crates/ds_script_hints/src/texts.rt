//! What is wrong with the text in a line, beside its fault.

use crate::excerpt::write_marked;
use crate::notes::{TextNote, note_of};
use ds_a1::notation::Notation;
use ds_a1::texts::{read_text, to_open};
use ds_a1_script::lines::{Commands, line_text};
use ds_formula::cells::Shape;
use ds_formula::fault::{FaultKind, TextFault};
use std::alloc::Global;
use std::fmt;

/// A line with a caret below the byte of its text that a fault stands at, and what there is to say of it.
#[derive(Clone, Copy, Debug)]
pub struct TextExcerpt<'a> {
    line: &'a [u8],
    offset: usize,
    note: TextNote<'a>,
}

impl fmt::Display for TextExcerpt<'_> {
    fn fmt<W: fmt::Write>(&self, f: &mut fmt::Formatter<W>) -> fmt::Result {
        write_marked(self.line, self.offset, f)?;
        write!(f, " {}", self.note)
    }
}

// Whether this byte stands for that one of the text in OpenFormula.
fn is_written(byte: u8, open: u8) -> bool {
    byte == open || (byte == b',' && open == b';')
}

// The byte of a text in A1 notation that this one of its text in OpenFormula, which has brackets and dots besides, stands
// for.
fn written_offset(text: &[u8], open: &[u8], offset: usize) -> usize {
    let mut rest = text;
    for byte in open.get(..offset).unwrap_or(open) {
        match rest {
            [first, behind @ ..] if is_written(*first, *byte) => rest = behind,
            _ => {}
        }
    }
    text.len().saturating_sub(rest.len())
}

// The byte of a text in this notation that a fault stands at. In A1 notation a fault of the text as it stands has its own
// offset.
fn offset_of(alloc: Global, notation: Notation, text: &[u8], fault: TextFault) -> usize {
    match notation {
        Notation::OpenFormula => fault.offset,
        Notation::A1 => match to_open(alloc, text) {
            Ok(open) => written_offset(text, &open, fault.offset),
            Err(_) => fault.offset,
        },
    }
}

/// The excerpt of a line whose text, its end, has this fault in this notation: one that `ds_a1::texts::read_text` answers.
pub fn excerpt_of_text<'a>(
    alloc: Global,
    notation: Notation,
    line: &'a [u8],
    text: &'a [u8],
    fault: TextFault,
) -> TextExcerpt<'a> {
    let front = line.len().saturating_sub(text.len());
    let offset = offset_of(alloc, notation, text, fault);
    TextExcerpt {
        line,
        offset: front.saturating_add(offset).min(line.len()),
        note: note_of(notation, text, fault.kind, offset),
    }
}

/// The excerpt of a line of these commands whose text has this fault in this notation; none where the line has no text.
pub fn refused_excerpt<'a>(
    alloc: Global,
    notation: Notation,
    commands: Commands,
    line: &'a [u8],
    fault: TextFault,
) -> Option<TextExcerpt<'a>> {
    let text = line_text(commands, line)?;
    Some(excerpt_of_text(alloc, notation, line, text, fault))
}

// How many bytes a text in this notation has in OpenFormula.
fn open_length(alloc: Global, notation: Notation, text: &[u8]) -> usize {
    match (notation, to_open(alloc, text)) {
        (Notation::A1, Ok(open)) => open.len(),
        _ => text.len(),
    }
}

/// The excerpt of a line of a script whose text has this fault on a sheet of this shape; a text is too long where it has
/// more bytes than the fault's offset. None where the line has no text, or one with another fault or none.
pub fn refused_with<'a>(
    alloc: Global,
    notation: Notation,
    shape: &Shape,
    line: &'a [u8],
    fault: TextFault,
) -> Option<TextExcerpt<'a>> {
    let text = line_text(Commands::OfScript, line)?;
    let is_so = match fault.kind {
        FaultKind::TooLong => open_length(alloc, notation, text) > fault.offset,
        _ => matches!(read_text(alloc, notation, shape, text), Err(own) if own == fault),
    };
    if is_so {
        Some(excerpt_of_text(alloc, notation, line, text, fault))
    } else {
        None
    }
}

/// The fault of the text in a line of a script on a sheet of this shape, and its excerpt. None where the line has no text,
/// its text has no fault, or no memory is there to read it.
pub fn refused_text<'a>(
    alloc: Global,
    notation: Notation,
    shape: &Shape,
    line: &'a [u8],
) -> Option<(TextFault, TextExcerpt<'a>)> {
    let text = line_text(Commands::OfScript, line)?;
    match read_text(alloc, notation, shape, text) {
        Ok(_) => None,
        Err(fault) if fault.kind == FaultKind::NoMemory => None,
        Err(fault) => Some((fault, excerpt_of_text(alloc, notation, line, text, fault))),
    }
}
