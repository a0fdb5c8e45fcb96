//! Texts of cells in A1 notation and in OpenFormula's.

ghost use Rattle.std.specs.Prelude.{◌≡◌, ◌++◌, false, IfOk, OnOk, position};
ghost use Rattle.ds_formula.specs.Grammar.{no_memory};
ghost use Rattle.ds_a1.specs.Tokens.{tokens};
ghost use Rattle.ds_a1.specs.Notation.{after, bare, before, closed, is_bracket, opened, opened_mark, stays, within_limit};
ghost use Rattle.ds_a1.specs.declared.notation.Notation.TheVariants.{A1};
ghost use Rattle.ds_a1.specs.Answers.{AnswersBy, FormulaOpensAs, Gives, OpensAs, ShownAs};

use crate::notation::Notation;
use crate::tokens::{begins_reference, goes_on, word_length};
use ds_formula::cells::Shape;
use ds_formula::content::Content;
use ds_formula::fault::{FaultKind, TextFault};
use ds_formula::reading::{TEXT_LIMIT, read_content};
use std::alloc::{AllocError, Global};

fn opened_mark(byte: u8) -> u8
    ensures { result ≡ opened_mark byte }
{
    if byte == b',' { b';' } else { byte }
}

// Appends a reference: `second` where it is the second one of a range, `ranged` where it goes on as a range.
fn put_reference(
    text: &mut Vec<u8>,
    name: &[u8],
    second: bool,
    ranged: bool,
) -> Result<(), AllocError>
    ensures { OnOk result (text.new.items ≡ text.old.items ++ (before second ++ (name.now ++ after ranged))) }
{
    if !second {
        text.push(b'[')?;
    }
    text.push(b'.')?;
    text.extend_from_slice(name)?;
    if !ranged {
        text.push(b']')?;
    }
    Ok(())
}

// A formula in OpenFormula.
fn opened(alloc: Global, text: &[u8]) -> Result<Vec<u8>, AllocError>
    ensures { IfOk result (λ v. v.items ≡ opened false (tokens text.now)) }
{
    let mut open = Vec::new(alloc);
    let mut rest = text;
    let mut second = false;
    while !rest.is_empty() {
        let length = word_length(rest);
        let (token, left) = rest.split_at(length.max(1));
        if begins_reference(rest) {
            let ranged = goes_on(left);
            put_reference(&mut open, token, second, ranged)?;
            second = ranged;
        } else if length > 0 {
            open.extend_from_slice(token)?;
            second = false;
        } else {
            open.push(opened_mark(rest[0]))?;
        }
        rest = left;
    }
    Ok(open)
}

fn bracket(text: &[u8]) -> Option<usize>
    ensures { result ≡ position is_bracket text.now }
{
    text.iter().position(|byte| *byte == b'[' || *byte == b']')
}

// A text within the limit of length.
fn within_limit(text: Vec<u8>) -> Result<Vec<u8>, TextFault>
    ensures { Gives (within_limit text.items) result }
{
    if text.len() <= TEXT_LIMIT {
        Ok(text)
    } else {
        Err(TextFault {
            kind: FaultKind::TooLong,
            offset: TEXT_LIMIT,
        })
    }
}

// What is answered where memory ran out.
fn no_memory() -> TextFault
    ensures { result ≡ no_memory }
{
    TextFault {
        kind: FaultKind::NoMemory,
        offset: 0,
    }
}

// A formula, which begins with `=`.
fn open_formula(alloc: Global, text: &[u8]) -> Result<Vec<u8>, TextFault>
    ensures { FormulaOpensAs text.now result }
{
    if let Some(offset) = bracket(text) {
        return Err(TextFault {
            kind: FaultKind::BadToken,
            offset,
        });
    }
    match opened(alloc, text) {
        Ok(open) => within_limit(open),
        Err(_) => Err(no_memory()),
    }
}

/// What a cell's text in A1 notation is in OpenFormula, of which `read_content` reads what the cell holds. A formula, which
/// begins with `=`, has each reference in brackets, a range in one pair of them, and semicolons for commas: `=SUM(A1:B3,2)`
/// becomes `=SUM([.A1:.B3];2)`, and `=$A$1` becomes `=[.$A$1]`. A reference is letters and a number of a row, each with a
/// `$` before it or without, also of a cell that no sheet has; a name before `(` is none. All else stays as it stands, and
/// so does a text that does not begin with `=`.
///
/// `BadToken` is answered to a bracket, `[` or `]`, at the first one's offset; `TooLong` where what it becomes has more than
/// `TEXT_LIMIT` bytes, with that limit as the offset; `NoMemory` says no more of the text.
#[tactic(auto, unfolding(crate::specs::Notation::opens))]
pub fn to_open(alloc: Global, text: &[u8]) -> Result<Vec<u8>, TextFault>
    ensures { OpensAs text.now result }
{
    match text {
        [b'=', ..] => open_formula(alloc, text),
        _ => match Vec::from_slice(alloc, text) {
            Ok(same) => Ok(same),
            Err(_) => Err(no_memory()),
        },
    }
}

fn stays(byte: u8) -> bool
    ensures { result ≡ stays byte }
{
    byte != b'[' && byte != b']' && byte != b'.'
}

// The bytes of a formula in A1 notation.
fn bare(alloc: Global, text: &[u8]) -> Result<Vec<u8>, AllocError>
    ensures { IfOk result (λ v. v.items ≡ bare text.now) }
{
    let mut shown = Vec::new(alloc);
    let mut rest = text;
    while let [byte, left @ ..] = rest {
        if stays(*byte) {
            shown.push(if *byte == b';' { b',' } else { *byte })?;
        }
        rest = left;
    }
    Ok(shown)
}

#[tactic(auto, unfolding(crate::specs::Notation::closed))]
fn closed(alloc: Global, text: &[u8]) -> Result<Vec<u8>, AllocError>
    ensures { IfOk result (λ v. v.items ≡ closed text.now) }
{
    match text {
        [b'=', ..] => bare(alloc, text),
        _ => Vec::from_slice(alloc, text),
    }
}

/// The text in A1 notation of a cell's text in OpenFormula: without brackets and dots, with commas for semicolons, as
/// `=SUM(A1:B3,2)` of `=SUM([.A1:.B3];2)`. `to_open` gives the text again, so it has the same content; there is none where
/// it would not, as of `=1.5`. An error means that an allocation failed.
pub fn to_a1(alloc: Global, text: &[u8]) -> Result<Option<Vec<u8>>, AllocError>
    ensures { IfOk result (ShownAs text.now) }
{
    let shown = closed(alloc, text)?;
    match to_open(alloc, &shown) {
        Ok(open) if open.as_slice() == text => Ok(Some(shown)),
        Ok(_) => Ok(None),
        Err(fault) => match fault.kind {
            FaultKind::NoMemory => Err(AllocError),
            _ => Ok(None),
        },
    }
}

// Reads what a cell holds from its text in A1 notation.
fn read_a1(alloc: Global, shape: &Shape, text: &[u8]) -> Result<Content, TextFault>
    ensures { AnswersBy A1 shape.now text.now result }
{
    match to_open(alloc, text) {
        Ok(open) => read_content(alloc, shape, &open),
        Err(fault) => Err(fault),
    }
}

/// Reads what a cell holds from its text in a notation, as `read_content` reads what the text is in OpenFormula. The
/// faults are those of `to_open`, and then those of `read_content`, whose offsets are of the text in OpenFormula.
pub fn read_text(
    alloc: Global,
    notation: Notation,
    shape: &Shape,
    text: &[u8],
) -> Result<Content, TextFault>
    ensures { AnswersBy notation shape.now text.now result }
{
    match notation {
        Notation::OpenFormula => read_content(alloc, shape, text),
        Notation::A1 => read_a1(alloc, shape, text),
    }
}
