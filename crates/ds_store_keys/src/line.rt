//! The lines that have keys are read, and written.

ghost use Rattle.std.specs.Prelude.{◌≡◌, IfErr, IfOk, Some, false, option_map, true};
ghost use Rattle.std.specs.String.{string_bytes};
ghost use Rattle.ds_script_io.specs.Fields.{is_skipped};
ghost use Rattle.ds_layout.specs.declared.layout.Layout.{Layout};
ghost use Rattle.ds_store_journal.specs.Faults.{IsUnwritten};
ghost use Rattle.ds_store_keys.specs.Keys.{edit_named, edit_of, edit_view, key_in, named_view, read_view};
ghost use Rattle.ds_store_keys.specs.Written.{HasKeyLine, key_text};

use crate::note::{KeyNote, KeyUse};
use ds_formula::cells::Cell;
use ds_key::key::is_key;
use ds_layout::layout::Layout;
use ds_script_io::fields::{is_skipped, named, numbered};
use ds_script_io::line::word;
use ds_store_journal::edit::AnsweredEdit;
use ds_store_journal::fault::JournalFault;
use ds_store_journal::journal::after;
use ds_store_journal::standing::counted;
use std::alloc::{AllocError, Global};
use std::str;

/// The edit that the key of a line is of.
#[derive(Clone, Copy, Debug)]
pub struct NamedEdit<'a> {
    /// The process, below those of the sheet.
    pub process: usize,
    /// The number by which clients know the edit, below 2^53.
    pub number: usize,
    /// The cell, one of the sheet.
    pub cell: Cell,
    /// The text that the cell was given.
    pub text: &'a [u8],
}

/// The key that a line has.
#[derive(Clone, Copy, Debug)]
pub struct ReadKey<'a> {
    /// The key: 1 to 64 visible characters of ASCII.
    pub key: &'a [u8],
    /// The edit that it is of; none where it is of no edit, for good.
    pub edit: Option<NamedEdit<'a>>,
}

// The edit of a sheet of this layout that words name.
fn edit_named<'a>(layout: &Layout, words: &'a [u8]) -> Option<NamedEdit<'a>>
    ensures { option_map named_view result ≡ edit_named layout.now words.now }
{
    let (process, rest) = numbered(layout.processes, Some(words))?;
    let (number, rest) = counted(rest)?;
    let (cell, text) = named(&layout.shape, rest)?;
    let text = text.unwrap_or(&[]);
    Some(NamedEdit {
        process,
        number,
        cell,
        text,
    })
}

/// The key that a line of a sheet of this layout has: `# key KEY PROCESS NUMBER CELL TEXT`, or `# key KEY` of one that is
/// of no edit.
pub fn read_key<'a>(layout: &Layout, line: &'a [u8]) -> Option<ReadKey<'a>>
    ensures { option_map read_view result ≡ key_in layout.now line.now }
{
    let (key, rest) = word(after(b"key", after(b"#", line)?)?);
    if !is_key(key) {
        return None;
    }
    let Some(words) = rest else {
        return Some(ReadKey { key, edit: None });
    };
    let edit = edit_named(layout, words)?;
    Some(ReadKey {
        key,
        edit: Some(edit),
    })
}

// Whether an edit that was read is this one.
fn is_edit(read: &NamedEdit<'_>, edit: &AnsweredEdit) -> bool
    ensures same { result ≡ true → named_view read.now ≡ edit.now }
    ensures other { result ≡ false → named_view read.now ≡ edit.now → ⊥ }
{
    read.process == edit.process
        && read.number == edit.number
        && read.cell == edit.cell
        && read.text == edit.text.as_slice()
}

// Whether what was read that a key is of is this.
fn is_use(read: &Option<NamedEdit<'_>>, of: &KeyUse) -> bool
    ensures same { result ≡ true → edit_view read.now ≡ edit_of of.now }
    ensures other { result ≡ false → edit_view read.now ≡ edit_of of.now → ⊥ }
{
    match (read, of) {
        (Some(read), KeyUse::Edit(edit)) => is_edit(read, edit),
        (None, KeyUse::Nothing) => true,
        (Some(_), KeyUse::Nothing) | (None, KeyUse::Edit(_)) => false,
    }
}

// Whether a line of a sheet of this layout has the key, and is skipped.
fn has(layout: &Layout, line: &[u8], note: &KeyNote) -> bool
    ensures has { result ≡ true → (is_skipped line.now ≡ true) × (key_in layout.now line.now ≡ Some note.now) }
    ensures other { result ≡ false → is_skipped line.now ≡ true → key_in layout.now line.now ≡ Some note.now → ⊥ }
{
    let Some(read) = read_key(layout, line) else {
        return false;
    };
    is_skipped(line) && read.key == note.key.as_slice() && is_use(&read.edit, &note.of)
}

// The line of a key, as yet unread. The fault is `Other` where a text of it is not UTF-8.
fn written(alloc: Global, note: &KeyNote) -> Result<String, JournalFault>
    ensures text { IfOk result (λ line. string_bytes line ≡ key_text note.now) }
    ensures unwritten { (layout : Layout) → IfErr result (IsUnwritten (HasKeyLine layout note.now)) }
{
    let Ok(key) = str::from_utf8(&note.key) else {
        return Err(JournalFault::Other);
    };
    let KeyUse::Edit(edit) = &note.of else {
        return Ok(format!(in alloc; "# key {key}")?);
    };
    let Ok(text) = str::from_utf8(&edit.text) else {
        return Err(JournalFault::Other);
    };
    let AnsweredEdit {
        process,
        number,
        cell,
        ..
    } = edit;
    Ok(format!(in alloc; "# key {key} {process} {number} {cell} {text}")?)
}

/// The line that keeps a key of a sheet of this layout. It was read again, and has that key. The fault is `Other` where it
/// has not, as of a text that is no key, of a cell that the sheet has not, or of a text that is not UTF-8, and `NoMemory`
/// where an allocation failed.
pub fn key_line(alloc: Global, layout: &Layout, note: &KeyNote) -> Result<String, JournalFault>
    ensures text { IfOk result (λ line. string_bytes line ≡ key_text note.now) }
    ensures has { IfOk result (λ line. (is_skipped (string_bytes line) ≡ true) × (key_in layout.now (string_bytes line) ≡ Some note.now)) }
    ensures unwritten { IfErr result (IsUnwritten (HasKeyLine layout.now note.now)) }
{
    let line = written(alloc, note)?;
    if has(layout, line.as_bytes(), note) {
        Ok(line)
    } else {
        Err(JournalFault::Other)
    }
}

impl NamedEdit<'_> {
    // The edit with bytes of its own.
    fn owned(&self, alloc: Global) -> Result<AnsweredEdit, AllocError>
        ensures { IfOk result (λ edit. edit ≡ named_view self.now) }
    {
        Ok(AnsweredEdit {
            process: self.process,
            number: self.number,
            cell: self.cell,
            text: Vec::from_slice(alloc, self.text)?,
        })
    }
}

impl ReadKey<'_> {
    /// The key, and what it is of, with bytes of its own. An error is that an allocation failed.
    pub fn note(&self, alloc: Global) -> Result<KeyNote, AllocError>
        ensures { IfOk result (λ note. note ≡ read_view self.now) }
    {
        let of = match &self.edit {
            Some(edit) => KeyUse::Edit(edit.owned(alloc)?),
            None => KeyUse::Nothing,
        };
        Ok(KeyNote {
            key: Vec::from_slice(alloc, self.key)?,
            of,
        })
    }
}
