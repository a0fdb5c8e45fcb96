//! The lines of a journal are read, and written.

ghost use Rattle.std.specs.Prelude.{◌≡◌, ◌<◌, IfOk, IfErr, IfSome, Some, None, true, false, option_map};
ghost use Rattle.ds_store_journal.specs.Faults.{HasLine, IsUnwritten};
ghost use Rattle.std.specs.String.{string_bytes};
ghost use Rattle.ds_script_io.specs.Fields.{is_skipped};
ghost use Rattle.ds_formula.specs.Cells.{IsInside};
ghost use Rattle.ds_store_journal.specs.Journals.{after_verb, asked_by, asked_view, edit_in, sheet_in, size_of};
ghost use Rattle.ds_store_journal.specs.Written.{edit_text, sheet_text};

use crate::edit::AnsweredEdit;
use crate::fault::JournalFault;
use ds_formula::cells::{COLUMN_LIMIT, Cell, ROW_LIMIT, Shape};
use ds_layout::layout::{Layout, PROCESS_LIMIT};
use ds_script_io::fields::{is_skipped, named, numbered};
use ds_script_io::line::word;
use std::alloc::{AllocError, Global};
use std::str;

/// An edit that a line asks for.
#[derive(Clone, Copy, Debug)]
pub struct AskedEdit<'a> {
    /// The process, below those of the sheet.
    pub process: usize,
    /// The cell, one of the sheet.
    pub cell: Cell,
    /// The text that the cell is to hold.
    pub text: &'a [u8],
}

/// What is after the first word of a line, where that is the verb.
pub fn after<'a>(verb: &[u8], line: &'a [u8]) -> Option<&'a [u8]>
    ensures { option_map (λ r. r.now) result ≡ after_verb verb.now line.now }
{
    let (first, rest) = word(line);
    if first == verb { rest } else { None }
}

// The layout of the sheet that a line makes.
fn sheet(line: &[u8]) -> Option<Layout>
    ensures { option_map size_of result ≡ sheet_in line.now }
{
    let rest = after(b"sheet", line);
    let (columns, rest) = numbered(COLUMN_LIMIT + 1, rest)?;
    let (rows, rest) = numbered(ROW_LIMIT + 1, rest)?;
    let (processes, rest) = numbered(PROCESS_LIMIT + 1, rest)?;
    let shape = Shape::new(columns, rows)?;
    if processes == 0 || rest.is_some() {
        return None;
    }
    Some(Layout { shape, processes })
}

// The edit of a sheet of this layout that a line asks for.
pub(crate) fn edit<'a>(layout: &Layout, line: &'a [u8]) -> Option<AskedEdit<'a>>
    ensures asks { option_map asked_view result ≡ edit_in layout.now line.now }
    ensures inside { IfSome result (λ a. (a.process < layout.now.processes) × IsInside layout.now.shape a.cell) }
{
    let rest = after(b"set", line);
    let (process, rest) = numbered(layout.processes, rest)?;
    let (cell, text) = named(&layout.shape, rest)?;
    let text = text.unwrap_or(&[]);
    Some(AskedEdit {
        process,
        cell,
        text,
    })
}

/// The layout of the sheet that the first line of a journal makes. The fault is that it is no such line.
pub fn read_sheet(line: &[u8]) -> Result<Layout, JournalFault>
    ensures made { IfOk result (λ layout. sheet_in line.now ≡ Some (size_of layout)) }
    ensures none { IfErr result (λ _. sheet_in line.now ≡ None) }
    ensures fault { IfErr result (λ fault. fault ≡ JournalFault.NoSheet) }
{
    match sheet(line) {
        Some(layout) => Ok(layout),
        None => Err(JournalFault::NoSheet),
    }
}

/// The edit that a later line asks for; none of a line that is skipped, a comment or an empty one. The fault is that it
/// is neither.
pub fn read_edit<'a>(layout: &Layout, line: &'a [u8]) -> Result<Option<AskedEdit<'a>>, JournalFault>
    ensures asks { IfOk result (λ asked. IfSome asked (λ a. (is_skipped line.now ≡ false) × (edit_in layout.now line.now ≡ Some (asked_view a)))) }
    ensures inside { IfOk result (λ asked. IfSome asked (λ a. (a.process < layout.now.processes) × IsInside layout.now.shape a.cell)) }
    ensures skipped { IfOk result (λ asked. asked ≡ None → is_skipped line.now ≡ true) }
    ensures neither { IfErr result (λ _. (is_skipped line.now ≡ false) × (edit_in layout.now line.now ≡ None)) }
    ensures fault { IfErr result (λ fault. fault ≡ JournalFault.NoEdit) }
{
    if is_skipped(line) {
        return Ok(None);
    }
    match edit(layout, line) {
        Some(asked) => Ok(Some(asked)),
        None => Err(JournalFault::NoEdit),
    }
}

// The line that makes a sheet of this layout, as yet unread.
fn sheet_text(alloc: Global, layout: &Layout) -> Result<String, AllocError>
    ensures { IfOk result (λ line. string_bytes line ≡ sheet_text layout.now) }
{
    let Shape { columns, rows, .. } = layout.shape;
    format!(in alloc; "sheet {columns} {rows} {}", layout.processes)
}

/// The line that makes a sheet of this layout. It was read again. An error is that an allocation failed.
pub fn sheet_line(alloc: Global, layout: &Layout) -> Result<String, JournalFault>
    ensures text { IfOk result (λ line. string_bytes line ≡ sheet_text layout.now) }
    ensures makes { IfOk result (λ line. sheet_in (string_bytes line) ≡ Some (size_of layout.now)) }
    ensures fault { IfErr result (λ fault. fault ≡ JournalFault.NoMemory) }
{
    let line = sheet_text(alloc, layout)?;
    let read = read_sheet(line.as_bytes())?;
    if read == *layout {
        Ok(line)
    } else {
        Err(JournalFault::Other)
    }
}

// Whether a line of a sheet of this layout asks for the edit, and is not skipped.
fn asks(layout: &Layout, line: &[u8], edit: &AnsweredEdit) -> bool
    ensures asks { result ≡ true → (is_skipped line.now ≡ false) × (edit_in layout.now line.now ≡ Some (asked_by edit.now)) }
    ensures other { result ≡ false → is_skipped line.now ≡ false → edit_in layout.now line.now ≡ Some (asked_by edit.now) → ⊥ }
{
    match read_edit(layout, line) {
        Ok(Some(asked)) => {
            asked.process == edit.process
                && asked.cell == edit.cell
                && asked.text == edit.text.as_slice()
        }
        Ok(None) | Err(_) => false,
    }
}

// The line that asks for this edit, as yet unread.
fn edit_text(alloc: Global, process: usize, cell: Cell, text: &str) -> Result<String, AllocError>
    ensures { IfOk result (λ line. string_bytes line ≡ edit_text (record { process = process; cell = cell; text = text.now })) }
{
    format!(in alloc; "set {process} {cell} {text}")
}

/// The line that keeps an edit of a sheet of this layout. It was read again, and asks for that edit. The fault is that it
/// does not, as of a cell that the sheet has not or of a text that is not UTF-8, or that an allocation failed.
pub fn edit_line(
    alloc: Global,
    layout: &Layout,
    edit: &AnsweredEdit,
) -> Result<String, JournalFault>
    ensures text { IfOk result (λ line. string_bytes line ≡ edit_text (asked_by edit.now)) }
    ensures asks { IfOk result (λ line. (is_skipped (string_bytes line) ≡ false) × (edit_in layout.now (string_bytes line) ≡ Some (asked_by edit.now))) }
    ensures unwritten { IfErr result (IsUnwritten (HasLine layout.now edit.now)) }
{
    let Ok(text) = str::from_utf8(&edit.text) else {
        return Err(JournalFault::Other);
    };
    let line = edit_text(alloc, edit.process, edit.cell, text)?;
    if asks(layout, line.as_bytes(), edit) {
        Ok(line)
    } else {
        Err(JournalFault::Other)
    }
}
