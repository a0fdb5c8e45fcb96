//! Where a line of a script is wrong.

ghost use Rattle.std.specs.Prelude.{◌≤◌, IfSome, length};

use crate::forms::form_of;
use crate::wanted::Wanted;
use ds_formula::cells::{COLUMN_LIMIT, ROW_LIMIT, Shape};
use ds_layout::layout::{Layout, PROCESS_LIMIT};
use ds_layout::place::{DONE_PARTS, FIRST_PARTS, RECORDS, SECOND_PARTS};
use ds_script_io::ending::ScriptFault;
use ds_script_io::fields::{is_skipped, numbered};
use ds_script_io::line::{LINE_LIMIT, NextLine, next_line, word};
use std::fmt;

/// Where a line is wrong, and what was expected there.
#[derive(Clone, Copy, Debug)]
pub struct Hint {
    /// The byte of the line, from 0, where a word is wrong; the line's length where one is missing.
    pub offset: usize,
    /// What the word there has to be.
    pub wanted: Wanted,
    /// The sheet that it has to fit.
    pub layout: Layout,
}

impl fmt::Display for Hint {
    fn fmt<W: fmt::Write>(&self, f: &mut fmt::Formatter<W>) -> fmt::Result {
        match self.wanted {
            Wanted::Command => f.write_str("a command, as set, work, report or crash"),
            Wanted::Columns => write!(
                f,
                "columns, from 1 to {COLUMN_LIMIT}, for at most 1024 cells"
            ),
            Wanted::Rows => write!(f, "rows, from 1 to {ROW_LIMIT}, for at most 1024 cells"),
            Wanted::Processes => write!(f, "processes, from 1 to {PROCESS_LIMIT}"),
            Wanted::Layout => f.write_str("a layout, 1 or 2"),
            Wanted::Process => write!(
                f,
                "a process, from 0 to {}",
                self.layout.processes.saturating_sub(1)
            ),
            Wanted::Cell => write!(
                f,
                "a cell of {} columns and {} rows, as A1",
                self.layout.shape.columns, self.layout.shape.rows
            ),
            Wanted::Number => write!(f, "the number of an edit, from 0 to {}", RECORDS - 1),
            Wanted::RowPart => write!(
                f,
                "a part, from 0 to {}",
                self.layout.row_parts().saturating_sub(1)
            ),
            Wanted::TextPart => write!(f, "a part, from 0 to {}", FIRST_PARTS - 1),
            Wanted::NewTextPart => write!(f, "a part, from 0 to {}", SECOND_PARTS - 1),
            Wanted::DonePart => write!(f, "a part, from 0 to {}", DONE_PARTS - 1),
            Wanted::To => f.write_str("`to`, and a point"),
            Wanted::Point => f.write_str("a point of the call that the process is in"),
            Wanted::Call => f.write_str("set, work, show, recover or migrate"),
            Wanted::Place => f.write_str(
                "version, head, mark, value, kind, index, announce, header, text, newtext or done",
            ),
            Wanted::Text => f.write_str("a text"),
            Wanted::Nothing => f.write_str("nothing more"),
        }
    }
}

// The byte of a line at which what is left of it begins.
fn offset_of(line: &[u8], left: &[u8]) -> usize
    ensures { result ≤ length line.now }
{
    line.len().saturating_sub(left.len())
}

// The first word of a line that is not what its command wants. Where each is, the sheet says no to the last one: or,
// where the line makes a sheet, it would have too many cells, and the word is that of its rows.
fn bad_word(layout: &Layout, line: &[u8]) -> (usize, Wanted)
    ensures { result.0 ≤ length line.now }
{
    let (name, mut left) = word(line);
    let Some(form) = form_of(name, left) else {
        return (0, Wanted::Command);
    };
    let (mut last, mut rows, mut wanted) = (0, 0, Wanted::Command);
    for next in form {
        if *next == Wanted::Text || (*next == Wanted::Nothing && left.is_none()) {
            break;
        }
        wanted = *next;
        let Some(words) = left else {
            return (line.len(), wanted);
        };
        last = offset_of(line, words);
        if wanted == Wanted::Rows {
            rows = last;
        }
        let (first, behind) = word(words);
        if !next.fits(layout, first) {
            return (last, wanted);
        }
        left = behind;
    }
    match wanted {
        Wanted::Processes => (rows, Wanted::Rows),
        _ => (last, wanted),
    }
}

/// What is wrong with a line that ended a script with this fault, on a sheet of this layout.
pub fn hint_at(layout: &Layout, line: &[u8], fault: ScriptFault) -> Option<Hint>
    ensures { IfSome result (λ hint. hint.offset ≤ length line.now) }
{
    let (offset, wanted) = match fault {
        // `begin P WORD` is an unknown command, too, where no call is called WORD.
        ScriptFault::BadField | ScriptFault::UnknownCommand => bad_word(layout, line),
        ScriptFault::SheetNotFirst | ScriptFault::LayoutNotFirst => return None,
        ScriptFault::LineTooLong => return None,
    };
    Some(Hint {
        offset,
        wanted,
        layout: *layout,
    })
}

/// The line of a script with this number, from 1; none where a line up to it has more than 512 bytes, or there are fewer.
pub fn line_at(script: &[u8], number: usize) -> Option<&[u8]> {
    let mut rest = script;
    let mut found = None;
    for _ in 0..number {
        match next_line(rest, true) {
            NextLine::Line(line, behind) => {
                found = Some(line);
                rest = behind;
            }
            NextLine::Nothing | NextLine::TooLong => return None,
        }
    }
    found
}

// The sheet of a line that makes one; none where the line makes none.
fn made_by(line: &[u8]) -> Option<Layout> {
    let (name, words) = word(line);
    if name != b"sheet".as_slice() {
        return None;
    }
    let (columns, words) = numbered(COLUMN_LIMIT + 1, words)?;
    let (rows, words) = numbered(ROW_LIMIT + 1, words)?;
    let (processes, _) = numbered(PROCESS_LIMIT + 1, words)?;
    let shape = Shape::new(columns, rows)?;
    if processes == 0 {
        return None;
    }
    Some(Layout { shape, processes })
}

/// The layout of a script's sheet: that of its first command, or two columns, two rows and two processes.
pub fn layout_of(script: &[u8]) -> Layout {
    let shape = Shape {
        columns: 2,
        rows: 2,
    };
    let small = Layout {
        shape,
        processes: 2,
    };
    let mut rest = script;
    for _ in 0..script.len() {
        match next_line(rest, true) {
            NextLine::Line(line, behind) if is_skipped(line) => rest = behind,
            NextLine::Line(line, _) => return made_by(line).unwrap_or(small),
            NextLine::Nothing | NextLine::TooLong => return small,
        }
    }
    small
}
