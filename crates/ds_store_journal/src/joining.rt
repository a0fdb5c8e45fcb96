//! How many processes of a journal's sheet clients may join.

ghost use Rattle.std.specs.Prelude.{◌≡◌, ◌≤◌, IfOk, IfErr, IfSome, Some, map, true, false};
ghost use Rattle.std.specs.String.{string_bytes};
ghost use Rattle.ds_script_io.specs.Fields.{is_skipped};
ghost use Rattle.ds_store_journal.specs.Joining.{joins_in, joins_of};
ghost use Rattle.ds_store_journal.specs.Faults.{IsUnwritten, MayBeJoined};
ghost use Rattle.ds_store_journal.specs.Written.{joins_text};

use crate::fault::JournalFault;
use crate::journal::after;
use ds_layout::layout::Layout;
use ds_script_io::fields::{is_skipped, numbered};
use std::alloc::{AllocError, Global};

// How many a line says: `# joins NUMBER`.
fn read_joins(layout: &Layout, line: &[u8]) -> Option<usize>
    ensures { result ≡ joins_in layout.now line.now }
{
    let rest = after(b"joins", after(b"#", line)?);
    let (number, rest) = numbered(layout.processes + 1, rest)?;
    if number == 0 || rest.is_some() {
        return None;
    }
    Some(number)
}

/// How many processes of a sheet of this layout clients may join, by the lines of its journal: as the second line says,
/// or all.
pub fn joins_of(layout: &Layout, lines: &[String]) -> usize
    ensures { result ≡ joins_of layout.now (map string_bytes lines.now) }
{
    let [_, second, ..] = lines else {
        return layout.processes;
    };
    read_joins(layout, second.as_bytes()).unwrap_or(layout.processes)
}

// The line that says that, as yet unread.
fn joins_text(alloc: Global, number: usize) -> Result<String, AllocError>
    ensures { IfOk result (λ line. string_bytes line ≡ joins_text number) }
{
    format!(in alloc; "# joins {number}")
}

// Whether a line says that many, and is skipped.
fn says(layout: &Layout, line: &[u8], number: usize) -> bool
    ensures says { result ≡ true → (is_skipped line.now ≡ true) × (joins_in layout.now line.now ≡ Some number) }
    ensures other { result ≡ false → is_skipped line.now ≡ true → joins_in layout.now line.now ≡ Some number → ⊥ }
{
    is_skipped(line) && read_joins(layout, line) == Some(number)
}

/// The line that says how many there are, the second one of a journal. It was read again, and says so. The fault is that
/// it does not, as of a number above that of the processes, or that an allocation failed.
pub fn joins_line(alloc: Global, layout: &Layout, number: usize) -> Result<String, JournalFault>
    ensures text { IfOk result (λ line. string_bytes line ≡ joins_text number) }
    ensures says { IfOk result (λ line. (is_skipped (string_bytes line) ≡ true) × (joins_in layout.now (string_bytes line) ≡ Some number)) }
    ensures unwritten { IfErr result (IsUnwritten (MayBeJoined layout.now number)) }
{
    let line = joins_text(alloc, number)?;
    if says(layout, line.as_bytes(), number) {
        Ok(line)
    } else {
        Err(JournalFault::Other)
    }
}
