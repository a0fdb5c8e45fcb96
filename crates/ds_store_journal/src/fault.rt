//! What is wrong with a line of a journal.

use ds_state::refusal::Refusal;
use std::alloc::AllocError;
use std::fmt;

/// Why a line cannot be a journal's next one.
#[derive(Clone, Copy, Debug, PartialEq, Eq)]
pub enum JournalFault {
    /// The first line is no `sheet`.
    NoSheet,
    /// It is no edit of the sheet: `set PROCESS CELL TEXT`, of a process and a cell that the sheet has.
    NoEdit,
    /// The edit of the line is refused.
    Refused(Refusal),
    /// The edit of the line is answered, and not Done.
    NotDone,
    /// It is read as another line than the one that was written, or its edit has another number.
    Other,
    /// The key of the line stands in a line before it.
    KeyAgain,
    /// An allocation failed.
    NoMemory,
}

impl From<AllocError> for JournalFault {
    ghost use Rattle.std.specs.Prelude.{◌≡◌};
    ghost use Rattle.ds_store_journal.specs.declared.fault.JournalFault.TheVariants.{NoMemory};

    ghost from_gives = { λ _ fault. fault ≡ NoMemory };

    fn from(_error: AllocError) -> JournalFault {
        JournalFault::NoMemory
    }
}

impl fmt::Display for JournalFault {
    fn fmt<W: fmt::Write>(&self, f: &mut fmt::Formatter<W>) -> fmt::Result {
        match self {
            JournalFault::NoSheet => f.write_str("the first line is no sheet"),
            JournalFault::NoEdit => f.write_str("not an edit of the sheet"),
            JournalFault::Refused(Refusal::Text(fault)) => write!(
                f,
                "its text is refused: {fault}"
            ),
            JournalFault::Refused(Refusal::RecordsFull) => {
                f.write_str("its process has begun 256 edits")
            }
            JournalFault::Refused(_) => f.write_str("its edit is refused"),
            JournalFault::NotDone => f.write_str("its edit does not count"),
            JournalFault::Other => f.write_str("it is read as another line"),
            JournalFault::KeyAgain => f.write_str("its key stands before it"),
            JournalFault::NoMemory => f.write_str("no memory"),
        }
    }
}
