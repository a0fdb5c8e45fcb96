//! What is wrong with a line that has a key.

use ds_store_journal::fault::JournalFault;

/// Why the keys of lines are no keys of a store: what is wrong with one line.
#[derive(Clone, Copy, Debug, PartialEq, Eq)]
pub struct KeyLineFault {
    /// The number of the line, from 1.
    pub number: usize,
    /// `KeyAgain` where its key stands in a line before it, or `NoMemory`.
    pub fault: JournalFault,
}
