//! What is wrong with a store.

ghost use Rattle.std.specs.Prelude.{◌≡◌};
ghost use Rattle.ds_store.specs.Opened.{fault_at};
ghost use Rattle.ds_store.specs.Told.{IsOfLines, edit_told, lines_told, told_of};
ghost use Rattle.ds_store.specs.Unsound.{before_of};
ghost use Rattle.ds_store.specs.declared.fault.StoreFault.TheVariants.{NoMemory};

use ds_store_journal::fault::JournalFault;
use ds_store_keys::fault::KeyLineFault;
use ds_store_table::lines::LinesFault;
use sqlite::{Error, ErrorCode};
use std::alloc::AllocError;
use std::fmt;

/// Why a store cannot be opened, or has failed.
#[derive(Clone, Copy, Debug, PartialEq, Eq)]
pub enum StoreFault {
    /// The database gives this error: the file cannot be opened, read or written, or holds no database.
    Database(Error),
    /// Another program has the file open.
    Busy,
    /// The file is a database of something else.
    Foreign,
    /// There is no line of this number, from 1.
    Missing(usize),
    /// The line of this number, from 1, cannot be followed.
    Line {
        /// The number of the line.
        number: usize,
        /// Why it cannot.
        fault: JournalFault,
    },
    /// The line of this number, from 1, has a sum, which is not that of the lines before it: one of them was changed.
    Sum(usize),
    /// The line of this number, from 1, and those after it have no sum, though lines before them have one.
    NoSum(usize),
    /// An edit that was reported, or a key, cannot be kept.
    Edit(JournalFault),
    /// The sheet of the store has another shape, or another number of processes, than the one that was asked for.
    OtherSheet {
        /// The columns of the sheet that the store has.
        columns: usize,
        /// The rows of that sheet.
        rows: usize,
        /// The processes of that sheet.
        processes: usize,
    },
    /// An allocation failed.
    NoMemory,
}

impl From<Error> for StoreFault {
    ghost from_gives = { λ error fault. fault ≡ told_of error };

    fn from(error: Error) -> StoreFault {
        match error {
            Error::SqliteFailure(ErrorCode::OutOfMemory) => StoreFault::NoMemory,
            Error::SqliteFailure(ErrorCode::DatabaseBusy) => StoreFault::Busy,
            Error::SqlInputError(_) => StoreFault::Foreign,
            other => StoreFault::Database(other),
        }
    }
}

impl From<LinesFault> for StoreFault {
    ghost from_gives = { λ why fault. fault ≡ lines_told why };

    fn from(fault: LinesFault) -> StoreFault {
        match fault {
            LinesFault::Database(error) => StoreFault::from(error),
            LinesFault::Missing(number) => StoreFault::Missing(number),
            LinesFault::NoMemory => StoreFault::NoMemory,
        }
    }
}

impl From<JournalFault> for StoreFault {
    ghost from_gives = { λ why fault. fault ≡ edit_told why };

    fn from(fault: JournalFault) -> StoreFault {
        match fault {
            JournalFault::NoMemory => StoreFault::NoMemory,
            fault => StoreFault::Edit(fault),
        }
    }
}

impl From<KeyLineFault> for StoreFault {
    ghost from_gives = { λ why fault. fault ≡ fault_at why.number why.fault };

    fn from(fault: KeyLineFault) -> StoreFault {
        StoreFault::at_line(fault.number, fault.fault)
    }
}

impl From<AllocError> for StoreFault {
    ghost from_gives = { λ _ fault. fault ≡ NoMemory };

    fn from(_error: AllocError) -> StoreFault {
        StoreFault::NoMemory
    }
}

impl StoreFault {
    /// That the line of this number, from 1, cannot be followed for this fault.
    pub fn at_line(number: usize, fault: JournalFault) -> StoreFault
        ensures is { result ≡ fault_at number fault }
        ensures of_lines { IsOfLines result }
    {
        match fault {
            JournalFault::NoMemory => StoreFault::NoMemory,
            fault => StoreFault::Line { number, fault },
        }
    }

    /// How many lines are before the one that it is of; 0 where it is of none.
    pub fn before(&self) -> usize
        ensures { result ≡ before_of self.now }
    {
        match self {
            StoreFault::Missing(number)
            | StoreFault::Line { number, .. }
            | StoreFault::Sum(number)
            | StoreFault::NoSum(number) => number.saturating_sub(1),
            StoreFault::Database(_)
            | StoreFault::Busy
            | StoreFault::Foreign
            | StoreFault::Edit(_)
            | StoreFault::OtherSheet { .. }
            | StoreFault::NoMemory => 0,
        }
    }
}

impl fmt::Display for StoreFault {
    fn fmt<W: fmt::Write>(&self, f: &mut fmt::Formatter<W>) -> fmt::Result {
        match self {
            StoreFault::Database(error) => write!(f, "{error}"),
            StoreFault::Busy => f.write_str("another program has it open"),
            StoreFault::Foreign => f.write_str("it is a database of something else"),
            StoreFault::Missing(number) => write!(f, "line {number} is missing"),
            StoreFault::Line { number, fault } => write!(f, "line {number}: {fault}"),
            StoreFault::Sum(number) => write!(
                f,
                "line {number}: it has the sum of other lines than are before it"
            ),
            StoreFault::NoSum(number) => write!(f, "line {number} has no sum after it"),
            StoreFault::Edit(fault) => write!(f, "an edit can not be kept: {fault}"),
            StoreFault::OtherSheet {
                columns,
                rows,
                processes,
            } => write!(
                f,
                "its sheet has {columns} columns, {rows} rows and {processes} processes"
            ),
            StoreFault::NoMemory => f.write_str("no memory"),
        }
    }
}
