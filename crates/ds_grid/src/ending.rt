//! How the report of a grid ends.

ghost use Rattle.std.specs.Prelude.{◌≡◌};
ghost use Rattle.ds_grid.specs.declared.ending.GridEnd.TheVariants.{Grid, NoMemory};

use ds_formula::cells::Cell;
use ds_formula::fault::TextFault;
use std::alloc::{AllocError, AllocFailed};
use std::fmt;

/// Why a grid is not one of a sheet. Nothing is written then.
#[derive(Clone, Copy, Debug, PartialEq, Eq)]
pub enum GridFault {
    /// It has no record.
    EmptyGrid,
    /// A record has another number of fields than the first one.
    BadCsv,
    /// More than 26 columns, 64 rows or 1,024 cells.
    TooLarge,
}

/// How the report of a grid ended. Only `Ended` has written anything, but for a writer that failed.
#[derive(Clone, Copy, Debug, PartialEq, Eq)]
pub enum GridEnd {
    /// The values of all cells are written.
    Ended,
    /// The input is not a grid of a sheet.
    Grid(GridFault),
    /// The text of this cell has no content, but this fault; the cells before it, row by row, have one.
    CellFault { cell: Cell, fault: TextFault },
    /// The input is longer than 1,048,576 bytes.
    TooLong,
    /// The reader failed.
    ReadFailed,
    /// The writer failed.
    WriteFailed,
    /// An allocation failed.
    NoMemory,
}

impl From<GridFault> for GridEnd {
    ghost from_gives = { λ fault end. end ≡ Grid fault };

    fn from(fault: GridFault) -> GridEnd {
        GridEnd::Grid(fault)
    }
}

impl From<AllocError> for GridEnd {
    ghost from_gives = { λ _ end. end ≡ NoMemory };

    fn from(_error: AllocError) -> GridEnd {
        GridEnd::NoMemory
    }
}

impl<T: Drop> From<AllocFailed<T>> for GridEnd {
    ghost from_gives = { λ _ end. end ≡ NoMemory };

    fn from(_failed: AllocFailed<T>) -> GridEnd {
        GridEnd::NoMemory
    }
}

impl fmt::Display for GridFault {
    ghost use Rattle.std.specs.Prelude.{Some};
    ghost use Rattle.ds_grid.specs.GridEndings.{name_of_fault};

    ghost output = { λ fault. Some (name_of_fault fault) };

    fn fmt<W: fmt::Write>(&self, f: &mut fmt::Formatter<W>) -> fmt::Result {
        f.write_str(match self {
            GridFault::EmptyGrid => "empty grid",
            GridFault::BadCsv => "bad csv",
            GridFault::TooLarge => "grid too large",
        })
    }
}

impl fmt::Display for GridEnd {
    ghost use Rattle.std.specs.Prelude.{Some};
    ghost use Rattle.ds_grid.specs.GridEndings.{end_text};

    ghost output = { λ end. Some (end_text end) };

    fn fmt<W: fmt::Write>(&self, f: &mut fmt::Formatter<W>) -> fmt::Result {
        match self {
            GridEnd::Ended => f.write_str("ended"),
            GridEnd::Grid(fault) => write!(f, "{fault}"),
            GridEnd::CellFault { cell, fault } => write!(f, "cell {cell}: {fault}"),
            GridEnd::TooLong => f.write_str("grid too long: more than 1048576 bytes"),
            GridEnd::ReadFailed => f.write_str("the grid could not be read"),
            GridEnd::WriteFailed => f.write_str("the values could not be written"),
            GridEnd::NoMemory => f.write_str("out of memory"),
        }
    }
}
