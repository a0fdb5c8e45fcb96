//! How faults and cells are shown, and cells by their names.

ghost use Rattle.std.specs.Prelude.{◌≡◌, Some, IfSome};
ghost use Rattle.ds_formula.specs.Cells.{IsInside};
ghost use Rattle.ds_formula.specs.Names.{name_of_kind, fault_text, cell_text, cell_named};

use crate::cells::{COLUMN_LIMIT, Cell, ROW_LIMIT, Shape};
use crate::fault::{FaultKind, TextFault};
use crate::tokens::{cell_of, column, row};
use std::fmt;

impl FaultKind {
    /// The name of the fault, as `NotWhole`.
    pub fn name(self) -> &'static str
        ensures { result.now ≡ name_of_kind self }
    {
        match self {
            FaultKind::TooLong => "TooLong",
            FaultKind::BadToken => "BadToken",
            FaultKind::NotWhole => "NotWhole",
            FaultKind::NumberTooLarge => "NumberTooLarge",
            FaultKind::UnknownFunction => "UnknownFunction",
            FaultKind::WrongArguments => "WrongArguments",
            FaultKind::OutsideSheet => "OutsideSheet",
            FaultKind::RangeNotAllowed => "RangeNotAllowed",
            FaultKind::TooDeep => "TooDeep",
            FaultKind::Unfinished => "Unfinished",
            FaultKind::NoMemory => "NoMemory",
        }
    }
}

impl fmt::Display for FaultKind {
    ghost output = { λ k. Some (name_of_kind k) };

    fn fmt<W: fmt::Write>(&self, f: &mut fmt::Formatter<W>) -> fmt::Result {
        f.write_str(self.name())
    }
}

impl fmt::Display for TextFault {
    ghost output = { λ t. Some (fault_text t) };

    fn fmt<W: fmt::Write>(&self, f: &mut fmt::Formatter<W>) -> fmt::Result {
        write!(f, "{} {}", self.kind, self.offset)
    }
}

impl fmt::Display for Cell {
    ghost output = { λ c. Some (cell_text c) };

    fn fmt<W: fmt::Write>(&self, f: &mut fmt::Formatter<W>) -> fmt::Result {
        if self.column < COLUMN_LIMIT && self.row < ROW_LIMIT {
            let letter = (b'A' + self.column as u8) as char;
            write!(f, "{}{}", letter, self.row + 1)
        } else {
            f.write_str("#REF!")
        }
    }
}

impl Shape {
    /// The cell with this name, as `A1` or `a1`, where it is one of the sheet. The digits of a row begin with 1 to 9.
    pub fn named(&self, text: &[u8]) -> Option<Cell>
        ensures value { result ≡ cell_named self.now text.now }
        ensures inside { IfSome result (IsInside self.now) }
    {
        let Ok((column, rest)) = column(text) else {
            return None;
        };
        let Ok((row, rest)) = row(rest) else {
            return None;
        };
        if rest.is_empty() {
            cell_of(self, column, row)
        } else {
            None
        }
    }
}
