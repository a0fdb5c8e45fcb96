//! Values of cells.

use std::fmt;

/// The value of a cell. It prints as the exact text that a report shows: a blank prints nothing.
#[derive(Clone, Copy, Debug, PartialEq, Eq)]
pub enum Value {
    /// A cell that holds nothing. A formula's value is never blank.
    Blank,
    /// A whole number.
    Number(i64),
    /// A division by 0: `#DIV/0!` (OpenFormula 4.6 and 5.12).
    DivZero,
    /// A result that is no whole number from -2^63 to 2^63-1: `#NUM!` (OpenFormula 4.6 and 5.12).
    Num,
    /// References that can be followed for ever: LibreOffice's `Err:522`.
    Circular,
}

impl fmt::Display for Value {
    ghost use Rattle.std.specs.Prelude.{Some};
    ghost use Rattle.ds_eval.specs.Numbers.{value_text};

    ghost output = { λ v. Some (value_text v) };

    fn fmt<W: fmt::Write>(&self, f: &mut fmt::Formatter<W>) -> fmt::Result {
        match self {
            Value::Blank => Ok(()),
            Value::Number(number) => write!(f, "{number}"),
            Value::DivZero => f.write_str("#DIV/0!"),
            Value::Num => f.write_str("#NUM!"),
            Value::Circular => f.write_str("Err:522"),
        }
    }
}
