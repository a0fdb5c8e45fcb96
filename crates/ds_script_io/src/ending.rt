//! How a script ends.

use std::fmt;

/// Why a line of a script is not carried out.
#[derive(Clone, Copy, Debug, PartialEq, Eq)]
pub enum ScriptFault {
    /// The first word is no command's.
    UnknownCommand,
    /// A word after it is missing, is one too many, or is none that the command takes.
    BadField,
    /// `sheet` after another command.
    SheetNotFirst,
    /// `layout` after a command other than `sheet`.
    LayoutNotFirst,
    /// More than 512 bytes, without the line's end.
    LineTooLong,
}

impl fmt::Display for ScriptFault {
    ghost use Rattle.std.specs.Prelude.{Some};
    ghost use Rattle.ds_script_io.specs.ScriptEndings.{name_of_fault};

    ghost output = { λ fault. Some (name_of_fault fault) };

    fn fmt<W: fmt::Write>(&self, f: &mut fmt::Formatter<W>) -> fmt::Result {
        f.write_str(match self {
            ScriptFault::UnknownCommand => "unknown command",
            ScriptFault::BadField => "bad field",
            ScriptFault::SheetNotFirst => "sheet not first",
            ScriptFault::LayoutNotFirst => "layout not first",
            ScriptFault::LineTooLong => "line too long",
        })
    }
}

/// How a script ended. What was written before stays written.
#[derive(Clone, Copy, Debug, PartialEq, Eq)]
pub enum ScriptEnd {
    /// The reader has ended, and every line was carried out.
    Ended,
    /// This line, counted from 1, was not carried out; every line before it was.
    Fault { line: usize, kind: ScriptFault },
    /// The script is longer than 1,048,576 bytes; the lines whole within them were carried out.
    TooLong,
    /// The reader failed; the lines whole before that were carried out.
    ReadFailed,
    /// The writer failed.
    WriteFailed,
    /// An allocation failed outside a command that has a refusal for it.
    NoMemory,
}

impl fmt::Display for ScriptEnd {
    ghost use Rattle.std.specs.Prelude.{Some};
    ghost use Rattle.ds_script_io.specs.ScriptEndings.{end_text};

    ghost output = { λ end. Some (end_text end) };

    fn fmt<W: fmt::Write>(&self, f: &mut fmt::Formatter<W>) -> fmt::Result {
        match self {
            ScriptEnd::Ended => f.write_str("ended"),
            ScriptEnd::Fault { line, kind } => write!(f, "line {line}: {kind}"),
            ScriptEnd::TooLong => f.write_str("script too long: more than 1048576 bytes"),
            ScriptEnd::ReadFailed => f.write_str("the script could not be read"),
            ScriptEnd::WriteFailed => f.write_str("an answer could not be written"),
            ScriptEnd::NoMemory => f.write_str("out of memory"),
        }
    }
}
