//! In which notation a command reads formulas.

ghost use Rattle.clap.specs.Words.{found_of, rows_of};
ghost use Rattle.ds_cli.specs.Notations.{IsNotation};

use crate::exploring::is_set;
use clap::ArgMatches;
use ds_a1::notation::Notation;

/// The notation that the flag `--a1` asks for, or OpenFormula's without it.
pub(crate) fn notation_of(found: &ArgMatches<'_>) -> Notation
    ensures { IsNotation (rows_of (found_of found.now)) result }
{
    if is_set(found, "a1") {
        Notation::A1
    } else {
        Notation::OpenFormula
    }
}
