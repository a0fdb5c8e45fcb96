//! What `dsheet report` is asked for.

ghost use Rattle.clap.specs.Words.{found_of, rows_of};
ghost use Rattle.ds_cli.specs.Reportings.{IsReporting};

use crate::exploring::is_set;
use crate::inputs::input_of;
use crate::notations::notation_of;
use clap::ArgMatches;
use ds_a1::notation::Notation;

/// The report of a grid.
#[derive(Clone, Copy, Debug, PartialEq, Eq)]
pub struct Reporting<'a> {
    /// The file of the grid, or none: standard input.
    pub file: Option<&'a str>,
    /// How formulas are written.
    pub notation: Notation,
    /// Whether labels pass through.
    pub labels: bool,
    /// Whether the values are written as JSON; otherwise as CSV.
    pub json: bool,
}

/// The report that the options of `dsheet report` ask for.
pub(crate) fn read_reporting<'a>(found: &ArgMatches<'a>) -> Reporting<'a>
    ensures { IsReporting (rows_of (found_of found.now)) result }
{
    Reporting {
        file: input_of(found),
        notation: notation_of(found),
        labels: is_set(found, "labels"),
        json: is_set(found, "json"),
    }
}
