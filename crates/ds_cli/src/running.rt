//! What `dsheet run` is asked for.

ghost use Rattle.clap.specs.Words.{found_of, rows_of};
ghost use Rattle.ds_cli.specs.Runnings.{IsRunning};

use crate::exploring::is_set;
use crate::inputs::input_of;
use crate::notations::notation_of;
use clap::ArgMatches;
use ds_a1::notation::Notation;

/// The run of a script.
#[derive(Clone, Copy, Debug, PartialEq, Eq)]
pub struct Running<'a> {
    /// The file of the script, or none: standard input.
    pub file: Option<&'a str>,
    /// How formulas are written.
    pub notation: Notation,
    /// Whether an answer that is a refusal counts as a fault.
    pub strict: bool,
    /// Whether its answers are written as JSON.
    pub json: bool,
}

/// The run that the options of `dsheet run` ask for.
pub(crate) fn read_running<'a>(found: &ArgMatches<'a>) -> Running<'a>
    ensures { IsRunning (rows_of (found_of found.now)) result }
{
    Running {
        file: input_of(found),
        notation: notation_of(found),
        strict: is_set(found, "strict"),
        json: is_set(found, "json"),
    }
}
