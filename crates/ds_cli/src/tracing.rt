//! What `dsheet trace` is asked for.

ghost use Rattle.clap.specs.Words.{found_of, rows_of};
ghost use Rattle.ds_cli.specs.Tracings.{IsTracing};

use crate::exploring::is_set;
use crate::inputs::input_of;
use clap::ArgMatches;

/// The picture of the run of a script.
#[derive(Clone, Copy, Debug, PartialEq, Eq)]
pub struct Tracing<'a> {
    /// The file of the script, or none: standard input.
    pub file: Option<&'a str>,
    /// Whether it shows no more than what decides, in at most 850 pixels.
    pub brief: bool,
}

/// The picture that the options of `dsheet trace` ask for.
pub(crate) fn read_tracing<'a>(found: &ArgMatches<'a>) -> Tracing<'a>
    ensures { IsTracing (rows_of (found_of found.now)) result }
{
    Tracing {
        file: input_of(found),
        brief: is_set(found, "brief"),
    }
}
