//! Which file a command reads.

ghost use Rattle.clap.specs.Words.{found_of, rows_of};
ghost use Rattle.ds_cli.specs.Inputs.{IsInput};

use clap::ArgMatches;

/// The file that is named; none for standard input, where there is none or it is `-`.
pub(crate) fn input_of<'a>(found: &ArgMatches<'a>) -> Option<&'a str>
    ensures { IsInput (rows_of (found_of found.now)) result }
{
    match found.get_str("file") {
        Some("-") => None,
        Some(path) => Some(path),
        None => None,
    }
}
