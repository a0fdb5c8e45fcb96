//! What `dsheet log` is asked for.

ghost use Rattle.std.specs.Prelude.{◌≡◌, IfErr, IfOk, codes};
ghost use Rattle.clap.specs.Words.{found_of, rows_of};
ghost use Rattle.ds_cli.specs.Loggings.{IsShown};
ghost use Rattle.ds_cli.specs.Servings.{IsLimitOf};

use crate::exploring::is_set;
use crate::serving::{OutOfLimits, number};
use clap::ArgMatches;

/// What is shown of a store's edits.
#[derive(Clone, Copy, Debug, PartialEq, Eq)]
pub enum Shown {
    /// Their list.
    Edits,
    /// The texts of the cells after the first N edits, from 1 to 65,535.
    Texts(usize),
    /// The values of the cells then.
    Values(usize),
}

/// The log of a store.
#[derive(Clone, Copy, Debug, PartialEq, Eq)]
pub struct Logging<'a> {
    /// The file of the store.
    pub path: &'a str,
    /// The cell that is shown alone, if one is, as `A1`.
    pub cell: Option<&'a str>,
    /// What is shown.
    pub shown: Shown,
}

/// What the options of `dsheet log` ask to show. The fault is that values are asked for after no edit, or that the number
/// of edits is none.
pub(crate) fn shown_of(found: &ArgMatches<'_>) -> Result<Shown, OutOfLimits>
    ensures shown { IfOk result (IsShown (rows_of (found_of found.now))) }
    ensures limit { IfErr result (IsLimitOf (codes "log") (rows_of (found_of found.now))) }
{
    let Some(at) = number(found, "at") else {
        return Err(OutOfLimits::At);
    };
    let values = is_set(found, "values");
    match at {
        0 if values => Err(OutOfLimits::NoAt),
        0 => Ok(Shown::Edits),
        _ if values => Ok(Shown::Values(at)),
        _ => Ok(Shown::Texts(at)),
    }
}
