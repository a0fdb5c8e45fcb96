//! What `dsheet export` is asked for.

ghost use Rattle.std.specs.Prelude.{◌≡◌, IfErr, IfOk, codes};
ghost use Rattle.clap.specs.Words.{found_of, rows_of};
ghost use Rattle.ds_cli.specs.Exportings.{IsForm, IsSet};
ghost use Rattle.ds_cli.specs.Servings.{IsLimitOf};

use crate::exploring::is_set;
use crate::serving::OutOfLimits;
use clap::ArgMatches;

/// What of a store is written.
#[derive(Clone, Copy, Debug, PartialEq, Eq)]
pub enum ExportForm {
    /// Its lines: a script.
    Lines,
    /// The texts of its cells, a table.
    Texts,
    /// The values of its cells, a table.
    Values,
}

/// The export of a store.
#[derive(Clone, Copy, Debug, PartialEq, Eq)]
pub struct Exporting<'a> {
    /// The file of the store.
    pub path: &'a str,
    /// How many of its first lines are read at most, as far as they are sound, at most 65,535. 0: all of them, or none where
    /// one is unsound.
    pub until: usize,
    /// What is written.
    pub form: ExportForm,
    /// Whether a table is written as JSON; otherwise as CSV.
    pub json: bool,
}

/// What the flags of `dsheet export` ask to write. The fault is that they ask for CSV, and for JSON.
pub(crate) fn form_of(found: &ArgMatches<'_>) -> Result<ExportForm, OutOfLimits>
    ensures form { IfOk result (IsForm (rows_of (found_of found.now))) }
    ensures one { IfOk result (λ _. IsSet (rows_of (found_of found.now)) (codes "csv") → IsSet (rows_of (found_of found.now)) (codes "json") → ⊥) }
    ensures limit { IfErr result (IsLimitOf (codes "export") (rows_of (found_of found.now))) }
{
    let csv = is_set(found, "csv");
    let json = is_set(found, "json");
    if csv && json {
        Err(OutOfLimits::CsvJson)
    } else if is_set(found, "values") {
        Ok(ExportForm::Values)
    } else if csv || json {
        Ok(ExportForm::Texts)
    } else {
        Ok(ExportForm::Lines)
    }
}
