//! What `dsheet explore` is to explore.

ghost use Rattle.std.specs.Prelude.{◌≡◌, ◌↔◌, ◌≤◌, IfErr, IfOk, IsTrue, Some, codes};
ghost use Rattle.clap.specs.Words.{found_of, one_of, rows_of};
ghost use Rattle.ds_cli.specs.ExploreForms.{AreForms, IsExploreForm, asked_forms, form_by};
ghost use Rattle.ds_cli.specs.Explorings.{IsExploring};
ghost use Rattle.ds_cli.specs.Servings.{IsNumberOf, IsLimitOf};

use crate::inputs::input_of;
use crate::serving::{OutOfLimits, number};
use clap::ArgMatches;

/// An exploration: what may come between the steps of calls, and how much is gone through.
#[derive(Clone, Copy, Debug, PartialEq, Eq)]
pub struct Exploring<'a> {
    /// The file of the script, or none: standard input.
    pub file: Option<&'a str>,
    /// A crash at each state.
    pub crashes: bool,
    /// A stop of each process at each state.
    pub stops: bool,
    /// An eviction of each word whose sides differ.
    pub evictions: bool,
    /// How many thousand states are gone through at most, one at least.
    pub thousands: usize,
    /// What is written.
    pub form: ExploreForm,
}

/// What is written of an exploration.
#[derive(Clone, Copy, Debug, PartialEq, Eq)]
pub enum ExploreForm {
    /// All outcomes, each with a script.
    All,
    /// The exploration at a glance.
    Summary,
    /// All outcomes, as lines of JSON.
    Json,
    /// The outcome with this number, from 1.
    Outcome(usize),
    /// A picture of the script of the outcome with this number, from 1.
    Picture(usize),
}

// What is said of what is to be written.
#[derive(Clone, Copy)]
struct Forms {
    summary: bool,
    json: bool,
    show: usize,
    trace: usize,
}

impl Forms {
    // How many forms are asked for.
    fn count(self) -> usize
        ensures { result ≡ asked_forms self }
    {
        self.summary as usize
            + self.json as usize
            + (0 < self.show) as usize
            + (0 < self.trace) as usize
    }

    // The form that is asked for, where it is one.
    fn form(self) -> ExploreForm
        ensures { result ≡ form_by self }
    {
        if self.summary {
            ExploreForm::Summary
        } else if self.json {
            ExploreForm::Json
        } else if 0 < self.show {
            ExploreForm::Outcome(self.show)
        } else if 0 < self.trace {
            ExploreForm::Picture(self.trace)
        } else {
            ExploreForm::All
        }
    }
}

// What the options say of what is to be written.
fn what_is_asked(found: &ArgMatches<'_>) -> Result<Forms, OutOfLimits>
    ensures forms { IfOk result (AreForms (rows_of (found_of found.now))) }
    ensures limit { IfErr result (IsLimitOf (codes "explore") (rows_of (found_of found.now))) }
{
    let Some(show) = number(found, "show") else {
        return Err(OutOfLimits::Show);
    };
    let Some(trace) = number(found, "trace") else {
        return Err(OutOfLimits::Trace);
    };
    Ok(Forms {
        summary: is_set(found, "summary"),
        json: is_set(found, "json"),
        show,
        trace,
    })
}

// What is to be written. An error is also that two forms are asked for.
fn read_form(found: &ArgMatches<'_>) -> Result<ExploreForm, OutOfLimits>
    ensures form { IfOk result (IsExploreForm (rows_of (found_of found.now))) }
    ensures limit { IfErr result (IsLimitOf (codes "explore") (rows_of (found_of found.now))) }
{
    let forms = what_is_asked(found)?;
    if 1 < forms.count() {
        return Err(OutOfLimits::Forms);
    }
    Ok(forms.form())
}

/// Whether a flag is set.
pub(crate) fn is_set(found: &ArgMatches<'_>, name: &str) -> bool
    ensures { IsTrue result ↔ (one_of name.now (rows_of (found_of found.now)) ≡ Some (codes "true")) }
{
    found.get_one::<bool>(name) == Some(true)
}

// How many thousand states they ask for at most.
fn read_most(found: &ArgMatches<'_>) -> Result<usize, OutOfLimits>
    ensures some { IfOk result (λ n. IsNumberOf (rows_of (found_of found.now)) (codes "most") n × (1 ≤ n)) }
    ensures limit { IfErr result (IsLimitOf (codes "explore") (rows_of (found_of found.now))) }
{
    match number(found, "most") {
        Some(most) if 1 <= most => Ok(most),
        _ => Err(OutOfLimits::Most),
    }
}

/// The exploration that the options of `dsheet explore` ask for. An error says which number is none, or that two forms are
/// asked for.
pub fn read_exploring<'a>(found: &ArgMatches<'a>) -> Result<Exploring<'a>, OutOfLimits>
    ensures exploring { IfOk result (IsExploring (rows_of (found_of found.now))) }
    ensures limit { IfErr result (IsLimitOf (codes "explore") (rows_of (found_of found.now))) }
{
    Ok(Exploring {
        file: input_of(found),
        crashes: is_set(found, "crashes"),
        stops: is_set(found, "stops"),
        evictions: is_set(found, "evictions"),
        thousands: read_most(found)?,
        form: read_form(found)?,
    })
}
