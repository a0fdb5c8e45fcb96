//! `dsheet explore`.

ghost use Rattle.std.specs.Prelude.{◌≡◌, ◌*◌, ◌-◌, ◌^◌, min};

use crate::form::{Unwritten, write_form};
use crate::input::read_script;
use crate::status::{explore_status, picture_status};
use ds_batch::closing::Closing;
use ds_batch::faults::show_line;
use ds_batch::run::no_memory;
use ds_batch::source::Source;
use ds_batch::status::{CLOSED, STREAM_FAILED};
use ds_cli::exploring::{ExploreForm, Exploring};
use ds_explore::exploration::explored;
use ds_explore::explore::{ExploreEnd, explore as explore_orders};
use ds_explore::options::{Options, Watcher};
use ds_script_io::streams::Writing;
use std::fs::{File, Files};
use std::io::{self, BufWriter, Write};

// The status where the outcome that is asked for is none: wrong words on the command line.
const NO_OUTCOME: u8 = 2;

// How many states are found in well under a second; an unproved program takes longer, so powers of two are shown, too.
const EACH: usize = 500;

fn is_shown(states: usize) -> bool {
    states.is_multiple_of(EACH) || states.is_power_of_two()
}

// Shows on standard error how many states were found, where that is asked for: one line, which is overwritten.
#[derive(Drop)]
struct Counter<'a, R: Eprint> {
    rt: &'a R,
    shows: bool,
    shown: usize,
}

impl<R: Eprint> Watcher for Counter<'_, R> {
    fn found(&mut self, states: usize) {
        if self.shows && is_shown(states) && states != self.shown {
            let _shown = eprint!(self.rt; "\rdsheet: {states} states");
            self.shown = states;
        }
    }
}

impl<R: Eprint> Counter<'_, R> {
    // Takes the line back, where there is one.
    fn end(&self) {
        if self.shown > 0 {
            let _taken_back = eprint!(self.rt; "\r                                  \r");
        }
    }
}

// Says why an exploration ended, where it is not well.
fn explain<R: Eprint>(rt: &R, script: &[u8], end: &ExploreEnd) {
    match end {
        ExploreEnd::Ended => {}
        ExploreEnd::Fault { line, kind } => {
            let _reported = eprintln!(rt; "{end}");
            show_line(rt, script, *line, *kind);
        }
        _ => {
            let _reported = eprintln!(rt; "dsheet: {end}");
        }
    }
}

// Says why a form of an exploration is not written; gives the status.
fn unwritten<R: Eprint>(rt: &R, why: Unwritten) -> u8 {
    match why {
        Unwritten::NoOutcome { number, count } => {
            let _reported = eprintln!(rt;
                "dsheet: there is no outcome {number}: there are {count}"
            );
            NO_OUTCOME
        }
        Unwritten::NotUtf8 => {
            let _reported = eprintln!(rt; "dsheet: the script is not UTF-8, and JSON is");
            STREAM_FAILED
        }
        Unwritten::NoPicture(end) => {
            let _reported = eprintln!(rt; "dsheet: {end}");
            picture_status(&end)
        }
        Unwritten::NoMemory => no_memory(rt),
    }
}

// What the orders may have, and how many states are gone through at most.
fn options_of(exploring: Exploring<'_>) -> Options
    ensures crashes { result.crashes ≡ exploring.entry.crashes }
    ensures stops { result.stops ≡ exploring.entry.stops }
    ensures evictions { result.evictions ≡ exploring.entry.evictions }
    ensures most { result.most ≡ min (exploring.entry.thousands * 1000) (2 ^ 64 - 1) }
{
    Options {
        crashes: exploring.crashes,
        stops: exploring.stops,
        evictions: exploring.evictions,
        most: exploring.thousands.saturating_mul(1000),
    }
}

// Explores a script, and writes what it comes to in one of the shorter forms.
fn explore_form<R: AllocGlobal + Eprint, W: Write>(
    rt: &R,
    script: &[u8],
    exploring: Exploring<'_>,
    counter: &mut Counter<'_, R>,
    writer: &mut Writing<W>,
) -> Result<ExploreEnd, Unwritten> {
    let found = explored(rt.alloc(), script, options_of(exploring), counter);
    counter.end();
    match found {
        Ok(exploration) => write_form(rt.alloc(), &exploration, exploring.form, writer),
        Err(why) => Ok(why.end()),
    }
}

// Explores a script, and writes what it comes to to this writer.
fn write_all_of<R: AllocGlobal + Eprint, W: Write>(
    rt: &R,
    script: &[u8],
    exploring: Exploring<'_>,
    shows: bool,
    writer: &mut Writing<W>,
) -> Result<ExploreEnd, Unwritten> {
    let mut counter = Counter {
        rt,
        shows,
        shown: 0,
    };
    if exploring.form != ExploreForm::All {
        return explore_form(rt, script, exploring, &mut counter, writer);
    }
    let options = options_of(exploring);
    let end = explore_orders(rt.alloc(), script, options, writer, &mut counter);
    counter.end();
    Ok(end)
}

// Explores a script, and writes what it comes to; gives the status, 141 where nobody reads it any more.
fn explore_script<R: AllocGlobal + Print + Eprint>(
    rt: &R,
    script: &[u8],
    exploring: Exploring<'_>,
    shows: bool,
) -> u8 {
    let mut closed = false;
    let end = {
        let output = Closing::new(io::writer(rt), &mut closed);
        let Ok(buffered) = BufWriter::new(rt.alloc(), output) else {
            return no_memory(rt);
        };
        let mut writer = Writing::new(buffered);
        write_all_of(rt, script, exploring, shows, &mut writer)
    };
    if closed {
        return CLOSED;
    }
    match end {
        Ok(end) => {
            explain(rt, script, &end);
            explore_status(&end)
        }
        Err(why) => unwritten(rt, why),
    }
}

/// `dsheet explore`: a script from its file or from standard input, what all orders of its calls' steps come to to standard
/// output, in the form that is asked for, and why it ended, where it is not well, to standard error; gives the status, 3
/// where the file cannot be opened.
pub fn explore<R: AllocGlobal + Input + Print + Eprint + Files<File = File>>(
    rt: &R,
    exploring: Exploring<'_>,
    shows: bool,
) -> u8 {
    match read_script(rt, Source::of(exploring.file)) {
        Ok(script) => explore_script(rt, &script, exploring, shows),
        Err(status) => status,
    }
}
