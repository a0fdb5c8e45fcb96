//! `dsheet run`, `dsheet run --stops` and `dsheet report` alone: what the script `dsheet` answers by where nothing is
//! proved yet, since it is built in half a minute. It answers as the whole program does.
#![tactic(auto)]

mod words;

use crate::words::{Options, options_of};
use ds_batch::refusals::AnswerForm;
use ds_batch::report::{TableForm, report};
use ds_batch::run::{RunForm, no_memory, run, run_stops, stops_between};
use ds_batch::source::Source;
use ds_grid::form::GridForm;
use std::env;
use std::fs::{File, Files};
use std::io::IsTerminal;
use std::process::ExitCode;
use std::rt::Env;

// The status of words that this program does not read.
const WRONG_WORDS: u8 = 2;

// Carries out a command with these options; none where this program does not know it, or its options mean nothing together.
fn carry_out<R: AllocGlobal + Input + Print + Eprint + Files<File = File>>(
    rt: &R,
    command: &str,
    options: Options<'_>,
    shows: bool,
) -> Option<u8> {
    let Options {
        file,
        notation,
        labels: keeps_labels,
        json,
        strict,
        stops,
        from,
        to,
        ..
    } = options;
    if stops && json {
        return None;
    }
    let source = Source::of(file);
    let answers = if json {
        AnswerForm::Json
    } else {
        AnswerForm::Words
    };
    let form = RunForm {
        notation,
        strict,
        answers,
    };
    match command {
        "run" if stops => {
            let range = stops_between(from.unwrap_or(1) as u64, to.unwrap_or(0) as u64);
            Some(run_stops(rt, source, range, form, shows))
        }
        "run" if from.is_none() && to.is_none() => Some(run(rt, source, form)),
        "report" => {
            let form = GridForm {
                notation,
                keeps_labels,
            };
            let table = if json {
                TableForm::Json
            } else {
                TableForm::Csv
            };
            Some(report(rt, source, form, table))
        }
        _ => None,
    }
}

fn answer<R: AllocGlobal + Env + Input + Print + Eprint + Files<File = File>>(
    rt: &R,
    shows: bool,
) -> u8 {
    let Some(words) = env::args(rt).ok() else {
        return no_memory(rt);
    };
    let Ok(words) = words.collect::<Vec<String>>(rt.alloc()) else {
        return no_memory(rt);
    };
    if let [_, command, rest @ ..] = words.as_slice() {
        if let Some(options) = options_of(rest) {
            if let Some(status) = carry_out(rt, command, options, shows) {
                return status;
            }
        }
    }
    let _reported = eprintln!(rt;
        "dsheet: only run and report, with their options, each value a word of its own"
    );
    WRONG_WORDS
}

fn main(rt: HostRuntime) -> ExitCode {
    let shows = rt.stderr().is_terminal();
    ExitCode::from(answer(&rt, shows))
}
