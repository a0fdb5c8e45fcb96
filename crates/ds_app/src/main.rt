//! `dsheet`: a shared spreadsheet that survives crashes.
#![tactic(auto)]

mod descriptors;

use crate::descriptors::stand_ins;
use clap::Error;
use clap::error::ErrorKind;
use ds_analyze::analyst::{STATES_MOST, ScriptAnalyst};
use ds_analyze::explore::explore;
use ds_analyze::trace::trace;
use ds_batch::closing::is_closed;
use ds_batch::groups::run_groups;
use ds_batch::refusals::AnswerForm;
use ds_batch::report::{TableForm, report};
use ds_batch::run::{RunForm, no_memory, run, run_stops, stops_between};
use ds_batch::source::Source;
use ds_batch::status::{CLOSED, NO_MEMORY, STREAM_FAILED};
use ds_cli::command_line::{Action, OptionsFault, options};
use ds_cli::connecting::Stopping;
use ds_cli::reporting::Reporting;
use ds_cli::running::Running;
use ds_client_command::connect::connect;
use ds_client_command::screen::Screen;
use ds_grid::form::GridForm;
use ds_net_command::serve::{serve, serve_store};
use ds_store::open::Databases;
use ds_store_commands::backup::backup;
use ds_store_commands::exporting::export;
use ds_store_commands::importing::import;
use ds_store_commands::log::log;
use ds_store_commands::stores::{check, compact};
use log::Log;
use std::fs::{File, Files};
use std::hash::RandomState;
use std::io::{self, IsTerminal};
use std::net::{Net, TcpListener, TcpStream};
use std::process::ExitCode;
use std::random::RandomSource;
use std::rt::Env;
use std::sync::Wait;
use std::thread::Threads;
use std::time::Clock;

// The status of wrong words on the command line, and of options out of their limits.
const WRONG_WORDS: u8 = 2;

// Who answers a server's questions about scripts.
const ANALYST: ScriptAnalyst = ScriptAnalyst {
    states_most: STATES_MOST,
};

// Prints help to standard output, and what is wrong with the words to standard error.
fn explain(rt: &(impl Print + Eprint), error: &Error) -> u8 {
    let printed = error.print(rt);
    if error.kind() == ErrorKind::OutOfMemory {
        NO_MEMORY
    } else if error.use_stderr() {
        WRONG_WORDS
    } else if let Err(error) = printed {
        if is_closed(&error) {
            return CLOSED;
        }
        let _reported = eprintln!(rt; "dsheet: standard output: {error}");
        STREAM_FAILED
    } else {
        0
    }
}

// Which standard streams are terminals.
#[derive(Clone, Copy, Debug)]
struct Terminals {
    screen: Screen,
    error: bool,
}

// Keys of maps, which nobody can guess. An error is the status, when standard error has the reason.
fn keys<R: RandomSource + Eprint>(rt: &R) -> Result<RandomState, u8> {
    match RandomState::new(rt) {
        Ok(keys) => Ok(keys),
        Err(error) => {
            let _reported = eprintln!(rt; "dsheet: no random numbers: {error}");
            Err(STREAM_FAILED)
        }
    }
}

// How a script is run that is asked for.
fn run_form(running: Running<'_>) -> RunForm {
    RunForm {
        notation: running.notation,
        strict: running.strict,
        answers: if running.json {
            AnswerForm::Json
        } else {
            AnswerForm::Words
        },
    }
}

// `dsheet report`, as it is asked for.
fn carry_out_report<R: AllocGlobal + Input + Print + Eprint + Files<File = File>>(
    rt: &R,
    reporting: Reporting<'_>,
) -> u8 {
    let form = GridForm {
        notation: reporting.notation,
        keeps_labels: reporting.labels,
    };
    let table = if reporting.json {
        TableForm::Json
    } else {
        TableForm::Csv
    };
    report(rt, Source::of(reporting.file), form, table)
}

fn dispatch<
    R: AllocGlobal
        + Env
        + Files<File = File>
        + Input
        + Print
        + Eprint
        + Threads
        + Wait
        + Clock
        + Log
        + RandomSource
        + Net<Stream = TcpStream, Listener = TcpListener>
        + Databases
        + Sync,
>(rt: &R, terminals: Terminals) -> u8 {
    let _kept = stand_ins(rt);
    let arguments = match std::env::args(rt) {
        Ok(arguments) => arguments,
        Err(error) if error.kind() == io::ErrorKind::OutOfMemory => return no_memory(rt),
        Err(_) => {
            let _reported = eprintln!(rt; "dsheet: an argument is not UTF-8");
            return WRONG_WORDS;
        }
    };
    let Ok(words) = arguments.collect::<Vec<String>>(rt.alloc()) else {
        return no_memory(rt);
    };
    match options(rt.alloc(), words.as_slice()) {
        Ok(Action::Run(running)) => run(rt, Source::of(running.file), run_form(running)),
        Ok(Action::Stops(Stopping { from, to, brief }, running)) => {
            let range = stops_between(from as u64, to as u64);
            let (source, form) = (Source::of(running.file), run_form(running));
            if brief {
                run_groups(rt, source, range, form, terminals.error)
            } else {
                run_stops(rt, source, range, form, terminals.error)
            }
        }
        Ok(Action::Report(reporting)) => carry_out_report(rt, reporting),
        Ok(Action::Explore(exploring)) => explore(rt, exploring, terminals.error),
        Ok(Action::Trace(tracing)) => trace(rt, tracing),
        Ok(Action::Serve(serving)) => match keys(rt) {
            Ok(keys) => serve(rt, serving, keys, &ANALYST),
            Err(status) => status,
        },
        Ok(Action::Keep(serving, path)) => match keys(rt) {
            Ok(keys) => serve_store(rt, serving, path, keys, &ANALYST),
            Err(status) => status,
        },
        Ok(Action::Connect(connecting, notation)) => {
            connect(rt, connecting, notation, terminals.screen)
        }
        Ok(Action::Check(path)) => check(rt, path),
        Ok(Action::Log(logging)) => log(rt, logging),
        Ok(Action::Export(exporting)) => export(rt, exporting),
        Ok(Action::Import(importing)) => import(rt, importing),
        Ok(Action::Compact(path, new)) => compact(rt, path, new),
        Ok(Action::Backup(path, copy)) => backup(rt, path, copy),
        Err(OptionsFault::CommandLine(error)) => explain(rt, &error),
        Err(OptionsFault::NoFile) => {
            let _reported = eprintln!(rt; "dsheet: no file");
            WRONG_WORDS
        }
        Err(OptionsFault::NoCommand) => {
            let _reported = eprintln!(rt; "dsheet: no command");
            WRONG_WORDS
        }
        Err(OptionsFault::OutOfLimits(limit)) => {
            let _reported = eprintln!(rt; "dsheet: {limit}\n\nUsage: {}", limit.usage());
            WRONG_WORDS
        }
    }
}

fn main(rt: HostRuntime) -> ExitCode {
    let terminals = Terminals {
        screen: Screen {
            input: rt.stdin().is_terminal(),
            output: rt.stdout().is_terminal(),
        },
        error: rt.stderr().is_terminal(),
    };
    ExitCode::from(dispatch(&rt, terminals))
}
