//! The command line, by `clap`.

ghost use Rattle.std.specs.Prelude.{◌≡◌, ◌↔◌, IfErr, IfOk, IsTrue, None, Some, [], codes, false, map};
ghost use Rattle.std.specs.String.{string_bytes};
ghost use Rattle.clap.specs.Words.{App, Rule, app_of, fault_of, new_app, first_of, found_of, one_of, rows_of, rule_of, with_rule, with_subcommand};
ghost use Rattle.ds_cli.specs.declared.command_line.OptionsFault.TheVariants.{CommandLine, NoFile};
ghost use Rattle.ds_cli.specs.CommandLines.{Asks, AsksNothing, AsksOfStore, IsAskedBy, IsCommand, IsRefusedFor, IsWanting, Names, backup_command as backup_app, compact_command as compact_app, connect_command as connect_app, dsheet, dsheet_alone, explore_command as explore_app, orders_command as orders_app, export_command as export_app, file as file_rule, input as input_rule, flag as flag_rule, given_number as given_number_rule, http as http_rule, guarded_command as guarded_app, token_file as token_file_rule, file_command as file_app, import_command as import_app, log_command as log_app, cell as cell_rule, key as key_rule, listen as listen_rule, log_option as log_rule, number_option as number_rule, report_command as report_app, run_command as run_app, serve_command as serve_app, shared_command as shared_app, sheet_command as sheet_app, store as store_rule, trace_command as trace_app, with_stores};

use crate::connecting::{Connecting, Stopping, names_no_step, read_connecting, read_stopping};
use crate::exploring::{Exploring, is_set, read_exploring};
use crate::exporting::{Exporting, form_of};
use crate::help;
use crate::importing::Importing;
use crate::logging::{Logging, shown_of};
use crate::notations::notation_of;
use crate::reporting::{Reporting, read_reporting};
use crate::running::{Running, read_running};
use crate::serving::{OutOfLimits, Serving, number, read_serving, text};
use crate::tracing::{Tracing, read_tracing};
use clap::{Arg, ArgAction, ArgMatches, Command, Error, value_parser};
use ds_a1::notation::Notation;
use std::alloc::{AllocError, Global};

/// What the words ask for.
#[derive(Clone, Copy, Debug, PartialEq, Eq)]
pub enum Action<'a> {
    /// `dsheet run`: a script.
    Run(Running<'a>),
    /// `dsheet run --stops`: the same, crashed after each of its steps.
    Stops(Stopping, Running<'a>),
    /// `dsheet report`: a grid.
    Report(Reporting<'a>),
    /// `dsheet explore`: all orders of the steps of a script's calls.
    Explore(Exploring<'a>),
    /// `dsheet trace`: a picture of the run of a script.
    Trace(Tracing<'a>),
    /// `dsheet serve`: sessions over connections.
    Serve(Serving<'a>),
    /// `dsheet serve --store FILE`: the same, over the sheet of a store.
    Keep(Serving<'a>, &'a str),
    /// `dsheet connect SERVER`: a session of lines, with formulas in this notation.
    Connect(Connecting<'a>, Notation),
    /// `dsheet check FILE`: what a store has.
    Check(&'a str),
    /// `dsheet log FILE`: the edits of a store.
    Log(Logging<'a>),
    /// `dsheet export FILE`: the lines of a store, or its cells.
    Export(Exporting<'a>),
    /// `dsheet import FILE`: a store of what is on standard input.
    Import(Importing<'a>),
    /// `dsheet compact FILE NEW`: a new store of the texts of an old one.
    Compact(&'a str, &'a str),
    /// `dsheet backup FILE COPY`: a copy of a store.
    Backup(&'a str, &'a str),
}

/// Why the words ask for nothing.
#[derive(Debug, Drop)]
pub enum OptionsFault {
    /// They are not of the command line, or ask for help. `clap` says what they are.
    CommandLine(Error),
    /// They name no file where one has to be.
    NoFile,
    /// They name no command.
    NoCommand,
    /// The value of an option is out of its limits.
    OutOfLimits(OutOfLimits),
}

// The flag of `run` that crashes the sheet after each step.
const STOPS: &str = "stops";

// The flag of the commands that can be brief.
const BRIEF: &str = "brief";

// The program's version.
const VERSION: &str = "0.1.0";

// A command of this name, with the texts of its help.
fn described<'a>(alloc: Global, name: &'a str, about: &'a str, after: &'a str) -> Command<'a>
    ensures { IsCommand (new_app name.now) result }
{
    Command::new(alloc, name).about(about).after_help(after)
}

// The commands without their options: a text of help is dear to prove beside errors.
fn run_alone<'a>(alloc: Global) -> Command<'a>
    ensures { IsCommand (new_app (codes "run")) result }
{
    described(alloc, "run", help::RUN_ABOUT, help::RUN_HELP)
}

fn report_alone<'a>(alloc: Global) -> Command<'a>
    ensures { IsCommand (new_app (codes "report")) result }
{
    described(alloc, "report", help::REPORT_ABOUT, help::REPORT_HELP)
}

fn explore_alone<'a>(alloc: Global) -> Command<'a>
    ensures { IsCommand (new_app (codes "explore")) result }
{
    described(alloc, "explore", help::EXPLORE_ABOUT, help::EXPLORE_HELP)
}

fn trace_alone<'a>(alloc: Global) -> Command<'a>
    ensures { IsCommand (new_app (codes "trace")) result }
{
    described(alloc, "trace", help::TRACE_ABOUT, help::TRACE_HELP)
}

fn serve_alone<'a>(alloc: Global) -> Command<'a>
    ensures { IsCommand (new_app (codes "serve")) result }
{
    described(alloc, "serve", help::SERVE_ABOUT, help::SERVE_HELP)
}

fn connect_alone<'a>(alloc: Global) -> Command<'a>
    ensures { IsCommand (new_app (codes "connect")) result }
{
    described(alloc, "connect", help::CONNECT_ABOUT, help::CONNECT_HELP)
}

// A command with one argument more.
fn with_argument<'a>(
    command: Result<Command<'a>, AllocError>,
    argument: Arg<'a>,
) -> Result<Command<'a>, AllocError>
    ensures { (app : App) → (rule : Rule) → IfOk command.entry (IsCommand app) → rule_of argument.entry ≡ rule → argument.entry.global ≡ false → IfOk result (IsCommand (with_rule app rule)) }
{
    let command = command?;
    command.arg(argument)
}

// A command with one more below it.
fn with_command<'a>(
    command: Result<Command<'a>, AllocError>,
    below: Result<Command<'a>, AllocError>,
) -> Result<Command<'a>, AllocError>
    ensures { (app under : App) → IfOk command.entry (IsCommand app) → IfOk below.entry (IsCommand under) → IfOk result (IsCommand (with_subcommand app under.top)) }
{
    let below = below?;
    let command = command?;
    command.subcommand(below)
}

// A command that its help calls by this name.
fn called<'a>(
    command: Result<Command<'a>, AllocError>,
    name: &str,
) -> Result<Command<'a>, AllocError>
    ensures { (app : App) → IfOk command.entry (IsCommand app) → IfOk result (IsCommand app) }
{
    let command = command?;
    command.bin_name(name)
}

fn run_command<'a>(alloc: Global) -> Result<Command<'a>, AllocError>
    ensures { IfOk result (IsCommand run_app) }
{
    let stops_help = "Crashes the sheet after each step, and writes what is answered then";
    let one = with_argument(Ok(run_alone(alloc)), script_argument(alloc));
    let two = with_argument(one, flag(alloc, STOPS, stops_help));
    let from_help = "With --stops: the first step after which it is crashed, from 1";
    let three = with_argument(two, given_number(alloc, "from", from_help));
    let to_help = "With --stops: the last one; 0: to the end";
    let four = with_argument(three, given_number(alloc, "to", to_help));
    let five = with_argument(four, flag(alloc, "strict", help::STRICT_HELP));
    let six = with_argument(five, flag(alloc, BRIEF, help::BRIEF_STOPS_HELP));
    let seven = with_argument(six, flag(alloc, "json", help::RUN_JSON_HELP));
    let eight = with_argument(seven, a1_flag(alloc));
    called(eight, "dsheet run")
}

// A flag.
fn flag<'a>(alloc: Global, name: &'a str, help: &'a str) -> Arg<'a>
    ensures rule { rule_of result ≡ flag_rule name.now }
    ensures local { result.global ≡ false }
{
    Arg::new(alloc, name)
        .long(name)
        .action(ArgAction::SetTrue)
        .help(help)
}

// The flag of the commands that read formulas.
fn a1_flag<'a>(alloc: Global) -> Arg<'a>
    ensures rule { rule_of result ≡ flag_rule (codes "a1") }
    ensures local { result.global ≡ false }
{
    flag(alloc, "a1", help::A1_HELP)
}

// The argument that names the file of a script.
fn script_argument<'a>(alloc: Global) -> Arg<'a>
    ensures rule { rule_of result ≡ input_rule }
    ensures local { result.global ≡ false }
{
    input_argument(alloc, "The file of the script; - or none: standard input")
}

// Which script it is, what may come between steps, and how many states are gone through.
fn orders_command<'a>(alloc: Global) -> Result<Command<'a>, AllocError>
    ensures { IfOk result (IsCommand orders_app) }
{
    let one = with_argument(Ok(explore_alone(alloc)), script_argument(alloc));
    let crashes_help = "A crash at each state, which ends the order";
    let two = with_argument(one, flag(alloc, "crashes", crashes_help));
    let stops_help = "A stop of each process that is in a call, at each state";
    let three = with_argument(two, flag(alloc, STOPS, stops_help));
    let evictions_help = "An eviction of each word whose sides differ";
    let four = with_argument(three, flag(alloc, "evictions", evictions_help));
    let most_help = "Thousands of states that are gone through at most";
    with_argument(four, number_option(alloc, "most", "1000", most_help))
}

fn explore_command<'a>(alloc: Global) -> Result<Command<'a>, AllocError>
    ensures { IfOk result (IsCommand explore_app) }
{
    let summary = flag(alloc, "summary", help::SUMMARY_HELP);
    let one = with_argument(orders_command(alloc), summary);
    let json_help = "Writes the figures, and each outcome, as a line of JSON";
    let two = with_argument(one, flag(alloc, "json", json_help));
    let show_help = "Writes the outcome with this number alone; 0: all";
    let three = with_argument(two, number_option(alloc, "show", "0", show_help));
    let trace_help = "Draws the script of the outcome with this number, as SVG; 0: no picture";
    let four = with_argument(three, number_option(alloc, "trace", "0", trace_help));
    called(four, "dsheet explore")
}

fn trace_command<'a>(alloc: Global) -> Result<Command<'a>, AllocError>
    ensures { IfOk result (IsCommand trace_app) }
{
    let one = with_argument(Ok(trace_alone(alloc)), script_argument(alloc));
    let two = with_argument(one, flag(alloc, BRIEF, help::BRIEF_HELP));
    called(two, "dsheet trace")
}

fn report_command<'a>(alloc: Global) -> Result<Command<'a>, AllocError>
    ensures { IfOk result (IsCommand report_app) }
{
    let labels_help = "Headings and names pass through as they are, and count as blank";
    let labels = flag(alloc, "labels", labels_help);
    let file = input_argument(alloc, "The file of the grid; - or none: standard input");
    let one = with_argument(Ok(report_alone(alloc)), file);
    let two = with_argument(one, labels);
    let three = with_argument(two, flag(alloc, "json", help::JSON_HELP));
    let four = with_argument(three, a1_flag(alloc));
    called(four, "dsheet report")
}

// An option with a number from 0 to 65,535, which has none where it is not given.
fn given_number<'a>(alloc: Global, name: &'a str, help: &'a str) -> Arg<'a>
    ensures rule { rule_of result ≡ given_number_rule name.now }
    ensures local { result.global ≡ false }
{
    Arg::new(alloc, name)
        .long(name)
        .value_name("N")
        .value_parser(value_parser!(u16))
        .help(help)
}

// An option with a number from 0 to 65,535, and this one where it is not given.
fn number_option<'a>(alloc: Global, name: &'a str, default: &'a str, help: &'a str) -> Arg<'a>
    ensures rule { rule_of result ≡ number_rule name.now default.now }
    ensures local { result.global ≡ false }
{
    Arg::new(alloc, name)
        .long(name)
        .value_name("N")
        .value_parser(value_parser!(u16))
        .default_value(default)
        .help(help)
}

// The option of `serve` that has the address for lines.
fn listen_option<'a>(alloc: Global) -> Arg<'a>
    ensures rule { rule_of result ≡ listen_rule }
    ensures local { result.global ≡ false }
{
    Arg::new(alloc, "listen")
        .long("listen")
        .value_name("ADDRESS")
        .help("Takes sessions at this address and port, as 127.0.0.1:8080")
}

// The option of `serve` that has the store.
fn store_option<'a>(alloc: Global) -> Arg<'a>
    ensures rule { rule_of result ≡ store_rule }
    ensures local { result.global ≡ false }
{
    Arg::new(alloc, "store")
        .long("store")
        .value_name("FILE")
        .help(
            "Keeps the edits in this file, which is made where there is none, and begins with those it has",
        )
}

// The option of `serve` that has the address for HTTP.
fn http_option<'a>(alloc: Global) -> Arg<'a>
    ensures rule { rule_of result ≡ http_rule }
    ensures local { result.global ≡ false }
{
    Arg::new(alloc, "http")
        .long("http")
        .value_name("ADDRESS")
        .help("Answers HTTP at this address and port, as 127.0.0.1:8081")
}

// The option of `serve` that has the file of the token.
fn token_file_option<'a>(alloc: Global) -> Arg<'a>
    ensures rule { rule_of result ≡ token_file_rule }
    ensures local { result.global ≡ false }
{
    Arg::new(alloc, "token-file")
        .long("token-file")
        .value_name("FILE")
        .help("A join has to have the first line of this file as its token")
}

// The option of `connect` that has the prefix of its edits' keys.
fn key_option<'a>(alloc: Global) -> Arg<'a>
    ensures rule { rule_of result ≡ key_rule }
    ensures local { result.global ≡ false }
{
    Arg::new(alloc, "key").long("key").value_name("PREFIX").help(
        "Gives the sets the keys PREFIX-0, PREFIX-1 and so on: each counts once at most",
    )
}

// The option of `serve` that has the level of the log.
fn log_option<'a>(alloc: Global) -> Arg<'a>
    ensures rule { rule_of result ≡ log_rule }
    ensures local { result.global ≡ false }
{
    Arg::new(alloc, "log")
        .long("log")
        .value_name("LEVEL")
        .default_value("info")
        .help(
            "How much the log has: off, error, warn or info, of which debug and trace have no more",
        )
}

// An argument that has to be there.
fn file_argument<'a>(alloc: Global, name: &'a str, value_name: &'a str, help: &'a str) -> Arg<'a>
    ensures rule { rule_of result ≡ file_rule name.now }
    ensures local { result.global ≡ false }
{
    Arg::new(alloc, name)
        .value_name(value_name)
        .required(true)
        .help(help)
}

// An argument that names what is read, where that is not standard input.
fn input_argument<'a>(alloc: Global, help: &'a str) -> Arg<'a>
    ensures rule { rule_of result ≡ input_rule }
    ensures local { result.global ≡ false }
{
    Arg::new(alloc, "file").value_name("FILE").help(help)
}

// A command on a file.
fn file_command<'a>(
    alloc: Global,
    name: &'a str,
    about: &'a str,
    after: &'a str,
) -> Result<Command<'a>, AllocError>
    ensures { IfOk result (IsCommand (file_app name.now)) }
{
    let file = file_argument(alloc, "file", "FILE", "The file of the store");
    with_argument(Ok(described(alloc, name, about, after)), file)
}

// `dsheet compact`.
fn compact_command<'a>(alloc: Global) -> Result<Command<'a>, AllocError>
    ensures { IfOk result (IsCommand compact_app) }
{
    let command = file_command(alloc, "compact", help::COMPACT_ABOUT, help::COMPACT_HELP);
    let new = file_argument(alloc, "new", "NEW", "The file of the new store");
    with_argument(command, new)
}

// `dsheet backup`.
fn backup_command<'a>(alloc: Global) -> Result<Command<'a>, AllocError>
    ensures { IfOk result (IsCommand backup_app) }
{
    let command = file_command(alloc, "backup", help::BACKUP_ABOUT, help::BACKUP_HELP);
    let copy = file_argument(alloc, "copy", "COPY", "The file of the copy");
    with_argument(command, copy)
}

// `dsheet export`.
fn export_command<'a>(alloc: Global) -> Result<Command<'a>, AllocError>
    ensures { IfOk result (IsCommand export_app) }
{
    let command = file_command(alloc, "export", help::EXPORT_ABOUT, help::EXPORT_HELP);
    let until_help =
        "The lines before the first that is wrong, N at most; 0: all, or none where one is wrong";
    let one = with_argument(command, number_option(alloc, "until", "0", until_help));
    let two = with_argument(one, flag(alloc, "csv", help::EXPORT_CSV_HELP));
    let three = with_argument(two, flag(alloc, "values", help::EXPORT_VALUES_HELP));
    with_argument(three, flag(alloc, "json", help::EXPORT_JSON_HELP))
}

// The option of `log` that names a cell.
fn cell_option<'a>(alloc: Global) -> Arg<'a>
    ensures rule { rule_of result ≡ cell_rule }
    ensures local { result.global ≡ false }
{
    Arg::new(alloc, "cell")
        .long("cell")
        .value_name("CELL")
        .help("This cell alone, as A1")
}

// `dsheet log`.
fn log_command<'a>(alloc: Global) -> Result<Command<'a>, AllocError>
    ensures { IfOk result (IsCommand log_app) }
{
    let command = file_command(alloc, "log", help::LOG_ABOUT, help::LOG_HELP);
    let one = with_argument(command, cell_option(alloc));
    let two = with_argument(one, number_option(alloc, "at", "0", help::AT_HELP));
    with_argument(two, flag(alloc, "values", help::LOG_VALUES_HELP))
}

// `dsheet import`.
fn import_command<'a>(alloc: Global) -> Result<Command<'a>, AllocError>
    ensures { IfOk result (IsCommand import_app) }
{
    let command = file_command(alloc, "import", help::IMPORT_ABOUT, help::IMPORT_HELP);
    let one = with_argument(command, flag(alloc, "csv", help::IMPORT_CSV_HELP));
    with_argument(one, a1_flag(alloc))
}

// A command with those on stores below it.
fn with_stores<'a>(
    alloc: Global,
    command: Result<Command<'a>, AllocError>,
) -> Result<Command<'a>, AllocError>
    ensures { (app : App) → IfOk command.entry (IsCommand app) → IfOk result (IsCommand (with_stores app)) }
{
    let check = file_command(alloc, "check", help::CHECK_ABOUT, help::CHECK_HELP);
    let one = with_command(command, check);
    let two = with_command(one, log_command(alloc));
    let three = with_command(two, export_command(alloc));
    let four = with_command(three, import_command(alloc));
    let five = with_command(four, compact_command(alloc));
    with_command(five, backup_command(alloc))
}

// `dsheet serve` with its sheet.
fn sheet_command<'a>(alloc: Global) -> Result<Command<'a>, AllocError>
    ensures { IfOk result (IsCommand sheet_app) }
{
    let one = with_argument(Ok(serve_alone(alloc)), listen_option(alloc));
    let columns_help = "Columns of the sheet, 1 to 26; 0: those of the store's file, else 2";
    let two = with_argument(one, number_option(alloc, "columns", "0", columns_help));
    let rows_help = "Rows of the sheet, 1 to 64; 0: those of the store's file, else 2";
    with_argument(two, number_option(alloc, "rows", "0", rows_help))
}

// The command with its processes and its sessions, too.
fn shared_command<'a>(alloc: Global) -> Result<Command<'a>, AllocError>
    ensures { IfOk result (IsCommand shared_app) }
{
    let processes_help = "Processes, 1 to 8; 0: those of the store's file, else 2";
    let processes = number_option(alloc, "processes", "0", processes_help);
    let one = with_argument(sheet_command(alloc), processes);
    let workers_help = "Workers, fewer than the processes";
    let two = with_argument(one, number_option(alloc, "workers", "0", workers_help));
    let sessions_help =
        "Connections that are served before the server ends, at least 1; 1 without it";
    let three = with_argument(two, given_number(alloc, "sessions", sessions_help));
    let forever_help = "Serves as many connections as come, until it is asked to stop";
    with_argument(three, flag(alloc, "forever", forever_help))
}

// The command with HTTP and who may join, too.
fn guarded_command<'a>(alloc: Global) -> Result<Command<'a>, AllocError>
    ensures { IfOk result (IsCommand guarded_app) }
{
    let one = with_argument(shared_command(alloc), http_option(alloc));
    let two = with_argument(one, token_file_option(alloc));
    let open_help = "Listens without a token at addresses of other machines, too";
    with_argument(two, flag(alloc, "open", open_help))
}

fn serve_command<'a>(alloc: Global) -> Result<Command<'a>, AllocError>
    ensures { IfOk result (IsCommand serve_app) }
{
    let at_once_help = "Sessions at once, at least 1; a connection beyond them is refused";
    let at_once = number_option(alloc, "at-once", "64", at_once_help);
    let one = with_argument(guarded_command(alloc), at_once);
    let idle_help = "Seconds for which a client may say or take nothing; 0: for ever";
    let two = with_argument(one, number_option(alloc, "idle", "300", idle_help));
    let three = with_argument(two, store_option(alloc));
    let four = with_argument(three, log_option(alloc));
    called(four, "dsheet serve")
}

fn connect_command<'a>(alloc: Global) -> Result<Command<'a>, AllocError>
    ensures { IfOk result (IsCommand connect_app) }
{
    let server_help = "The address and the port of the server, as 127.0.0.1:8080";
    let server = file_argument(alloc, "server", "SERVER", server_help);
    let one = with_argument(Ok(connect_alone(alloc)), server);
    let process_help = "The process that is joined, 0 to 7; without it any that nobody has";
    let two = with_argument(one, given_number(alloc, "process", process_help));
    let timeout_help = "Seconds for which an answer is waited for; 0: for ever";
    let three = with_argument(two, number_option(alloc, "timeout", "60", timeout_help));
    let four = with_argument(three, token_file_option(alloc));
    let five = with_argument(four, key_option(alloc));
    with_argument(five, a1_flag(alloc))
}

// The program wants one of its subcommands, and prints its version.
fn wanting<'a>(command: Command<'a>) -> Command<'a>
    ensures { IsCommand (new_app (codes "dsheet")) command.entry → IsCommand dsheet_alone result }
{
    command
        .version(VERSION)
        .subcommand_required(true)
        .arg_required_else_help(true)
}

// The program without its subcommands.
fn program_alone<'a>(alloc: Global) -> Command<'a>
    ensures { IsCommand dsheet_alone result }
{
    wanting(described(alloc, "dsheet", help::ABOUT, help::HELP))
}

fn program<'a>(alloc: Global) -> Result<Command<'a>, AllocError>
    ensures { IfOk result (IsCommand dsheet) }
{
    let one = with_command(Ok(program_alone(alloc)), run_command(alloc));
    let two = with_command(one, report_command(alloc));
    let three = with_command(two, serve_command(alloc));
    let four = with_command(three, explore_command(alloc));
    let five = with_command(four, trace_command(alloc));
    let six = with_command(five, connect_command(alloc));
    called(with_stores(alloc, six), "dsheet")
}

impl From<Error> for OptionsFault {
    ghost from_gives = { λ error fault. fault ≡ CommandLine error };

    fn from(error: Error) -> OptionsFault {
        OptionsFault::CommandLine(error)
    }
}

impl From<AllocError> for OptionsFault {
    ghost from_gives = { λ _ fault. IsWanting fault };

    fn from(error: AllocError) -> OptionsFault {
        OptionsFault::CommandLine(Error::from(error))
    }
}

// The value of an argument.
fn value_of<'a>(found: &ArgMatches<'a>, name: &str) -> Result<&'a str, OptionsFault>
    ensures named { IfOk result (λ value. Names (rows_of (found_of found.now)) name.now value.now) }
    ensures none { IfErr result (λ fault. (fault ≡ NoFile) × (first_of name.now (rows_of (found_of found.now)) ≡ None)) }
{
    match found.get_str(name) {
        Some(value) => Ok(value),
        None => Err(OptionsFault::NoFile),
    }
}

// What the options of `dsheet serve` ask for.
fn served<'a>(found: &ArgMatches<'a>) -> Result<Action<'a>, OptionsFault>
    ensures action { IfOk result (Asks (codes "serve") (rows_of (found_of found.now))) }
    ensures fault { IfErr result (AsksNothing (codes "serve") (rows_of (found_of found.now))) }
{
    let serving = match read_serving(found) {
        Ok(serving) => serving,
        Err(limit) => return Err(OptionsFault::OutOfLimits(limit)),
    };
    match value_of(found, "store") {
        Ok(path) => Ok(Action::Keep(serving, path)),
        Err(_) => Ok(Action::Serve(serving)),
    }
}

// What the options of `dsheet run` ask for.
fn ran<'a>(found: &ArgMatches<'a>) -> Result<Action<'a>, OptionsFault>
    ensures action { IfOk result (Asks (codes "run") (rows_of (found_of found.now))) }
    ensures fault { IfErr result (AsksNothing (codes "run") (rows_of (found_of found.now))) }
{
    let running = read_running(found);
    if !is_set(found, STOPS) {
        return match names_no_step(found) {
            Ok(()) => Ok(Action::Run(running)),
            Err(limit) => Err(OptionsFault::OutOfLimits(limit)),
        };
    }
    match read_stopping(found) {
        Ok(stopping) => Ok(Action::Stops(stopping, running)),
        Err(limit) => Err(OptionsFault::OutOfLimits(limit)),
    }
}

// What the arguments of `dsheet connect` ask for.
fn connected<'a>(found: &ArgMatches<'a>) -> Result<Action<'a>, OptionsFault>
    ensures action { IfOk result (Asks (codes "connect") (rows_of (found_of found.now))) }
    ensures fault { IfErr result (AsksNothing (codes "connect") (rows_of (found_of found.now))) }
{
    match read_connecting(found) {
        Ok(connecting) => Ok(Action::Connect(connecting, notation_of(found))),
        Err(limit) => Err(OptionsFault::OutOfLimits(limit)),
    }
}

// What the options of `dsheet explore` ask for.
fn explored<'a>(found: &ArgMatches<'a>) -> Result<Action<'a>, OptionsFault>
    ensures action { IfOk result (Asks (codes "explore") (rows_of (found_of found.now))) }
    ensures fault { IfErr result (AsksNothing (codes "explore") (rows_of (found_of found.now))) }
{
    match read_exploring(found) {
        Ok(exploring) => Ok(Action::Explore(exploring)),
        Err(limit) => Err(OptionsFault::OutOfLimits(limit)),
    }
}

// What the arguments of `dsheet export` ask for.
fn exported<'a>(found: &ArgMatches<'a>) -> Result<Action<'a>, OptionsFault>
    ensures action { IfOk result (Asks (codes "export") (rows_of (found_of found.now))) }
    ensures fault { IfErr result (AsksOfStore (codes "export") (rows_of (found_of found.now))) }
{
    let path = value_of(found, "file")?;
    let Some(until) = number(found, "until") else {
        return Err(OptionsFault::OutOfLimits(OutOfLimits::Until));
    };
    match form_of(found) {
        Ok(form) => Ok(Action::Export(Exporting {
            path,
            until,
            form,
            json: is_set(found, "json"),
        })),
        Err(limit) => Err(OptionsFault::OutOfLimits(limit)),
    }
}

// What the arguments of `dsheet log` ask for.
fn logged<'a>(found: &ArgMatches<'a>) -> Result<Action<'a>, OptionsFault>
    ensures action { IfOk result (Asks (codes "log") (rows_of (found_of found.now))) }
    ensures fault { IfErr result (AsksOfStore (codes "log") (rows_of (found_of found.now))) }
{
    let path = value_of(found, "file")?;
    let cell = text(found, "cell");
    match shown_of(found) {
        Ok(shown) => Ok(Action::Log(Logging { path, cell, shown })),
        Err(limit) => Err(OptionsFault::OutOfLimits(limit)),
    }
}

// What the arguments of `dsheet import` ask for.
fn imported<'a>(found: &ArgMatches<'a>) -> Result<Action<'a>, OptionsFault>
    ensures action { IfOk result (Asks (codes "import") (rows_of (found_of found.now))) }
    ensures fault { IfErr result (AsksOfStore (codes "import") (rows_of (found_of found.now))) }
{
    Ok(Action::Import(Importing {
        path: value_of(found, "file")?,
        notation: notation_of(found),
        csv: is_set(found, "csv"),
    }))
}

// What a subcommand on a store asks for.
fn asked_of_store<'a>(name: &str, found: &ArgMatches<'a>) -> Result<Action<'a>, OptionsFault>
    ensures action { IfOk result (Asks name.now (rows_of (found_of found.now))) }
    ensures fault { IfErr result (AsksOfStore name.now (rows_of (found_of found.now))) }
{
    match name {
        "check" => Ok(Action::Check(value_of(found, "file")?)),
        "export" => exported(found),
        "log" => logged(found),
        "import" => imported(found),
        "compact" => Ok(Action::Compact(value_of(found, "file")?, value_of(found, "new")?)),
        "backup" => Ok(Action::Backup(value_of(found, "file")?, value_of(found, "copy")?)),
        _ => Err(OptionsFault::NoCommand),
    }
}

// What a subcommand with these matches asks for.
fn asked<'a>(name: &str, found: &ArgMatches<'a>) -> Result<Action<'a>, OptionsFault>
    ensures action { IfOk result (Asks name.now (rows_of (found_of found.now))) }
    ensures fault { IfErr result (AsksNothing name.now (rows_of (found_of found.now))) }
{
    match name {
        "run" => ran(found),
        "connect" => connected(found),
        "report" => Ok(Action::Report(read_reporting(found))),
        "trace" => Ok(Action::Trace(read_tracing(found))),
        "serve" => served(found),
        "explore" => explored(found),
        _ => asked_of_store(name, found),
    }
}

/// What the words ask for, of which the first is the program's name; an error is `clap`'s for help and for wrong words,
/// or names the option that is out of its limits.
pub fn options<'a>(alloc: Global, words: &'a [String]) -> Result<Action<'a>, OptionsFault>
    ensures action { IfOk result (IsAskedBy (map string_bytes words.now)) }
    ensures accepted { IfOk result (λ _. fault_of dsheet (map string_bytes words.now) ≡ []) }
    ensures fault { IfErr result (IsRefusedFor (map string_bytes words.now)) }
{
    let matches = program(alloc)?.try_get_matches_from(words)?;
    match matches.subcommand() {
        Some((name, found)) => asked(name, found),
        None => Err(OptionsFault::NoCommand),
    }
}
