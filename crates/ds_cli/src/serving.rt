//! What `dsheet serve` is to serve.

ghost use Rattle.ds_formula.specs.Limits.{PROCESSES_MOST};
ghost use Rattle.std.specs.Prelude.{◌≡◌, ◌<◌, ◌≤◌, ℕ, IfErr, IfOk, IfSome, None, codes, false, option_map, true};
ghost use Rattle.clap.specs.Matches.{found_of};
ghost use Rattle.clap.specs.Walk.{rows_of};
ghost use Rattle.ds_cli.specs.Addresses.{HasNoAddress, IsAddressOf};
ghost use Rattle.ds_cli.specs.Servings.{HasBadNumber, HasNoLevel, HasNoNumber, HasNoShape, IsLevelOf, IsNumberOf, IsNumberOr, IsLimitOf, IsServing, IsTextOf, IsWritten, ServesSessions, or_two, usage_of};

use crate::addresses::{Addresses, read_addresses};
use crate::exploring::is_set;
use clap::ArgMatches;
use ds_formula::cells::Shape;
use ds_layout::layout::PROCESS_LIMIT;
use log::LevelFilter;
use std::net::SocketAddr;
use thiserror::Error;

/// What a server's sheet is asked to have, as the options say it. 0: what the file of its store has, or 2 of a new sheet.
#[derive(Clone, Copy, Debug, PartialEq, Eq)]
pub struct AskedSheet {
    /// Columns, at most 26.
    pub columns: usize,
    /// Rows, at most 64.
    pub rows: usize,
    /// Processes, at most 8.
    pub processes: usize,
}

/// A server: where it listens, its sheet, and how long it serves.
#[derive(Clone, Copy, Debug, PartialEq, Eq)]
pub struct Serving<'a> {
    /// Where it listens.
    pub addresses: Addresses,
    /// The file whose first line is the token that a join has to have, if any.
    pub token_file: Option<&'a str>,
    /// What its sheet is asked to have.
    pub asked: AskedSheet,
    /// The shape of a new sheet, at most 26 columns, 64 rows and 1,024 cells.
    pub shape: Shape,
    /// How many processes a new sheet has, 1 to 8.
    pub processes: usize,
    /// How many of them, the last ones, work on marked cells: fewer than there are.
    pub workers: usize,
    /// How many connections become sessions before it ends, 1 to 65,535. None: as many as come, until it is asked to
    /// stop.
    pub sessions: Option<usize>,
    /// How many sessions there may be at once, 1 to 65,535.
    pub at_once: usize,
    /// For how many seconds a client may say nothing, or take nothing, at most 65,535. 0: for ever.
    pub idle: usize,
    /// Up to which level its log goes.
    pub log: LevelFilter,
}

/// Which value of an option is out of its limits.
#[derive(Clone, Copy, Debug, PartialEq, Eq, Drop, Error)]
pub enum OutOfLimits {
    /// No address is given.
    #[error("where it listens: give --listen ADDRESS, --http ADDRESS, or both")]
    Nowhere,
    /// The address is none with a port.
    #[error("--listen: no address with a port, as 127.0.0.1:8080")]
    Listen,
    /// The address is not one of this machine alone, and anybody may join.
    #[error("--listen: whoever reaches this address may edit; give --token-file FILE, or --open")]
    Open,
    /// The address for HTTP is none with a port.
    #[error("--http: no address with a port, as 127.0.0.1:8081")]
    Http,
    /// The address for HTTP is not one of this machine alone, and anybody may edit.
    #[error("--http: whoever reaches this address may edit; give --token-file FILE, or --open")]
    OpenHttp,
    /// The sheet is too large, or has no cell.
    #[error("--columns, --rows: from 1 to 26 and from 1 to 64, and at most 1024 cells; 0: those of the store's file, else 2")]
    Shape,
    /// The sheet has too many processes, or none.
    #[error("--processes: from 1 to 8; 0: those of the store's file, else 2")]
    Processes,
    /// There are as many workers as processes, or more.
    #[error("--workers: fewer than the processes")]
    Workers,
    /// The number of sessions is none.
    #[error("--sessions: from 1 to 65535")]
    Sessions,
    /// Connections are counted, and as many served as come.
    #[error("--sessions: how many connections are served; without --forever, which serves all")]
    SessionsForever,
    /// No session may be there at once.
    #[error("--at-once: from 1 to 65535")]
    AtOnce,
    /// The number of states that are gone through at most is none.
    #[error("--most: from 1 to 65535 thousand states")]
    Most,
    /// The number of the outcome that is shown is none.
    #[error("--show: from 1 to 65535; 0: all outcomes")]
    Show,
    /// The number of the outcome that is drawn is none.
    #[error("--trace: from 1 to 65535; 0: no picture")]
    Trace,
    /// Two forms of an exploration are asked for.
    #[error("--summary, --json, --show, --trace: one of them")]
    Forms,
    /// The time for which a client may be silent is none.
    #[error("--idle: from 0 to 65535 seconds")]
    Idle,
    /// The level of the log is none.
    #[error("--log: off, error, warn, info, debug or trace")]
    Log,
    /// The address of a server is none with a port.
    #[error("the server: no address with a port, as 127.0.0.1:8080")]
    Server,
    /// A sheet has no such process.
    #[error("--process: from 0 to 7")]
    Process,
    /// The time for which an answer is waited for is none.
    #[error("--timeout: from 0 to 65535 seconds")]
    Timeout,
    /// The prefix of the edits' keys is none.
    #[error("--key: 1 to 43 visible ASCII characters")]
    Key,
    /// The first step after which a script is crashed is none.
    #[error("--from: from 1 to 65535")]
    From,
    /// The last step after which a script is crashed is none.
    #[error("--to: from 0 to 65535; 0: to the end")]
    To,
    /// The last step after which a script is crashed is before the first one.
    #[error("--to: not below --from; 0: to the end")]
    Backwards,
    /// A first step is named after which a script is crashed, and it is not crashed.
    #[error("--from: the first step after which the sheet is crashed; give --stops")]
    FromAlone,
    /// The same of the last step.
    #[error("--to: the last step after which the sheet is crashed; give --stops")]
    ToAlone,
    /// What a crash leaves is asked for as JSON.
    #[error("--json: the answers of a script; --stops does not write them")]
    JsonStops,
    /// The number of lines that are exported at most is none.
    #[error("--until: from 0 to 65535; 0: all lines")]
    Until,
    /// A table is asked for as CSV and as JSON.
    #[error("--json: a table as JSON, in the place of --csv; with --values the values")]
    CsvJson,
    /// The number of edits after which a sheet is shown is none.
    #[error("--at: from 0 to 65535; 0: the list of edits")]
    At,
    /// Values are asked for, and after no edit.
    #[error("--values: the values of the sheet after some edits; give --at N, from 1 to 65535")]
    NoAt,
    /// The stops of a script are to be written in short, and none are asked for.
    #[error("--brief: only with --stops")]
    Brief,
}

impl OutOfLimits {
    /// How the command is used whose option it is.
    pub fn usage(self) -> &'static str
        ensures { result.now ≡ usage_of self }
    {
        match self {
            OutOfLimits::From
            | OutOfLimits::To
            | OutOfLimits::Backwards
            | OutOfLimits::FromAlone
            | OutOfLimits::ToAlone
            | OutOfLimits::Brief
            | OutOfLimits::JsonStops => "dsheet run [OPTIONS] [FILE]",
            OutOfLimits::Most | OutOfLimits::Show | OutOfLimits::Trace | OutOfLimits::Forms => {
                "dsheet explore [OPTIONS] [FILE]"
            }
            OutOfLimits::Server | OutOfLimits::Process | OutOfLimits::Timeout | OutOfLimits::Key =>
                "dsheet connect [OPTIONS] <SERVER>",
            OutOfLimits::Until | OutOfLimits::CsvJson => "dsheet export [OPTIONS] <FILE>",
            OutOfLimits::At | OutOfLimits::NoAt => "dsheet log [OPTIONS] <FILE>",
            _ => "dsheet serve [OPTIONS]",
        }
    }
}

// The number of 16 bits that these digits are; none where they are none, as where a sign stands before them.
fn digits(text: &str) -> Option<usize>
    ensures some { IfSome result (IsWritten text.now) }
    ensures none { result ≡ None → (n : ℕ) → n < 65536 → IsWritten text.now n → ⊥ }
{
    if text.as_bytes().first() == Some(&b'+') {
        return None;
    }
    match text.parse::<u16>() {
        Ok(number) => Some(number as usize),
        Err(_) => None,
    }
}

/// The number of an option; none where it has none.
pub(crate) fn number(matches: &ArgMatches<'_>, name: &str) -> Option<usize>
    ensures some { IfSome result (IsNumberOf (rows_of (found_of matches.now)) name.now) }
    ensures none { result ≡ None → HasNoNumber (rows_of (found_of matches.now)) name.now }
{
    match matches.get_str(name) {
        Some(text) => digits(text),
        None => None,
    }
}

/// The number of an option, or this one where it is not given; none where its value is none.
pub(crate) fn number_or(matches: &ArgMatches<'_>, name: &str, default: usize) -> Option<usize>
    ensures some { IfSome result (IsNumberOr (rows_of (found_of matches.now)) name.now default) }
    ensures none { result ≡ None → HasBadNumber (rows_of (found_of matches.now)) name.now }
{
    match matches.get_str(name) {
        Some(text) => digits(text),
        None => Some(default),
    }
}

/// The address of an option or an argument; none where it has none.
pub(crate) fn address(matches: &ArgMatches<'_>, name: &str) -> Option<SocketAddr>
    ensures some { IfSome result (IsAddressOf (rows_of (found_of matches.now)) name.now) }
    ensures none { result ≡ None → HasNoAddress (rows_of (found_of matches.now)) name.now }
{
    let Some(text) = matches.get_str(name) else {
        return None;
    };
    match text.parse::<SocketAddr>() {
        Ok(address) => Some(address),
        Err(_) => None,
    }
}

// The level of the option `--log`; none where it has none.
fn level(matches: &ArgMatches<'_>) -> Option<LevelFilter>
    ensures some { IfSome result (IsLevelOf (rows_of (found_of matches.now)) (codes "log")) }
    ensures none { result ≡ None → HasNoLevel (rows_of (found_of matches.now)) (codes "log") }
{
    let Some(text) = matches.get_str("log") else {
        return None;
    };
    match text.parse::<LevelFilter>() {
        Ok(level) => Some(level),
        Err(_) => None,
    }
}

// What a new sheet has, of which the options ask for this number.
fn or_two(number: usize) -> usize
    ensures { result ≡ or_two number }
{
    if number == 0 { 2 } else { number }
}

// The shape of a new sheet, and what two options ask for of it; none where it is none of a sheet.
fn read_shape(matches: &ArgMatches<'_>) -> Option<(Shape, usize, usize)>
    ensures some { IfSome result (λ r. IsNumberOf (rows_of (found_of matches.now)) (codes "columns") r.1 × IsNumberOf (rows_of (found_of matches.now)) (codes "rows") r.2
        × (r.0.columns ≡ or_two r.1) × (r.0.rows ≡ or_two r.2)) }
    ensures none { result ≡ None → HasNoShape (rows_of (found_of matches.now)) }
{
    let columns = number(matches, "columns")?;
    let rows = number(matches, "rows")?;
    let shape = Shape::new(or_two(columns), or_two(rows))?;
    Some((shape, columns, rows))
}

// How many processes the options ask for.
fn read_processes(matches: &ArgMatches<'_>) -> Result<usize, OutOfLimits>
    ensures some { IfOk result (λ p. IsNumberOf (rows_of (found_of matches.now)) (codes "processes") p × (or_two p ≤ PROCESSES_MOST)) }
    ensures limit { IfErr result (IsLimitOf (codes "serve") (rows_of (found_of matches.now))) }
{
    match number(matches, "processes") {
        Some(processes) if or_two(processes) <= PROCESS_LIMIT => Ok(processes),
        _ => Err(OutOfLimits::Processes),
    }
}

// How many workers they ask for, beside the processes of a new sheet, of which they ask for this number.
fn read_workers(matches: &ArgMatches<'_>, processes: usize) -> Result<usize, OutOfLimits>
    requires { IsNumberOf (rows_of (found_of matches.now)) (codes "processes") processes × (or_two processes ≤ PROCESSES_MOST) }
    ensures some { IfOk result (λ w. IsNumberOf (rows_of (found_of matches.now)) (codes "workers") w × (w < or_two processes)) }
    ensures limit { IfErr result (IsLimitOf (codes "serve") (rows_of (found_of matches.now))) }
{
    match number(matches, "workers") {
        Some(workers) if workers < or_two(processes) => Ok(workers),
        _ => Err(OutOfLimits::Workers),
    }
}

// How many sessions they ask for at once.
fn read_at_once(matches: &ArgMatches<'_>) -> Result<usize, OutOfLimits>
    ensures some { IfOk result (λ n. IsNumberOf (rows_of (found_of matches.now)) (codes "at-once") n × (1 ≤ n)) }
    ensures limit { IfErr result (IsLimitOf (codes "serve") (rows_of (found_of matches.now))) }
{
    match number(matches, "at-once") {
        Some(at_once) if 1 <= at_once => Ok(at_once),
        _ => Err(OutOfLimits::AtOnce),
    }
}

// How many sessions the options ask for; none where there is no end to them.
fn read_sessions(matches: &ArgMatches<'_>) -> Result<Option<usize>, OutOfLimits>
    ensures sessions { IfOk result (ServesSessions (rows_of (found_of matches.now))) }
    ensures limit { IfErr result (IsLimitOf (codes "serve") (rows_of (found_of matches.now))) }
{
    if is_set(matches, "forever") {
        return match text(matches, "sessions") {
            Some(_) => Err(OutOfLimits::SessionsForever),
            None => Ok(None),
        };
    }
    match number_or(matches, "sessions", 1) {
        Some(sessions) if 1 <= sessions => Ok(Some(sessions)),
        _ => Err(OutOfLimits::Sessions),
    }
}

/// The text of an option; none where it is not there.
pub(crate) fn text<'a>(matches: &ArgMatches<'a>, name: &str) -> Option<&'a str>
    ensures { IsTextOf (rows_of (found_of matches.now)) name.now (option_map (λ t. t.now) result) }
{
    matches.get_str(name)
}

/// The server that the options of `dsheet serve` ask for. An error names the first option that is out of its limits.
pub fn read_serving<'a>(matches: &ArgMatches<'a>) -> Result<Serving<'a>, OutOfLimits>
    ensures serving { IfOk result (IsServing (rows_of (found_of matches.now))) }
    ensures limit { IfErr result (IsLimitOf (codes "serve") (rows_of (found_of matches.now))) }
{
    let token_file = text(matches, "token-file");
    let addresses = read_addresses(matches, token_file)?;
    let Some((shape, columns, rows)) = read_shape(matches) else {
        return Err(OutOfLimits::Shape);
    };
    let processes = read_processes(matches)?;
    let workers = read_workers(matches, processes)?;
    let sessions = read_sessions(matches)?;
    let at_once = read_at_once(matches)?;
    let Some(idle) = number(matches, "idle") else {
        return Err(OutOfLimits::Idle);
    };
    let Some(log) = level(matches) else {
        return Err(OutOfLimits::Log);
    };
    Ok(Serving {
        addresses,
        token_file,
        asked: AskedSheet {
            columns,
            rows,
            processes,
        },
        shape,
        processes: or_two(processes),
        workers,
        sessions,
        at_once,
        idle,
        log,
    })
}
