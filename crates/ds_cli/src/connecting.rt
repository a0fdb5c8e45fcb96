//! What `dsheet connect` and `dsheet run --stops` are asked for.

ghost use Rattle.std.specs.Prelude.{◌≡◌, ◌≤◌, IfErr, IfOk, None, Some, codes, option_map};
ghost use Rattle.clap.specs.Words.{first_of, found_of, one_of, rows_of};
ghost use Rattle.ds_cli.specs.Servings.{IsNumberOr, IsLimitOf};
ghost use Rattle.ds_cli.specs.Connectings.{IsConnecting, IsProcessOf, IsStopping};
ghost use Rattle.ds_cli.specs.Prefixes.{IsPrefixOf, is_prefix};

use crate::exploring::is_set;
use crate::serving::{OutOfLimits, address, number, number_or, text};
use clap::ArgMatches;
use ds_key::key::is_key;
use ds_layout::layout::PROCESS_LIMIT;
use std::net::SocketAddr;

/// A client: which server it speaks to, and by which process, if it is to be a certain one.
#[derive(Clone, Copy, Debug, PartialEq, Eq)]
pub struct Connecting<'a> {
    /// The address and the port of the server.
    pub server: SocketAddr,
    /// The process, from 0 to 7; none: any that nobody has.
    pub process: Option<usize>,
    /// For how many seconds an answer is waited for, at most 65,535. 0: for ever.
    pub timeout: usize,
    /// The file whose first line is the server's token, if it has one.
    pub token_file: Option<&'a str>,
    /// The prefix of the keys that its edits get, 1 to 43 visible characters of ASCII; none: they get no keys.
    pub prefix: Option<&'a str>,
}

/// The steps after which a script is crashed.
#[derive(Clone, Copy, Debug, PartialEq, Eq)]
pub struct Stopping {
    /// The first one, from 1.
    pub from: usize,
    /// The last one, not below the first; 0: to the end.
    pub to: usize,
    /// Whether those that follow each other and come to the same are written as one.
    pub brief: bool,
}

// The process that they ask for, if any.
fn read_process(found: &ArgMatches<'_>) -> Result<Option<usize>, OutOfLimits>
    ensures process { IfOk result (IsProcessOf (rows_of (found_of found.now))) }
    ensures limit { IfErr result (IsLimitOf (codes "connect") (rows_of (found_of found.now))) }
{
    if text(found, "process").is_none() {
        return Ok(None);
    }
    match number(found, "process") {
        Some(process) if process < PROCESS_LIMIT => Ok(Some(process)),
        _ => Err(OutOfLimits::Process),
    }
}

// The most characters of a prefix of keys.
const PREFIX_LIMIT: usize = 43;

// Whether a text is a prefix of keys.
fn is_prefix(text: &str) -> bool
    ensures { result ≡ is_prefix text.now }
{
    is_key(text.as_bytes()) && text.len() <= PREFIX_LIMIT
}

// The prefix of keys that they ask for, if any.
fn read_prefix<'a>(found: &ArgMatches<'a>) -> Result<Option<&'a str>, OutOfLimits>
    ensures prefix { IfOk result (λ prefix. IsPrefixOf (rows_of (found_of found.now)) (option_map (λ t. t.now) prefix)) }
    ensures limit { IfErr result (IsLimitOf (codes "connect") (rows_of (found_of found.now))) }
{
    match text(found, "key") {
        None => Ok(None),
        Some(prefix) if is_prefix(prefix) => Ok(Some(prefix)),
        Some(_) => Err(OutOfLimits::Key),
    }
}

/// The client that the arguments of `dsheet connect` ask for. An error names the first that is out of its limits.
pub fn read_connecting<'a>(found: &ArgMatches<'a>) -> Result<Connecting<'a>, OutOfLimits>
    ensures connecting { IfOk result (IsConnecting (rows_of (found_of found.now))) }
    ensures limit { IfErr result (IsLimitOf (codes "connect") (rows_of (found_of found.now))) }
{
    let Some(server) = address(found, "server") else {
        return Err(OutOfLimits::Server);
    };
    let process = read_process(found)?;
    let Some(timeout) = number(found, "timeout") else {
        return Err(OutOfLimits::Timeout);
    };
    let prefix = read_prefix(found)?;
    Ok(Connecting {
        server,
        process,
        timeout,
        token_file: text(found, "token-file"),
        prefix,
    })
}

// The first step that they ask for.
fn read_from(found: &ArgMatches<'_>) -> Result<usize, OutOfLimits>
    ensures some { IfOk result (λ n. IsNumberOr (rows_of (found_of found.now)) (codes "from") 1 n × (1 ≤ n)) }
    ensures limit { IfErr result (IsLimitOf (codes "run") (rows_of (found_of found.now))) }
{
    match number_or(found, "from", 1) {
        Some(from) if 1 <= from => Ok(from),
        _ => Err(OutOfLimits::From),
    }
}

// The last step that they ask for, where this is the first.
fn read_to(found: &ArgMatches<'_>, from: usize) -> Result<usize, OutOfLimits>
    requires { IsNumberOr (rows_of (found_of found.now)) (codes "from") 1 from }
    ensures some { IfOk result (λ n. IsNumberOr (rows_of (found_of found.now)) (codes "to") 0 n × (1 ≤ n → from ≤ n)) }
    ensures limit { IfErr result (IsLimitOf (codes "run") (rows_of (found_of found.now))) }
{
    match number_or(found, "to", 0) {
        Some(to) if to == 0 || from <= to => Ok(to),
        Some(_) => Err(OutOfLimits::Backwards),
        None => Err(OutOfLimits::To),
    }
}

/// The steps that the options of `dsheet run --stops` ask for. An error names the first that is out of its limits, or that
/// means nothing beside `--stops`.
pub(crate) fn read_stopping(found: &ArgMatches<'_>) -> Result<Stopping, OutOfLimits>
    requires { one_of (codes "stops") (rows_of (found_of found.now)) ≡ Some (codes "true") }
    ensures stopping { IfOk result (IsStopping (rows_of (found_of found.now))) }
    ensures limit { IfErr result (IsLimitOf (codes "run") (rows_of (found_of found.now))) }
{
    if is_set(found, "json") {
        return Err(OutOfLimits::JsonStops);
    }
    let from = read_from(found)?;
    let to = read_to(found, from)?;
    let brief = is_set(found, "brief");
    Ok(Stopping { from, to, brief })
}

/// That the options of `dsheet run` say nothing of steps, where `--stops` is not there. An error names the one that does.
pub(crate) fn names_no_step(found: &ArgMatches<'_>) -> Result<(), OutOfLimits>
    requires { one_of (codes "stops") (rows_of (found_of found.now)) ≡ Some (codes "true") → ⊥ }
    ensures none { IfOk result (λ _. (first_of (codes "from") (rows_of (found_of found.now)) ≡ None) × (first_of (codes "to") (rows_of (found_of found.now)) ≡ None)
        × (one_of (codes "brief") (rows_of (found_of found.now)) ≡ Some (codes "true") → ⊥)) }
    ensures limit { IfErr result (IsLimitOf (codes "run") (rows_of (found_of found.now))) }
{
    if text(found, "from").is_some() {
        return Err(OutOfLimits::FromAlone);
    }
    if text(found, "to").is_some() {
        return Err(OutOfLimits::ToAlone);
    }
    if is_set(found, "brief") {
        return Err(OutOfLimits::Brief);
    }
    Ok(())
}
