//! Where `dsheet serve` listens.

ghost use Rattle.std.specs.Prelude.{◌≡◌, IfErr, IfOk, IfSome, None, codes, false, option_map, true};
ghost use Rattle.clap.specs.Matches.{found_of};
ghost use Rattle.clap.specs.Walk.{rows_of};
ghost use Rattle.ds_cli.specs.Addresses.{HasBadAddress, IsAddressOf, IsGivenAddress, IsOpen, IsUnheard, ListensAt, ListensBy, MayListen, first_at};
ghost use Rattle.ds_cli.specs.Servings.{IsLimitOf, IsTextOf};

use crate::exploring::is_set;
use crate::serving::OutOfLimits;
use clap::ArgMatches;
use std::net::SocketAddr;

/// Where a server listens.
#[derive(Clone, Copy, Debug, PartialEq, Eq)]
pub enum Addresses {
    /// For lines of JSON alone.
    Lines(SocketAddr),
    /// For HTTP alone.
    Http(SocketAddr),
    /// For both.
    Both { lines: SocketAddr, http: SocketAddr },
}

impl Addresses {
    /// The first of them: that for lines, if it listens for them.
    pub fn first(self) -> SocketAddr
        ensures { result ≡ first_at self }
    {
        match self {
            Addresses::Lines(lines) | Addresses::Both { lines, http: _ } => lines,
            Addresses::Http(http) => http,
        }
    }
}

// Why a server does not listen at the address of an option.
#[derive(Clone, Copy)]
enum Unheard {
    // It is no address with a port.
    NoAddress,
    // It is not one of this machine alone, and anybody may edit.
    Open,
}

// The address of an option, where it is given; none where its value is no address.
fn given_address(matches: &ArgMatches<'_>, name: &str) -> Option<Option<SocketAddr>>
    ensures some { IfSome result (IsGivenAddress (rows_of (found_of matches.now)) name.now) }
    ensures none { result ≡ None → HasBadAddress (rows_of (found_of matches.now)) name.now }
{
    let Some(text) = matches.get_str(name) else {
        return Some(None);
    };
    match text.parse::<SocketAddr>() {
        Ok(address) => Some(Some(address)),
        Err(_) => None,
    }
}

// Whether the options let a server listen at this address: it is one of this machine alone, there is a token, or they say so.
fn may_listen(
    matches: &ArgMatches<'_>,
    name: &str,
    listen: SocketAddr,
    token_file: Option<&str>,
) -> bool
    requires { IsTextOf (rows_of (found_of matches.now)) (codes "token-file") (option_map (λ t. t.now) token_file) }
    ensures may { result ≡ true → MayListen (rows_of (found_of matches.now)) listen }
    ensures open { result ≡ false → IsAddressOf (rows_of (found_of matches.now)) name.now listen → IsOpen (rows_of (found_of matches.now)) name.now }
{
    if listen.ip().is_loopback() || token_file.is_some() {
        return true;
    }
    is_set(matches, "open")
}

// Where the option of this name lets a server listen, if it is given.
fn read_address(
    matches: &ArgMatches<'_>,
    name: &str,
    token_file: Option<&str>,
) -> Result<Option<SocketAddr>, Unheard>
    requires { IsTextOf (rows_of (found_of matches.now)) (codes "token-file") (option_map (λ t. t.now) token_file) }
    ensures listens { IfOk result (ListensBy (rows_of (found_of matches.now)) name.now) }
    ensures unheard { IfErr result (IsUnheard (rows_of (found_of matches.now)) name.now) }
{
    let Some(given) = given_address(matches, name) else {
        return Err(Unheard::NoAddress);
    };
    let Some(address) = given else {
        return Ok(None);
    };
    if may_listen(matches, name, address, token_file) {
        Ok(Some(address))
    } else {
        Err(Unheard::Open)
    }
}

// Where the options let a server listen for lines, if they ask for that.
fn read_lines(
    matches: &ArgMatches<'_>,
    token_file: Option<&str>,
) -> Result<Option<SocketAddr>, OutOfLimits>
    requires { IsTextOf (rows_of (found_of matches.now)) (codes "token-file") (option_map (λ t. t.now) token_file) }
    ensures listens { IfOk result (ListensBy (rows_of (found_of matches.now)) (codes "listen")) }
    ensures limit { IfErr result (IsLimitOf (codes "serve") (rows_of (found_of matches.now))) }
{
    match read_address(matches, "listen", token_file) {
        Ok(lines) => Ok(lines),
        Err(Unheard::NoAddress) => Err(OutOfLimits::Listen),
        Err(Unheard::Open) => Err(OutOfLimits::Open),
    }
}

// The same for HTTP.
fn read_http(
    matches: &ArgMatches<'_>,
    token_file: Option<&str>,
) -> Result<Option<SocketAddr>, OutOfLimits>
    requires { IsTextOf (rows_of (found_of matches.now)) (codes "token-file") (option_map (λ t. t.now) token_file) }
    ensures listens { IfOk result (ListensBy (rows_of (found_of matches.now)) (codes "http")) }
    ensures limit { IfErr result (IsLimitOf (codes "serve") (rows_of (found_of matches.now))) }
{
    match read_address(matches, "http", token_file) {
        Ok(http) => Ok(http),
        Err(Unheard::NoAddress) => Err(OutOfLimits::Http),
        Err(Unheard::Open) => Err(OutOfLimits::OpenHttp),
    }
}

/// Where the options let a server listen, with this file of its token, if any. An error names the option whose address is none,
/// or one that anybody may reach; or says that none is given.
pub(crate) fn read_addresses(
    matches: &ArgMatches<'_>,
    token_file: Option<&str>,
) -> Result<Addresses, OutOfLimits>
    requires { IsTextOf (rows_of (found_of matches.now)) (codes "token-file") (option_map (λ t. t.now) token_file) }
    ensures listens { IfOk result (ListensAt (rows_of (found_of matches.now))) }
    ensures limit { IfErr result (IsLimitOf (codes "serve") (rows_of (found_of matches.now))) }
{
    let lines = read_lines(matches, token_file)?;
    let http = read_http(matches, token_file)?;
    match (lines, http) {
        (Some(lines), Some(http)) => Ok(Addresses::Both { lines, http }),
        (Some(lines), None) => Ok(Addresses::Lines(lines)),
        (None, Some(http)) => Ok(Addresses::Http(http)),
        (None, None) => Err(OutOfLimits::Nowhere),
    }
}
