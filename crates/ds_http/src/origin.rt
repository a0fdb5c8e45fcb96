//! Whether a request comes from a page of this server, or from no page at all.

ghost use Rattle.std.specs.Prelude.{◌≡◌};
ghost use Rattle.ds_http.specs.Origins.{is_end_or_port, is_named, is_loopback, is_served, is_own_origin, is_own};

use http::{HeaderMap, HeaderValue, header};

// Whether nothing follows the name of a host, or a port does.
fn is_end_or_port(rest: &[u8]) -> bool
    ensures { result ≡ is_end_or_port rest.now }
{
    match rest {
        [] => true,
        [first, ..] => *first == b':',
    }
}

// Whether a value of `host` is this name, with any port or none.
fn is_named(host: &[u8], name: &[u8]) -> bool
    ensures { result ≡ is_named name.now host.now }
{
    match host.strip_prefix(name) {
        Some(rest) => is_end_or_port(rest),
        None => false,
    }
}

// Whether a value of `host` names this computer.
fn is_loopback(host: &[u8]) -> bool
    ensures { result ≡ is_loopback host.now }
{
    is_named(host, b"127.0.0.1") || is_named(host, b"localhost") || is_named(host, b"[::1]")
}

// Whether a request for this host is for this server: the host is loopback, or just the address served.
fn is_served(host: &[u8], address: &str) -> bool
    ensures { result ≡ is_served host.now address.now }
{
    is_loopback(host) || host == address.as_bytes()
}

// Whether a page of this origin was served by this host (RFC 6454, section 7).
fn is_own_origin(origin: &[u8], host: &[u8]) -> bool
    ensures { result ≡ is_own_origin origin.now host.now }
{
    match origin.strip_prefix(b"http://".as_slice()) {
        Some(rest) => rest == host,
        None => false,
    }
}

/// Whether a request with these fields may be answered: its host is loopback or the address served, and its origin, if
/// it has one, is a page of that host. Else a page of elsewhere that a browser shows could read and edit the sheet.
pub(crate) fn is_own(headers: &HeaderMap<HeaderValue>, address: &str) -> bool
    ensures { result ≡ is_own headers.now address.now }
{
    let Some(host) = headers.get(header::HOST) else {
        return false;
    };
    if !is_served(host.as_bytes(), address) {
        return false;
    }
    match headers.get(header::ORIGIN) {
        None => true,
        Some(origin) => is_own_origin(origin.as_bytes(), host.as_bytes()),
    }
}
