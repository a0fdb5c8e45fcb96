//! Whether a request asks for a WebSocket, and the answer that agrees (RFC 6455, section 4.2).

ghost use Rattle.std.specs.Prelude.{◌≡◌, [], OnOk};
ghost use Rattle.http_server.specs.Response.{IsBlank, IsResponse};
ghost use Rattle.ds_http.specs.Bodies.{Refuses};
ghost use Rattle.ds_http.specs.Handshakes.{Shakes, agreed_by, wanted_fields};

use crate::problem::Problem;
use crate::reply::refuse;
use http::{HeaderMap, HeaderName, HeaderValue, StatusCode, header};
use http_server::Response;
use std::alloc::{AllocError, Global};
use websocket::handshake::server::accept_key;

// Whether a value lists this word among those between its commas, in either case.
fn lists(value: &[u8], word: &[u8]) -> bool {
    value
        .split(|byte| *byte == b',')
        .any(|item| item.trim_ascii().eq_ignore_ascii_case(word))
}

// Whether a field is there and lists this word.
fn has_word(headers: &HeaderMap<HeaderValue>, name: HeaderName, word: &[u8]) -> bool {
    match headers.get(name) {
        Some(value) => lists(value.as_bytes(), word),
        None => false,
    }
}

// Whether the fields ask for a WebSocket of version 13.
fn asks(headers: &HeaderMap<HeaderValue>) -> bool {
    has_word(headers, header::CONNECTION, b"upgrade")
        && has_word(headers, header::UPGRADE, b"websocket")
        && has_word(headers, header::SEC_WEBSOCKET_VERSION, b"13")
}

// That only a WebSocket of version 13 is a session.
fn require_upgrade(response: &mut Response) -> Result<(), AllocError>
    requires { IsBlank response.old }
    ensures { OnOk result (Refuses wanted_fields Problem.UpgradeRequired response.new) }
{
    response.add_header(header::UPGRADE, HeaderValue::from_static("websocket"))?;
    response.add_header(header::CONNECTION, HeaderValue::from_static("upgrade"))?;
    response.add_header(
        header::SEC_WEBSOCKET_VERSION,
        HeaderValue::from_static("13"),
    )?;
    refuse(response, Problem::UpgradeRequired)
}

// The connection is a WebSocket from now on, as this value agrees.
fn agree(response: &mut Response, accept: HeaderValue) -> Result<(), AllocError>
    requires { IsBlank response.old }
    ensures { OnOk result (IsResponse 101 (agreed_by accept.bytes) [] response.new) }
{
    response.status = StatusCode::SWITCHING_PROTOCOLS;
    response.add_header(header::UPGRADE, HeaderValue::from_static("websocket"))?;
    response.add_header(header::CONNECTION, HeaderValue::from_static("upgrade"))?;
    response.add_header(header::SEC_WEBSOCKET_ACCEPT, accept)
}

/// Answers 101 where the fields ask for a WebSocket of version 13, and why not where they do not.
pub(crate) fn shake(
    alloc: Global,
    headers: &HeaderMap<HeaderValue>,
    response: &mut Response,
) -> Result<(), AllocError>
    requires { IsBlank response.old }
    ensures { OnOk result (Shakes headers.now response.new) }
{
    let key = match headers.get(header::SEC_WEBSOCKET_KEY) {
        Some(key) if asks(headers) => key,
        _ => return require_upgrade(response),
    };
    let accept = match accept_key(key.as_bytes()) {
        Ok(accept) => accept,
        Err(_) => return refuse(response, Problem::BadKey),
    };
    let Ok(accept) = HeaderValue::from_bytes(alloc, accept.as_slice()) else {
        return Err(AllocError);
    };
    agree(response, accept)
}
