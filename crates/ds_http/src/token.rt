//! Whether a request has the token that a join has to have (RFC 6750, section 2.1).

ghost use Rattle.std.specs.Prelude.{◌≡◌, bytes_eq, codes, option_map};
ghost use Rattle.http_header.specs.HeaderMap.{get};
ghost use Rattle.ds_http.specs.Tokens.{bears, has_token};

use ds_server::desk::Desk;
use http::{HeaderMap, HeaderValue, header};

// Whether two words are the same. All of them is looked at, so that the time does not tell how much of one is right.
fn is_same(word: &[u8], token: &[u8]) -> bool
    ensures { result ≡ bytes_eq word.now token.now }
{
    if word.len() != token.len() {
        return false;
    }
    let mut same = true;
    for at in 0..token.len() {
        same &= word[at] == token[at];
    }
    same
}

// Whether a value is this token, after the word for one.
fn has_token(value: &[u8], token: &[u8]) -> bool
    ensures { result ≡ has_token value.now token.now }
{
    match value.strip_prefix(b"Bearer ".as_slice()) {
        Some(word) => is_same(word, token),
        None => false,
    }
}

// Whether a request with these fields has this token, if there is one.
fn bears(token: Option<&[u8]>, headers: &HeaderMap<HeaderValue>) -> bool
    ensures { result ≡ bears (option_map (λ t. t.now) token.entry) (get headers.now (codes "authorization")) }
{
    let Some(token) = token else {
        return true;
    };
    match headers.get(header::AUTHORIZATION) {
        Some(value) => has_token(value.as_bytes(), token),
        None => false,
    }
}

/// Whether a request with these fields may act by a process of the desk.
pub(crate) fn may_act<B: Desk>(desk: &B, headers: &HeaderMap<HeaderValue>) -> bool
    ensures { result ≡ bears (B.rules.token desk.now) (get headers.now (codes "authorization")) }
{
    bears(desk.token(), headers)
}
