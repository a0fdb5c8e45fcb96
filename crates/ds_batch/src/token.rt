//! The token of a server, from a file.

use crate::run::no_memory;
use crate::status::{REFUSED, STREAM_FAILED};
use std::alloc::Global;
use std::fs::{self, Files};
use std::io::ErrorKind;
use std::str;

// The most bytes of a token: a line of a session has room for it.
const TOKEN_LIMIT: usize = 1024;

// The first line of a file with these bytes, without its end.
fn first_line(bytes: &[u8]) -> &[u8] {
    let end = bytes.iter().position(|byte| *byte == b'\n');
    let line = match end {
        Some(end) => bytes.get(..end).unwrap_or(bytes),
        None => bytes,
    };
    line.strip_suffix(b"\r").unwrap_or(line)
}

// Whether a line is a token: JSON has to have it as a text.
fn is_token(line: &[u8]) -> bool {
    !line.is_empty() && line.len() <= TOKEN_LIMIT && str::from_utf8(line).is_ok()
}

// The token in a file with these bytes. An error is the status, when standard error has the reason.
fn token_in<R: Eprint>(rt: &R, alloc: Global, path: &str, bytes: &[u8]) -> Result<Vec<u8>, u8> {
    let line = first_line(bytes);
    if !is_token(line) {
        let _reported = eprintln!(rt;
            "dsheet: {path}: its first line is no token: from 1 to {TOKEN_LIMIT} bytes of UTF-8"
        );
        return Err(REFUSED);
    }
    match Vec::from_slice(alloc, line) {
        Ok(token) => Ok(token),
        Err(_) => Err(no_memory(rt)),
    }
}

/// The token in the file at this path, if there is one: its first line, from 1 to 1,024 bytes of UTF-8. An error is the
/// status, when standard error has the reason: 3 where the file cannot be read, 1 where it has no token.
pub fn read_token<R: AllocGlobal + Eprint + Files>(
    rt: &R,
    path: Option<&str>,
) -> Result<Option<Vec<u8>>, u8> {
    let Some(path) = path else {
        return Ok(None);
    };
    match fs::read(rt, path) {
        Ok(bytes) => Ok(Some(token_in(rt, rt.alloc(), path, &bytes)?)),
        Err(error) if error.kind() == ErrorKind::OutOfMemory => Err(no_memory(rt)),
        Err(error) => {
            let _reported = eprintln!(rt; "dsheet: {path}: {error}");
            Err(STREAM_FAILED)
        }
    }
}

/// The bytes of a token, if there is one.
pub fn bytes_of(token: &Option<Vec<u8>>) -> Option<&[u8]> {
    match token {
        Some(token) => Some(token.as_slice()),
        None => None,
    }
}

/// A token as a text, if there is one.
pub fn text_of(token: &Option<Vec<u8>>) -> Option<&str> {
    match token {
        Some(token) => str::from_utf8(token.as_slice()).ok(),
        None => None,
    }
}
