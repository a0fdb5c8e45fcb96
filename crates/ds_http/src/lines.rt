//! A session whose lines come as one body.

ghost use Rattle.std.specs.Prelude.{◌≡◌, IfOk};
ghost use Rattle.ds_http.specs.Lines.{is_open, whole_lines, Plays};

use ds_script_io::streams::{Reading, Writing};
use ds_server::desk::Desk;
use ds_server::session::{SessionEnd, session};
use std::alloc::{AllocError, Global};

// Whether the last line of a body has no line feed.
fn is_open(body: &[u8]) -> bool
    ensures { result ≡ is_open body.now }
{
    match body.last() {
        Some(last) => *last != b'\n',
        None => false,
    }
}

/// The lines of a body: its bytes, and a line feed after the last line where it has none.
pub(crate) fn whole_lines(alloc: Global, body: &[u8]) -> Result<Vec<u8>, AllocError>
    ensures { IfOk result (λ lines. lines.items ≡ whole_lines body.now) }
{
    let mut lines = Vec::from_slice(alloc, body)?;
    if is_open(body) {
        lines.push(b'\n')?;
    }
    Ok(lines)
}

/// A session of these lines over the desk: its answers, and how it ended.
pub(crate) fn play_lines<B: Desk>(
    alloc: Global,
    desk: &mut B,
    lines: &[u8],
) -> (Vec<u8>, SessionEnd)
    ensures { Plays B.rules desk.old lines.now result.0.items result.1 desk.new }
{
    let mut reader = Reading::new(lines);
    let mut writer = Writing::new(Vec::new(alloc));
    let end = session(alloc, &mut reader, &mut writer, desk);
    (writer.into_inner(), end)
}
