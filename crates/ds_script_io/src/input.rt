//! Reads a whole input, up to a limit.

ghost use Rattle.std.specs.Prelude.{◌≡◌, ◌+◌, ◌<◌, ◌≤◌, ◌^◌, true, IfOk, OnErr, length};
ghost use Rattle.std.specs.Io.KnownBytes.{Consumes, Keeps};
ghost use Rattle.ds_script_io.specs.Streams.{reader_of, bytes_given, has_ended, read_failed};
ghost use Rattle.ds_script_io.specs.Input.{EndsWith};

use crate::streams::Reading;
use std::alloc::{AllocError, Global};
use std::io::Read;

/// Why reading stopped.
#[derive(Clone, Copy, Debug, PartialEq, Eq)]
pub enum InputEnd {
    /// The reader has ended within the limit.
    Ended,
    /// One byte more than the limit was read.
    TooLong,
    /// A read failed.
    Failed,
}

/// What was read, and why reading stopped.
#[derive(Drop)]
pub struct Input {
    /// The bytes, at most one more than the limit.
    pub bytes: Vec<u8>,
    /// Why reading stopped.
    pub end: InputEnd,
}

/// Reads until the reader ends or fails, or one byte more than the limit was read.
///
/// All memory is taken before the first read: after `AllocError` nothing was read.
pub fn read_input<R: Read>(
    alloc: Global,
    reader: &mut Reading<R>,
    limit: usize,
) -> Result<Input, AllocError>
    requires { limit < 2 ^ 62 }
    ensures bytes { IfOk result (λ input. Consumes (R.remaining (reader_of reader.old)) (R.remaining (reader_of reader.new)) input.bytes.items) }
    ensures end { IfOk result (λ input. EndsWith limit (R.remaining (reader_of reader.new)) (has_ended reader.new) (read_failed reader.new) input.bytes.items input.end) }
    ensures given { bytes_given reader.new ≤ bytes_given reader.old + (limit + 1) }
    ensures none { OnErr result (Keeps (R.remaining (reader_of reader.old)) (R.remaining (reader_of reader.new))) }
{
    let mut bytes = Vec::with_capacity(alloc, limit + 1)?;
    let mut buffer = [0u8; 4096];
    while bytes.len() <= limit {
        let room = (limit + 1 - bytes.len()).min(4096);
        match reader.read(&mut buffer[..room]) {
            Ok(0) => {
                let end = InputEnd::Ended;
                return Ok(Input { bytes, end });
            }
            Ok(count) => bytes.extend_from_slice(&buffer[..count])?,
            Err(_) => {
                let end = InputEnd::Failed;
                return Ok(Input { bytes, end });
            }
        }
    }
    let end = InputEnd::TooLong;
    Ok(Input { bytes, end })
}
