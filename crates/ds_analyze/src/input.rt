//! The script that a command reads.

use ds_batch::run::no_memory;
use ds_batch::source::{Source, open};
use ds_batch::status::STREAM_FAILED;
use ds_script_io::input::{InputEnd, read_input};
use ds_script_io::line::INPUT_LIMIT;
use ds_script_io::streams::Reading;
use std::fs::{File, Files};
use std::io::Read;

// What a reader gives. An error is the status, when standard error has the reason.
fn read_from<R: AllocGlobal + Eprint, I: Read + Drop>(rt: &R, input: I) -> Result<Vec<u8>, u8> {
    let mut reader = Reading::new(input);
    let Ok(input) = read_input(rt.alloc(), &mut reader, INPUT_LIMIT) else {
        return Err(no_memory(rt));
    };
    if let InputEnd::Failed = input.end {
        let _reported = eprintln!(rt; "dsheet: a read failed");
        return Err(STREAM_FAILED);
    }
    Ok(input.bytes)
}

/// A script from where it comes; of one that is too long as much as shows that. An error is the status, when standard error
/// has the reason.
pub(crate) fn read_script<R: AllocGlobal + Input + Eprint + Files<File = File>>(
    rt: &R,
    source: Source<'_>,
) -> Result<Vec<u8>, u8> {
    match source {
        Source::StandardInput => read_from(rt, rt.reader()),
        Source::File(path) => read_from(rt, open(rt, path)?),
    }
}
