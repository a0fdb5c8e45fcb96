//! Where a script or a grid comes from.

use crate::status::STREAM_FAILED;
use std::fs::{File, Files};

/// Where a script or a grid comes from.
#[derive(Clone, Copy, Debug, PartialEq, Eq)]
pub enum Source<'a> {
    /// Standard input.
    StandardInput,
    /// The file of this name.
    File(&'a str),
}

impl<'a> Source<'a> {
    /// The file of a name; where there is none, standard input.
    pub fn of(file: Option<&'a str>) -> Source<'a> {
        match file {
            Some(path) => Source::File(path),
            None => Source::StandardInput,
        }
    }
}

/// Opens a file to be read. An error is the status, 3, when standard error has the reason.
pub fn open<R: Eprint + Files<File = File>>(rt: &R, path: &str) -> Result<File, u8> {
    let _reported = match File::open(rt, path) {
        Ok(file) if file.metadata().is_ok_and(|data| data.is_dir()) => {
            eprintln!(rt; "dsheet: {path}: it is a folder")
        }
        Ok(file) => return Ok(file),
        Err(error) => eprintln!(rt; "dsheet: {path}: {error}"),
    };
    Err(STREAM_FAILED)
}
