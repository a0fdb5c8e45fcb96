//! A copy of a store, which a server may have open.

use crate::making::make_store;
use crate::reading::read_lines;
use ds_store::open::Databases;
use std::fs::{File, Files};

/// `dsheet backup FILE COPY`: a copy of the store at this path, with the lines that were committed at one moment, at
/// another path, where no file is. A server may have the store open: its files are read, and stay as they are.
pub fn backup<R: AllocGlobal + Eprint + Files<File = File> + Databases>(
    rt: &R,
    path: &str,
    copy: &str,
) -> u8 {
    match read_lines(rt, path) {
        Ok(lines) => make_store(rt, copy, lines),
        Err(status) => status,
    }
}
