//! The files of a store, which a server may have open, as they are at one moment. They stay as they are.

use crate::stores::{tell_error, tell_fault};
use ds_batch::status::STREAM_FAILED;
use ds_layout::layout::Layout;
use ds_store::backup::lines_of;
use ds_store::fault::StoreFault;
use ds_store::snapshot::snapshot;
use ds_store::sound::{SoundLines, first_sound};
use ds_store_journal::journal::read_sheet;
use sqlite::{Alter, Connection, FileStore};
use sqlite_disk::Memory;
use std::alloc::Global;
use std::fs::{self, Files};
use std::io;

// What the bytes of a store's files lie in, once they were read.
type Copied = FileStore<Memory>;

// The first bytes of a log, which are others as soon as it begins anew: then its lines are in the file.
const LOG_HEADER: usize = 32;

// How many times both files are read at most: a log begins anew after a thousand pages.
const READS_MOST: usize = 16;

// The bytes of a store's file, and of its log.
#[derive(Drop)]
struct Image {
    file: Vec<u8>,
    log: Vec<u8>,
}

fn header(log: &[u8]) -> &[u8] {
    log.get(..LOG_HEADER).unwrap_or(log)
}

// The bytes of a log; none where there is no such file.
fn read_log<R: AllocGlobal + Files>(rt: &R, path: &str) -> io::Result<Vec<u8>> {
    match fs::read(rt, path) {
        Err(error) if error.kind() == io::ErrorKind::NotFound => Ok(Vec::new(rt.alloc())),
        read => read,
    }
}

// Reads both files. None where the log has begun anew meanwhile: then lines may be in neither that was read.
fn read_image<R: AllocGlobal + Files>(
    rt: &R,
    path: &str,
    log_path: &str,
) -> io::Result<Option<Image>> {
    let before = read_log(rt, log_path)?;
    let file = fs::read(rt, path)?;
    let log = read_log(rt, log_path)?;
    let after = read_log(rt, log_path)?;
    if header(&before) == header(&log) && header(&after) == header(&log) {
        Ok(Some(Image { file, log }))
    } else {
        Ok(None)
    }
}

// Reads both files as they are at one moment, whoever has them open. An error says that they cannot be read, or that the log
// began anew each time.
fn read_files<R: AllocGlobal + Files>(rt: &R, path: &str) -> io::Result<Image> {
    // The log lies beside the file itself, where the path is a link.
    let real = fs::canonicalize(rt, path)?;
    let log_path = format!(in rt.alloc(); "{}-wal", real.as_str())?;
    for _ in 0..READS_MOST {
        if let Some(image) = read_image(rt, real.as_str(), log_path.as_str())? {
            return Ok(image);
        }
    }
    Err(io::ErrorKind::ResourceBusy.into())
}

// That a regular file lies at this path. An error is the status, when standard error has the reason.
fn see_file<R: Eprint + Files>(rt: &R, path: &str) -> Result<(), u8> {
    match fs::metadata(rt, path) {
        Ok(data) if data.is_file() => Ok(()),
        Ok(_) => {
            let _reported = eprintln!(rt; "dsheet: {path}: it is no regular file");
            Err(STREAM_FAILED)
        }
        Err(error) => Err(tell_error(rt, path, &error)),
    }
}

// The database of the store at this path, in memory. An error is as before.
fn read_database<R: AllocGlobal + Eprint + Files>(
    rt: &R,
    path: &str,
) -> Result<Connection<Copied>, u8> {
    see_file(rt, path)?;
    let image = match read_files(rt, path) {
        Ok(image) => image,
        Err(error) => return Err(tell_error(rt, path, &error)),
    };
    match snapshot(rt.alloc(), &image.file, &image.log) {
        Ok(conn) => Ok(conn),
        Err(fault) => Err(tell_fault(rt, path, &fault)),
    }
}

/// What a store has, without its database and its sheet.
#[derive(Drop)]
pub(crate) struct ReadStore {
    /// The shape of its sheet, and how many processes it has.
    pub layout: Layout,
    /// The lines of its journal, all of them.
    pub lines: Vec<String>,
}

// What a store with these lines has.
fn read_of(lines: Vec<String>) -> Result<ReadStore, StoreFault> {
    let Some(first) = lines.first() else {
        return Err(StoreFault::Missing(1));
    };
    match read_sheet(first.as_bytes()) {
        Ok(layout) => Ok(ReadStore { layout, lines }),
        Err(fault) => Err(StoreFault::at_line(1, fault)),
    }
}

// The lines of the store in a database that are sound, this number of them at most; all, with 0, or an error.
fn sound_in<S: Alter>(
    alloc: Global,
    conn: &mut Connection<S>,
    until: usize,
) -> Result<SoundLines, StoreFault> {
    if until > 0 {
        return first_sound(alloc, conn, until);
    }
    let lines = lines_of(alloc, conn)?;
    let count = lines.len();
    Ok(SoundLines {
        lines,
        count,
        fault: None,
    })
}

// The same of the database of the store at this path. An error is as before.
fn told_sound<R: AllocGlobal + Eprint, S: Alter>(
    rt: &R,
    path: &str,
    conn: &mut Connection<S>,
    until: usize,
) -> Result<SoundLines, u8> {
    match sound_in(rt.alloc(), conn, until) {
        Ok(sound) => Ok(sound),
        Err(fault) => Err(tell_fault(rt, path, &fault)),
    }
}

/// The lines of the store at this path that are sound, this number of them at most; all, with 0: then an error says which
/// line is not. They were followed, each in its turn. An error is as before.
pub(crate) fn read_sound<R: AllocGlobal + Eprint + Files>(
    rt: &R,
    path: &str,
    until: usize,
) -> Result<SoundLines, u8> {
    let mut conn = read_database(rt, path)?;
    told_sound(rt, path, &mut conn, until)
}

/// The lines of the store at this path, all of them: it is sound. An error is as before.
pub(crate) fn read_lines<R: AllocGlobal + Eprint + Files>(
    rt: &R,
    path: &str,
) -> Result<Vec<String>, u8> {
    Ok(read_sound(rt, path, 0)?.lines)
}

/// What the store at this path has: it is sound. An error is as before.
pub(crate) fn read_store<R: AllocGlobal + Eprint + Files>(
    rt: &R,
    path: &str,
) -> Result<ReadStore, u8> {
    let lines = read_lines(rt, path)?;
    match read_of(lines) {
        Ok(read) => Ok(read),
        Err(fault) => Err(tell_fault(rt, path, &fault)),
    }
}
