//! A store is made, all of it or none.

ghost use Rattle.std.specs.Prelude.{IfOk, OnOk, map};
ghost use Rattle.std.specs.String.{string_bytes};
ghost use Rattle.sqlite.specs.Held.{state};
ghost use Rattle.sqlite.specs.State.{HasCleanDisk};
ghost use Rattle.ds_store_table.specs.Tables.{Holds, IsBare};

use crate::status::BAD_STORE;
use crate::stores::{Disk, close_database, tell_error, tell_fault};
use ds_store::fault::StoreFault;
use ds_store::open::Databases;
use ds_store::store::{Store, is_bare};
use sqlite::{Alter, Connection};
use std::alloc::Global;
use std::fs::{self, File, Files};
use std::io;

// Makes an empty file, where there is none. An error is the status, when standard error has the reason.
fn make_file<R: Eprint + Files<File = File>>(rt: &R, path: &str) -> Result<(), u8> {
    match File::create_new(rt, path) {
        Ok(_) => Ok(()),
        Err(error) if error.kind() == io::ErrorKind::AlreadyExists => {
            let _reported = eprintln!(rt; "dsheet: {path}: there is a file already");
            Err(BAD_STORE)
        }
        Err(error) => Err(tell_error(rt, path, &error)),
    }
}

// That a database at this path has nothing. An error is as before.
fn see_bare<R: Eprint, S: Alter>(rt: &R, path: &str, conn: &Connection<S>) -> Result<(), u8>
    ensures { OnOk result (IsBare (state S.Store conn.now).now) }
{
    if is_bare(conn) {
        return Ok(());
    }
    let _reported = eprintln!(rt; "dsheet: {path}: it has a store, or something else, already");
    Err(BAD_STORE)
}

// A database that had nothing, with a store of these lines.
fn kept<S: Alter + Drop>(
    alloc: Global,
    conn: Connection<S>,
    lines: Vec<String>,
) -> Result<Connection<S>, StoreFault>
    ensures { IfOk result (λ made. HasCleanDisk (state S.Store made) → IsBare (state S.Store conn).now → Holds (map string_bytes lines.items) (state S.Store made).committed) }
{
    Ok(Store::of_lines(alloc, conn, lines)?.store.into_database())
}

// The same of a database at this path, which may have something. An error is as before.
fn keep<R: AllocGlobal + Eprint, S: Alter + Drop>(
    rt: &R,
    path: &str,
    conn: Connection<S>,
    lines: Vec<String>,
) -> Result<Connection<S>, u8>
    ensures { IfOk result (λ made. HasCleanDisk (state S.Store made) → Holds (map string_bytes lines.items) (state S.Store made).committed) }
{
    see_bare(rt, path, &conn)?;
    match kept(rt.alloc(), conn, lines) {
        Ok(conn) => Ok(conn),
        Err(fault) => Err(tell_fault(rt, path, &fault)),
    }
}

// Opens a database at this path, which is made where there is none. An error is as before.
fn open_any<R: Eprint + Databases>(rt: &R, path: &str) -> Result<Connection<Disk>, u8> {
    match rt.open_database(path) {
        Ok(conn) => Ok(conn),
        Err(fault) => Err(tell_fault(rt, path, &fault)),
    }
}

// Makes a store of these lines in the empty file at this path, and gives the status.
fn fill<R: AllocGlobal + Eprint + Files + Databases>(rt: &R, path: &str, lines: Vec<String>) -> u8 {
    let conn = match open_any(rt, path) {
        Ok(conn) => conn,
        Err(status) => return status,
    };
    match keep(rt, path, conn, lines) {
        Ok(conn) => close_database(rt, path, conn),
        Err(status) => status,
    }
}

/// Makes the files of a store with these lines at this path, where no file is; where that fails, they are removed. Gives the
/// status, and reports on standard error why it is not 0.
pub(crate) fn make_store<R: AllocGlobal + Eprint + Files<File = File> + Databases>(
    rt: &R,
    path: &str,
    lines: Vec<String>,
) -> u8 {
    let Ok(log) = format!(in rt.alloc(); "{path}-wal") else {
        return tell_fault(rt, path, &StoreFault::NoMemory);
    };
    if let Err(status) = make_file(rt, path) {
        return status;
    }
    if let Err(status) = make_file(rt, log.as_str()) {
        let _removed = fs::remove_file(rt, path);
        return status;
    }
    let status = fill(rt, path, lines);
    if status != 0 {
        let _removed = (fs::remove_file(rt, path), fs::remove_file(rt, log.as_str()));
    }
    status
}
