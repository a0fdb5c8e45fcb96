//! The database in files that another program may have open, as they are at one moment.

ghost use Rattle.std.specs.Prelude.{◌≡◌, IfOk, IsTrue};
ghost use Rattle.sqlite_disk.specs.Memory.{memory_bytes, memory_is_usable};
ghost use Rattle.sqlite_disk.specs.declared.files.Files.{Files};
ghost use Rattle.sqlite_disk.specs.declared.memory.Memory.{Memory};
ghost use Rattle.sqlite.specs.Files.{Finds, file_state};
ghost use Rattle.sqlite.specs.State.{HasCleanDisk};

use crate::fault::StoreFault;
use sqlite::{Connection, FileStore, Files, Options};
use sqlite_disk::{Disk, Memory};
use std::alloc::Global;

// A file in memory with these bytes.
fn with_bytes(alloc: Global, bytes: &[u8]) -> Result<Memory, StoreFault>
    ensures usable { IfOk result (λ file. IsTrue (memory_is_usable file)) }
    ensures bytes { IfOk result (λ file. memory_bytes file ≡ bytes.now) }
{
    let mut file = Memory::new(alloc);
    match file.write_at(0, bytes) {
        Ok(()) => Ok(file),
        Err(_) => Err(StoreFault::NoMemory),
    }
}

/// The database that a file and its log hold, of which these are the bytes: in memory, so that the files stay as they are.
/// An error is that they hold none, or that an allocation failed.
pub fn snapshot(
    alloc: Global,
    file: &[u8],
    log: &[u8],
) -> Result<Connection<FileStore<Memory>>, StoreFault>
    ensures { IfOk result (λ conn. HasCleanDisk (file_state conn) → (files : Files Memory) × (memory_bytes files.db ≡ file.now) × (memory_bytes files.log ≡ log.now) × Finds files conn) }
{
    let db = with_bytes(alloc, file)?;
    let log = with_bytes(alloc, log)?;
    match Connection::open_files(alloc, Files { log, db }, Options::new(0)) {
        Ok(conn) => Ok(conn),
        Err((error, _left)) => Err(StoreFault::from(error)),
    }
}
