//! The file of a store.

use crate::fault::StoreFault;
use sqlite::{Connection, File, FileFrom, FileStore, Wary};

/// What opens the database in a file.
pub trait Databases {
    /// The database in the file at this path, which is made where there is none. It stays open, for this program alone,
    /// until the connection is dropped.
    fn open_database(
        &self,
        path: &str,
    ) -> Result<Connection<FileStore<FileFrom<Wary>>>, StoreFault>;
}

impl Databases for HostRuntime {
    fn open_database(
        &self,
        path: &str,
    ) -> Result<Connection<FileStore<FileFrom<Wary>>>, StoreFault> {
        match Connection::open_from(self, path, false, Wary) {
            Ok(conn) => Ok(conn),
            Err((error, _left)) => Err(StoreFault::from(error)),
        }
    }
}
