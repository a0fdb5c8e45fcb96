//! The log beside the file of a database.

use std::fs::{self, Files};

// The most bytes that a log has which holds nothing: it is cut to these where a database is closed.
const EMPTY: u64 = 41;

// Removes the log at this path, where it holds nothing.
fn remove_empty<R: Files>(rt: &R, log: &str) {
    if let Ok(found) = fs::symlink_metadata(rt, log)
        && found.len() <= EMPTY
    {
        // (one that stays does no harm)
        let _removed = fs::remove_file(rt, log);
    }
}

/// Removes the log of the database at this path, where it holds nothing. The database has to be open here, so that nobody
/// else has the log.
pub(crate) fn remove_log<R: AllocGlobal + Files>(rt: &R, path: &str) {
    // The log lies beside the file that a link leads to.
    if let Ok(file) = fs::canonicalize(rt, path)
        && let Ok(log) = format!(in rt.alloc(); "{}-wal", file.as_str())
    {
        remove_empty(rt, log.as_str());
    }
}
