//! Standard input, output and error, where they are closed.

use std::fs::{File, Files};
use std::os::fd::AsRawFd;

// What stands in for a descriptor that is closed.
const NOTHING: &str = "/dev/null";

// The greatest number of the three.
const STANDARD_ERROR: i32 = 2;

/// What stands in for those of the three that were closed.
pub type StandIns = (Option<File>, Option<File>, Option<File>);

// Opens one of them that is closed, so that reads and writes of it fail as before; none where none is.
fn open_closed<R: Files<File = File>>(rt: &R) -> Option<File> {
    let file = File::open(rt, NOTHING).ok()?;
    let number = file.as_raw_fd();
    if number > STANDARD_ERROR {
        return None;
    }
    if number != 0 {
        return Some(file);
    }
    drop(file);
    File::options().write(true).open(rt, NOTHING).ok()
}

/// Opens those of the three that are closed, before anything else is: otherwise a connection would be taken for standard
/// error, and its client would read the log. Reads and writes of them fail, as of closed ones. They are to be kept as
/// long as the program runs.
pub fn stand_ins<R: Files<File = File>>(rt: &R) -> StandIns {
    (open_closed(rt), open_closed(rt), open_closed(rt))
}
