//! The file of a store, while it is served.

use crate::control::Listening;
use ds_net::keeper::Attendant;
use ds_net_floor::door::Door;
use std::fs::{self, Files};
use std::io::BufRead;
use std::os::unix::fs::MetadataExt;

/// Which file lies at a path.
#[derive(Clone, Copy, Debug, PartialEq, Eq)]
struct FileIdentity {
    device: u64,
    node: u64,
}

// Which file lies at this path. None where there is none, or the system does not say.
fn identity<F: Files>(files: &F, path: &str) -> Option<FileIdentity> {
    let found = fs::metadata(files, path).ok()?;
    Some(FileIdentity {
        device: found.dev(),
        node: found.ino(),
    })
}

/// What the thread of a keeper does beside: it reads standard input, and sees whether the file of the store is still where
/// it was. Where it is not, the door asks the server to stop.
#[derive(Drop)]
pub struct Watching<'a, B, F: Files> {
    listening: Listening<'a, B>,
    files: &'a F,
    path: &'a str,
    first: Option<FileIdentity>,
    is_lost: bool,
    door: &'a Door,
}

impl<'a, B, F: Files> Watching<'a, B, F> {
    /// Of the file that lies at the path now.
    pub fn new(
        listening: Listening<'a, B>,
        files: &'a F,
        path: &'a str,
        door: &'a Door,
    ) -> Watching<'a, B, F> {
        Watching {
            listening,
            files,
            path,
            first: identity(files, path),
            is_lost: false,
            door,
        }
    }

    /// Whether the file was seen to be removed or replaced.
    pub fn is_lost(&self) -> bool {
        self.is_lost
    }
}

impl<B: BufRead, F: Files> Attendant for Watching<'_, B, F> {
    fn attend(&mut self) {
        self.listening.attend();
        if self.first.is_some() && identity(self.files, self.path) != self.first {
            self.is_lost = true;
            self.door.tell();
        }
    }
}
