//! What one session notes of itself beside its calls.

use crate::door::Door;
use ds_server::desk::{CallRefusal, Reported};
use ds_state::answer::EditEnd;
use std::sync::atomic::{AtomicBool, AtomicU64, Ordering};

/// A session, as the log tells it: which process it has joined, whether its client was silent for too long, and whether
/// an answer was not given since the store has failed. It counts in the totals of its server.
#[derive(Drop)]
pub struct Visit<'a> {
    door: &'a Door,
    // The process that was joined, and 1; 0 before.
    joined: AtomicU64,
    idle: AtomicBool,
    lost: AtomicBool,
    // For how many ticks its client has taken nothing since the server was asked to stop.
    late: AtomicU64,
}

impl<'a> Visit<'a> {
    /// Before anything is read.
    pub fn new(door: &'a Door) -> Visit<'a> {
        Visit {
            door,
            joined: AtomicU64::new(0),
            idle: AtomicBool::new(false),
            lost: AtomicBool::new(false),
            late: AtomicU64::new(0),
        }
    }

    /// The door of its server.
    pub fn door(&self) -> &'a Door {
        self.door
    }

    /// The process that the session has joined, if it has.
    pub fn process(&self) -> Option<u64> {
        match self.joined.load(Ordering::SeqCst) {
            0 => None,
            joined => Some(joined - 1),
        }
    }

    /// Whether the server was asked to stop: the session is to read no more.
    pub fn is_over(&self) -> bool {
        self.door.is_stopping()
    }

    /// Its client has taken nothing for a tick more, since the server was asked to stop: for how many in all.
    pub fn counts_late(&self) -> u64 {
        self.late.fetch_add(1, Ordering::SeqCst).wrapping_add(1)
    }

    /// Its client has neither said nor taken anything for too long.
    pub fn waits_no_longer(&self) {
        self.idle.store(true, Ordering::SeqCst);
    }

    /// Whether its client was silent for too long.
    pub fn was_idle(&self) -> bool {
        self.idle.load(Ordering::SeqCst)
    }

    /// What it was to say cannot be said: the store has failed.
    pub fn loses(&self) {
        self.lost.store(true, Ordering::SeqCst);
    }

    /// Whether an answer was not given since the store has failed.
    pub fn is_lost(&self) -> bool {
        self.lost.load(Ordering::SeqCst)
    }

    /// It has joined this process.
    pub fn joins(&self, process: usize) {
        self.joined
            .store((process as u64).wrapping_add(1), Ordering::SeqCst);
        self.door.count_joined();
    }

    /// A set of it has ended so.
    pub fn counts_set(&self, end: &Result<EditEnd, CallRefusal>) {
        match end {
            Ok(EditEnd::Done(_)) => self.door.count_done(),
            Ok(EditEnd::Overtaken(_, _)) => self.door.count_overtaken(),
            Err(_) => self.door.count_refused(),
        }
    }

    /// A report of it has ended so.
    pub fn counts_report(&self, end: &Result<Reported, CallRefusal>) {
        match end {
            Ok(_) => self.door.count_report(),
            Err(_) => self.door.count_refused(),
        }
    }
}
