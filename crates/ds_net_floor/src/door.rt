//! What the threads of a server share beside its sheet.

use std::sync::atomic::{AtomicBool, AtomicU64, Ordering};
use std::time::Duration;

/// The door of a server: whether it is to stop, how many sessions it has, and what they have come to. It is shared by
/// the threads of the server and by whoever tells it to stop.
#[derive(Drop)]
pub struct Door {
    stopping: AtomicBool,
    ended: AtomicBool,
    logs: AtomicBool,
    patience: AtomicU64,
    running: AtomicU64,
    begun: AtomicU64,
    joined: AtomicU64,
    done: AtomicU64,
    overtaken: AtomicU64,
    refused: AtomicU64,
    reports: AtomicU64,
    commits: AtomicU64,
    commit_microseconds: AtomicU64,
}

/// What the sessions of a server have come to.
#[derive(Clone, Copy, Debug, PartialEq, Eq)]
pub struct SessionTotals {
    /// Sessions that have joined a process.
    pub joined: u64,
    /// Sets that were answered `done`.
    pub done: u64,
    /// Sets that were answered `overtaken`.
    pub overtaken: u64,
    /// Sets, reports and lasts that the sheet has refused, or for which an allocation failed.
    pub refused: u64,
    /// Reports that were answered, settled or not.
    pub reports: u64,
}

/// What the commits of a server's store have come to.
#[derive(Clone, Copy, Debug, PartialEq, Eq)]
pub struct CommitTotals {
    /// How many there were.
    pub count: u64,
    /// How long they took in all, in microseconds.
    pub microseconds: u64,
}

impl Door {
    /// Of a server that has not begun.
    pub fn new() -> Door {
        Door {
            stopping: AtomicBool::new(false),
            ended: AtomicBool::new(false),
            logs: AtomicBool::new(false),
            patience: AtomicU64::new(0),
            running: AtomicU64::new(0),
            begun: AtomicU64::new(0),
            joined: AtomicU64::new(0),
            done: AtomicU64::new(0),
            overtaken: AtomicU64::new(0),
            refused: AtomicU64::new(0),
            reports: AtomicU64::new(0),
            commits: AtomicU64::new(0),
            commit_microseconds: AtomicU64::new(0),
        }
    }

    /// Tells the server to stop: it takes no more connections, each session answers the lines that it has read, and
    /// ends.
    pub fn tell(&self) {
        self.stopping.store(true, Ordering::SeqCst);
    }

    /// Whether the server was asked to stop.
    pub fn is_stopping(&self) -> bool {
        self.stopping.load(Ordering::SeqCst)
    }

    /// Whether the server has ended: nobody has to listen any more for what may tell it to stop.
    pub fn has_ended(&self) -> bool {
        self.ended.load(Ordering::SeqCst)
    }

    /// The server has ended.
    pub fn end(&self) {
        self.ended.store(true, Ordering::SeqCst);
    }

    /// What the sessions have come to so far.
    pub fn totals(&self) -> SessionTotals {
        SessionTotals {
            joined: self.joined.load(Ordering::SeqCst),
            done: self.done.load(Ordering::SeqCst),
            overtaken: self.overtaken.load(Ordering::SeqCst),
            refused: self.refused.load(Ordering::SeqCst),
            reports: self.reports.load(Ordering::SeqCst),
        }
    }

    /// How many sessions there are at once.
    pub fn running(&self) -> u64 {
        self.running.load(Ordering::SeqCst)
    }

    /// For how many ticks, of 250 milliseconds each, a client is waited for from now on.
    pub fn set_patience(&self, ticks: u64) {
        self.patience.store(ticks, Ordering::SeqCst);
    }

    /// The same, as it was set last.
    pub fn patience(&self) -> u64 {
        self.patience.load(Ordering::SeqCst)
    }

    /// The number of the session that begins, from 1.
    pub fn draw_number(&self) -> u64 {
        self.begun.fetch_add(1, Ordering::SeqCst).wrapping_add(1)
    }

    /// A session begins.
    pub fn enter(&self) {
        self.running.fetch_add(1, Ordering::SeqCst);
    }

    /// A session has ended.
    pub fn leave(&self) {
        self.running.fetch_sub(1, Ordering::SeqCst);
    }

    /// A session has joined a process.
    pub fn count_joined(&self) {
        self.joined.fetch_add(1, Ordering::SeqCst);
    }

    /// A set was answered `done`.
    pub fn count_done(&self) {
        self.done.fetch_add(1, Ordering::SeqCst);
    }

    /// A set was answered `overtaken`.
    pub fn count_overtaken(&self) {
        self.overtaken.fetch_add(1, Ordering::SeqCst);
    }

    /// A call was refused, or an allocation failed for it.
    pub fn count_refused(&self) {
        self.refused.fetch_add(1, Ordering::SeqCst);
    }

    /// A report was answered.
    pub fn count_report(&self) {
        self.reports.fetch_add(1, Ordering::SeqCst);
    }

    /// A commit took so long.
    pub fn count_commit(&self, took: Duration) {
        let microseconds = u64::try_from(took.as_micros()).unwrap_or(u64::MAX);
        self.commits.fetch_add(1, Ordering::SeqCst);
        self.commit_microseconds
            .fetch_add(microseconds, Ordering::SeqCst);
    }

    /// What the commits have come to so far.
    pub fn commits(&self) -> CommitTotals {
        CommitTotals {
            count: self.commits.load(Ordering::SeqCst),
            microseconds: self.commit_microseconds.load(Ordering::SeqCst),
        }
    }

    /// Whether nobody else is writing a line of the log, which is the caller's to write then, until `give_log`.
    pub fn take_log(&self) -> bool {
        !self.logs.swap(true, Ordering::SeqCst)
    }

    /// The line is written: somebody else may write one.
    pub fn give_log(&self) {
        self.logs.store(false, Ordering::SeqCst);
    }
}
