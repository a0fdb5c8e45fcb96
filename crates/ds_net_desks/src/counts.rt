//! The numbers of a server, as its door counts them.

use ds_http::metrics::{Counts, Metrics};
use ds_net_floor::door::Door;

/// What a door has counted.
#[derive(Drop)]
pub struct DoorCounts<'a> {
    /// The door.
    pub door: &'a Door,
}

impl<'a> Counts for DoorCounts<'a> {
    ghost gives = { λ counts metrics. Unit {0} };

    fn metrics(&self) -> Metrics {
        let (totals, commits) = (self.door.totals(), self.door.commits());
        Metrics {
            edits_done: totals.done,
            edits_overtaken: totals.overtaken,
            calls_refused: totals.refused,
            reports: totals.reports,
            sessions_joined: totals.joined,
            sessions: self.door.running(),
            commits: commits.count,
            commit_microseconds: commits.microseconds,
        }
    }
}
