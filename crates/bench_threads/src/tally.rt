//! How many calls there were, and when.

/// Calls of a thread, or of threads that ran beside each other: how many there were, how many ended well, and from when to
/// when they ran, in nanoseconds since the program began.
#[derive(Clone, Copy)]
pub struct PaceTally {
    /// How many calls there were.
    pub calls: u64,
    /// How many of them ended as they do where nobody is in the way.
    pub good: u64,
    /// When the first one began.
    pub begun: u64,
    /// When the last one ended.
    pub ended: u64,
}

impl PaceTally {
    /// No call.
    pub fn new() -> PaceTally {
        PaceTally {
            calls: 0,
            good: 0,
            begun: u64::MAX,
            ended: 0,
        }
    }

    /// A call has ended.
    pub fn count(&mut self, is_good: bool) {
        self.calls = self.calls.wrapping_add(1);
        self.good = self.good.wrapping_add(is_good as u64);
    }

    /// The calls of all these threads, which ran beside each other.
    pub fn of(tallies: &[PaceTally]) -> PaceTally {
        let mut all = PaceTally::new();
        for tally in tallies {
            all.calls = all.calls.wrapping_add(tally.calls);
            all.good = all.good.wrapping_add(tally.good);
            all.begun = all.begun.min(tally.begun);
            all.ended = all.ended.max(tally.ended);
        }
        all
    }

    /// These calls, and others that ran at another time.
    pub fn and(self, other: PaceTally) -> PaceTally {
        PaceTally {
            calls: self.calls.wrapping_add(other.calls),
            good: self.good.wrapping_add(other.good),
            begun: 0,
            ended: self.nanoseconds().wrapping_add(other.nanoseconds()),
        }
    }

    /// How many nanoseconds they took.
    pub fn nanoseconds(self) -> u64 {
        self.ended.saturating_sub(self.begun)
    }
}
