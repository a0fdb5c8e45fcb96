//! Where threads wait for one another before they begin, so that they run beside each other.

use std::sync::atomic::{AtomicU64, Ordering};

/// How many threads have come.
#[derive(Drop)]
pub struct BenchGate {
    come: AtomicU64,
}

// How often a thread looks before it goes on alone.
const LOOKS: u64 = 1_000_000_000;

impl BenchGate {
    /// Nobody has come.
    pub fn new() -> BenchGate {
        BenchGate {
            come: AtomicU64::new(0),
        }
    }

    /// A thread has come, and goes on when all have come, or when it has looked often enough.
    pub fn pass(&self, threads: u64) {
        self.come.fetch_add(1, Ordering::SeqCst);
        for _ in 0..LOOKS {
            if self.come.load(Ordering::SeqCst) >= threads {
                return;
            }
        }
    }
}
