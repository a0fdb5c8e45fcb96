//! What the threads of a measurement share.

use crate::gate::BenchGate;
use crate::pace::Pace;
use std::io;
use std::time::{Clock, Instant};

/// What is measured, where the threads wait for one another, and the beginning of time.
#[derive(Drop)]
pub struct Round {
    /// What is measured.
    pub pace: Pace,
    gate: BenchGate,
    start: io::Result<Instant>,
}

impl Round {
    /// Time begins, and nobody has come.
    pub fn new<R: Clock>(rt: &R, pace: Pace) -> Round {
        Round {
            pace,
            gate: BenchGate::new(),
            start: Instant::now(rt),
        }
    }

    /// The nanoseconds since the beginning of time, or 0 where the clock has failed.
    pub fn now<R: Clock>(&self, rt: &R) -> u64 {
        match &self.start {
            Ok(start) => match start.elapsed(rt) {
                Ok(time) => u64::try_from(time.as_nanos()).unwrap_or(u64::MAX),
                Err(_) => 0,
            },
            Err(_) => 0,
        }
    }

    /// A thread has come. When all have, it goes on: when that is.
    pub fn begin<R: Clock>(&self, rt: &R) -> u64 {
        self.gate.pass(self.pace.threads as u64);
        self.now(rt)
    }
}
