//! The library for C: a detectable queue that threads share. `include/pmq.h` declares each call.
#![tactic(auto)]

mod answer;
mod closed;
mod closed_calls;
mod failure;
mod held;
mod holder;
mod queue_calls;
mod queues;
mod seat_calls;
mod seats;
