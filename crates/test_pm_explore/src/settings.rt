//! Settings of a queue.

use pm_explore::setting::{Planned, Setting, Turn};
use pq::calls::Doing;
use pq::dequeue::Dequeue;
use pq::enqueue::Enqueue;
use pq::places;
use pq::recover::Recover;
use std::alloc::{AllocError, Global};

/// A process's call with this number.
#[derive(Clone, Copy, Debug, PartialEq, Eq)]
pub enum Call {
    /// It enqueues this value.
    Enqueue(u64),
    /// It dequeues.
    Dequeue,
}

// The call of a process with this number, as an operation of its own.
fn planned(process: usize, number: usize, call: Call) -> Planned<Doing> {
    let operation = 1024 * (process % 2) as u64 + (number % 1024) as u64 + 1;
    let doing = match call {
        Call::Enqueue(value) => Doing::Enqueueing(Enqueue::new(2, process, operation, value)),
        Call::Dequeue => Doing::Dequeueing(Dequeue::new(2, process, operation)),
    };
    Planned {
        process,
        turn: Turn::Own(number),
        call: doing,
    }
}

// The numbers of the words of a node and of an operation.
fn push_words(window: &mut Vec<usize>, node: usize) -> Result<(), AllocError> {
    for part in 0..5 {
        window.push((node % 4096) * 8 + part)?;
    }
    Ok(())
}

/// Calls of two processes on a queue, with all that may happen beside.
pub fn setting<K: Drop>(
    alloc: Global,
    key: K,
    first: &[Call],
    second: &[Call],
) -> Result<Setting<K, Doing>, AllocError> {
    let mut calls = Vec::new(alloc);
    let mut window = Vec::new(alloc);
    window.push(0)?;
    window.push(places::TAIL)?;
    window.push(places::HEAD)?;
    for process in 0..2usize {
        window.push(8 * process + 5)?;
        let own = if process == 0 { first } else { second };
        for number in 0..own.len() {
            calls.push(planned(process, number, own[number]))?;
            push_words(&mut window, 1024 * process + number % 1024 + 1)?;
        }
        calls.push(Planned {
            process,
            turn: Turn::Any,
            call: Doing::Recovering(Recover::new(2, process)),
        })?;
    }
    Ok(Setting {
        key,
        calls,
        window,
        evicts: true,
        stops: true,
        crashes: true,
    })
}
