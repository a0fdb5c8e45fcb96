//! What may happen to a structure, and what of it a history keeps.

use std::collections::LinkedList;

/// What may happen to a structure on persistent words. `D` is what a process does.
pub enum Event<D> {
    /// A process begins a call. No word changes.
    Begin {
        /// The process.
        process: usize,
        /// What it does from then on.
        call: D,
    },
    /// A process takes one step of its call: one access of one word.
    Step(usize),
    /// The persisted side of a word becomes its cached side.
    Evict(usize),
    /// A process stops: its call is broken off, and its write-back buffer is lost.
    Stop(usize),
    /// Each cached side becomes the persisted one, and every process stops.
    Crash,
}

/// What a process did in a history. `T` is what a process is answered.
pub enum Deed<D, T> {
    /// It began a call.
    Began(D),
    /// It was answered this by a step.
    Response(T),
}

/// An entry of a history. No value of it is made: clauses alone speak of it.
pub struct Entry<D, T> {
    /// What happened.
    pub event: Event<D>,
    /// What the process was answered by it.
    pub responses: LinkedList<T>,
}
