//! A queue of two processes, and its steps.

ghost use Rattle.std.specs.Prelude.{◌≡◌};

use ds_words::access::Class;
use ds_words::words::Words;
use pm_base::machine::Machine;
use pq::queue::Queue;
use std::alloc::{AllocError, Global};

/// How many words a queue of two processes has.
pub const WORDS: usize = 16392;

/// A new queue of two processes.
pub fn new_words(alloc: Global) -> Result<Words, AllocError> {
    let classes = vec![in alloc; Class::Owned; WORDS]?;
    Words::new(alloc, classes, 2)
}

/// Takes at most `most` steps of a call: how it ended, or None.
pub fn drive<M: Machine<Queue>>(
    words: &mut Words,
    process: usize,
    call: &mut M,
    most: usize,
) -> Option<M::End>
    requires { M.calls.fits 2 call.old }
    ensures { M.calls.fits 2 call.new }
{
    for step in 0..most {
        if let Some(end) = call.turn(&2) {
            return Some(end);
        }
        let asked = call.want(&2);
        if !words.can_perform(process, asked) {
            return None;
        }
        let word = words.perform(process, asked);
        call.got(&2, word);
    }
    call.turn(&2)
}
