//! The queue, as it is gone through.

ghost use Rattle.std.specs.Prelude.{◌≡◌, IsTrue};

use crate::calls::{got, may_begin, want};
use crate::flaws::Flaw;
use ds_words::access::{Access, Class};
use pm_explore::explored::{Explored, Landed};
use pq::calls::{Doing, Response};
use pq::dequeue::{Dequeue, DequeueStage};
use pq::enqueue::{Enqueue, EnqueueStage};
use pq::recover::{Recover, RecoverStage};

/// The queue as pq has it, of two processes.
pub struct RightQueue;

/// A queue with a flaw, of two processes.
pub struct FlawedQueue;

/// Its number of processes.
pub const PROCESSES: usize = 2;

/// Its number of words.
pub const WORDS: usize = 16392;

// Whether both stages are the same.
fn same_enqueue_stage(a: EnqueueStage, b: EnqueueStage) -> bool
    ensures { IsTrue result → a ≡ b }
{
    a == b
}

// Whether both stages are the same.
fn same_dequeue_stage(a: DequeueStage, b: DequeueStage) -> bool
    ensures { IsTrue result → a ≡ b }
{
    a == b
}

// Whether both stages are the same.
fn same_recover_stage(a: RecoverStage, b: RecoverStage) -> bool
    ensures { IsTrue result → a ≡ b }
{
    a == b
}

// Whether both calls are the same.
fn same_enqueue(a: &Enqueue, b: &Enqueue) -> bool
    ensures { IsTrue result → a.now ≡ b.now }
{
    a.process == b.process
        && a.operation == b.operation
        && a.value == b.value
        && a.turns == b.turns
        && same_enqueue_stage(a.stage, b.stage)
}

// Whether both calls are the same.
fn same_dequeue(a: &Dequeue, b: &Dequeue) -> bool
    ensures { IsTrue result → a.now ≡ b.now }
{
    a.process == b.process
        && a.operation == b.operation
        && a.turns == b.turns
        && same_dequeue_stage(a.stage, b.stage)
}

// Whether both calls are the same.
fn same_recover(a: &Recover, b: &Recover) -> bool
    ensures { IsTrue result → a.now ≡ b.now }
{
    a.process == b.process
        && a.announced == b.announced
        && a.turns == b.turns
        && same_recover_stage(a.stage, b.stage)
}

// Whether both are the same.
fn same_doing(a: &Doing, b: &Doing) -> bool
    ensures { IsTrue result → a.now ≡ b.now }
{
    match a {
        Doing::Idle(u) => match b {
            Doing::Idle(v) => *u == *v,
            _ => false,
        },
        Doing::Enqueueing(c) => match b {
            Doing::Enqueueing(d) => same_enqueue(c, d),
            _ => false,
        },
        Doing::Dequeueing(c) => match b {
            Doing::Dequeueing(d) => same_dequeue(c, d),
            _ => false,
        },
        Doing::Recovering(c) => match b {
            Doing::Recovering(d) => same_recover(c, d),
            _ => false,
        },
        Doing::Stopped => matches!(b, Doing::Stopped),
        Doing::Torn => matches!(b, Doing::Torn),
    }
}

// Whether both are the same.
fn same_response(a: &Response, b: &Response) -> bool
    ensures { IsTrue result → a.now ≡ b.now }
{
    a == b
}

impl Explored for FlawedQueue {
    type Key = Flaw;

    type Doing = Doing;

    type Response = Response;

    ghost use Rattle.test_pm_explore.specs.Steps.{flawed_queue};

    ghost structure = { flawed_queue };

    fn same_doing(a: &Doing, b: &Doing) -> bool {
        same_doing(a, b)
    }

    fn same_response(a: &Response, b: &Response) -> bool {
        same_response(a, b)
    }

    fn words(key: &Flaw) -> usize {
        let _key = key;
        WORDS
    }

    fn processes(key: &Flaw) -> usize {
        let _key = key;
        PROCESSES
    }

    fn first_word(key: &Flaw, word: usize) -> u64 {
        let (_key, _word) = (key, word);
        0
    }

    fn first() -> Doing {
        Doing::Idle(0)
    }

    fn class(key: &Flaw, word: usize) -> Class {
        let (_key, _word) = (key, word);
        Class::Owned
    }

    fn stopped() -> Doing {
        Doing::Stopped
    }

    fn may_begin(key: &Flaw, process: usize, now: Doing, call: Doing) -> bool {
        let (_key, _process) = (key, process);
        may_begin(now, call)
    }

    fn want(key: &Flaw, process: usize, now: Doing) -> Option<Access<usize>> {
        let (_key, _process) = (key, process);
        want(now)
    }

    fn got(key: &Flaw, process: usize, now: Doing, word: u64) -> Landed<Doing, Response> {
        let _process = process;
        got(*key, now, word)
    }
}

impl Explored for RightQueue {
    type Key = usize;

    type Doing = Doing;

    type Response = Response;

    ghost use Rattle.test_pm_explore.specs.TwoProcesses.{two_processes};

    ghost structure = { two_processes };

    fn same_doing(a: &Doing, b: &Doing) -> bool {
        same_doing(a, b)
    }

    fn same_response(a: &Response, b: &Response) -> bool {
        same_response(a, b)
    }

    fn words(key: &usize) -> usize {
        let _key = key;
        WORDS
    }

    fn processes(key: &usize) -> usize {
        let _key = key;
        PROCESSES
    }

    fn first_word(key: &usize, word: usize) -> u64 {
        let (_key, _word) = (key, word);
        0
    }

    fn first() -> Doing {
        Doing::Idle(0)
    }

    fn class(key: &usize, word: usize) -> Class {
        let (_key, _word) = (key, word);
        Class::Owned
    }

    fn stopped() -> Doing {
        Doing::Stopped
    }

    fn may_begin(key: &usize, process: usize, now: Doing, call: Doing) -> bool {
        let (_key, _process) = (key, process);
        may_begin(now, call)
    }

    fn want(key: &usize, process: usize, now: Doing) -> Option<Access<usize>> {
        let (_key, _process) = (key, process);
        want(now)
    }

    fn got(key: &usize, process: usize, now: Doing, word: u64) -> Landed<Doing, Response> {
        let _process = process;
        let _key = key;
        got(Flaw::Nothing, now, word)
    }
}
