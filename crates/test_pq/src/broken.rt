//! Calls that a crash breaks off.

ghost use Rattle.std.specs.Prelude.{◌+◌, ◌*◌, ◌<◌, ◌≤◌};

use crate::schedule::{WORDS, drive, new_words};
use ds_words::words::Words;
use pq::calls::Ended;
use pq::dequeue::Dequeue;
use pq::enqueue::Enqueue;
use pq::recover::{Found, Recover};
use std::test::Fail;

// Every word is evicted.
fn evict_all(words: &mut Words) {
    for number in 0..WORDS {
        if words.has_word(number) {
            words.evict(number);
        }
    }
}

// A crash comes: what the recovery of a process says then, and what a dequeue of the other one gets by this operation.
fn after_crash(
    words: &mut Words,
    process: usize,
    other: usize,
    operation: u64,
) -> (Option<Ended>, Option<Ended>)
    requires both { (process < 2) × (other < 2) }
    requires own { (1024 * other < operation) × (operation ≤ 1024 * other + 1024) }
{
    words.crash();
    let recovered = drive(words, process, &mut Recover::new(2, process), 40);
    let taken = drive(words, other, &mut Dequeue::new(2, other, operation), 40);
    (recovered, taken)
}

// What recovery says of an enqueue of 7 that a crash broke off after each number of steps, and what a dequeue gets then.
#[test]
fn an_enqueue_broken_off(rt: HostRuntime) -> Result<(), Fail> {
    for steps in 0..16 {
        let mut words = new_words(rt.alloc())?;
        drive(&mut words, 0, &mut Enqueue::new(2, 0, 1, 7), steps);
        let (found, taken) = if steps < 6 {
            (Found::Nothing, Ended::Empty)
        } else if steps < 11 {
            (Found::NotEnqueued, Ended::Empty)
        } else {
            (Found::WasEnqueued, Ended::Got { value: 7 })
        };
        assert_eq!(rt;
            after_crash(&mut words, 0, 1, 1025),
            (Some(Ended::Recovered { found }), Some(taken))
        );
    }
    Ok(())
}

// The same where every word was evicted before the crash: what was stored counts.
#[test]
fn an_enqueue_evicted(rt: HostRuntime) -> Result<(), Fail> {
    for steps in 0..16 {
        let mut words = new_words(rt.alloc())?;
        drive(&mut words, 0, &mut Enqueue::new(2, 0, 1, 7), steps);
        evict_all(&mut words);
        let (found, taken) = if steps < 4 {
            (Found::Nothing, Ended::Empty)
        } else if steps < 9 {
            (Found::NotEnqueued, Ended::Empty)
        } else {
            (Found::WasEnqueued, Ended::Got { value: 7 })
        };
        assert_eq!(rt;
            after_crash(&mut words, 0, 1, 1025),
            (Some(Ended::Recovered { found }), Some(taken))
        );
    }
    Ok(())
}

// What recovery says of a dequeue of 7 that a crash broke off after each number of steps, and what the next dequeue gets.
#[test]
fn a_dequeue_broken_off(rt: HostRuntime) -> Result<(), Fail> {
    for steps in 0..16 {
        let mut words = new_words(rt.alloc())?;
        drive(&mut words, 0, &mut Enqueue::new(2, 0, 1, 7), 40);
        drive(&mut words, 1, &mut Dequeue::new(2, 1, 1025), steps);
        let seven = Ended::Got { value: 7 };
        let (found, taken) = if steps < 3 {
            (Found::Nothing, seven)
        } else if steps < 10 {
            (Found::NotDequeued, seven)
        } else {
            (Found::Got { value: 7 }, Ended::Empty)
        };
        assert_eq!(rt;
            after_crash(&mut words, 1, 0, 2),
            (Some(Ended::Recovered { found }), Some(taken))
        );
    }
    Ok(())
}
