//! The queue as a structure on persistent words, and its three calls.

use crate::calls::{Doing, Ended, Response};
use crate::dequeue::{Dequeue, DequeueStage, dequeue_got, dequeue_want};
use crate::enqueue::{Enqueue, EnqueueStage, enqueue_got, enqueue_want};
use crate::laws::{
    dequeues_are_calls, enqueues_are_calls, queue_is_a_structure, recoveries_are_calls,
};
use crate::places;
use crate::recover::{Recover, RecoverStage, recover_got, recover_want};
use ds_words::access::{Access, Class};
use pm_base::machine::{Machine, Structured};

/// The queue. The key says how many processes it has: at most 16,383 of them can make calls.
pub struct Queue;

impl Structured for Queue {
    type Key = usize;

    type Doing = Doing;

    type Response = Response;

    ghost use Rattle.pq.specs.Queue.{queue};

    ghost structure = { queue };

    fn words(key: &usize) -> usize {
        8 * (places::OPERATIONS * *key + 1)
    }

    fn apart(key: &usize) -> usize {
        Queue::words(key)
    }

    fn first_word(key: &usize, word: usize) -> u64 {
        let (_key, _word) = (key, word);
        0
    }

    fn class(key: &usize, word: usize) -> Class {
        let (_key, _word) = (key, word);
        Class::Owned
    }

    fn law(key: &usize) {
        queue_is_a_structure(*key);
    }
}

impl Machine<Queue> for Enqueue {
    type End = Ended;

    ghost use Rattle.pq.specs.Queue.{enqueues};

    ghost calls = { enqueues };

    fn turn(&self, key: &usize) -> Option<Ended> {
        let _key = key;
        match self.stage {
            EnqueueStage::Done => Some(Ended::Enqueued),
            EnqueueStage::Torn => Some(Ended::Torn),
            _ => None,
        }
    }

    fn want(&self, key: &usize) -> Access<usize> {
        let _key = *key;
        enqueue_want(self)
    }

    fn got(&mut self, key: &usize, word: u64) {
        let _key = key;
        enqueue_got(self, word);
    }

    fn law(key: &usize) {
        enqueues_are_calls(*key);
    }
}

impl Machine<Queue> for Dequeue {
    type End = Ended;

    ghost use Rattle.pq.specs.Queue.{dequeues};

    ghost calls = { dequeues };

    fn turn(&self, key: &usize) -> Option<Ended> {
        let _key = key;
        match self.stage {
            DequeueStage::DoneEmpty => Some(Ended::Empty),
            DequeueStage::Done { value } => Some(Ended::Got { value }),
            DequeueStage::Torn => Some(Ended::Torn),
            _ => None,
        }
    }

    fn want(&self, key: &usize) -> Access<usize> {
        let _key = *key;
        dequeue_want(self)
    }

    fn got(&mut self, key: &usize, word: u64) {
        let _key = key;
        dequeue_got(self, word);
    }

    fn law(key: &usize) {
        dequeues_are_calls(*key);
    }
}

impl Machine<Queue> for Recover {
    type End = Ended;

    ghost use Rattle.pq.specs.Queue.{recoveries};

    ghost calls = { recoveries };

    fn turn(&self, key: &usize) -> Option<Ended> {
        let _key = key;
        match self.stage {
            RecoverStage::Done { found } => Some(Ended::Recovered { found }),
            RecoverStage::Torn => Some(Ended::Torn),
            _ => None,
        }
    }

    fn want(&self, key: &usize) -> Access<usize> {
        let _key = *key;
        recover_want(self)
    }

    fn got(&mut self, key: &usize, word: u64) {
        let _key = key;
        recover_got(self, word);
    }

    fn law(key: &usize) {
        recoveries_are_calls(*key);
    }
}
