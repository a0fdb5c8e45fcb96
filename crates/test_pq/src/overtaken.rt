//! Calls that overtake each other.

use crate::schedule::{drive, new_words};
use pq::calls::Ended;
use pq::dequeue::Dequeue;
use pq::enqueue::Enqueue;
use std::test::Fail;

// Process 0 enqueues 7 and process 1 enqueues 8, each broken off once by the other: the one that linked its node first
// comes out first.
#[test]
fn two_enqueues(rt: HostRuntime) -> Result<(), Fail> {
    for first in 0..16 {
        for second in 0..16 {
            let mut words = new_words(rt.alloc())?;
            let mut seven = Enqueue::new(2, 0, 1, 7);
            let mut eight = Enqueue::new(2, 1, 1025, 8);
            drive(&mut words, 0, &mut seven, first);
            drive(&mut words, 1, &mut eight, second);
            drive(&mut words, 0, &mut seven, 40);
            drive(&mut words, 1, &mut eight, 40);
            let order = if first >= 9 || second < 9 {
                (7, 8)
            } else {
                (8, 7)
            };
            let taken = drive(&mut words, 0, &mut Dequeue::new(2, 0, 2), 40);
            assert_eq!(rt; taken, Some(Ended::Got { value: order.0 }));
            let taken = drive(&mut words, 1, &mut Dequeue::new(2, 1, 1026), 40);
            assert_eq!(rt; taken, Some(Ended::Got { value: order.1 }));
        }
    }
    Ok(())
}
