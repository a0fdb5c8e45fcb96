//! The queue of pq, gone through in full.

use crate::judge::QueueJudge;
use crate::queues::RightQueue;
use crate::settings::{Call, setting};
use pm_explore::judge::first_wrong;
use pm_explore::search::{Ending, explore};
use std::test::Fail;

// Two processes enqueue, with evictions, stops, crashes and recoveries, as many as they like.
#[test]
fn two_enqueues(rt: HostRuntime) -> Result<(), Fail> {
    let alloc = rt.alloc();
    let first = [Call::Enqueue(7)];
    let second = [Call::Enqueue(8)];
    let setting = setting(alloc, 0, &first, &second)?;
    let found = explore::<RightQueue>(alloc, &setting, 100000)?;
    assert_eq!(rt; found.ending, Ending::Ended);
    assert_eq!(rt; found.table.positions.len(), 63988);
    assert_eq!(rt; found.transitions, 348378);
    let wrong = first_wrong::<RightQueue, QueueJudge>(&QueueJudge, &setting, &found.table);
    assert_eq!(rt; wrong, None);
    Ok(())
}

// One process enqueues and the other dequeues, with all that beside.
#[test]
fn an_enqueue_and_a_dequeue(rt: HostRuntime) -> Result<(), Fail> {
    let alloc = rt.alloc();
    let first = [Call::Enqueue(7)];
    let second = [Call::Dequeue];
    let setting = setting(alloc, 0, &first, &second)?;
    let found = explore::<RightQueue>(alloc, &setting, 100000)?;
    assert_eq!(rt; found.ending, Ending::Ended);
    assert_eq!(rt; found.table.positions.len(), 33239);
    assert_eq!(rt; found.transitions, 183502);
    let wrong = first_wrong::<RightQueue, QueueJudge>(&QueueJudge, &setting, &found.table);
    assert_eq!(rt; wrong, None);
    Ok(())
}
