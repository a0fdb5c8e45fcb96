//! Queues with a flaw, which a search finds.

use crate::flaws::Flaw;
use crate::judge::{QueueJudge, is_right};
use crate::queues::FlawedQueue;
use crate::settings::{Call, setting};
use pm_explore::happen::Came;
use pm_explore::judge::first_wrong;
use pm_explore::schedule::{replay, way_to};
use pm_explore::search::explore;
use pm_explore::setting::Move;
use std::alloc::{AllocError, Global};
use std::test::Fail;

// The shortest schedule on which a queue with a flaw goes wrong: its length, the last thing of it, and whether its replay
// comes to a position that is wrong. None where none goes wrong within the limit.
fn caught(
    alloc: Global,
    flaw: Flaw,
    first: &[Call],
    second: &[Call],
) -> Result<Option<(usize, Option<Move>, bool)>, AllocError> {
    let mut setting = setting(alloc, flaw, first, second)?;
    setting.stops = false;
    setting.evicts = flaw == Flaw::EvidenceBeforeWalk || flaw == Flaw::HeadBeforeResult;
    let found = explore::<FlawedQueue>(alloc, &setting, 40000)?;
    let wrong = first_wrong::<FlawedQueue, QueueJudge>(&QueueJudge, &setting, &found.table);
    let Some(number) = wrong else {
        return Ok(None);
    };
    let way = way_to(alloc, &found.table, number)?;
    let came = replay::<FlawedQueue>(alloc, &setting, &way)?;
    let leads = match came {
        Came::To(x) => !is_right(&setting.window, &x),
        _ => false,
    };
    Ok(Some((way.len(), way.last().copied(), leads)))
}

// Two processes enqueue.
const ENQUEUES: ([Call; 1], [Call; 1]) = ([Call::Enqueue(7)], [Call::Enqueue(8)]);

#[test]
fn a_link_that_is_not_flushed(rt: HostRuntime) -> Result<(), Fail> {
    let found = caught(rt.alloc(), Flaw::LinkNotFlushed, &ENQUEUES.0, &ENQUEUES.1)?;
    assert_eq!(rt; found, Some((14, Some(Move::Step(0)), true)));
    Ok(())
}

#[test]
fn a_tail_before_the_link(rt: HostRuntime) -> Result<(), Fail> {
    let found = caught(rt.alloc(), Flaw::TailBeforeLink, &ENQUEUES.0, &ENQUEUES.1)?;
    assert_eq!(rt; found, Some((11, Some(Move::Step(0)), true)));
    Ok(())
}

#[test]
fn a_head_before_the_result(rt: HostRuntime) -> Result<(), Fail> {
    let seven = [Call::Enqueue(7)];
    let take = [Call::Dequeue];
    let found = caught(rt.alloc(), Flaw::HeadBeforeResult, &seven, &take)?;
    assert_eq!(rt; found, Some((31, Some(Move::Step(1)), true)));
    Ok(())
}

#[test]
fn evidence_before_the_walk(rt: HostRuntime) -> Result<(), Fail> {
    let found = caught(
        rt.alloc(),
        Flaw::EvidenceBeforeWalk,
        &ENQUEUES.0,
        &ENQUEUES.1,
    )?;
    assert_eq!(rt; found, Some((38, Some(Move::Step(0)), true)));
    Ok(())
}

#[test]
fn a_recovery_that_forgets(rt: HostRuntime) -> Result<(), Fail> {
    let found = caught(rt.alloc(), Flaw::Forgets, &ENQUEUES.0, &ENQUEUES.1)?;
    assert_eq!(rt; found, Some((17, Some(Move::Step(0)), true)));
    Ok(())
}
