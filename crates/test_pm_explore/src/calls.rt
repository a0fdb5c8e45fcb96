//! The steps of the calls on a queue, right or flawed.

ghost use Rattle.std.specs.Prelude.{◌≡◌, ◌<◌, IsTrue, MatchOption};
ghost use Rattle.pq.specs.Calls.{EnqueueFits, EnqueueGoes, DequeueFits, DequeueGoes, RecoverFits, RecoverGoes};
ghost use Rattle.pq.specs.declared.places.TheConstants.{MOST_NODES};
ghost use Rattle.test_pm_explore.specs.Steps.{LandsEnqueue, LandsDequeue, LandsRecover, MayBegin, NoStep, StepAsks, StepLands};

use crate::flaws::{Flaw, dequeue_stage, enqueue_stage, recover_stage};
use ds_words::access::Access;
use pm_explore::explored::Landed;
use pq::calls::{Doing, Response};
use pq::dequeue::{Dequeue, DequeueStage, dequeue_got, dequeue_want};
use pq::enqueue::{Enqueue, EnqueueStage, enqueue_got, enqueue_want};
use pq::places::MOST_NODES;
use pq::recover::{Found, Recover, RecoverStage, recover_got, recover_want};

// Whether the words of an enqueue have numbers that fit, and a step is left.
fn enqueue_steps(call: &Enqueue) -> bool
    ensures holds { IsTrue result → EnqueueFits call.now × EnqueueGoes call.now.stage }
    ensures only { EnqueueFits call.now → EnqueueGoes call.now.stage → IsTrue result }
{
    if call.process >= 16777216 || call.operation >= MOST_NODES {
        return false;
    }
    match call.stage {
        EnqueueStage::LoadNext { tail } => tail < MOST_NODES,
        EnqueueStage::SwapNext { tail } => tail < MOST_NODES,
        EnqueueStage::FlushNext { tail, next } => tail < MOST_NODES && next < MOST_NODES,
        EnqueueStage::BackNext { tail, next } => tail < MOST_NODES && next < MOST_NODES,
        EnqueueStage::StoreLinked { tail, next } => tail < MOST_NODES && next < MOST_NODES,
        EnqueueStage::FlushLinked { tail, next } => tail < MOST_NODES && next < MOST_NODES,
        EnqueueStage::BackLinked { tail, next } => tail < MOST_NODES && next < MOST_NODES,
        EnqueueStage::SwapTail { tail, next } => tail < MOST_NODES && next < MOST_NODES,
        EnqueueStage::Done => false,
        EnqueueStage::Torn => false,
        _ => true,
    }
}

// Whether three numbers fit.
fn fit(head: u64, next: u64, by: u64) -> bool
    ensures holds { IsTrue result → (head < MOST_NODES) × (next < MOST_NODES) × (by < MOST_NODES) }
    ensures only { (head < MOST_NODES) × (next < MOST_NODES) × (by < MOST_NODES) → IsTrue result }
{
    head < MOST_NODES && next < MOST_NODES && by < MOST_NODES
}

// Whether the words of a dequeue have numbers that fit, and a step is left.
fn dequeue_steps(call: &Dequeue) -> bool
    ensures holds { IsTrue result → DequeueFits call.now × DequeueGoes call.now.stage }
    ensures only { DequeueFits call.now → DequeueGoes call.now.stage → IsTrue result }
{
    if call.process >= 16777216 || call.operation >= MOST_NODES {
        return false;
    }
    match call.stage {
        DequeueStage::LoadNext { head } => head < MOST_NODES,
        DequeueStage::FlushNext { head, next } => head < MOST_NODES && next < MOST_NODES,
        DequeueStage::BackNext { head, next } => head < MOST_NODES && next < MOST_NODES,
        DequeueStage::SwapTaker { head, next } => head < MOST_NODES && next < MOST_NODES,
        DequeueStage::FlushTaker { head, next, by } => fit(head, next, by),
        DequeueStage::BackTaker { head, next, by } => fit(head, next, by),
        DequeueStage::StoreResult { head, next, by } => fit(head, next, by),
        DequeueStage::FlushResult { head, next, by } => fit(head, next, by),
        DequeueStage::BackResult { head, next, by } => fit(head, next, by),
        DequeueStage::SwapHead { head, next, by } => fit(head, next, by),
        DequeueStage::LoadValue { next } => next < MOST_NODES,
        DequeueStage::DoneEmpty => false,
        DequeueStage::Done { .. } => false,
        DequeueStage::Torn => false,
        _ => true,
    }
}

// Whether the words of a recovery have numbers that fit, and a step is left.
fn recover_steps(call: &Recover) -> bool
    ensures holds { IsTrue result → RecoverFits call.now × RecoverGoes call.now.stage }
    ensures only { RecoverFits call.now → RecoverGoes call.now.stage → IsTrue result }
{
    if call.process >= 16777216 || call.announced >= 33554432 {
        return false;
    }
    match call.stage {
        RecoverStage::FindNode { node } => node < MOST_NODES,
        RecoverStage::FlushNext { node } => node < MOST_NODES,
        RecoverStage::BackNext { node } => node < MOST_NODES,
        RecoverStage::FindNext { node } => node < MOST_NODES,
        RecoverStage::LoadTaker { node, next } => node < MOST_NODES && next < MOST_NODES,
        RecoverStage::FlushTaker { node, next } => node < MOST_NODES && next < MOST_NODES,
        RecoverStage::BackTaker { node, next } => node < MOST_NODES && next < MOST_NODES,
        RecoverStage::LoadValue { next } => next < MOST_NODES,
        RecoverStage::Done { .. } => false,
        RecoverStage::Torn => false,
        _ => true,
    }
}

/// Whether a process that does the one thing may begin the other.
pub fn may_begin(now: Doing, call: Doing) -> bool
    ensures { MayBegin now call → IsTrue result }
{
    match now {
        Doing::Idle(announced) => match call {
            Doing::Enqueueing(call) => announced / 2 < call.operation,
            Doing::Dequeueing(call) => announced / 2 < call.operation,
            _ => false,
        },
        Doing::Stopped => matches!(call, Doing::Recovering(_)),
        _ => false,
    }
}

/// The access of the next step of a process that does this.
pub fn want(now: Doing) -> Option<Access<usize>>
    ensures { MatchOption result (NoStep now) (StepAsks now) }
{
    match now {
        Doing::Enqueueing(call) => if enqueue_steps(&call) {
            Some(enqueue_want(&call))
        } else {
            None
        },
        Doing::Dequeueing(call) => if dequeue_steps(&call) {
            Some(dequeue_want(&call))
        } else {
            None
        },
        Doing::Recovering(call) => if recover_steps(&call) {
            Some(recover_want(&call))
        } else {
            None
        },
        _ => None,
    }
}

// What a process does after a step of an enqueue, and what it was answered.
fn landed_enqueue(call: Enqueue) -> Landed<Doing, Response>
    requires { call.operation < MOST_NODES }
    ensures { LandsEnqueue call result }
{
    match call.stage {
        EnqueueStage::Done => Landed {
            doing: Doing::Idle(2 * call.operation),
            says: Some(Response::Enqueued {
                operation: call.operation,
                value: call.value,
            }),
        },
        EnqueueStage::Torn => Landed {
            doing: Doing::Torn,
            says: None,
        },
        _ => Landed {
            doing: Doing::Enqueueing(call),
            says: None,
        },
    }
}

// What a process does after a step of a dequeue, and what it was answered.
fn landed_dequeue(call: Dequeue) -> Landed<Doing, Response>
    requires { call.operation < MOST_NODES }
    ensures { LandsDequeue call result }
{
    let operation = call.operation;
    match call.stage {
        DequeueStage::DoneEmpty => Landed {
            doing: Doing::Idle(2 * operation + 1),
            says: Some(Response::Empty { operation }),
        },
        DequeueStage::Done { value } => Landed {
            doing: Doing::Idle(2 * operation + 1),
            says: Some(Response::Got { operation, value }),
        },
        DequeueStage::Torn => Landed {
            doing: Doing::Torn,
            says: None,
        },
        _ => Landed {
            doing: Doing::Dequeueing(call),
            says: None,
        },
    }
}

// What a process does after a step of a recovery, and what it was answered.
fn landed_recover(call: Recover) -> Landed<Doing, Response>
    ensures { LandsRecover call result }
{
    let operation = call.announced / 2;
    let says = match call.stage {
        RecoverStage::Done { found } => match found {
            Found::Nothing => None,
            Found::WasEnqueued => Some(Response::WasEnqueued { operation }),
            Found::NotEnqueued => Some(Response::NotEnqueued { operation }),
            Found::Got { value } => Some(Response::Got { operation, value }),
            Found::Empty => Some(Response::Empty { operation }),
            Found::NotDequeued => Some(Response::NotDequeued { operation }),
        },
        _ => None,
    };
    let doing = match call.stage {
        RecoverStage::Done { .. } => Doing::Idle(call.announced),
        RecoverStage::Torn => Doing::Torn,
        _ => Doing::Recovering(call),
    };
    Landed { doing, says }
}

// A process that takes no step.
fn still(now: Doing) -> Landed<Doing, Response> {
    Landed {
        doing: now,
        says: None,
    }
}

/// Where a step leaves a process that does this, by the word that its access answered.
pub fn got(flaw: Flaw, now: Doing, word: u64) -> Landed<Doing, Response>
    ensures { StepLands flaw now word result }
{
    match now {
        Doing::Enqueueing(call) => {
            if !enqueue_steps(&call) {
                return still(now);
            }
            let mut next = call;
            enqueue_got(&mut next, word);
            next.stage = enqueue_stage(flaw, next.stage);
            landed_enqueue(next)
        }
        Doing::Dequeueing(call) => {
            if !dequeue_steps(&call) {
                return still(now);
            }
            let mut next = call;
            dequeue_got(&mut next, word);
            next.stage = dequeue_stage(flaw, next.stage);
            landed_dequeue(next)
        }
        Doing::Recovering(call) => {
            if !recover_steps(&call) {
                return still(now);
            }
            let mut next = call;
            recover_got(&mut next, word);
            next.stage = recover_stage(flaw, call.stage, next.stage);
            landed_recover(next)
        }
        _ => still(now),
    }
}
