//! Wrong steps of a queue.

ghost use Rattle.std.specs.Prelude.{◌≡◌};
ghost use Rattle.test_pm_explore.specs.Steps.{flawed_enqueue, flawed_dequeue, flawed_recover};

use pq::dequeue::DequeueStage;
use pq::enqueue::EnqueueStage;
use pq::recover::{Found, RecoverStage};

/// What is wrong with a queue's steps.
#[derive(Clone, Copy, Debug, PartialEq, Eq)]
pub enum Flaw {
    /// Nothing.
    Nothing,
    /// An enqueue doesn't flush a link.
    LinkNotFlushed,
    /// An enqueue moves the tail before the link is persisted.
    TailBeforeLink,
    /// A dequeue moves the head past a node whose taker has no result.
    HeadBeforeResult,
    /// A recovery reads the evidence of an enqueue before it walks.
    EvidenceBeforeWalk,
    /// A recovery says of each enqueue that it did not take effect.
    Forgets,
}

/// The stage of an enqueue to which the flaw turns this one.
pub fn enqueue_stage(flaw: Flaw, stage: EnqueueStage) -> EnqueueStage
    ensures { result ≡ flawed_enqueue flaw stage }
{
    match stage {
        EnqueueStage::FlushNext { tail, next } => match flaw {
            Flaw::LinkNotFlushed => EnqueueStage::StoreLinked { tail, next },
            Flaw::TailBeforeLink => EnqueueStage::SwapTail { tail, next },
            _ => stage,
        },
        _ => stage,
    }
}

/// The stage of a dequeue to which the flaw turns this one.
pub fn dequeue_stage(flaw: Flaw, stage: DequeueStage) -> DequeueStage
    ensures { result ≡ flawed_dequeue flaw stage }
{
    match stage {
        DequeueStage::StoreResult { head, next, by } => match flaw {
            Flaw::HeadBeforeResult => DequeueStage::SwapHead { head, next, by },
            _ => stage,
        },
        _ => stage,
    }
}

// No enqueue took effect.
const NOT_ENQUEUED: RecoverStage = RecoverStage::Done {
    found: Found::NotEnqueued,
};

/// The stage of a recovery to which the flaw turns this one, which comes after another.
pub fn recover_stage(flaw: Flaw, before: RecoverStage, stage: RecoverStage) -> RecoverStage
    ensures { result ≡ flawed_recover flaw before stage }
{
    match flaw {
        Flaw::Forgets => match stage {
            RecoverStage::LoadTail => NOT_ENQUEUED,
            _ => stage,
        },
        Flaw::EvidenceBeforeWalk => match before {
            RecoverStage::BackAnnounce => match stage {
                RecoverStage::LoadTail => RecoverStage::LoadLinked,
                _ => stage,
            },
            RecoverStage::LoadLinked => match stage {
                RecoverStage::Done {
                    found: Found::NotEnqueued,
                } => RecoverStage::LoadTail,
                _ => stage,
            },
            RecoverStage::FindNode { .. } => match stage {
                RecoverStage::LoadLinked => NOT_ENQUEUED,
                _ => stage,
            },
            _ => stage,
        },
        _ => stage,
    }
}
