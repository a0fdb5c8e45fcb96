//! The dequeue: it announces itself, persists the link to the node after the head, claims that node by one swap, and
//! moves the head once the claim and its result are persisted.

ghost use Rattle.std.specs.Prelude.{◌≡◌, ◌<◌};
ghost use Rattle.pq.specs.Calls.{dequeue_access, dequeue_next, dequeue_rank, dequeue_stage, dequeue_turns, seen_next, seen_taker, seen_head, passed_head, first_dequeue, DequeueFits, DequeueGoes};

use crate::places;
use ds_words::access::Access;

/// Where a dequeue is: what its next step does. `head` is the node that the head named, `next` the one after it, `by`
/// the operation that took that one.
#[derive(Clone, Copy, Debug, PartialEq, Eq)]
pub enum DequeueStage {
    /// Announces the operation.
    StoreAnnounce,
    /// Flushes the announcement.
    FlushAnnounce,
    /// Writes the announcement back.
    BackAnnounce,
    /// Loads the head.
    LoadHead,
    /// Loads which node follows the head: where none does, the queue is empty at this moment.
    LoadNext { head: u64 },
    /// Stores that the queue was empty as the operation's result.
    StoreEmpty,
    /// Flushes that result.
    FlushEmpty,
    /// Writes that result back.
    BackEmpty,
    /// Flushes the link to `next`.
    FlushNext { head: u64, next: u64 },
    /// Writes the link back.
    BackNext { head: u64, next: u64 },
    /// Claims `next`, where no operation did: the linearization point.
    SwapTaker { head: u64, next: u64 },
    /// Flushes the claim.
    FlushTaker { head: u64, next: u64, by: u64 },
    /// Writes the claim back.
    BackTaker { head: u64, next: u64, by: u64 },
    /// Stores `next` as the result of the operation that took it.
    StoreResult { head: u64, next: u64, by: u64 },
    /// Flushes the result.
    FlushResult { head: u64, next: u64, by: u64 },
    /// Writes the result back.
    BackResult { head: u64, next: u64, by: u64 },
    /// Moves the head to `next`, unless another process did.
    SwapHead { head: u64, next: u64, by: u64 },
    /// Loads the value of the node that the operation took.
    LoadValue { next: u64 },
    /// The queue was empty at a moment of the call.
    DoneEmpty,
    /// The value is out of the queue, and no crash brings it back.
    Done { value: u64 },
    /// A word was not one of a queue, or no turn was left.
    Torn,
}

/// A dequeue of a process.
#[derive(Clone, Copy, Debug, PartialEq, Eq)]
pub struct Dequeue {
    /// The process.
    pub process: usize,
    /// The operation, as [`places::operation`] numbers it.
    pub operation: u64,
    /// How often it may still move the head for others.
    pub turns: u64,
    /// What its next step does.
    pub stage: DequeueStage,
}

impl Dequeue {
    /// A dequeue that may begin, among this many processes.
    pub fn new(processes: usize, process: usize, operation: u64) -> Dequeue
        requires { processes < 16384 }
        ensures { result ≡ first_dequeue processes process operation }
    {
        Dequeue {
            process,
            operation,
            turns: (places::OPERATIONS * processes + 1) as u64,
            stage: DequeueStage::StoreAnnounce,
        }
    }
}

/// The access of a dequeue's next step.
pub fn dequeue_want(call: &Dequeue) -> Access<usize>
    requires { DequeueFits call.now }
    ensures { result ≡ dequeue_access call.now }
{
    let announce = places::announce(call.process);
    let own = places::result_of(call.operation);
    match call.stage {
        DequeueStage::StoreAnnounce => Access::Store(announce, 2 * call.operation + 1),
        DequeueStage::FlushAnnounce => Access::Flush(announce),
        DequeueStage::BackAnnounce => Access::Back,
        DequeueStage::LoadHead => Access::Load(places::HEAD),
        DequeueStage::LoadNext { head } => Access::Load(places::next(head)),
        DequeueStage::StoreEmpty => Access::Store(own, places::EMPTY),
        DequeueStage::FlushEmpty => Access::Flush(own),
        DequeueStage::BackEmpty => Access::Back,
        DequeueStage::FlushNext { head, .. } => Access::Flush(places::next(head)),
        DequeueStage::BackNext { .. } => Access::Back,
        DequeueStage::SwapTaker { next, .. } => places::swap_if(
            places::taker(next),
            0,
            call.operation,
        ),
        DequeueStage::FlushTaker { next, .. } => Access::Flush(places::taker(next)),
        DequeueStage::BackTaker { .. } => Access::Back,
        DequeueStage::StoreResult { next, by, .. } => Access::Store(places::result_of(by), next),
        DequeueStage::FlushResult { by, .. } => Access::Flush(places::result_of(by)),
        DequeueStage::BackResult { .. } => Access::Back,
        DequeueStage::SwapHead { head, next, .. } => places::swap_if(places::HEAD, head, next),
        DequeueStage::LoadValue { next } => Access::Load(places::value(next)),
        DequeueStage::DoneEmpty => Access::Nothing,
        DequeueStage::Done { .. } => Access::Nothing,
        DequeueStage::Torn => Access::Nothing,
    }
}

// A node follows the head, or none does.
fn seen(head: u64, next: u64) -> DequeueStage
    ensures { result ≡ seen_next head next }
{
    if next == 0 {
        DequeueStage::StoreEmpty
    } else if next < places::MOST_NODES {
        DequeueStage::FlushNext { head, next }
    } else {
        DequeueStage::Torn
    }
}

// The head is loaded.
fn entered(word: u64) -> DequeueStage
    ensures { result ≡ seen_head word }
{
    if word < places::MOST_NODES {
        DequeueStage::LoadNext { head: word }
    } else {
        DequeueStage::Torn
    }
}

// The node is claimed: by this operation, where the word was 0.
fn claimed(operation: u64, head: u64, next: u64, word: u64) -> DequeueStage
    ensures { result ≡ seen_taker operation head next word }
{
    let by = if word == 0 { operation } else { word };
    if word < places::MOST_NODES {
        DequeueStage::FlushTaker { head, next, by }
    } else {
        DequeueStage::Torn
    }
}

// The claim is persisted, with its result: it is its own, or another's.
fn passed(operation: u64, turns: u64, next: u64, by: u64) -> DequeueStage
    ensures { result ≡ passed_head operation turns next by }
{
    if by == operation {
        DequeueStage::LoadValue { next }
    } else if turns == 0 {
        DequeueStage::Torn
    } else {
        DequeueStage::LoadHead
    }
}

// The next stage, by the word that the access answered.
fn after(call: &Dequeue, word: u64) -> DequeueStage
    ensures { result ≡ dequeue_stage call.now.operation call.now.turns call.now.stage word }
{
    let own = call.operation;
    match call.stage {
        DequeueStage::StoreAnnounce => DequeueStage::FlushAnnounce,
        DequeueStage::FlushAnnounce => DequeueStage::BackAnnounce,
        DequeueStage::BackAnnounce => DequeueStage::LoadHead,
        DequeueStage::LoadHead => entered(word),
        DequeueStage::LoadNext { head } => seen(head, word),
        DequeueStage::StoreEmpty => DequeueStage::FlushEmpty,
        DequeueStage::FlushEmpty => DequeueStage::BackEmpty,
        DequeueStage::BackEmpty => DequeueStage::DoneEmpty,
        DequeueStage::FlushNext { head, next } => DequeueStage::BackNext { head, next },
        DequeueStage::BackNext { head, next } => DequeueStage::SwapTaker { head, next },
        DequeueStage::SwapTaker { head, next } => claimed(own, head, next, word),
        DequeueStage::FlushTaker { head, next, by } => DequeueStage::BackTaker { head, next, by },
        DequeueStage::BackTaker { head, next, by } => DequeueStage::StoreResult { head, next, by },
        DequeueStage::StoreResult { head, next, by } => DequeueStage::FlushResult {
            head,
            next,
            by,
        },
        DequeueStage::FlushResult { head, next, by } => DequeueStage::BackResult { head, next, by },
        DequeueStage::BackResult { head, next, by } => DequeueStage::SwapHead { head, next, by },
        DequeueStage::SwapHead { next, by, .. } => passed(own, call.turns, next, by),
        DequeueStage::LoadValue { .. } => DequeueStage::Done { value: word },
        DequeueStage::DoneEmpty => DequeueStage::DoneEmpty,
        DequeueStage::Done { value } => DequeueStage::Done { value },
        DequeueStage::Torn => DequeueStage::Torn,
    }
}

// How many turns are left: a moved head ends one.
fn turns_left(call: &Dequeue) -> u64
    ensures { result ≡ dequeue_turns call.now.stage call.now.turns }
{
    match call.stage {
        DequeueStage::SwapHead { .. } => if call.turns == 0 { 0 } else { call.turns - 1 },
        _ => call.turns,
    }
}

/// Goes on with the word that its access answered.
pub fn dequeue_got(call: &mut Dequeue, word: u64)
    requires { DequeueGoes call.old.stage }
    ensures next { call.new ≡ dequeue_next call.old word }
    ensures fewer { dequeue_rank call.new < dequeue_rank call.old }
    ensures fits { DequeueFits call.old → DequeueFits call.new }
{
    let stage = after(call, word);
    let turns = turns_left(call);
    call.stage = stage;
    call.turns = turns;
}
