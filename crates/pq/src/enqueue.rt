//! The enqueue: it persists its value, announces itself, links its node to the last one by one swap, and moves the
//! tail once the link and the evidence of it are persisted.

ghost use Rattle.std.specs.Prelude.{◌≡◌, ◌<◌};
ghost use Rattle.pq.specs.Calls.{enqueue_access, enqueue_next, enqueue_rank, enqueue_stage, enqueue_turns, help_enqueue, seen_tail, passed_tail, first_enqueue, EnqueueFits, EnqueueGoes};

use crate::places;
use ds_words::access::Access;

/// Where an enqueue is: what its next step does. `tail` is the node that the tail named, `next` the one after it.
#[derive(Clone, Copy, Debug, PartialEq, Eq)]
pub enum EnqueueStage {
    /// Stores the value in the operation's own node.
    StoreValue,
    /// Flushes the value.
    FlushValue,
    /// Writes the value back.
    BackValue,
    /// Announces the operation.
    StoreAnnounce,
    /// Flushes the announcement.
    FlushAnnounce,
    /// Writes the announcement back.
    BackAnnounce,
    /// Loads the tail.
    LoadTail,
    /// Loads which node follows the tail.
    LoadNext { tail: u64 },
    /// Links its own node there, where none stands yet: the linearization point.
    SwapNext { tail: u64 },
    /// Flushes the link.
    FlushNext { tail: u64, next: u64 },
    /// Writes the link back.
    BackNext { tail: u64, next: u64 },
    /// Stores the evidence that `next` is linked.
    StoreLinked { tail: u64, next: u64 },
    /// Flushes the evidence.
    FlushLinked { tail: u64, next: u64 },
    /// Writes the evidence back.
    BackLinked { tail: u64, next: u64 },
    /// Moves the tail to `next`, unless another process did.
    SwapTail { tail: u64, next: u64 },
    /// The value is in the queue, and no crash takes it back.
    Done,
    /// A word was not one of a queue, or no turn was left.
    Torn,
}

/// An enqueue of a process.
#[derive(Clone, Copy, Debug, PartialEq, Eq)]
pub struct Enqueue {
    /// The process.
    pub process: usize,
    /// The operation, as [`places::operation`] numbers it.
    pub operation: u64,
    /// The value.
    pub value: u64,
    /// How often it may still move the tail for others.
    pub turns: u64,
    /// What its next step does.
    pub stage: EnqueueStage,
}

impl Enqueue {
    /// An enqueue that may begin, among this many processes.
    pub fn new(processes: usize, process: usize, operation: u64, value: u64) -> Enqueue
        requires { processes < 16384 }
        ensures { result ≡ first_enqueue processes process operation value }
    {
        Enqueue {
            process,
            operation,
            value,
            turns: (places::OPERATIONS * processes + 1) as u64,
            stage: EnqueueStage::StoreValue,
        }
    }
}

/// The access of an enqueue's next step.
pub fn enqueue_want(call: &Enqueue) -> Access<usize>
    requires { EnqueueFits call.now }
    ensures { result ≡ enqueue_access call.now }
{
    let announce = places::announce(call.process);
    let value = places::value(call.operation);
    match call.stage {
        EnqueueStage::StoreValue => Access::Store(value, call.value),
        EnqueueStage::FlushValue => Access::Flush(value),
        EnqueueStage::BackValue => Access::Back,
        EnqueueStage::StoreAnnounce => Access::Store(announce, 2 * call.operation),
        EnqueueStage::FlushAnnounce => Access::Flush(announce),
        EnqueueStage::BackAnnounce => Access::Back,
        EnqueueStage::LoadTail => Access::Load(places::TAIL),
        EnqueueStage::LoadNext { tail } => Access::Load(places::next(tail)),
        EnqueueStage::SwapNext { tail } => places::swap_if(places::next(tail), 0, call.operation),
        EnqueueStage::FlushNext { tail, .. } => Access::Flush(places::next(tail)),
        EnqueueStage::BackNext { .. } => Access::Back,
        EnqueueStage::StoreLinked { next, .. } => Access::Store(places::linked(next), 1),
        EnqueueStage::FlushLinked { next, .. } => Access::Flush(places::linked(next)),
        EnqueueStage::BackLinked { .. } => Access::Back,
        EnqueueStage::SwapTail { tail, next } => places::swap_if(places::TAIL, tail, next),
        EnqueueStage::Done => Access::Nothing,
        EnqueueStage::Torn => Access::Nothing,
    }
}

// A node follows the tail: its link is persisted first.
fn help(tail: u64, next: u64) -> EnqueueStage
    ensures { result ≡ help_enqueue tail next }
{
    if next < places::MOST_NODES {
        EnqueueStage::FlushNext { tail, next }
    } else {
        EnqueueStage::Torn
    }
}

// The tail is loaded.
fn entered(word: u64) -> EnqueueStage
    ensures { result ≡ seen_tail word }
{
    if word < places::MOST_NODES {
        EnqueueStage::LoadNext { tail: word }
    } else {
        EnqueueStage::Torn
    }
}

// The node after the tail is persisted, with its evidence: it is its own, or another's.
fn passed(operation: u64, turns: u64, next: u64) -> EnqueueStage
    ensures { result ≡ passed_tail operation turns next }
{
    if next == operation {
        EnqueueStage::Done
    } else if turns == 0 {
        EnqueueStage::Torn
    } else {
        EnqueueStage::LoadTail
    }
}

// The next stage, by the word that the access answered.
fn after(call: &Enqueue, word: u64) -> EnqueueStage
    ensures { result ≡ enqueue_stage call.now.operation call.now.turns call.now.stage word }
{
    let own = call.operation;
    match call.stage {
        EnqueueStage::StoreValue => EnqueueStage::FlushValue,
        EnqueueStage::FlushValue => EnqueueStage::BackValue,
        EnqueueStage::BackValue => EnqueueStage::StoreAnnounce,
        EnqueueStage::StoreAnnounce => EnqueueStage::FlushAnnounce,
        EnqueueStage::FlushAnnounce => EnqueueStage::BackAnnounce,
        EnqueueStage::BackAnnounce => EnqueueStage::LoadTail,
        EnqueueStage::LoadTail => entered(word),
        EnqueueStage::LoadNext { tail } if word == 0 => EnqueueStage::SwapNext { tail },
        EnqueueStage::LoadNext { tail } => help(tail, word),
        EnqueueStage::SwapNext { tail } if word == 0 => EnqueueStage::FlushNext { tail, next: own },
        EnqueueStage::SwapNext { tail } => help(tail, word),
        EnqueueStage::FlushNext { tail, next } => EnqueueStage::BackNext { tail, next },
        EnqueueStage::BackNext { tail, next } => EnqueueStage::StoreLinked { tail, next },
        EnqueueStage::StoreLinked { tail, next } => EnqueueStage::FlushLinked { tail, next },
        EnqueueStage::FlushLinked { tail, next } => EnqueueStage::BackLinked { tail, next },
        EnqueueStage::BackLinked { tail, next } => EnqueueStage::SwapTail { tail, next },
        EnqueueStage::SwapTail { next, .. } => passed(own, call.turns, next),
        EnqueueStage::Done => EnqueueStage::Done,
        EnqueueStage::Torn => EnqueueStage::Torn,
    }
}

// How many turns are left: a moved tail ends one.
fn turns_left(call: &Enqueue) -> u64
    ensures { result ≡ enqueue_turns call.now.stage call.now.turns }
{
    match call.stage {
        EnqueueStage::SwapTail { .. } => if call.turns == 0 { 0 } else { call.turns - 1 },
        _ => call.turns,
    }
}

/// Goes on with the word that its access answered.
pub fn enqueue_got(call: &mut Enqueue, word: u64)
    requires { EnqueueGoes call.old.stage }
    ensures next { call.new ≡ enqueue_next call.old word }
    ensures fewer { enqueue_rank call.new < enqueue_rank call.old }
    ensures fits { EnqueueFits call.old → EnqueueFits call.new }
{
    let stage = after(call, word);
    let turns = turns_left(call);
    call.stage = stage;
    call.turns = turns;
}
