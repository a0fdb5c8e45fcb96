//! Recovery: it reads which operation its process announced last, and tells whether that took effect. An enqueue whose
//! node is not found between the tail and the end of the queue, nor marked as linked, never took effect; a dequeue whose
//! name stands on no node between the head and the end, and that has no result, took nothing.

ghost use Rattle.std.specs.Prelude.{◌≡◌, ◌<◌};
ghost use Rattle.pq.specs.Calls.{recover_access, recover_next, recover_rank, recover_stage, recover_turns, recover_announced, by_kind, found_next, found_claim, found_taker, found_result, found_tail, found_head, found_linked, found_announced, first_recovery, RecoverFits, RecoverGoes};

use crate::places;
use ds_words::access::Access;

/// What a recovery found.
#[derive(Clone, Copy, Debug, PartialEq, Eq)]
pub enum Found {
    /// The process announced nothing.
    Nothing,
    /// Its enqueue took effect.
    WasEnqueued,
    /// Its enqueue did not, and never will.
    NotEnqueued,
    /// Its dequeue took this value.
    Got { value: u64 },
    /// Its dequeue found the queue empty.
    Empty,
    /// Its dequeue took nothing, and never will.
    NotDequeued,
}

/// Where a recovery is: what its next step does. `node` is the node that the walk has come to, `next` the one after it.
#[derive(Clone, Copy, Debug, PartialEq, Eq)]
pub enum RecoverStage {
    /// Loads what the process announced last.
    LoadAnnounce,
    /// Flushes the announcement, which a stop may have left in the cache alone.
    FlushAnnounce,
    /// Writes the announcement back.
    BackAnnounce,
    /// Of an enqueue: loads the tail.
    LoadTail,
    /// Loads which node follows the one that the walk has come to.
    FindNode { node: u64 },
    /// Flushes the link to the operation's node.
    FlushNext { node: u64 },
    /// Writes the link back.
    BackNext { node: u64 },
    /// Loads the evidence that the operation's node is linked.
    LoadLinked,
    /// Of a dequeue: loads the head.
    LoadHead,
    /// Loads which node follows the one that the walk has come to.
    FindNext { node: u64 },
    /// Loads which operation took `next`.
    LoadTaker { node: u64, next: u64 },
    /// Flushes the operation's claim on `next`.
    FlushTaker { node: u64, next: u64 },
    /// Writes the claim back.
    BackTaker { node: u64, next: u64 },
    /// Loads the operation's result.
    LoadResult,
    /// Flushes the result that the queue was empty.
    FlushEmpty,
    /// Writes that result back.
    BackEmpty,
    /// Loads the value of the node that the operation took.
    LoadValue { next: u64 },
    /// It knows what came of the operation.
    Done { found: Found },
    /// A word was not one of a queue, or no turn was left.
    Torn,
}

/// A recovery of a process.
#[derive(Clone, Copy, Debug, PartialEq, Eq)]
pub struct Recover {
    /// The process.
    pub process: usize,
    /// The word that the process announced last, once that is loaded.
    pub announced: u64,
    /// How many nodes it may still walk over.
    pub turns: u64,
    /// What its next step does.
    pub stage: RecoverStage,
}

impl Recover {
    /// A recovery that may begin, among this many processes.
    pub fn new(processes: usize, process: usize) -> Recover
        requires { processes < 16384 }
        ensures { result ≡ first_recovery processes process }
    {
        Recover {
            process,
            announced: 0,
            turns: (places::OPERATIONS * processes + 1) as u64,
            stage: RecoverStage::LoadAnnounce,
        }
    }
}

/// The access of a recovery's next step.
pub fn recover_want(call: &Recover) -> Access<usize>
    requires { RecoverFits call.now }
    ensures { result ≡ recover_access call.now }
{
    let announce = places::announce(call.process);
    let operation = call.announced / 2;
    match call.stage {
        RecoverStage::LoadAnnounce => Access::Load(announce),
        RecoverStage::FlushAnnounce => Access::Flush(announce),
        RecoverStage::BackAnnounce => Access::Back,
        RecoverStage::LoadTail => Access::Load(places::TAIL),
        RecoverStage::FindNode { node } => Access::Load(places::next(node)),
        RecoverStage::FlushNext { node } => Access::Flush(places::next(node)),
        RecoverStage::BackNext { .. } => Access::Back,
        RecoverStage::LoadLinked => Access::Load(places::linked(operation)),
        RecoverStage::LoadHead => Access::Load(places::HEAD),
        RecoverStage::FindNext { node } => Access::Load(places::next(node)),
        RecoverStage::LoadTaker { next, .. } => Access::Load(places::taker(next)),
        RecoverStage::FlushTaker { next, .. } => Access::Flush(places::taker(next)),
        RecoverStage::BackTaker { .. } => Access::Back,
        RecoverStage::LoadResult => Access::Load(places::result_of(operation)),
        RecoverStage::FlushEmpty => Access::Flush(places::result_of(operation)),
        RecoverStage::BackEmpty => Access::Back,
        RecoverStage::LoadValue { next } => Access::Load(places::value(next)),
        RecoverStage::Done { .. } => Access::Nothing,
        RecoverStage::Torn => Access::Nothing,
    }
}

// What was announced decides where to look.
fn kind(announced: u64) -> RecoverStage
    ensures { result ≡ by_kind announced }
{
    if announced == 0 {
        RecoverStage::Done {
            found: Found::Nothing,
        }
    } else if announced % 2 == 0 {
        RecoverStage::LoadTail
    } else {
        RecoverStage::LoadHead
    }
}

// The walk for a node meets it, or the end, or another node.
fn node_met(operation: u64, turns: u64, node: u64, word: u64) -> RecoverStage
    ensures { result ≡ found_next operation turns node word }
{
    if word == 0 {
        RecoverStage::LoadLinked
    } else if word == operation {
        RecoverStage::FlushNext { node }
    } else if turns == 0 {
        RecoverStage::Torn
    } else if word < places::MOST_NODES {
        RecoverStage::FindNode { node: word }
    } else {
        RecoverStage::Torn
    }
}

// The walk for a claim meets the end, or a node.
fn next_met(node: u64, word: u64) -> RecoverStage
    ensures { result ≡ found_claim node word }
{
    if word == 0 {
        RecoverStage::LoadResult
    } else if word < places::MOST_NODES {
        RecoverStage::LoadTaker { node, next: word }
    } else {
        RecoverStage::Torn
    }
}

// The node is taken by the operation, by none, or by another.
fn taker_met(operation: u64, turns: u64, node: u64, next: u64, word: u64) -> RecoverStage
    ensures { result ≡ found_taker operation turns node next word }
{
    if word == 0 {
        RecoverStage::LoadResult
    } else if word == operation {
        RecoverStage::FlushTaker { node, next }
    } else if turns == 0 {
        RecoverStage::Torn
    } else {
        RecoverStage::FindNext { node: next }
    }
}

// What the result says.
fn result_met(word: u64) -> RecoverStage
    ensures { result ≡ found_result word }
{
    if word == 0 {
        RecoverStage::Done {
            found: Found::NotDequeued,
        }
    } else if word == places::EMPTY {
        RecoverStage::FlushEmpty
    } else if word < places::MOST_NODES {
        RecoverStage::LoadValue { next: word }
    } else {
        RecoverStage::Torn
    }
}

// The tail is loaded.
fn tail_met(word: u64) -> RecoverStage
    ensures { result ≡ found_tail word }
{
    if word < places::MOST_NODES {
        RecoverStage::FindNode { node: word }
    } else {
        RecoverStage::Torn
    }
}

// The head is loaded.
fn head_met(word: u64) -> RecoverStage
    ensures { result ≡ found_head word }
{
    if word < places::MOST_NODES {
        RecoverStage::FindNext { node: word }
    } else {
        RecoverStage::Torn
    }
}

// The evidence of an enqueue is loaded.
fn linked_met(word: u64) -> RecoverStage
    ensures { result ≡ found_linked word }
{
    let found = if word == 0 {
        Found::NotEnqueued
    } else {
        Found::WasEnqueued
    };
    RecoverStage::Done { found }
}

// The announcement is loaded.
fn announced_met(word: u64) -> RecoverStage
    ensures { result ≡ found_announced word }
{
    if word < 2 * places::MOST_NODES {
        RecoverStage::FlushAnnounce
    } else {
        RecoverStage::Torn
    }
}

// The next stage, by the word that the access answered.
fn after(call: &Recover, word: u64) -> RecoverStage
    ensures { result ≡ recover_stage call.now.announced call.now.turns call.now.stage word }
{
    let own = call.announced / 2;
    match call.stage {
        RecoverStage::LoadAnnounce => announced_met(word),
        RecoverStage::FlushAnnounce => RecoverStage::BackAnnounce,
        RecoverStage::BackAnnounce => kind(call.announced),
        RecoverStage::LoadTail => tail_met(word),
        RecoverStage::FindNode { node } => node_met(own, call.turns, node, word),
        RecoverStage::FlushNext { node } => RecoverStage::BackNext { node },
        RecoverStage::BackNext { .. } => RecoverStage::Done {
            found: Found::WasEnqueued,
        },
        RecoverStage::LoadLinked => linked_met(word),
        RecoverStage::LoadHead => head_met(word),
        RecoverStage::FindNext { node } => next_met(node, word),
        RecoverStage::LoadTaker { node, next } => taker_met(own, call.turns, node, next, word),
        RecoverStage::FlushTaker { node, next } => RecoverStage::BackTaker { node, next },
        RecoverStage::BackTaker { next, .. } => RecoverStage::LoadValue { next },
        RecoverStage::LoadResult => result_met(word),
        RecoverStage::FlushEmpty => RecoverStage::BackEmpty,
        RecoverStage::BackEmpty => RecoverStage::Done {
            found: Found::Empty,
        },
        RecoverStage::LoadValue { .. } => RecoverStage::Done {
            found: Found::Got { value: word },
        },
        RecoverStage::Done { found } => RecoverStage::Done { found },
        RecoverStage::Torn => RecoverStage::Torn,
    }
}

// How many turns are left: a load of a node's link or taker ends one.
fn turns_left(call: &Recover) -> u64
    ensures { result ≡ recover_turns call.now.stage call.now.turns }
{
    match call.stage {
        RecoverStage::FindNode { .. } => if call.turns == 0 { 0 } else { call.turns - 1 },
        RecoverStage::LoadTaker { .. } => if call.turns == 0 { 0 } else { call.turns - 1 },
        _ => call.turns,
    }
}

// What was announced, once it is loaded.
fn announced_then(call: &Recover, word: u64) -> u64
    ensures { result ≡ recover_announced call.now.stage call.now.announced word }
{
    match call.stage {
        RecoverStage::LoadAnnounce => if word < 2 * places::MOST_NODES {
            word
        } else {
            call.announced
        },
        _ => call.announced,
    }
}

/// Goes on with the word that its access answered.
pub fn recover_got(call: &mut Recover, word: u64)
    requires { RecoverGoes call.old.stage }
    ensures next { call.new ≡ recover_next call.old word }
    ensures fewer { recover_rank call.new < recover_rank call.old }
    ensures fits { RecoverFits call.old → RecoverFits call.new }
{
    let stage = after(call, word);
    let turns = turns_left(call);
    let announced = announced_then(call, word);
    call.stage = stage;
    call.turns = turns;
    call.announced = announced;
}
