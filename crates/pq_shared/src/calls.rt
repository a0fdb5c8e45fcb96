//! The calls on a queue that threads share.

ghost use Rattle.std.specs.Prelude.{◌≡◌, ◌*◌, ◌<◌, ℕ, [], MatchOption};
ghost use Rattle.pm_board.specs.Fuses.{Asked};
ghost use Rattle.pm_board.specs.Views.{RunsOne, Sits};
ghost use Rattle.pq.specs.Places.{Belongs, nodes};
ghost use Rattle.pq.specs.declared.calls.Doing.TheVariants.{Idle};
ghost use Rattle.pq_shared.specs.Endings.{BreaksDequeue, BreaksEnqueue, BreaksRecovery, IsDequeued, IsEnqueued, IsRecovered};

use pm_board::board::{Board, TableSeat};
use pm_board::drive::drive;
use pm_board::fuse::Fuse;
use pq::calls::{Doing, Ended, Response};
use pq::dequeue::Dequeue;
use pq::enqueue::Enqueue;
use pq::places::{self, OPERATIONS};
use pq::queue::Queue;
use pq::recover::Recover;

/// For how many operations at once the nodes are fetched: as many loads wait for memory together.
const FETCHED: u64 = 8;

/// An operation that a process may begin.
#[derive(Clone, Copy, Debug, PartialEq, Eq)]
pub struct Operation {
    /// The process.
    pub process: usize,
    /// The word that it announced last, or 0: below twice the number.
    pub last: u64,
    /// The number, as [`pq::places::operation`] makes it.
    pub number: u64,
}

/// What a recovery says.
#[derive(Clone, Copy, Debug, PartialEq, Eq)]
pub struct Recovery {
    /// The word that the process announced last, or 0: half of it is the operation.
    pub announced: u64,
    /// What came of that operation.
    pub ended: Ended,
}

// Loads the words of a node.
#[inline(always)]
fn fetch_node(board: &Board<Queue>, node: u64)
    requires { node < nodes board.now.key × (board.now.key < 16384) }
{
    board.fetch(places::next(node));
    board.fetch(places::taker(node));
    board.fetch(places::value(node));
    board.fetch(places::linked(node));
    board.fetch(places::result_of(node));
}

// Before each operation that begins a row of them, loads the nodes of that row: they lie in the cache when the operations
// come to them.
#[inline(always)]
fn fetch(board: &Board<Queue>, process: usize, operation: u64)
    requires low { (process < board.now.key) × (board.now.key < 16384) }
    requires mine { Belongs process operation }
{
    if operation % FETCHED == 1 {
        let last = places::operation(process, OPERATIONS - 1);
        for node in operation..=last.min(operation + (FETCHED - 1)) {
            fetch_node(board, node);
        }
    }
}

/// A process puts a value into the queue: how that ended, or None where the fuse broke it off; then it has not begun, or
/// was answered nothing. Among n processes it takes
/// at most 9 × (1,024 n + 1) + 15 steps. It ends as `Torn` only on words that are not those of a queue, which no run has.
pub fn enqueue<F: Fuse>(
    board: &Board<Queue>,
    place: &mut TableSeat<Doing, Response>,
    operation: Operation,
    value: u64,
    fuse: &mut F,
) -> Option<Ended>
    requires table { place.old.table_id ≡ board.now.table.shared.table_id }
    requires sits { Sits place.old.me operation.process (Idle operation.last) }
    requires low { (operation.process < board.now.key) × (board.now.key < 16384) }
    requires mine { Belongs operation.process operation.number }
    requires above { operation.last < 2 * operation.number }
    ensures table { place.new.table_id ≡ place.old.table_id }
    ensures runs { RunsOne place.new.me operation.process }
    ensures ends { MatchOption result ((n : ℕ) × Asked F.said fuse.old fuse.new n 1 × BreaksEnqueue place.old.me place.new.me board.now.key operation.process operation.number value n) (λ e. (n : ℕ) × Asked F.said fuse.old fuse.new n 0 × IsEnqueued place.old.me place.new.me board.now.key operation.process operation.number value e n) }
{
    fetch(board, operation.process, operation.number);
    let mut call = Enqueue::new(board.key, operation.process, operation.number, value);
    drive::<Queue, Enqueue, F>(board, place, &mut call, fuse)
}

/// A process takes a value from the queue: how that ended, or None where the fuse broke it off; then it has not begun, or
/// was answered nothing. Among n processes it takes
/// at most 12 × (1,024 n + 1) + 15 steps. It ends as `Torn` only on words that are not those of a queue, which no run has.
pub fn dequeue<F: Fuse>(
    board: &Board<Queue>,
    place: &mut TableSeat<Doing, Response>,
    operation: Operation,
    fuse: &mut F,
) -> Option<Ended>
    requires table { place.old.table_id ≡ board.now.table.shared.table_id }
    requires sits { Sits place.old.me operation.process (Idle operation.last) }
    requires low { (operation.process < board.now.key) × (board.now.key < 16384) }
    requires mine { Belongs operation.process operation.number }
    requires above { operation.last < 2 * operation.number }
    ensures table { place.new.table_id ≡ place.old.table_id }
    ensures runs { RunsOne place.new.me operation.process }
    ensures ends { MatchOption result ((n : ℕ) × Asked F.said fuse.old fuse.new n 1 × BreaksDequeue place.old.me place.new.me board.now.key operation.process operation.number n) (λ e. (n : ℕ) × Asked F.said fuse.old fuse.new n 0 × IsDequeued place.old.me place.new.me board.now.key operation.process operation.number e n) }
{
    fetch(board, operation.process, operation.number);
    let mut call = Dequeue::new(board.key, operation.process, operation.number);
    drive::<Queue, Dequeue, F>(board, place, &mut call, fuse)
}

/// A process that has stopped, or was broken off, recovers: which operation it announced last, and what came of it. None
/// where the fuse broke it off. Among n processes it takes at most 2 × (1,024 n + 1) + 12 steps. It ends as `Torn` only
/// on words that are not those of a queue, which no run has.
pub fn recover<F: Fuse>(
    board: &Board<Queue>,
    place: &mut TableSeat<Doing, Response>,
    process: usize,
    fuse: &mut F,
) -> Option<Recovery>
    requires table { place.old.table_id ≡ board.now.table.shared.table_id }
    requires runs { RunsOne place.old.me process }
    requires low { (process < board.now.key) × (board.now.key < 16384) }
    ensures table { place.new.table_id ≡ place.old.table_id }
    ensures runs { RunsOne place.new.me process }
    ensures ends { MatchOption result ((n : ℕ) × Asked F.said fuse.old fuse.new n 1 × BreaksRecovery place.old.me place.new.me board.now.key process n) (λ r. (n : ℕ) × Asked F.said fuse.old fuse.new n 0 × IsRecovered place.old.me place.new.me board.now.key process r n) }
{
    let mut call = Recover::new(board.key, process);
    match drive::<Queue, Recover, F>(board, place, &mut call, fuse) {
        Some(ended) => Some(Recovery {
            announced: call.announced,
            ended,
        }),
        None => None,
    }
}
