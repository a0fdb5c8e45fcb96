//! The calls of a pass on its queue.

ghost use Rattle.std.specs.Prelude.{◌≡◌, ◌<◌, ◌≤◌, ◌*◌, ◌/◌, ◌-◌, true, IfOk, IfErr};
ghost use Rattle.pq_seats.specs.Calls.{CanNotBegin, Dequeues, Enqueues, Recovers, goes_on, is_found, next_after};
ghost use Rattle.pq_seats.specs.Known.{IsOf};
ghost use Rattle.pq_seats.specs.Turns.{IsSame};

use crate::fault::Fault;
use crate::pass::Pass;
use pm_board::board::Board;
use pm_board::fuse::Steps;
use pq::calls::Ended;
use pq::places;
use pq::queue::Queue;
use pq_shared::calls::{self, Recovery};

// Whether the process goes on after an operation that ended so.
fn has_gone_on(how: Option<Ended>) -> bool
    ensures { result ≡ goes_on how }
{
    match how {
        Some(Ended::Enqueued) => true,
        Some(Ended::Got { .. }) => true,
        Some(Ended::Empty) => true,
        _ => false,
    }
}

/// The pass enqueues a value by its next operation, under a fuse of this number of steps: how that ended, or `None` where
/// the fuse broke it off. Errors: Stopped, Spent.
pub(crate) fn enqueue(
    board: &Board<Queue>,
    pass: &mut Pass,
    value: u64,
    steps: u64,
) -> Result<Option<Ended>, Fault>
    requires { IsOf board.now.table.shared.table_id board.now.key pass.old × (board.now.key < 16384) }
    ensures ok { IfOk result (λ how. Enqueues board.now.key value steps pass.old pass.new how) }
    ensures err { IfErr result (λ why. CanNotBegin pass.old why × (pass.new ≡ pass.old)) }
    ensures of { IsOf board.now.table.shared.table_id board.now.key pass.new }
    ensures same { IsSame pass.old pass.new }
{
    let operation = pass.operation()?;
    let mut fuse = Steps { left: steps };
    let how = calls::enqueue(board, &mut pass.place, operation, value, &mut fuse);
    if has_gone_on(how) {
        pass.announced = 2 * operation.number;
        pass.next += 1;
        return Ok(how);
    }
    pass.stopped = true;
    Ok(how)
}

/// The pass dequeues by its next operation, under a fuse of this number of steps: how that ended, or `None` where the fuse
/// broke it off. Errors: Stopped, Spent.
pub(crate) fn dequeue(
    board: &Board<Queue>,
    pass: &mut Pass,
    steps: u64,
) -> Result<Option<Ended>, Fault>
    requires { IsOf board.now.table.shared.table_id board.now.key pass.old × (board.now.key < 16384) }
    ensures ok { IfOk result (λ how. Dequeues board.now.key steps pass.old pass.new how) }
    ensures err { IfErr result (λ why. CanNotBegin pass.old why × (pass.new ≡ pass.old)) }
    ensures of { IsOf board.now.table.shared.table_id board.now.key pass.new }
    ensures same { IsSame pass.old pass.new }
{
    let operation = pass.operation()?;
    let mut fuse = Steps { left: steps };
    let how = calls::dequeue(board, &mut pass.place, operation, &mut fuse);
    if has_gone_on(how) {
        pass.announced = 2 * operation.number + 1;
        pass.next += 1;
        return Ok(how);
    }
    pass.stopped = true;
    Ok(how)
}

// The number of the operation after the one that a process announced by this word.
fn number_after(process: usize, announced: u64) -> usize
    requires { process < 16384 }
    ensures { result ≡ next_after process announced }
{
    (announced as usize / 2).saturating_sub(places::OPERATIONS * process)
}

// Whether a recovery that ended so found what came of the last operation.
fn has_found(ended: Ended) -> bool
    ensures { result ≡ is_found ended }
{
    match ended {
        Ended::Recovered { .. } => true,
        _ => false,
    }
}

/// The process of the pass recovers, stopped or not, under a fuse of this number of steps: what it announced last, and what
/// came of that. `None` where the fuse broke it off.
pub(crate) fn recover(board: &Board<Queue>, pass: &mut Pass, steps: u64) -> Option<Recovery>
    requires { IsOf board.now.table.shared.table_id board.now.key pass.old × (board.now.key < 16384) }
    ensures made { Recovers board.now.key steps pass.old pass.new result }
    ensures of { IsOf board.now.table.shared.table_id board.now.key pass.new }
    ensures same { IsSame pass.old pass.new }
{
    let mut fuse = Steps { left: steps };
    let Some(recovery) = calls::recover(board, &mut pass.place, pass.process, &mut fuse) else {
        pass.stopped = true;
        return None;
    };
    if has_found(recovery.ended) {
        pass.next = number_after(pass.process, recovery.announced);
        pass.announced = recovery.announced;
        pass.stopped = false;
        return Some(recovery);
    }
    pass.stopped = true;
    Some(recovery)
}
