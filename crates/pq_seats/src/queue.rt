//! A queue that threads share, with the seats that nobody has taken.

ghost use Rattle.std.specs.Prelude.{◌≡◌, ◌<◌, ◌*◌, map, All};
ghost use Rattle.std.specs.Arc.{arc_value};
ghost use Rattle.std.specs.Coded.{codes};
ghost use Rattle.std.specs.List.{range_with_len};
ghost use Rattle.rtrb.specs.Ring.{received};
ghost use Rattle.pq_seats.specs.Known.{IsOf};

use crate::dealing::{dealt, joined};
use crate::fault::Fault;
use crate::housing::{gathered, housed, look, rings};
use crate::pass::{Pass, Past};
use crate::resting::RestingQueue;
use crate::ring::{Home, Ring};
use crate::seat::Seat;
use pm_board::board::Board;
use pq::queue::Queue;
use std::alloc::{AllocError, Global};
use std::sync::Arc;

/// A queue that threads share, in the hands of its owner: the seats that nobody has taken, and what was answered before it
/// was opened. It may go from thread to thread.
#[derive(Drop)]
pub struct OpenQueue {
    pub(crate) board: Arc<Board<Queue>, Global>,
    pub(crate) processes: usize,
    pub(crate) past: Past,
    pub(crate) homes: Vec<Home>,
    pub ghost fits: { (processes ≡ (arc_value board).key) × (processes < 16384) },
    pub ghost of: { past.place.table_id ≡ (arc_value board).table.shared.table_id } by { Prim.hlevel codes },
    pub ghost own: { All (λ h. All (λ p. IsOf (arc_value board).table.shared.table_id processes p) (received h.end)) homes.items } by { Prim.hlevel codes },
    pub ghost order: { map (λ h. h.process) homes.items ≡ range_with_len 0 processes },
}

/// Room for the passes of a queue, and for their homes.
#[derive(Drop)]
pub(crate) struct Room {
    rings: Vec<Ring>,
    homes: Vec<Home>,
}

impl Room {
    ghost use Rattle.std.specs.Prelude.{[], IfOk, length, vec_capacity};

    /// Room for that number of homes. An error is that an allocation failed.
    pub(crate) fn make(alloc: Global, processes: usize) -> Result<Room, AllocError>
        ensures { IfOk result (λ r. (length r.rings.items ≡ processes) × (r.homes.items ≡ []) × (vec_capacity r.homes ≡ processes)) }
    {
        Ok(Room {
            rings: rings(alloc, processes)?,
            homes: Vec::with_capacity(alloc, processes)?,
        })
    }
}

impl OpenQueue {
    ghost use Rattle.std.specs.Prelude.{[], Bool, IfOk, IfErr, length, true, false, vec_capacity};
    ghost use Rattle.pm_board.specs.Rule.{AreFirst};
    ghost use Rattle.pq.specs.Places.{nodes};
    ghost use Rattle.pq.specs.Queue.{queue};
    ghost use Rattle.pq_seats.specs.Known.{IsFresh};
    ghost use Rattle.pq_seats.specs.Places.{past_in};
    ghost use Rattle.pq_seats.specs.Queues.{AllFresh, IsStill, IsClosed, Takes, CanNotTake, CanNotClose, opened_with};

    /// How many processes it has.
    pub fn processes(&self) -> usize
        ensures { result ≡ (arc_value self.now.board).key }
    {
        self.processes
    }

    // The queue with each pass in a home of its own. Where an allocation fails, all comes back.
    pub(crate) fn of(
        alloc: Global,
        board: Board<Queue>,
        past: Past,
        passes: Vec<Pass>,
        room: Room,
    ) -> Result<OpenQueue, (Board<Queue>, Past, Vec<Pass>)>
        requires key { board.key < 16384 }
        requires past { past.place.table_id ≡ board.table.shared.table_id }
        requires order { map (λ p. p.process) passes.items ≡ range_with_len 0 board.key }
        requires passes { All (λ p. IsOf board.table.shared.table_id board.key p) passes.items }
        requires room { (length room.rings.items ≡ board.key) × (room.homes.items ≡ []) × (vec_capacity room.homes ≡ board.key) }
        ensures made { IfOk result (λ r. (arc_value r.board ≡ board) × (r.past ≡ past)) }
        ensures fresh { (stopped : Bool) → All (λ p. IsFresh stopped p) passes.items → IfOk result (λ r. AllFresh stopped r) }
        ensures back { IfErr result (λ r. (r.0 ≡ board) × (r.1 ≡ past) × (r.2 ≡ passes)) }
    {
        let Room { rings, homes } = room;
        let processes = board.key;
        match Arc::new(alloc, board) {
            Ok(board) => Ok(OpenQueue {
                board,
                processes,
                past,
                homes: housed(passes, rings, homes),
            }),
            Err(failed) => Err((failed.value, past, passes)),
        }
    }

    /// A new queue of this number of processes, 1 to 16,383: empty, with no past. Each process is between operations, and
    /// was answered nothing yet. An error is that an allocation failed.
    pub fn make(alloc: Global, processes: usize) -> Result<OpenQueue, AllocError>
        requires { (0 < processes) × (processes < 16384) }
        ensures key { IfOk result (λ r. (arc_value r.board).key ≡ processes) }
        ensures words { IfOk result (λ r. AreFirst queue processes (8 * nodes processes) (opened_with r)) }
        ensures fresh { IfOk result (λ r. AllFresh false r × (past_in r.past.place ≡ [])) }
    {
        let room = Room::make(alloc, processes)?;
        let passes = Vec::with_capacity(alloc, processes)?;
        let (board, mut rest) = Board::<Queue>::make(alloc, processes)?;
        let passes = dealt(&board, &mut rest, false, passes);
        match OpenQueue::of(alloc, board, Past { place: rest }, passes, room) {
            Ok(open) => Ok(open),
            Err(_) => Err(AllocError),
        }
    }

    /// Takes the seat of a process. A thread may take it along; `Seat::give_back` lets it be taken again. Errors:
    /// NoProcess, SeatTaken, NoMemory.
    pub fn take(&mut self, alloc: Global, process: usize) -> Result<Seat, Fault>
        ensures ok { IfOk result (λ seat. Takes process self.old self.new seat) }
        ensures err { IfErr result (λ why. CanNotTake process self.old why × IsStill self.old self.new) }
    {
        if process >= self.homes.len() {
            return Err(Fault::NoProcess);
        }
        let Ok(ring) = Ring::make(alloc) else {
            return Err(Fault::NoMemory);
        };
        let Ok(board) = Arc::try_clone(&self.board) else {
            return Err(Fault::NoMemory);
        };
        let Some((back, pass)) = self.homes[process].lend(ring) else {
            return Err(Fault::SeatTaken);
        };
        Ok(Seat { board, pass, back })
    }

    /// Closes the queue, whose seats have all come back. Errors, with which the queue comes back: SeatTaken, NoMemory.
    pub fn close(mut self, alloc: Global) -> Result<RestingQueue, (OpenQueue, Fault)>
        ensures ok { IfOk result (λ r. IsClosed self r) }
        ensures err { IfErr result (λ r. IsStill self r.0 × CanNotClose r.1) }
    {
        if !look(&mut self.homes) {
            return Err((self, Fault::SeatTaken));
        }
        let Ok(passes) = Vec::with_capacity(alloc, self.homes.len()) else {
            return Err((self, Fault::NoMemory));
        };
        let OpenQueue {
            board,
            processes,
            past,
            homes,
        } = self;
        match Arc::try_unwrap(board) {
            Ok(board) => {
                let passes = gathered(&board, homes, passes);
                let place = joined(&board, past, passes);
                Ok(RestingQueue::of(board.close(place)))
            }
            Err(board) => Err((
                OpenQueue {
                    board,
                    processes,
                    past,
                    homes,
                },
                Fault::SeatTaken,
            )),
        }
    }
}
