//! A seat: a queue, and the right to act for one of its processes.

ghost use Rattle.std.specs.Prelude.{◌≡◌, ◌<◌};
ghost use Rattle.std.specs.Arc.{arc_value};
ghost use Rattle.std.specs.Coded.{codes};
ghost use Rattle.rtrb.specs.Ring.{sent, known_free};
ghost use Rattle.pq_seats.specs.Known.{IsOf};
ghost use Rattle.pq_seats.specs.Turns.{IsSameAll};

use crate::calls;
use crate::fault::Fault;
use crate::pass::Pass;
use crate::ring::Back;
use pm_board::board::Board;
use pq::calls::Ended;
use pq::queue::Queue;
use pq_shared::calls::Recovery;
use std::alloc::Global;
use std::sync::Arc;

/// A queue that threads share, with the right to act for one of its processes. It may go from thread to thread.
#[derive(Drop)]
pub struct Seat {
    pub(crate) board: Arc<Board<Queue>, Global>,
    pub(crate) pass: Pass,
    pub(crate) back: Back,
    pub ghost few: { (arc_value board).key < 16384 },
    pub ghost of: { IsOf (arc_value board).table.shared.table_id (arc_value board).key pass } by { Prim.hlevel codes },
    pub ghost same: { IsSameAll (sent back) pass } by { Prim.hlevel codes },
    pub ghost room: { 0 < known_free back },
}

impl Seat {
    ghost use Rattle.std.specs.Prelude.{IfOk, IfErr};
    ghost use Rattle.pq_seats.specs.Calls.{CanNotBegin, Dequeues, Enqueues, Recovers};

    /// The process that it acts for.
    pub fn process(&self) -> usize
        ensures { result ≡ self.now.pass.process }
    {
        self.pass.process
    }

    /// The number of its next operation, from 0.
    pub fn next(&self) -> usize
        ensures { result ≡ self.now.pass.next }
    {
        self.pass.next
    }

    /// Puts a value into the queue by the process's next operation, under a fuse of `steps` steps: how that ended, or
    /// `None` where the fuse broke it off; then the process has to recover. Errors: Stopped, Spent.
    pub fn enqueue(&mut self, value: u64, steps: u64) -> Result<Option<Ended>, Fault>
        ensures ok { IfOk result (λ how. Enqueues (arc_value self.old.board).key value steps self.old.pass self.new.pass how) }
        ensures err { IfErr result (λ why. CanNotBegin self.old.pass why × (self.new ≡ self.old)) }
        ensures queue { arc_value self.new.board ≡ arc_value self.old.board }
    {
        calls::enqueue(&self.board, &mut self.pass, value, steps)
    }

    /// Takes a value from the queue by the process's next operation, under a fuse of `steps` steps: how that ended, or
    /// `None` where the fuse broke it off; then the process has to recover. Errors: Stopped, Spent.
    pub fn dequeue(&mut self, steps: u64) -> Result<Option<Ended>, Fault>
        ensures ok { IfOk result (λ how. Dequeues (arc_value self.old.board).key steps self.old.pass self.new.pass how) }
        ensures err { IfErr result (λ why. CanNotBegin self.old.pass why × (self.new ≡ self.old)) }
        ensures queue { arc_value self.new.board ≡ arc_value self.old.board }
    {
        calls::dequeue(&self.board, &mut self.pass, steps)
    }

    /// Recovers its process, stopped or not: which operation it announced last, and what came of it. `None` where the fuse
    /// of `steps` steps broke it off.
    pub fn recover(&mut self, steps: u64) -> Option<Recovery>
        ensures made { Recovers (arc_value self.old.board).key steps self.old.pass self.new.pass result }
        ensures queue { arc_value self.new.board ≡ arc_value self.old.board }
    {
        calls::recover(&self.board, &mut self.pass, steps)
    }

    /// The seat goes back to its queue: it can be taken again.
    pub fn give_back(self) {
        let Seat {
            board: _,
            pass,
            mut back,
        } = self;
        back.push_reserved(pass);
    }
}
