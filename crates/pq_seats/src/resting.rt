//! A closed queue, which may be opened again.

ghost use Rattle.std.specs.Prelude.{ℕ, ◌≡◌, ◌<◌, ◌≤◌, ◌*◌, length, IfOk, slice_index_or, false};
ghost use Rattle.std.specs.Mem.Slots.{slots_items};
ghost use Rattle.pm_board.specs.Rule.{IsRested};
ghost use Rattle.pm_board.specs.Views.{past_of};
ghost use Rattle.pq.specs.Queue.{queue};
ghost use Rattle.pq_seats.specs.Choices.{is_chosen};

use crate::dealing::{dealt, joined};
use crate::fault::Fault;
use crate::pass::Past;
use crate::queue::{OpenQueue, Room};
use pm_base::machine::Structured;
use pm_board::closed::ClosedBoard;
use pq::queue::Queue;
use std::alloc::{AllocError, Global};

/// A closed queue. A run of the queue leads to its words, at rest, and what it remembers stands in that run.
pub struct RestingQueue {
    pub(crate) board: ClosedBoard<Queue>,
    pub ghost few: { board.key < 16384 },
    pub ghost rests: { ∥ IsRested queue board.key (slots_items board.table.words) (past_of board.before) ∥₁ },
}

impl Drop for RestingQueue {
    fn drop(self) {
        self.into_board().free();
    }
}

// Which words are chosen.
fn chosen(alloc: Global, choice: &[u8], count: usize) -> Result<Vec<bool>, AllocError>
    requires { count ≤ length choice.now }
    ensures length { IfOk result (λ v. length v.items ≡ count) }
    ensures each { IfOk result (λ v. (n : ℕ) → n < count → slice_index_or v.items n false ≡ is_chosen choice.now n) }
{
    let mut words = Vec::with_capacity(alloc, count)?;
    for number in 0..count {
        words.push(choice[number] != 0)?;
    }
    Ok(words)
}

impl RestingQueue {
    ghost use Rattle.std.specs.Prelude.{IfErr, OnOk, true};
    ghost use Rattle.std.specs.Arc.{arc_value};
    ghost use Rattle.pq.specs.Places.{nodes};
    ghost use Rattle.pq_seats.specs.Places.{past_in};
    ghost use Rattle.pq_seats.specs.Queues.{AllFresh, opened_with};
    ghost use Rattle.pq_seats.specs.Resting.{CanNotCrash, Crashes, Remembers, remembered, words_in};

    /// A closed queue that may be opened again.
    pub(crate) fn of(board: ClosedBoard<Queue>) -> RestingQueue
        requires { (board.key < 16384) × IsRested queue board.key (slots_items board.table.words) (past_of board.before) }
        ensures { result.board ≡ board }
    {
        RestingQueue { board }
    }

    /// The closed board itself.
    pub(crate) fn into_board(self) -> ClosedBoard<Queue>
        ensures { (result ≡ self.board) × IsRested queue result.key (slots_items result.table.words) (past_of result.before) }
    {
        let RestingQueue { board } = self;
        board
    }

    /// How many processes it has.
    pub fn processes(&self) -> usize
        ensures { result ≡ self.now.board.key }
    {
        self.board.key
    }

    /// How many words it has.
    pub fn words(&self) -> usize
        ensures { result ≡ 8 * nodes self.now.board.key }
    {
        Queue::words(&self.board.key)
    }

    /// A crash, before which the words were evicted whose item of the choice is not 0: of each word the cached side is
    /// left where it is chosen, else the persisted one. Items past the last word are not read. Errors: ShortChoice,
    /// NoMemory.
    pub fn crash_with(&mut self, alloc: Global, choice: &[u8]) -> Result<(), Fault>
        ensures ok { OnOk result (Crashes choice.now self.old self.new) }
        ensures err { IfErr result (λ why. CanNotCrash choice.now self.old why × (self.new ≡ self.old)) }
    {
        let count = self.words();
        if choice.len() < count {
            return Err(Fault::ShortChoice);
        }
        let Ok(words) = chosen(alloc, choice, count) else {
            return Err(Fault::NoMemory);
        };
        self.board.crash_with(words.as_slice());
        Ok(())
    }

    /// Opens the queue again, with its words, and with every process stopped. Where an allocation fails it comes back
    /// closed: all that it remembered it remembers.
    pub fn reopen(self, alloc: Global) -> Result<OpenQueue, RestingQueue>
        ensures key { IfOk result (λ r. (arc_value r.board).key ≡ self.board.key) }
        ensures words { IfOk result (λ r. opened_with r ≡ words_in self) }
        ensures past { IfOk result (λ r. past_in r.past.place ≡ remembered self) }
        ensures fresh { IfOk result (λ r. AllFresh true r) }
        ensures back { IfErr result (λ r. Remembers self r) }
    {
        let processes = self.board.key;
        let Ok(room) = Room::make(alloc, processes) else {
            return Err(self);
        };
        let Ok(passes) = Vec::with_capacity(alloc, processes) else {
            return Err(self);
        };
        match self.into_board().reopen(alloc) {
            Ok((board, mut rest)) => {
                let passes = dealt(&board, &mut rest, true, passes);
                match OpenQueue::of(alloc, board, Past { place: rest }, passes, room) {
                    Ok(open) => Ok(open),
                    Err((board, past, passes)) => {
                        let place = joined(&board, past, passes);
                        Err(RestingQueue::of(board.close(place)))
                    }
                }
            }
            Err(board) => Err(RestingQueue::of(board)),
        }
    }
}
