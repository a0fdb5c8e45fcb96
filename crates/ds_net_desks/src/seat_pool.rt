//! The numbered seats of a server that nobody has.

ghost use Rattle.std.specs.Prelude.{◌≡◌, ◌<◌, ◌+◌, IfErr, IfOk, IfSome};
ghost use Rattle.ds_net_desks.specs.PoolSizes.{NoneIsFree, count_of};
ghost use Rattle.ds_net_desks.specs.NumberedSeats.{CatchesUp};

use crate::numbered_seat::NumberedSeat;
use crossbeam_queue::ArrayQueue;
use std::alloc::{AllocError, Global};
use std::mem;
use std::sync::Wait;
use std::sync::atomic::{AtomicU64, Ordering};

/// The numbered seat of each process while nobody has it; and, of the newest sheet, that of each process whose holder has
/// not caught up with that sheet yet. Whoever has a seat catches up with the newest sheet before its next call.
#[derive(Drop)]
pub struct SeatPool {
    resting: Vec<ArrayQueue<NumberedSeat>>,
    fresh: Vec<ArrayQueue<NumberedSeat>>,
    epoch: AtomicU64,
}

/// That the seat of this process was looked for, and somebody has it.
#[derive(Debug, Drop)]
pub struct Missed {
    process: usize,
}

/// That the seat of each of the first processes, this number of them, was looked for, and somebody has it: from the last one down
/// to the one of this number.
#[derive(Debug, Drop)]
pub struct NoneFree {
    from: usize,
    count: usize,
}

impl NoneFree {
    // Of this number of processes, before one is looked for.
    fn new(count: usize) -> NoneFree
        ensures { (result.from ≡ count) × (result.count ≡ count) }
    {
        NoneFree { from: count, count }
    }

    // The seat of the next process was missed, too.
    fn add(&mut self, missed: Missed)
        requires { self.old.from ≡ missed.process + 1 }
        ensures { (self.new.from ≡ missed.process) × (self.new.count ≡ self.old.count) }
    {
        let Missed { process } = missed;
        self.from = process;
    }
}

// As many queues, each for one seat.
fn queues(alloc: Global, count: usize) -> Result<Vec<ArrayQueue<NumberedSeat>>, AllocError> {
    let mut queues = Vec::with_capacity(alloc, count)?;
    for _process in 0..count {
        queues.push(ArrayQueue::new(alloc, 1)?)?;
    }
    Ok(queues)
}

impl SeatPool {
    /// Of the first sheet, with the seats of its processes that may be joined or work, in their order.
    pub fn new<R: Wait>(
        rt: &R,
        alloc: Global,
        all: Vec<NumberedSeat>,
    ) -> Result<SeatPool, AllocError> {
        let resting = queues(alloc, all.len())?;
        let fresh = queues(alloc, all.len())?;
        for numbered in all {
            if let Some(queue) = resting.get(numbered.process()) {
                let _ = queue.push(rt, numbered);
            }
        }
        Ok(SeatPool {
            resting,
            fresh,
            epoch: AtomicU64::new(0),
        })
    }

    /// How many processes there are.
    pub fn len(&self) -> usize
        ensures { result ≡ count_of self.now }
    {
        self.resting.len()
    }

    /// The server goes over to its next sheet, the one of this epoch, with these seats of its processes.
    pub fn go_over<R: Wait>(&self, rt: &R, all: Vec<NumberedSeat>, epoch: u64) {
        for numbered in all {
            if let Some(queue) = self.fresh.get(numbered.process()) {
                let _older = queue.force_push(rt, numbered);
            }
        }
        self.epoch.store(epoch, Ordering::SeqCst);
    }

    // The seat of the same process in the newest sheet, where this one is of an older sheet.
    fn newer<R: Wait>(&self, rt: &R, numbered: &NumberedSeat) -> Option<NumberedSeat>
        ensures { IfSome result (CatchesUp numbered.now) }
    {
        if numbered.epoch >= self.epoch.load(Ordering::SeqCst) {
            return None;
        }
        let process = numbered.process();
        let newer = self.fresh.get(process)?.pop(rt)?;
        if newer.process() == process && newer.epoch > numbered.epoch {
            Some(newer)
        } else {
            None
        }
    }

    /// The seat becomes that of the same process in the newest sheet; one of an older sheet goes back to that sheet.
    pub fn catch_up<R: Wait>(&self, rt: &R, numbered: &mut NumberedSeat)
        ensures { CatchesUp numbered.old numbered.new }
    {
        if let Some(newer) = self.newer(rt, numbered) {
            mem::replace(numbered, newer).give_back();
        }
    }

    // What lies where the seat of the process rests, if anything.
    fn rest_of<R: Wait>(&self, rt: &R, process: usize) -> Option<NumberedSeat> {
        self.resting.get(process)?.pop(rt)
    }

    /// Takes the seat of the process, in the newest sheet. An error is that somebody has it.
    pub fn take<R: Wait>(&self, rt: &R, process: usize) -> Result<NumberedSeat, Missed>
        ensures taken { IfOk result (λ numbered. numbered.seat.pass.process ≡ process) }
        ensures missed { IfErr result (λ missed. missed.process ≡ process) }
    {
        let Some(mut numbered) = self.rest_of(rt, process) else {
            return Err(Missed { process });
        };
        if numbered.process() != process {
            return Err(Missed { process });
        }
        self.catch_up(rt, &mut numbered);
        Ok(numbered)
    }

    /// Takes a seat that nobody has, in the newest sheet: of the last process that has one, among the first processes, this
    /// number of them. An error is that each was looked for, and somebody has it.
    pub fn take_any<R: Wait>(&self, rt: &R, joins: usize) -> Result<NumberedSeat, NoneFree>
        ensures some { IfOk result (λ numbered. numbered.seat.pass.process < joins) }
        ensures there { IfOk result (λ numbered. numbered.seat.pass.process < count_of self.now) }
        ensures none { IfErr result (NoneIsFree self.now joins) }
    {
        let mut none = NoneFree::new(joins.min(self.len()));
        while none.from > 0 {
            match self.take(rt, none.from - 1) {
                Ok(numbered) => return Ok(numbered),
                Err(missed) => none.add(missed),
            }
        }
        Err(none)
    }

    /// The seat may be taken again.
    pub fn put_back<R: Wait>(&self, rt: &R, numbered: NumberedSeat) {
        if let Some(queue) = self.resting.get(numbered.process()) {
            let _ = queue.push(rt, numbered);
        }
    }

    /// Gives back the seats of the newest sheet that nobody has.
    pub fn give_back<R: Wait>(&self, rt: &R) {
        for process in 0..self.len() {
            if let Ok(numbered) = self.take(rt, process) {
                numbered.give_back();
            }
        }
    }
}
