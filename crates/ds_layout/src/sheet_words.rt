//! The words of a sheet by their places.

ghost use Rattle.std.specs.Prelude.{◌≡◌, ◌<◌, IfOk};
ghost use Rattle.ds_words.specs.Memory.{IsFresh, EvictsAt, Crashes, StopsAt};
ghost use Rattle.ds_layout.specs.Places.{IsPlace};
ghost use Rattle.ds_layout.specs.SheetMemory.{CanPerform, PerformsAt, memory};

use crate::layout::{Layout, Starts};
use crate::place::Place;
use ds_words::access::Access;
use ds_words::words::{Word, Words};
use std::alloc::{AllocError, Global};
use std::marker::Model;

/// The words of a sheet: a memory that knows words by their places.
#[derive(Drop)]
pub struct SheetWords {
    layout: Layout,
    starts: Starts,
    words: Words,
}

impl Model for SheetWords {
    ghost use Rattle.ds_layout.specs.Places.{AreStartsOf};
    ghost use Rattle.ds_layout.specs.SheetMemory.{SheetValue, IsLaidOut};

    ghost Value = { SheetValue };

    ghost view = { λ s. record { layout = s.layout; words = s.words } };

    ghost invariant = { λ s. IsLaidOut s.layout s.words × AreStartsOf s.layout s.starts };
}

impl SheetWords {
    /// The words of a new sheet: zero on both sides, with empty buffers. An error means that an allocation
    /// failed.
    pub fn new(alloc: Global, layout: Layout) -> Result<SheetWords, AllocError>
        ensures layout { IfOk result (λ s. s.layout ≡ layout) }
        ensures fresh { IfOk result (λ s. IsFresh (memory s)) }
    {
        let classes = layout.classes(alloc)?;
        let words = Words::new(alloc, classes, layout.processes)?;
        let starts = layout.starts();
        Ok(SheetWords {
            layout,
            starts,
            words,
        })
    }

    /// Equal words and buffers, in memory of their own. An error means that an allocation failed.
    pub fn copy(&self, alloc: Global) -> Result<SheetWords, AllocError>
        ensures { IfOk result (λ s. s ≡ self.now) }
    {
        Ok(SheetWords {
            layout: self.layout,
            starts: self.starts,
            words: self.words.copy(alloc)?,
        })
    }

    /// What fixes the words.
    #[inline(always)]
    pub fn layout(&self) -> Layout
        ensures { result ≡ self.now.layout }
    {
        self.layout
    }

    /// Both sides of the word at a place. A process reads the cached side alone: the persisted one
    /// is what a crash leaves.
    #[inline(always)]
    pub fn word(&self, place: Place) -> Word
        requires { IsPlace self.now.layout place }
        ensures cached { result.cached ≡ (memory self.now).cached place }
        ensures persisted { result.persisted ≡ (memory self.now).persisted place }
    {
        self.words
            .word(self.layout.number_from(&self.starts, place))
    }

    /// The cached side of the word at a place: what a process sees there.
    #[inline(always)]
    pub fn load(&self, place: Place) -> u64
        requires { IsPlace self.now.layout place }
        ensures { result ≡ (memory self.now).cached place }
    {
        self.word(place).cached
    }

    /// Performs the access for a process, and answers the number that it saw: 0 where it saw none.
    #[inline(always)]
    pub fn perform(&mut self, process: usize, access: Access<Place>) -> u64
        requires { CanPerform self.old.layout (memory self.old) process access }
        ensures performs { PerformsAt access process (memory self.old) (memory self.new) result }
        ensures layout { self.new.layout ≡ self.old.layout }
    {
        let access = self.layout.numbered(&self.starts, access);
        self.words.perform(process, access)
    }

    /// Makes the persisted side of a word its cached side, as may happen to any word at any moment.
    pub fn evict(&mut self, place: Place)
        requires { IsPlace self.old.layout place }
        ensures evicts { EvictsAt place (memory self.old) (memory self.new) }
        ensures layout { self.new.layout ≡ self.old.layout }
    {
        let number = self.layout.number_from(&self.starts, place);
        self.words.evict(number);
    }

    /// Makes each cached side the persisted one, and empties all buffers.
    pub fn crash(&mut self)
        ensures crashes { Crashes (memory self.old) (memory self.new) }
        ensures layout { self.new.layout ≡ self.old.layout }
    {
        self.words.crash();
    }

    /// Empties the buffer of one process, and leaves the words.
    pub fn stop(&mut self, process: usize)
        requires { process < self.old.layout.processes }
        ensures stops { StopsAt process (memory self.old) (memory self.new) }
        ensures layout { self.new.layout ≡ self.old.layout }
    {
        self.words.stop(process);
    }
}
