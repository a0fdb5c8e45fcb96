//! A board that is closed, crashed and opened again.

ghost use Rattle.std.specs.Prelude.{◌≡◌, ◌+◌, ◌*◌, ◌<◌, ◌^◌, ◌++◌, [], ℕ, true, false, IfOk, IfErr, length, List, Option, Some, slice_index, slice_index_or, slice_set};
ghost use Rattle.std.specs.Mem.Slots.{slots_items, slots_len, IsFull};
ghost use Rattle.pm_base.specs.declared.history.Entry.{Entry};
ghost use Rattle.pm_board.specs.Looks.{BeginsWithAll};
ghost use Rattle.pm_board.specs.Rule.{AtRest, Witness, HasSideLeft, IsRested, Survives};
ghost use Rattle.pm_board.specs.Table.{cached_at, persisted_at};
ghost use Rattle.pm_board.specs.Views.{RunsFrom, past_of, whole_view};

use crate::board::{Board, Fixed, Opens, TableSeat};
use crate::spacing::cached_at;
use atomic_table::{Closed, Table};
use pm_base::machine::Structured;
use std::alloc::{AllocError, Global};
use std::snapshot::Snapshot;

/// The words of a board that is closed, and a seat that remembers what was done on it. Call `free` at the end.
pub struct ClosedBoard<P: Structured> {
    pub(crate) table: Closed<u8, Global>,
    /// The layout.
    pub key: P::Key,
    pub(crate) before: Option<TableSeat<P::Doing, P::Response>>,
    pub ghost full: { IsFull table.words × (slots_len table.slots ≡ 0) },
    pub ghost sized: { slots_len table.words ≡ cached_at (P.structure.apart key) (P.structure.words key) },
    pub ghost some: { (0 < P.structure.words key) × (P.structure.words key < 2 ^ 28) },
}

impl<P: Structured> ClosedBoard<P> {
    // Sets a word of the table.
    fn set_word(&mut self, number: usize, value: u64)
        requires { number < slots_len self.old.table.words }
        ensures words { slots_items self.new.table.words ≡ slice_set (slots_items self.old.table.words) number value }
        ensures others { (self.new.key ≡ self.old.key) × (self.new.before ≡ self.old.before) }
    {
        self.table.words.put(number, value);
    }

    // One side of a word.
    fn side(&self, number: usize) -> u64
        requires { number < cached_at (P.structure.apart self.now.key) (P.structure.words self.now.key) }
        ensures { result ≡ slice_index (slots_items self.now.table.words) number }
    {
        self.table.word(number)
    }

    // Its words, in memory of their own.
    fn copied(&self, alloc: Global) -> Result<Vec<u64>, AllocError>
        ensures { IfOk result (λ v. v.items ≡ slots_items self.now.table.words) }
    {
        let count = cached_at(P::apart(&self.key), P::words(&self.key));
        let mut words = Vec::with_capacity(alloc, count)?;
        for number in 0..count {
            words.push(self.side(number))?;
        }
        Ok(words)
    }

    /// The cached side of a word.
    pub fn cached(&self, word: usize) -> u64
        requires { word < P.structure.words self.now.key }
        ensures { result ≡ slice_index (slots_items self.now.table.words) (cached_at (P.structure.apart self.now.key) word) }
    {
        self.side(cached_at(P::apart(&self.key), word))
    }

    /// The persisted side of a word.
    pub fn persisted(&self, word: usize) -> u64
        requires { word < P.structure.words self.now.key }
        ensures { result ≡ slice_index (slots_items self.now.table.words) (persisted_at (P.structure.apart self.now.key) word) }
    {
        self.side(cached_at(P::apart(&self.key), word) + 1)
    }

    /// A crash, before which the chosen words were evicted: of each word the cached side is left where it is chosen, else
    /// the persisted side. To the words after it, too, a run leads, by these evictions and the crash, in which what is
    /// remembered stands.
    pub fn crash_with(&mut self, choice: &[bool])
        requires { length choice.now ≡ P.structure.words self.old.key }
        ensures key { self.new.key ≡ self.old.key }
        ensures before { past_of self.new.before ≡ past_of self.old.before }
        ensures words { (n : ℕ) → n < P.structure.words self.old.key → HasSideLeft (P.structure.apart self.old.key) (slice_index_or choice.now n false) (slots_items self.old.table.words) (slots_items self.new.table.words) n }
        ensures rests { IsRested P.structure self.old.key (slots_items self.old.table.words) (past_of self.old.before) → IsRested P.structure self.new.key (slots_items self.new.table.words) (past_of self.new.before) }
        ensures survives { (b : Witness P.structure self.old.key) → AtRest P.structure self.old.key (slots_items self.old.table.words) b → Survives P.structure self.old.key (slots_items self.old.table.words) (slots_items self.new.table.words) b }
    {
        let apart = P::apart(&self.key);
        for number in 0..P::words(&self.key) {
            let cached = cached_at(apart, number);
            let side = if choice[number] { cached } else { cached + 1 };
            let value = self.side(side);
            self.set_word(cached, value);
            self.set_word(cached + 1, value);
        }
    }

    /// Opens a board with these words, in which every process has stopped, and a seat that runs each. It asks for what
    /// `close` and `crash_with` leave: a run leads to these words, at rest, and what is remembered stands in it. The
    /// processes have seen the whole history, which begins with what each process that is remembered had seen. Where
    /// memory runs out the words are handed back.
    pub fn reopen(
        self,
        alloc: Global,
    ) -> Result<(Board<P>, TableSeat<P::Doing, P::Response>), ClosedBoard<P>>
        requires { IsRested P.structure self.key (slots_items self.table.words) (past_of self.before) }
        ensures key { IfOk result (λ r. r.0.key ≡ self.key) }
        ensures place { IfOk result (λ r. (r.1.table_id ≡ r.0.table.shared.table_id) × ((seen : List (Entry P.Doing P.Response)) × (r.1.me ≡ (whole_view P.structure self.key true (Some seen) (past_of self.before), [])) × BeginsWithAll seen (past_of self.before))) }
        ensures rest { IfOk result (λ r. RunsFrom P.structure r.0.key true 0 r.1.me) }
        ensures words { IfOk result (λ r. r.0.table.shared.key.words.value.items ≡ slots_items self.table.words) }
        ensures back { IfErr result (λ c. (c.table ≡ self.table) × (c.key ≡ self.key) × (c.before ≡ self.before)) }
    {
        let Ok(words) = self.copied(alloc) else {
            return Err(self);
        };
        let ClosedBoard { table, key, before } = self;
        let fixed = Fixed {
            own: key,
            stopped: true,
            before,
            words: Snapshot::of(&words),
        };
        match Table::of_words(alloc, words.as_slice(), &fixed) {
            Ok((opened, mut place)) => {
                let _found = opened.shared.load::<Opens>(&mut place, 0);
                table.free();
                Ok((
                    Board {
                        table: opened,
                        key: fixed.own,
                    },
                    place,
                ))
            }
            Err(_) => Err(ClosedBoard {
                table,
                key: fixed.own,
                before: fixed.before,
            }),
        }
    }

    /// Gives the memory back.
    pub fn free(self) {
        let ClosedBoard {
            table,
            key: _,
            before: _,
        } = self;
        table.free();
    }
}
