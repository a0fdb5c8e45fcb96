//! The words.

ghost use Rattle.std.specs.Prelude.{◌≡◌, ◌<◌, ◌↔◌, ◌∷◌, [], length, drop, map, IfOk, IsTrue};
ghost use Rattle.ds_words.specs.Memory.{StoresAt, OrsAt, SwapsAt, FlushesAt, BacksFirst, EvictsAt, Crashes, StopsAt, Performs};
ghost use Rattle.ds_words.specs.declared.words.TheConstants as constants;
ghost use Rattle.ds_words.specs.Words.{BUFFER_MOST, memory_of, fresh_words, SameShape, HasWord, HasProcess, HasRoom, HasEntry, CanPerform, word_at, with_word, class_at, buffer_of, with_buffer, crashed};

use crate::access::{Access, BufferEntry, Class};
use arrayvec::ArrayVec;
use std::alloc::{AllocError, Global};
use std::marker::Model;

/// How many entries a buffer has room for.
pub const BUFFER_ENTRIES: usize = 32;

/// The two sides of a word.
#[derive(Clone, Copy, Debug, PartialEq, Eq)]
pub struct Word {
    /// The cached side, which a crash loses.
    pub cached: u64,
    /// The persisted side, which stays.
    pub persisted: u64,
}

/// A memory of 64-bit words by number, with a buffer of writes for each process.
#[derive(Drop)]
pub struct Words {
    classes: Vec<Class>,
    words: Vec<Word>,
    buffers: Vec<ArrayVec<BufferEntry<usize>, BUFFER_ENTRIES>>,
}

impl Model for Words {
    ghost use Rattle.std.specs.Prelude.{map, ◌≡◌, length};
    ghost use Rattle.ds_words.specs.Words.{WordsValue};

    ghost Value = { WordsValue };

    ghost view = { λ w. record {
      classes = w.classes.items;
      words = w.words.items;
      buffers = map (λ b. b.items) w.buffers.items;
    } };

    ghost invariant = { λ w. length w.classes.items ≡ length w.words.items };
}

// Each cached side becomes the persisted one.
fn lose_cached(words: &mut Vec<Word>)
    ensures { words.new.items ≡ map crashed words.old.items }
{
    for i in 0..words.len() {
        let persisted = words[i].persisted;
        words[i] = Word {
            cached: persisted,
            persisted,
        };
    }
}

// Each buffer is emptied.
fn lose_buffers(buffers: &mut Vec<ArrayVec<BufferEntry<usize>, BUFFER_ENTRIES>>)
    ensures { map (λ b. b.items) buffers.new.items ≡ map (λ b. []) buffers.old.items }
{
    for i in 0..buffers.len() {
        let buffer = &mut buffers[i];
        buffer.clear();
    }
}

// Takes the oldest entry out of a buffer. Most buffers hold one.
#[inline(always)]
fn take_first(buffer: &mut ArrayVec<BufferEntry<usize>, BUFFER_ENTRIES>) -> BufferEntry<usize>
    requires { 0 < length buffer.old.items }
    ensures { buffer.old.items ≡ result ∷ buffer.new.items }
{
    if buffer.len() > 1 {
        return buffer.remove(0);
    }
    let entry = buffer[0];
    buffer.clear();
    entry
}

// An equal buffer.
fn copied(
    buffer: &ArrayVec<BufferEntry<usize>, BUFFER_ENTRIES>,
) -> ArrayVec<BufferEntry<usize>, BUFFER_ENTRIES>
    ensures { result.items ≡ buffer.now.items }
{
    let mut copy = ArrayVec::new();
    let _fits = copy.try_extend_from_slice(buffer.as_slice());
    copy
}

// Equal buffers, in memory of their own.
fn all_copied(
    alloc: Global,
    buffers: &Vec<ArrayVec<BufferEntry<usize>, BUFFER_ENTRIES>>,
) -> Result<Vec<ArrayVec<BufferEntry<usize>, BUFFER_ENTRIES>>, AllocError>
    ensures { IfOk result (λ v. map (λ b. b.items) v.items ≡ map (λ b. b.items) buffers.now.items) }
{
    let mut copies = Vec::with_capacity(alloc, buffers.len())?;
    for buffer in buffers {
        copies.push(copied(buffer))?;
    }
    Ok(copies)
}

impl Words {
    /// A word for each class, zero on both sides, and an empty buffer for each process. An error means
    /// that an allocation failed.
    pub fn new(alloc: Global, classes: Vec<Class>, processes: usize) -> Result<Words, AllocError>
        ensures { IfOk result (λ w. w ≡ fresh_words classes.items processes) }
    {
        let zero = Word {
            cached: 0,
            persisted: 0,
        };
        let words = vec![in alloc; zero; classes.len()]?;
        let mut buffers = Vec::new(alloc);
        for process in 0..processes {
            buffers.push(ArrayVec::new())?;
        }
        Ok(Words {
            classes,
            words,
            buffers,
        })
    }

    /// Equal words, both sides of each, and equal buffers, in memory of their own. An error means that an
    /// allocation failed.
    pub fn copy(&self, alloc: Global) -> Result<Words, AllocError>
        ensures { IfOk result (λ w. w ≡ self.now) }
    {
        Ok(Words {
            classes: Vec::from_slice(alloc, &self.classes)?,
            words: Vec::from_slice(alloc, &self.words)?,
            buffers: all_copied(alloc, &self.buffers)?,
        })
    }

    /// How many words there are.
    pub fn len(&self) -> usize
        ensures { result ≡ length self.now.words }
    {
        self.words.len()
    }

    /// Whether there is no word.
    pub fn is_empty(&self) -> bool
        ensures { IsTrue result ↔ (length self.now.words ≡ 0) }
    {
        self.words.is_empty()
    }

    /// How many processes there are.
    pub fn processes(&self) -> usize
        ensures { result ≡ length self.now.buffers }
    {
        self.buffers.len()
    }

    /// Whether there is a word with this number.
    pub fn has_word(&self, number: usize) -> bool
        ensures { IsTrue result ↔ HasWord self.now number }
    {
        number < self.words.len()
    }

    /// How many entries the buffer of a process holds.
    pub fn buffered(&self, process: usize) -> usize
        requires { HasProcess self.now process }
        ensures { result ≡ length (buffer_of self.now process) }
    {
        self.buffers[process].len()
    }

    /// Whether the process may flush: it is there, and its buffer has room.
    pub fn has_room(&self, process: usize) -> bool
        ensures { IsTrue result ↔ (HasProcess self.now process × HasRoom self.now process) }
    {
        process < self.buffers.len() && self.buffered(process) < BUFFER_ENTRIES
    }

    /// Whether the process may write back: it is there, and its buffer holds an entry, the oldest
    /// for a word that is there.
    pub fn has_entry(&self, process: usize) -> bool
        ensures { IsTrue result ↔ HasEntry self.now process }
    {
        if process >= self.buffers.len() {
            return false;
        }
        let buffer = &self.buffers[process];
        if buffer.is_empty() {
            return false;
        }
        buffer[0].place < self.words.len()
    }

    /// Whether the process may perform the access now.
    pub fn can_perform(&self, process: usize, access: Access<usize>) -> bool
        ensures { IsTrue result ↔ CanPerform self.now process access }
    {
        match access {
            Access::Nothing => true,
            Access::Load(number) => self.has_word(number),
            Access::Store(number, _) => self.has_word(number),
            Access::Or(number, _) => self.has_word(number),
            Access::SwapIf {
                place: number,
                expected: _,
                value: _,
            } => self.has_word(number),
            Access::Flush(number) => self.has_word(number) && self.has_room(process),
            Access::Back => self.has_entry(process),
        }
    }

    /// Both sides of a word. A process reads the cached side alone: the persisted one is what a
    /// crash leaves.
    #[tactic(auto, unfolding(crate::specs::Words::word_at))]
    #[inline(always)]
    pub fn word(&self, number: usize) -> Word
        requires { HasWord self.now number }
        ensures { result ≡ word_at self.now number }
    {
        self.words[number]
    }

    // Changes both sides of a word.
    #[tactic(auto, unfolding(crate::specs::Words::with_word))]
    #[inline(always)]
    fn set_word(&mut self, number: usize, word: Word)
        requires { HasWord self.old number }
        ensures { self.new ≡ with_word self.old number word }
    {
        self.words[number] = word;
    }

    /// The class of a word.
    #[tactic(auto, unfolding(crate::specs::Words::class_at))]
    #[inline(always)]
    pub fn class(&self, number: usize) -> Class
        requires { HasWord self.now number }
        ensures { result ≡ class_at self.now number }
    {
        self.classes[number]
    }

    /// The cached side of a word.
    #[inline(always)]
    pub fn load(&self, number: usize) -> u64
        requires { HasWord self.now number }
        ensures { result ≡ (memory_of self.now).cached number }
    {
        self.word(number).cached
    }

    /// Sets the cached side of a word.
    #[inline(always)]
    pub fn store(&mut self, number: usize, value: u64)
        requires { HasWord self.old number }
        ensures stores { StoresAt number value (memory_of self.old) (memory_of self.new) }
        ensures shape { SameShape self.old self.new }
    {
        let word = self.word(number);
        self.set_word(
            number,
            Word {
                cached: value,
                persisted: word.persisted,
            },
        );
    }

    /// Adds bits to the cached side of a word.
    #[inline(always)]
    pub fn or(&mut self, number: usize, bits: u64)
        requires { HasWord self.old number }
        ensures ors { OrsAt number bits (memory_of self.old) (memory_of self.new) }
        ensures shape { SameShape self.old self.new }
    {
        let seen = self.load(number);
        self.store(number, seen | bits);
    }

    /// Sets the cached side of a word to `value` where it is `expected`, and answers the number
    /// that it was.
    #[inline(always)]
    pub fn swap_if(&mut self, number: usize, expected: u64, value: u64) -> u64
        requires { HasWord self.old number }
        ensures swaps { SwapsAt number expected value result
            (memory_of self.old) (memory_of self.new) }
        ensures shape { SameShape self.old self.new }
    {
        let seen = self.load(number);
        if seen == expected {
            self.store(number, value);
        }
        seen
    }

    /// Takes the cached side of a word into the buffer of a process, after the entries that are
    /// there.
    #[inline(always)]
    pub fn flush(&mut self, process: usize, number: usize)
        requires word { HasWord self.old number }
        requires process { HasProcess self.old process }
        requires room { HasRoom self.old process }
        ensures flushes { FlushesAt process number (class_at self.old number)
            (memory_of self.old) (memory_of self.new) }
        ensures shape { SameShape self.old self.new }
    {
        let class = self.class(number);
        let value = self.load(number);
        let buffer = &mut self.buffers[process];
        buffer.push(BufferEntry {
            place: number,
            class,
            value,
        });
    }

    // Takes the oldest entry out of a buffer.
    #[inline(always)]
    fn taken(&mut self, process: usize) -> BufferEntry<usize>
        requires process { HasProcess self.old process }
        requires some { 0 < length (buffer_of self.old process) }
        ensures oldest { buffer_of self.old process ≡ result ∷ drop 1 (buffer_of self.old process) }
        ensures rest { self.new ≡ with_buffer self.old process (drop 1 (buffer_of self.old process)) }
    {
        let buffer = &mut self.buffers[process];
        take_first(buffer)
    }

    /// Writes the oldest entry of the buffer of a process to the persisted side of its word, where
    /// it is newer.
    #[inline(always)]
    pub fn back(&mut self, process: usize)
        requires { HasEntry self.old process }
        ensures back { BacksFirst process (memory_of self.old) (memory_of self.new) }
        ensures shape { SameShape self.old self.new }
    {
        let entry = self.taken(process);
        let word = self.word(entry.place);
        let persisted = entry.class.newer(word.persisted, entry.value);
        self.set_word(
            entry.place,
            Word {
                cached: word.cached,
                persisted,
            },
        );
    }

    /// Makes the persisted side of a word its cached side, as may happen to any word at any moment.
    pub fn evict(&mut self, number: usize)
        requires { HasWord self.old number }
        ensures evicts { EvictsAt number (memory_of self.old) (memory_of self.new) }
        ensures shape { SameShape self.old self.new }
    {
        let evicted = self.word(number);
        self.set_word(
            number,
            Word {
                cached: evicted.cached,
                persisted: evicted.cached,
            },
        );
    }

    /// Makes each cached side the persisted one, and empties all buffers.
    pub fn crash(&mut self)
        ensures crashes { Crashes (memory_of self.old) (memory_of self.new) }
        ensures shape { SameShape self.old self.new }
    {
        lose_cached(&mut self.words);
        lose_buffers(&mut self.buffers);
    }

    /// Empties the buffer of one process, and leaves the words.
    pub fn stop(&mut self, process: usize)
        requires { HasProcess self.old process }
        ensures stops { StopsAt process (memory_of self.old) (memory_of self.new) }
        ensures shape { SameShape self.old self.new }
    {
        let buffer = &mut self.buffers[process];
        buffer.clear();
    }

    /// Performs the access for a process, and answers the number that it saw: 0 where it saw none.
    #[inline(always)]
    pub fn perform(&mut self, process: usize, access: Access<usize>) -> u64
        requires { CanPerform self.old process access }
        ensures performs { Performs (class_at self.old) access process
            (memory_of self.old) (memory_of self.new) result }
        ensures shape { SameShape self.old self.new }
    {
        match access {
            Access::Nothing => 0,
            Access::Load(number) => self.load(number),
            Access::Store(number, value) => {
                self.store(number, value);
                0
            }
            Access::Or(number, bits) => {
                self.or(number, bits);
                0
            }
            Access::SwapIf {
                place: number,
                expected,
                value,
            } => self.swap_if(number, expected, value),
            Access::Flush(number) => {
                self.flush(process, number);
                0
            }
            Access::Back => {
                self.back(process);
                0
            }
        }
    }
}

/// The constant of this crate is the limit of the definitions.
pub fn constants_are_limits()
    ensures { constants.BUFFER_ENTRIES ≡ BUFFER_MOST }
{}
