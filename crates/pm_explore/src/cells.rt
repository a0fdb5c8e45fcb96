//! The words that a search follows, and the write-back buffers.

ghost use Rattle.std.specs.Prelude.{◌≡◌, ◌<◌, ◌≤◌, ◌∷◌, [], ℕ, IfOk, IsTrue, MatchOption, length, map, slice_set};
ghost use Rattle.ds_words.specs.declared.access.Access.TheVariants.{Load, Store, Or, SwapIf, Flush, Back};
ghost use Rattle.ds_words.specs.Words.{crashed};
ghost use Rattle.pm_explore.specs.Lists.{IsAt, slot};
ghost use Rattle.ds_words.specs.Memory.{Memory, EvictsAt, StopsAt, Crashes};
ghost use Rattle.pm_explore.specs.Cells.{Follows, ShowsCells};

use ds_words::access::{Access, BufferEntry, Class};
use ds_words::words::Word;
use std::alloc::{AllocError, Global};
use std::collections::LinkedList;

/// Words by their place in a window, which is a list of numbers of words; and the buffer of each process.
#[derive(Drop)]
pub struct Cells {
    /// Both sides of the window's words, in its order.
    pub words: Vec<Word>,
    /// What each process has flushed and not yet written back, the oldest entry first.
    pub buffers: Vec<LinkedList<BufferEntry<usize>>>,
}

/// What an access came upon.
#[derive(Clone, Copy, Debug, PartialEq, Eq)]
pub enum Seen {
    /// It was made, and answered this.
    Answer(u64),
    /// It cannot be made: the buffer is empty.
    Never,
    /// This word is not in the window. Nothing was changed.
    Outside(usize),
}

/// Where a word stands in a window; where it does not, how many words the window has.
pub fn slot_of(window: &[usize], number: usize) -> usize
    ensures { result ≡ slot window.now number }
{
    for i in 0..window.len() {
        if window[i] == number {
            return i;
        }
    }
    window.len()
}

// Whether two lists of buffers are the same.
fn same_buffers(
    a: &Vec<LinkedList<BufferEntry<usize>>>,
    b: &Vec<LinkedList<BufferEntry<usize>>>,
) -> bool
    ensures { IsTrue result → a.now.items ≡ b.now.items }
{
    a == b
}

// Whether two lists of words are the same.
fn same_words(a: &Vec<Word>, b: &Vec<Word>) -> bool
    ensures { IsTrue result → a.now.items ≡ b.now.items }
{
    a == b
}

impl Cells {
    // A word of the window.
    fn word(&self, window: &[usize], number: usize) -> Option<Word>
        ensures { MatchOption result (length self.now.words.items ≤ slot window.now number) (λ w. IsAt self.now.words.items (slot window.now number) w) }
    {
        let at = slot_of(window, number);
        if at < self.words.len() {
            Some(self.words[at])
        } else {
            None
        }
    }

    // Changes both sides of a word of the window.
    fn put(&mut self, window: &[usize], number: usize, word: Word)
        requires { slot window.now number < length self.old.words.items }
        ensures words { self.new.words.items ≡ slice_set self.old.words.items (slot window.now number) word }
        ensures buffers { self.new.buffers.items ≡ self.old.buffers.items }
    {
        let at = slot_of(window, number);
        self.words[at] = word;
    }

    // Loads a word.
    fn load(&self, window: &[usize], number: usize) -> Seen
        ensures { (class : _) (p : ℕ) → Follows window.now class (Load number) p self.now self.now result }
    {
        match self.word(window, number) {
            Some(word) => Seen::Answer(word.cached),
            None => Seen::Outside(number),
        }
    }

    // Stores a value.
    fn store(&mut self, window: &[usize], number: usize, value: u64) -> Seen
        ensures { (class : _) (p : ℕ) → Follows window.now class (Store number value) p self.old self.new result }
    {
        let Some(word) = self.word(window, number) else {
            return Seen::Outside(number);
        };
        let stored = Word {
            cached: value,
            persisted: word.persisted,
        };
        self.put(window, number, stored);
        Seen::Answer(0)
    }

    // Adds bits.
    fn or(&mut self, window: &[usize], number: usize, bits: u64) -> Seen
        ensures { (class : _) (p : ℕ) → Follows window.now class (Or number bits) p self.old self.new result }
    {
        let Some(word) = self.word(window, number) else {
            return Seen::Outside(number);
        };
        let more = Word {
            cached: word.cached | bits,
            persisted: word.persisted,
        };
        self.put(window, number, more);
        Seen::Answer(0)
    }

    // Stores a value where the word is the expected one.
    fn swap_if(&mut self, window: &[usize], number: usize, expected: u64, value: u64) -> Seen
        ensures { (class : _) (p : ℕ) → Follows window.now class (SwapIf number expected value) p self.old self.new result }
    {
        let Some(word) = self.word(window, number) else {
            return Seen::Outside(number);
        };
        if word.cached != expected {
            return Seen::Answer(word.cached);
        }
        let swapped = Word {
            cached: value,
            persisted: word.persisted,
        };
        self.put(window, number, swapped);
        Seen::Answer(word.cached)
    }

    // Takes a word into the buffer of a process.
    fn flush(
        &mut self,
        window: &[usize],
        class: Class,
        process: usize,
        number: usize,
    ) -> Result<Seen, AllocError>
        requires { process < length self.old.buffers.items }
        ensures { IfOk result (λ seen. Follows window.now class (Flush number) process self.old self.new seen) }
    {
        let Some(word) = self.word(window, number) else {
            return Ok(Seen::Outside(number));
        };
        let buffer = &mut self.buffers[process];
        buffer.push_back(BufferEntry {
            place: number,
            class,
            value: word.cached,
        })?;
        Ok(Seen::Answer(0))
    }

    // The oldest entry of a buffer.
    fn oldest(&self, process: usize) -> Option<BufferEntry<usize>>
        requires { process < length self.now.buffers.items }
        ensures { MatchOption result (IsAt self.now.buffers.items process []) (λ e. (rest : _) × IsAt self.now.buffers.items process (e ∷ rest)) }
    {
        let buffer = &self.buffers[process];
        buffer.front().copied()
    }

    // Drops the oldest entry of a buffer.
    fn drop_oldest(&mut self, process: usize)
        requires { process < length self.old.buffers.items }
        ensures words { self.new.words.items ≡ self.old.words.items }
        ensures buffers { (e : _) (rest : _) → IsAt self.old.buffers.items process (e ∷ rest) → self.new.buffers.items ≡ slice_set self.old.buffers.items process rest }
    {
        let buffer = &mut self.buffers[process];
        let _oldest = buffer.pop_front();
    }

    // Writes back the oldest entry of a buffer.
    fn back(&mut self, window: &[usize], process: usize) -> Seen
        requires { process < length self.old.buffers.items }
        ensures { (class : _) → Follows window.now class Back process self.old self.new result }
    {
        let Some(entry) = self.oldest(process) else {
            return Seen::Never;
        };
        let Some(word) = self.word(window, entry.place) else {
            return Seen::Outside(entry.place);
        };
        let written = Word {
            cached: word.cached,
            persisted: entry.class.newer(word.persisted, entry.value),
        };
        self.drop_oldest(process);
        self.put(window, entry.place, written);
        Seen::Answer(0)
    }

    /// An access of a process. `class` is that of the word that it flushes, if it flushes one. An error means that an
    /// allocation failed.
    pub fn perform(
        &mut self,
        window: &[usize],
        class: Class,
        process: usize,
        access: Access<usize>,
    ) -> Result<Seen, AllocError>
        requires { process < length self.old.buffers.items }
        ensures { IfOk result (λ seen. Follows window.now class access process self.old self.new seen) }
    {
        match access {
            Access::Nothing => Ok(Seen::Answer(0)),
            Access::Load(number) => Ok(self.load(window, number)),
            Access::Store(number, value) => Ok(self.store(window, number, value)),
            Access::Or(number, bits) => Ok(self.or(window, number, bits)),
            Access::SwapIf {
                place,
                expected,
                value,
            } => Ok(self.swap_if(window, place, expected, value)),
            Access::Flush(number) => self.flush(window, class, process, number),
            Access::Back => Ok(self.back(window, process)),
        }
    }

    /// Whether both sides of a word are the same, or it is not in the window.
    pub fn is_clean(&self, window: &[usize], number: usize) -> bool
        ensures { IsTrue result → (m : Memory ℕ) (m' : Memory ℕ) → ShowsCells window.now self.now m → EvictsAt number m m' → ShowsCells window.now self.now m' }
    {
        match self.word(window, number) {
            Some(word) => word.cached == word.persisted,
            None => true,
        }
    }

    /// The persisted side of a word becomes its cached side. A word that is not in the window changes no cell.
    pub fn evict(&mut self, window: &[usize], number: usize)
        ensures { (m : Memory ℕ) (m' : Memory ℕ) → ShowsCells window.now self.old m → EvictsAt number m m' → ShowsCells window.now self.new m' }
    {
        if let Some(word) = self.word(window, number) {
            let evicted = Word {
                cached: word.cached,
                persisted: word.cached,
            };
            self.put(window, number, evicted);
        }
    }

    /// The buffer of a process is lost.
    pub fn stop(&mut self, process: usize)
        requires { process < length self.old.buffers.items }
        ensures { (window : _) (m : Memory ℕ) (m' : Memory ℕ) → ShowsCells window self.old m → StopsAt process m m' → ShowsCells window self.new m' }
    {
        let buffer = &mut self.buffers[process];
        buffer.clear();
    }

    // Each cached side becomes the persisted one.
    fn lose_cached(&mut self)
        ensures words { self.new.words.items ≡ map crashed self.old.words.items }
        ensures buffers { self.new.buffers.items ≡ self.old.buffers.items }
    {
        for i in 0..self.words.len() {
            let persisted = self.words[i].persisted;
            self.words[i] = Word {
                cached: persisted,
                persisted,
            };
        }
    }

    // Each buffer is emptied.
    fn lose_buffers(&mut self)
        ensures words { self.new.words.items ≡ self.old.words.items }
        ensures buffers { self.new.buffers.items ≡ map (λ b. []) self.old.buffers.items }
    {
        for i in 0..self.buffers.len() {
            let buffer = &mut self.buffers[i];
            buffer.clear();
        }
    }

    /// Each cached side becomes the persisted one, and each buffer is lost.
    pub fn crash(&mut self)
        ensures { (window : _) (m : Memory ℕ) (m' : Memory ℕ) → ShowsCells window self.old m → Crashes m m' → ShowsCells window self.new m' }
    {
        self.lose_cached();
        self.lose_buffers();
    }

    /// Equal cells, in memory of their own. An error means that an allocation failed.
    pub fn copy(&self) -> Result<Cells, AllocError>
        ensures { IfOk result (λ c. (c.words.items ≡ self.now.words.items) × (c.buffers.items ≡ self.now.buffers.items)) }
    {
        Ok(Cells {
            words: self.words.clone()?,
            buffers: self.buffers.clone()?,
        })
    }

    /// Whether both are the same.
    pub fn is_like(&self, other: &Cells) -> bool
        ensures { IsTrue result → (self.now.words.items ≡ other.now.words.items) × (self.now.buffers.items ≡ other.now.buffers.items) }
    {
        same_words(&self.words, &other.words) && same_buffers(&self.buffers, &other.buffers)
    }
}
