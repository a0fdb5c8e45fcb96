//! The mark of a cell: whether it is clean, marked or held.

ghost use Rattle.std.specs.Prelude.{◌≡◌, ◌<◌, ◌≤◌, ◌/◌, ◌%◌, ℕ, true, bit_or};
ghost use Rattle.ds_layout.specs.Mark.{CanPack, holder_code, mark_word, mark_of, state_of};

/// The bit of a mark's word that makes the cell dirty.
pub const DIRTY: u64 = 1;

/// A mark: the generation grows with each change of the holder, and `dirty` asks for a new value.
#[derive(Clone, Copy, Debug, PartialEq, Eq)]
pub struct Mark {
    /// How often the holder changed, from 0.
    pub generation: u64,
    /// The process that works on the cell.
    pub holder: Option<usize>,
    /// Whether the cell is due for a new value.
    pub dirty: bool,
}

/// What a mark says of its cell.
#[derive(Clone, Copy, Debug, PartialEq, Eq)]
pub enum State {
    /// No work is due.
    Clean,
    /// Work is due.
    Marked,
    /// This process works on it, dirty or not.
    Held(usize),
}

impl Mark {
    ghost use Rattle.ds_layout.specs.declared.mark.Mark.{Mark};

    /// The mark's word, `generation * 32 + holder * 2 + dirty`, where the holder is 0 for nobody,
    /// else the process + 1 (our own rule): a greater generation gives a greater word. The
    /// generation is below 2^59, the process below 15.
    pub fn word(self) -> u64
        requires { CanPack self }
        ensures value { result ≡ mark_word self }
        ensures reads_back { (processes : ℕ) → holder_code self.holder ≤ processes
            → mark_of processes result ≡ self }
        ensures grows { (other : Mark) → CanPack other → other.generation < self.generation
            → mark_word other < result }
    {
        let holder = match self.holder {
            None => 0,
            Some(process) => process as u64 + 1,
        };
        self.generation * 32 + holder * 2 + self.dirty as u64
    }

    /// What a mark's word says in a sheet with that number of processes: a holder that is none of them is
    /// read as nobody.
    #[inline(always)]
    pub fn read(word: u64, processes: usize) -> Mark
        ensures value { result ≡ mark_of processes word }
        ensures packs { processes < 16 → CanPack result }
        ensures holder { holder_code result.holder ≤ processes }
        ensures word { word / 2 % 16 ≤ processes → mark_word result ≡ word }
    {
        let holder = (word / 2 % 16) as usize;
        Mark {
            generation: word / 32,
            holder: if holder == 0 || holder > processes {
                None
            } else {
                Some(holder - 1)
            },
            dirty: word % 2 == 1,
        }
    }

    /// The mark, dirty: its word is the mark's with the bit `DIRTY` added.
    pub fn dirtied(self) -> Mark
        ensures value { result ≡ record self { dirty = true } }
        ensures word { mark_word result ≡ bit_or (mark_word self) DIRTY }
    {
        Mark {
            dirty: true,
            ..self
        }
    }

    /// Whether the cell is clean, marked or held.
    #[inline(always)]
    pub fn state(self) -> State
        ensures { result ≡ state_of self }
    {
        match self.holder {
            Some(process) => State::Held(process),
            None => if self.dirty {
                State::Marked
            } else {
                State::Clean
            },
        }
    }
}
