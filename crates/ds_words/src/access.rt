//! Classes of words, buffered writes, and the accesses of one step.

ghost use Rattle.std.specs.Prelude.{◌≡◌};
ghost use Rattle.ds_words.specs.Memory.{newer};

/// What decides between a word's persisted value and a buffered one (our own rule).
#[derive(Clone, Copy, Debug, Default, PartialEq, Eq)]
pub enum Class {
    /// The greater number stays.
    #[default]
    Stamped,
    /// The bits of both stay.
    Bit,
    /// The buffered value stays: only the word's owner flushes it.
    Owned,
}

/// A value on its way to the persisted side of the word at a place.
#[derive(Clone, Copy, Debug, Default, PartialEq, Eq)]
pub struct BufferEntry<P> {
    /// The place of the word.
    pub place: P,
    /// The word's class.
    pub class: Class,
    /// The value.
    pub value: u64,
}

/// What one step does to the memory: it touches at most one side of one word.
#[derive(Clone, Copy, Debug, PartialEq, Eq)]
pub enum Access<P> {
    /// Touches no word.
    Nothing,
    /// Reads the cached side.
    Load(P),
    /// Sets the cached side to a value.
    Store(P, u64),
    /// Adds bits to the cached side.
    Or(P, u64),
    /// Sets the cached side to a value where it is the expected one.
    SwapIf {
        /// The word.
        place: P,
        /// What the cached side has to be.
        expected: u64,
        /// What it becomes.
        value: u64,
    },
    /// Takes the cached side into the buffer of the process.
    Flush(P),
    /// Writes the oldest entry of the buffer of the process to the persisted side of its word.
    Back,
}

impl Class {
    /// The newer of a word's persisted value and a buffered one.
    #[inline(always)]
    pub fn newer(self, persisted: u64, buffered: u64) -> u64
        ensures { result ≡ newer self persisted buffered }
    {
        match self {
            Class::Stamped => persisted.max(buffered),
            Class::Bit => persisted | buffered,
            Class::Owned => buffered,
        }
    }
}
