//! What is gone through.

/// When a planned call may begin, where the structure lets it.
#[derive(Clone, Copy, Debug, PartialEq, Eq)]
pub enum Turn {
    /// As the process's call with this number, counted from 0.
    Own(usize),
    /// At any time, as a recovery.
    Any,
}

/// A call that a process makes.
#[derive(Clone, Copy)]
pub struct Planned<D> {
    /// The process.
    pub process: usize,
    /// When it may begin.
    pub turn: Turn,
    /// What the process does in it, at its first step.
    pub call: D,
}

/// A structure's layout, the calls that its processes make, the words that are followed, and what else may happen.
#[derive(Drop)]
pub struct Setting<K, D> {
    /// The layout.
    pub key: K,
    /// The calls.
    pub calls: Vec<Planned<D>>,
    /// The numbers of the words that the calls touch.
    pub window: Vec<usize>,
    /// Whether words are evicted.
    pub evicts: bool,
    /// Whether processes stop.
    pub stops: bool,
    /// Whether all crashes.
    pub crashes: bool,
}

/// What may happen.
#[derive(Clone, Copy, Debug, PartialEq, Eq)]
pub enum Move {
    /// The planned call with this number begins.
    Begin(usize),
    /// A process takes a step.
    Step(usize),
    /// A process stops.
    Stop(usize),
    /// A word is evicted.
    Evict(usize),
    /// All crashes.
    Crash,
}
