//! A structure whose calls can be gone through.

ghost use Rattle.std.specs.Prelude.{◌≡◌, ◌<◌, IsTrue, MatchOption};
ghost use Rattle.pm_explore.specs.Explored.{Rests, AsksFor, LandsAt};

use ds_words::access::{Access, Class};

/// Where a step leaves a process.
#[derive(Clone, Copy)]
pub struct Landed<D, T> {
    /// What the process does after the step.
    pub doing: D,
    /// What it was answered by the step, if that was the last one of its call.
    pub says: Option<T>,
}

/// A structure whose calls can be gone through: each process that does something has at most one next access, and what
/// comes after it follows from the answer.
pub trait Explored {
    ghost use Rattle.pm_base.specs.Structures.{Structure};

    /// What its layout is.
    type Key: Drop;
    /// What a process does.
    type Doing: Copy;
    /// What a process is answered.
    type Response: Copy;

    ghost structure: { Structure Self.Key Self.Doing Self.Response };

    /// Whether both are the same. Where it says no of two that are the same, one position is counted as two.
    fn same_doing(a: &Self::Doing, b: &Self::Doing) -> bool
        ensures { IsTrue result → a.now ≡ b.now };

    /// Whether both are the same, as [`Explored::same_doing`].
    fn same_response(a: &Self::Response, b: &Self::Response) -> bool
        ensures { IsTrue result → a.now ≡ b.now };

    /// How many words it has.
    fn words(key: &Self::Key) -> usize
        ensures { result ≡ structure.words key.now };

    /// How many processes it has.
    fn processes(key: &Self::Key) -> usize
        ensures { result ≡ structure.processes key.now };

    /// What a word is at first, on both sides.
    fn first_word(key: &Self::Key, word: usize) -> u64
        requires { word < structure.words key.now }
        ensures { result ≡ structure.first_word key.now word };

    /// What a process does at first.
    fn first() -> Self::Doing
        ensures { result ≡ structure.first };

    /// The class of a word.
    fn class(key: &Self::Key, word: usize) -> Class
        ensures { result ≡ structure.class_in key.now word };

    /// What a process does after a stop or a crash.
    fn stopped() -> Self::Doing
        ensures { result ≡ structure.stopped };

    /// Whether a process that does the one thing may begin the other.
    fn may_begin(key: &Self::Key, process: usize, now: Self::Doing, call: Self::Doing) -> bool
        ensures { structure.begins key.now process now call → IsTrue result };

    /// The access of a process's next step; None where it takes none.
    fn want(key: &Self::Key, process: usize, now: Self::Doing) -> Option<Access<usize>>
        ensures { MatchOption result (Rests structure key.now process now) (AsksFor structure key.now process now) };

    /// Where that step leaves it, by the word that its access answered.
    fn got(
        key: &Self::Key,
        process: usize,
        now: Self::Doing,
        word: u64,
    ) -> Landed<Self::Doing, Self::Response>
        ensures { LandsAt structure key.now process now word result };
}
