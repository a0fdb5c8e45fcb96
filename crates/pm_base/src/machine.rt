//! A structure and its calls, as they are driven.

ghost use Rattle.std.specs.Prelude.{◌≡◌, ◌<◌, ◌^◌, ℕ, MatchOption};

use ds_words::access::{Access, Class};

/// A structure on persistent words: by what its layout is, what a process does, and what a process is answered.
pub trait Structured {
    ghost use Rattle.pm_base.specs.Structures.{IsStructure, Structure};

    /// What its layout is.
    type Key: Drop;
    /// What a process does.
    type Doing;
    /// What a process is answered.
    type Response;

    ghost structure: { Structure Self.Key Self.Doing Self.Response };

    /// How many words it has.
    fn words(key: &Self::Key) -> usize
        requires { structure.words key.now < 2 ^ 28 }
        ensures { result ≡ structure.words key.now };

    /// How many of the first words share no line of a cache with another one: those that several processes store to. Each
    /// word after them lies beside the next one, which takes a quarter of the memory: that suits words to which one process
    /// alone stores, but for write-backs and help.
    fn apart(key: &Self::Key) -> usize
        requires { structure.words key.now < 2 ^ 28 }
        ensures { result ≡ structure.apart key.now };

    /// What a word is at first, on both sides.
    fn first_word(key: &Self::Key, word: usize) -> u64
        requires { word < structure.words key.now }
        ensures { result ≡ structure.first_word key.now word };

    /// The class of a word.
    fn class(key: &Self::Key, word: usize) -> Class
        ensures { result ≡ structure.class_in key.now word };

    /// The structure is sound: what this crate's `IsStructure` lists is proved of it.
    fn law(key: &Self::Key)
        ensures { IsStructure structure key.now };
}

/// A call of a process of a structure.
pub trait Machine<P: Structured> {
    ghost use Rattle.pm_base.specs.Structures.{AreCalls, Calls};

    /// How calls of this kind end.
    type End;

    ghost calls: { Calls P.Key P.Doing P.Response Self Self.End };

    /// How it has ended, or None where a step is left.
    fn turn(&self, key: &P::Key) -> Option<Self::End>
        requires { calls.fits key.now self.now }
        ensures { MatchOption result (calls.goes self.now) (λ end. calls.ends self.now end) };

    /// The access of its next step.
    fn want(&self, key: &P::Key) -> Access<usize>
        requires fits { calls.fits key.now self.now }
        requires goes { calls.goes self.now }
        ensures { result ≡ calls.access key.now self.now };

    /// Goes on with the word that its access answered.
    fn got(&mut self, key: &P::Key, word: u64)
        requires fits { calls.fits key.now self.old }
        requires goes { calls.goes self.old }
        ensures next { self.new ≡ calls.next self.old word }
        ensures fits { calls.fits key.now self.new }
        ensures fewer { calls.rank self.new < calls.rank self.old };

    /// Its steps are the structure's: what `AreCalls` lists is proved of them.
    fn law(key: &P::Key)
        ensures { AreCalls P.structure key.now calls };
}
