//! The mark, as a structure, and the calls that raise it.

ghost use Rattle.std.specs.Prelude.{◌≡◌};
ghost use Rattle.pm_mark.specs.Marks.{raise_next, mark, raises};
ghost use Rattle.pm_base.specs.Structures.{AreCalls, IsStructure, KindBegins, KindSteps};

use ds_words::access::{Access, Class};
use pm_base::machine::{Machine, Structured};

/// Where a raise is.
#[derive(Clone, Copy, Debug, PartialEq, Eq)]
pub enum Stage {
    /// It loads the mark.
    Load,
    /// It swaps the mark from this value to its own.
    Swap(u64),
    /// It flushes the mark.
    Flush,
    /// It writes the mark back.
    Back,
    /// The mark is up, and no crash takes that back.
    Done,
    /// Another process was faster.
    Lost,
}

/// A process raises the mark.
#[derive(Clone, Copy, Debug, PartialEq, Eq)]
pub struct Raise {
    /// The process.
    pub process: usize,
    /// The value to which it raises the mark, if that is lower.
    pub value: u64,
    /// Where it is.
    pub stage: Stage,
}

/// What a process does.
#[derive(Clone, Copy, Debug, PartialEq, Eq)]
pub enum Doing {
    /// Nothing.
    Idle,
    /// It is in this raise.
    Raising(Raise),
}

/// A mark that several processes raise. The key says how many.
pub struct Mark;

// A raise that begins keeps the mark sound.
fn raises_begin(processes: usize)
    ensures { KindBegins mark processes raises }
{}

// Each step of a raise keeps the mark sound, and answers the truth.
fn raises_step(processes: usize)
    ensures { KindSteps mark processes raises }
{}

// What the mark owes.
fn mark_is_a_structure(processes: usize)
    ensures { IsStructure mark processes }
{
    raises_begin(processes);
    raises_step(processes);
}

// What its raises owe.
fn raises_are_calls(processes: usize)
    ensures { AreCalls mark processes raises }
{}

impl Structured for Mark {
    type Key = usize;

    type Doing = Doing;

    type Response = u64;

    ghost use Rattle.pm_mark.specs.Marks.{mark};

    ghost structure = { mark };

    fn words(key: &usize) -> usize {
        let _key = key;
        1
    }

    fn apart(key: &usize) -> usize {
        let _key = key;
        1
    }

    fn first_word(key: &usize, word: usize) -> u64 {
        let (_key, _word) = (key, word);
        0
    }

    fn class(key: &usize, word: usize) -> Class {
        let (_key, _word) = (key, word);
        Class::Stamped
    }

    fn law(key: &usize) {
        mark_is_a_structure(*key);
    }
}

impl Machine<Mark> for Raise {
    type End = bool;

    ghost use Rattle.pm_mark.specs.Marks.{raises};

    ghost calls = { raises };

    fn turn(&self, key: &usize) -> Option<bool> {
        let _key = key;
        match self.stage {
            Stage::Done => Some(true),
            Stage::Lost => Some(false),
            _ => None,
        }
    }

    fn want(&self, key: &usize) -> Access<usize> {
        let _key = key;
        match self.stage {
            Stage::Load => Access::Load(0),
            Stage::Swap(seen) => Access::SwapIf {
                place: 0,
                expected: seen,
                value: self.value,
            },
            Stage::Flush => Access::Flush(0),
            Stage::Back => Access::Back,
            Stage::Done => Access::Nothing,
            Stage::Lost => Access::Nothing,
        }
    }

    fn got(&mut self, key: &usize, word: u64) {
        let _key = key;
        self.stage = match self.stage {
            Stage::Load => if word < self.value {
                Stage::Swap(word)
            } else {
                Stage::Flush
            },
            Stage::Swap(seen) => if word == seen {
                Stage::Flush
            } else {
                Stage::Lost
            },
            Stage::Flush => Stage::Back,
            Stage::Back => Stage::Done,
            Stage::Done => Stage::Done,
            Stage::Lost => Stage::Lost,
        };
    }

    fn law(key: &usize) {
        raises_are_calls(*key);
    }
}
