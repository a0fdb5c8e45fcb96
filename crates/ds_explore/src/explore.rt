//! All orders of the steps of calls, and what they come to.

ghost use Rattle.std.specs.Prelude.{◌≡◌, ◌≢◌, Bool, true, IfOk, List, ℕ};
ghost use Rattle.std.specs.Io.KnownBytes.{Appends};
ghost use Rattle.ds_script_io.specs.Streams.{writer_of, is_flushed, write_failed};
ghost use Rattle.ds_explore.specs.Explored.{end_lacking, end_of, exploration_text, wrong_in};
ghost use Rattle.ds_explore.specs.Whole.{Explores, IsExploration};
ghost use Rattle.ds_explore.specs.declared.options.Options.{Options};

use crate::exploration::{Exploration, Unexplored, explored};
use crate::options::{Options, Watcher};
use ds_script_io::ending::ScriptFault;
use ds_script_io::streams::Writing;
use std::alloc::Global;
use std::fmt;
use std::io::Write;

/// How an exploration ended.
#[derive(Clone, Copy, Debug, PartialEq, Eq)]
pub enum ExploreEnd {
    /// All orders were gone through, and nothing is wrong with what they come to.
    Ended,
    /// All orders were gone through, and something is wrong: the lines that begin with `wrong` say what.
    Wrong,
    /// There are more states than may be gone through. The outcomes that were found until then are written, with as many
    /// orders as were found: the first one also where that is none.
    TooManyStates,
    /// This line of the script, counted from 1, has a fault. Nothing is written.
    Fault { line: usize, kind: ScriptFault },
    /// The script is longer than 1,048,576 bytes. Nothing is written.
    TooLong,
    /// The script of an outcome would be longer than that. Nothing is written.
    FoundTooLong,
    /// The writer failed.
    WriteFailed,
    /// An allocation failed, two outcomes are the same, or the states or the outcomes that were found are not all. Nothing
    /// is written.
    NoMemory,
}

impl fmt::Display for ExploreEnd {
    ghost use Rattle.std.specs.Prelude.{Some};
    ghost use Rattle.ds_explore.specs.Explored.{end_text};

    ghost output = { λ end. Some (end_text end) };

    fn fmt<W: fmt::Write>(&self, f: &mut fmt::Formatter<W>) -> fmt::Result {
        match self {
            ExploreEnd::Ended => f.write_str("ended"),
            ExploreEnd::Wrong => f.write_str(
                "something is wrong: see the lines that begin with wrong",
            ),
            ExploreEnd::TooManyStates => f.write_str(
                "more states than may be gone through: what was found until then is written",
            ),
            ExploreEnd::Fault { line, kind } => write!(f, "line {line}: {kind}"),
            ExploreEnd::TooLong => f.write_str("script too long: more than 1048576 bytes"),
            ExploreEnd::FoundTooLong => {
                f.write_str("the script of an outcome would be too long: more than 1048576 bytes")
            }
            ExploreEnd::WriteFailed => f.write_str("an outcome could not be written"),
            ExploreEnd::NoMemory => f.write_str("out of memory"),
        }
    }
}

// How an exploration ends whose outcomes are written.
fn ending(is_cut: bool, wrong: bool) -> ExploreEnd
    ensures { result ≡ end_of is_cut wrong }
{
    if is_cut {
        ExploreEnd::TooManyStates
    } else if wrong {
        ExploreEnd::Wrong
    } else {
        ExploreEnd::Ended
    }
}

impl Exploration {
    /// How it ends, where it is written.
    pub fn end(&self) -> ExploreEnd
        ensures { result ≡ end_of self.now.is_cut (wrong_in self.now) }
    {
        ending(self.is_cut, self.is_wrong())
    }
}

impl Unexplored {
    /// How an exploration ends that there is not.
    pub fn end(self) -> ExploreEnd
        ensures { result ≡ end_lacking self }
    {
        match self {
            Unexplored::Fault { line, kind } => ExploreEnd::Fault { line, kind },
            Unexplored::TooLong => ExploreEnd::TooLong,
            Unexplored::FoundTooLong => ExploreEnd::FoundTooLong,
            Unexplored::NoMemory => ExploreEnd::NoMemory,
        }
    }
}

// Writes what was found.
fn write_found<W: Write>(
    alloc: Global,
    exploration: &Exploration,
    writer: &mut Writing<W>,
) -> ExploreEnd
    ensures no_failure { result ≢ ExploreEnd.WriteFailed → write_failed writer.new ≡ write_failed writer.old }
    ensures write_failed { result ≡ ExploreEnd.WriteFailed → write_failed writer.new ≡ true }
    ensures writes { (script : List ℕ) (options : Options) → IsExploration script options exploration.now → result ≢ ExploreEnd.WriteFailed
        → (out : List ℕ) × Appends (W.contents (writer_of writer.old)) (W.contents (writer_of writer.new)) out × Explores script options out result }
{
    let Ok(text) = exploration.text(alloc) else {
        return ExploreEnd::NoMemory;
    };
    match writer.write_all(&text) {
        Ok(()) => exploration.end(),
        Err(_) => ExploreEnd::WriteFailed,
    }
}

// Goes through all orders, and writes what they come to.
fn explore_all<W: Write, T: Watcher>(
    alloc: Global,
    script: &[u8],
    options: Options,
    writer: &mut Writing<W>,
    watcher: &mut T,
) -> ExploreEnd
    ensures no_failure { result ≢ ExploreEnd.WriteFailed → write_failed writer.new ≡ write_failed writer.old }
    ensures write_failed { result ≡ ExploreEnd.WriteFailed → write_failed writer.new ≡ true }
    ensures writes { result ≢ ExploreEnd.WriteFailed → (out : List ℕ) × Appends (W.contents (writer_of writer.old)) (W.contents (writer_of writer.new)) out
        × Explores script.now options out result }
{
    match explored(alloc, script, options, watcher) {
        Ok(exploration) => write_found(alloc, &exploration, writer),
        Err(why) => why.end(),
    }
}

/// Explores a script, as `explored` does, and writes what it comes to: how many states and orders there are, and then each
/// outcome once: how many orders lead to it, what is wrong with it where something is, and a script of a shortest of these
/// orders, with what `run_script` writes for it. The first outcome is that of the calls one after another, in the order of
/// their processes. Numbers of orders end at 2^128 - 1.
pub fn explore<W: Write, T: Watcher>(
    alloc: Global,
    script: &[u8],
    options: Options,
    writer: &mut Writing<W>,
    watcher: &mut T,
) -> ExploreEnd
    ensures no_failure { result ≢ ExploreEnd.WriteFailed → write_failed writer.new ≡ write_failed writer.old }
    ensures write_failed { result ≡ ExploreEnd.WriteFailed → write_failed writer.new ≡ true }
    ensures flushed { is_flushed writer.old ≡ true → result ≢ ExploreEnd.WriteFailed → is_flushed writer.new ≡ true }
    ensures writes { result ≢ ExploreEnd.WriteFailed → (out : List ℕ) × Appends (W.contents (writer_of writer.old)) (W.contents (writer_of writer.new)) out
        × Explores script.now options out result }
{
    let end = explore_all(alloc, script, options, writer, watcher);
    match writer.flush() {
        Ok(()) => end,
        Err(_) => ExploreEnd::WriteFailed,
    }
}
