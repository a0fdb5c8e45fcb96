//! Steps of calls on words of one thread.

ghost use Rattle.std.specs.Prelude.{◌≡◌, ◌<◌, ◌↔◌, ◌^◌, ℕ, IsTrue, length};
ghost use Rattle.ds_words.specs.Words.{CanPerform, SameShape, class_at};
ghost use Rattle.pm_base.specs.Alone.{Takes};

use crate::machine::{Machine, Structured};
use ds_words::words::Words;

/// Takes one step of a call for a process, where the words let it: whether they did.
pub fn step<P: Structured, M: Machine<P>>(
    key: &P::Key,
    words: &mut Words,
    process: usize,
    call: &mut M,
) -> bool
    requires fits { M.calls.fits key.now call.old }
    requires goes { M.calls.goes call.old }
    requires process { M.calls.process call.old ≡ process }
    requires classes { (r : ℕ) → class_at words.old r ≡ P.structure.class_in key.now r }
    ensures can { IsTrue result ↔ CanPerform words.old process (M.calls.access key.now call.old) }
    ensures takes { Takes P.structure M.calls key.now words.old call.old words.new call.new result }
    ensures fits { M.calls.fits key.now call.new }
    ensures shape { SameShape words.old words.new }
{
    let asked = call.want(key);
    if !words.can_perform(process, asked) {
        return false;
    }
    let word = words.perform(process, asked);
    call.got(key, word);
    true
}
