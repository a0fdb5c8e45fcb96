//! What is so of a queue at each position.

ghost use Rattle.std.specs.Prelude.{◌≡◌, ◌≢◌, ◌<◌, ◌^◌, ◌⊎◌, ◌/◌, ◌%◌, ℕ, IsTrue, length};
ghost use Rattle.ds_words.specs.declared.words.Word.{Word};
ghost use Rattle.test_pm_explore.specs.Judged.{AreTakenInOrder, HasTaken, IsLinked, IsNamedByNone, IsRight, IsRightAnswer, IsTaken, IsWord};

use ds_words::words::Word;
use pm_explore::cells::slot_of;
use pm_explore::explored::Explored;
use pm_explore::judge::Judge;
use pm_explore::position::Position;
use pm_explore::setting::Setting;
use pq::calls::{Doing, Response};
use pq::places;

/// The judge of a queue: its answers are right, and values are taken in the order in which they were linked.
pub struct QueueJudge;

// Whether a link to an operation's node is persisted.
fn is_linked(window: &[usize], words: &[Word], operation: u64) -> bool
    ensures { IsTrue result → IsLinked window.now words.now operation }
{
    for k in 0..window.len() {
        if k < words.len() && window[k] % 8 == 0 && words[k].persisted == operation {
            return true;
        }
    }
    false
}

// Whether an operation's claim on a node with this value is persisted.
fn has_taken(window: &[usize], words: &[Word], operation: u64, value: u64) -> bool
    ensures { IsTrue result → HasTaken window.now words.now operation value }
{
    for k in 0..window.len() {
        if k + 1 < words.len()
            && k + 1 < window.len()
            && window[k] % 8 == 1
            && window[k + 1] > window[k]
            && window[k + 1] - window[k] == 1
            && words[k].persisted == operation
            && words[k + 1].persisted == value
        {
            return true;
        }
    }
    false
}

// Whether the word at this place of the window is of another part of the nodes, or names another operation.
fn is_other(window: &[usize], words: &[Word], k: usize, part: usize, operation: u64) -> bool
    requires { k < length window.now }
    ensures { IsTrue result → (n : ℕ) (w : Word) → IsWord window.now words.now k n w → n % 8 ≡ part → w.cached ≢ operation }
{
    if k >= words.len() {
        return true;
    }
    let number = window[k];
    let word = words[k];
    number % 8 != part || word.cached != operation
}

// Whether no word of a part of the nodes names an operation.
fn is_named_by_none(window: &[usize], words: &[Word], part: usize, operation: u64) -> bool
    ensures { IsTrue result → IsNamedByNone window.now words.now part operation }
{
    for k in 0..window.len() {
        let other = is_other(window, words, k, part, operation);
        if !other {
            return false;
        }
    }
    true
}

// Whether what a process was answered is so.
fn is_right_answer(window: &[usize], words: &[Word], response: Response) -> bool
    ensures { IsTrue result → IsRightAnswer window.now words.now response }
{
    match response {
        Response::Enqueued { operation, .. } => is_linked(window, words, operation),
        Response::WasEnqueued { operation } => is_linked(window, words, operation),
        Response::NotEnqueued { operation } => is_named_by_none(window, words, 0, operation),
        Response::Got { operation, value } => has_taken(window, words, operation, value),
        Response::Empty { operation } => is_named_by_none(window, words, 1, operation),
        Response::NotDequeued { operation } => is_named_by_none(window, words, 1, operation),
    }
}

// Whether a node is taken.
fn is_taken(window: &[usize], words: &[Word], node: u64) -> bool
    requires { node < 2 ^ 25 }
    ensures holds { IsTrue result → IsTaken window.now words.now node }
    ensures only { IsTaken window.now words.now node → IsTrue result }
{
    let at = slot_of(window, places::taker(node));
    at < words.len() && words[at].cached != 0
}

// Whether a link with this number, to this node, leads from a taken node, if the node is taken.
fn is_in_order(window: &[usize], words: &[Word], number: usize, next: u64) -> bool
    ensures { IsTrue result → IsTaken window.now words.now next → (number ≡ 0) ⊎ IsTaken window.now words.now (number / 8) }
{
    if number == 0 {
        return true;
    }
    if number >= 33554432 || next >= 33554432 {
        return false;
    }
    !is_taken(window, words, next) || is_taken(window, words, number as u64 / 8)
}

// Whether the link at this place of the window, if one stands there, keeps the order.
fn keeps_order(window: &[usize], words: &[Word], k: usize) -> bool
    requires { k < length window.now }
    ensures { IsTrue result → (n : ℕ) (w : Word) → IsWord window.now words.now k n w → n % 8 ≡ 0 → w.cached ≢ 0 → IsTaken window.now words.now w.cached → (n ≡ 0) ⊎ IsTaken window.now words.now (n / 8) }
{
    if k >= words.len() {
        return true;
    }
    let number = window[k];
    let word = words[k];
    if number % 8 != 0 {
        return true;
    }
    if word.cached == 0 {
        return true;
    }
    is_in_order(window, words, number, word.cached)
}

// Whether what is taken is a beginning of what is linked.
fn are_taken_in_order(window: &[usize], words: &[Word]) -> bool
    ensures { IsTrue result → AreTakenInOrder window.now words.now }
{
    for k in 0..window.len() {
        let keeps = keeps_order(window, words, k);
        if !keeps {
            return false;
        }
    }
    true
}

/// Whether a position is right.
pub fn is_right(window: &[usize], x: &Position<Doing, Response>) -> bool
    ensures { IsTrue result → IsRight window.now x.now }
{
    for i in 0..x.told.len() {
        let right = is_right_answer(window, &x.cells.words, x.told[i].response);
        if !right {
            return false;
        }
    }
    are_taken_in_order(window, &x.cells.words)
}

impl<P: Explored<Doing = Doing, Response = Response>> Judge<P> for QueueJudge {
    ghost meaning = { λ judge setting x. IsRight setting.window.items x };

    fn is_right(&self, setting: &Setting<P::Key, Doing>, x: &Position<Doing, Response>) -> bool {
        is_right(&setting.window, x)
    }
}
