//! Which events are kept, and which words are shown.

ghost use Rattle.std.specs.Prelude.{◌≡◌, ◌++◌, ◌∷◌, ◌&&◌, ◌||◌, ◌<◌, [], ℕ, All, Contains, IfOk, OnOk, if◌then◌else◌, length, true};
ghost use Rattle.ds_trace_brief.specs.Keeping.{deciding, ends_at, goes_on, has_turned, is_ending, is_of, keeps, kept, place_at, sorted_below, turns, turns_at, turns_below};

use ds_core::reply::Reply;
use ds_layout::place::Place;
use ds_trace::row::{Happening, Trace, TraceRow};
use ds_trace_scene::columns::{word_after, word_before};
use ds_words::words::Word;
use std::alloc::{AllocError, Global};

/// A sort of the words that decide what became of an edit.
#[derive(Clone, Copy, Debug, PartialEq, Eq)]
pub enum Decider {
    /// Heads: which edit a cell has.
    Head,
    /// Announcements: what a recovery finds of a process's last edit.
    Announcement,
    /// Marks: whether a cell has yet to be recalculated.
    Mark,
}

/// The place of the word with this number; the version, where there is no such word.
pub fn place_at(trace: &Trace, number: usize) -> Place
    ensures { result ≡ place_at trace.now number }
{
    if number < trace.places.len() {
        trace.places[number]
    } else {
        Place::Version
    }
}

// Whether a word turns from the one to the other.
fn turns(place: Place, old: Word, new: Word) -> bool
    ensures { result ≡ turns place old new }
{
    match place {
        Place::Head(_) => old.cached != new.cached || old.persisted != new.persisted,
        Place::Announce(_) | Place::Mark(_) => old.persisted != new.persisted,
        Place::Version | Place::Value(_) | Place::Kind(_) => false,
        Place::Index { row: _, part: _ } => false,
        Place::Header {
            process: _,
            number: _,
        } => false,
        Place::Text {
            edition: _,
            process: _,
            number: _,
            part: _,
        } => false,
        Place::Done {
            process: _,
            part: _,
        } => false,
    }
}

// Whether the word with this number turns by the event, counted from 0.
fn turns_at(trace: &Trace, number: usize, event: usize) -> bool
    ensures { result ≡ turns_at trace.now number event }
{
    turns(
        place_at(trace, number),
        word_before(trace, number, event),
        word_after(trace, number, event),
    )
}

// Whether the reply says that a call goes on.
fn goes_on(reply: Reply) -> bool
    ensures { result ≡ goes_on reply }
{
    match reply {
        Reply::Stepped => true,
        Reply::Begun(_) | Reply::Entered | Reply::Refused(_) | Reply::Answered(_) => false,
        Reply::WrongTask | Reply::Evicted | Reply::Stopped | Reply::Crashed => false,
        Reply::NotEnabled => false,
    }
}

// Whether what happened is more than a step.
fn is_ending(what: Happening, reply: Reply) -> bool
    ensures { result ≡ is_ending what reply }
{
    match what {
        Happening::Begins(_, _) | Happening::Stops(_) | Happening::Crashes => true,
        Happening::Steps(_, _) => !goes_on(reply),
        Happening::TakesEntry(_) | Happening::Evicts(_) => false,
    }
}

fn is_ending_row(row: &TraceRow) -> bool
    ensures { result ≡ is_ending row.now.what row.now.reply }
{
    is_ending(row.what, row.reply)
}

// Whether the event is more than a step.
fn ends_at(trace: &Trace, event: usize) -> bool
    requires { event < length trace.now.rows.items }
    ensures { result ≡ ends_at trace.now event }
{
    is_ending_row(&trace.rows[event])
}

// Whether one of the two is so.
fn either(one: bool, other: bool) -> bool
    ensures { result ≡ (one || other) }
{
    one || other
}

// Whether one of the words turns by the event.
fn turns_one(trace: &Trace, event: usize) -> bool
    ensures { result ≡ turns_below trace.now event (length trace.now.places.items) }
{
    let mut one = false;
    for number in 0..trace.places.len() {
        one = either(one, turns_at(trace, number, event));
    }
    one
}

// Whether the event is kept.
fn keeps(trace: &Trace, event: usize) -> bool
    requires { event < length trace.now.rows.items }
    ensures { result ≡ keeps trace.now event }
{
    ends_at(trace, event) || turns_one(trace, event)
}

// Appends the number, where it is one of them.
fn add_if(numbers: &mut Vec<usize>, number: usize, is_one: bool) -> Result<(), AllocError>
    ensures { OnOk result (numbers.new.items ≡ (if is_one then numbers.old.items ++ number ∷ [] else numbers.old.items)) }
{
    if is_one {
        numbers.push(number)?;
    }
    Ok(())
}

/// The events that are kept, by their numbers from 0, in their order: begins, answers, refusals, stops and crashes; and
/// each other one by which a head turns, or what a crash would leave of an announcement or a mark. An error means that
/// an allocation failed.
pub fn kept(alloc: Global, trace: &Trace) -> Result<Vec<usize>, AllocError>
    ensures events { IfOk result (λ events. events.items ≡ kept trace.now) }
    ensures within { IfOk result (λ events. All (λ event. event < length trace.now.rows.items) events.items) }
    ensures none_left_out { (number event : ℕ) → number < length trace.now.places.items → event < length trace.now.rows.items → turns_at trace.now number event ≡ true
        → IfOk result (λ events. Contains events.items event) }
{
    let mut events = Vec::new(alloc);
    for event in 0..trace.rows.len() {
        add_if(&mut events, event, keeps(trace, event))?;
    }
    Ok(events)
}

// Whether the word of the place is of this sort.
fn is_of(sort: Decider, place: Place) -> bool
    ensures { result ≡ is_of sort place }
{
    match (sort, place) {
        (Decider::Head, Place::Head(_)) => true,
        (Decider::Announcement, Place::Announce(_)) => true,
        (Decider::Mark, Place::Mark(_)) => true,
        _ => false,
    }
}

// Whether the word with this number turns in the run.
fn has_turned(trace: &Trace, number: usize) -> bool
    ensures { result ≡ has_turned trace.now number (length trace.now.rows.items) }
{
    let mut has = false;
    for event in 0..trace.rows.len() {
        has = either(has, turns_at(trace, number, event));
    }
    has
}

// Whether the word with this number is of the sort, and turns in the run.
fn decides(trace: &Trace, sort: Decider, number: usize) -> bool
    ensures { result ≡ (is_of sort (place_at trace.now number) && has_turned trace.now number (length trace.now.rows.items)) }
{
    is_of(sort, place_at(trace, number)) && has_turned(trace, number)
}

// Appends the words of the sort that turn in the run.
fn add(numbers: &mut Vec<usize>, trace: &Trace, sort: Decider) -> Result<(), AllocError>
    ensures { OnOk result (numbers.new.items ≡ numbers.old.items ++ sorted_below sort trace.now (length trace.now.places.items)) }
{
    for number in 0..trace.places.len() {
        add_if(numbers, number, decides(trace, sort, number))?;
    }
    Ok(())
}

/// The words that decide, by their numbers: the heads that turn in the run, then such announcements, then such marks. An
/// error means that an allocation failed.
pub fn deciding(alloc: Global, trace: &Trace) -> Result<Vec<usize>, AllocError>
    ensures { IfOk result (λ numbers. numbers.items ≡ deciding trace.now) }
{
    let mut numbers = Vec::new(alloc);
    add(&mut numbers, trace, Decider::Head)?;
    add(&mut numbers, trace, Decider::Announcement)?;
    add(&mut numbers, trace, Decider::Mark)?;
    Ok(numbers)
}
