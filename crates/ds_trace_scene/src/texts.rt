//! The texts of a recording's rows.

ghost use Rattle.std.specs.Prelude.{◌≡◌, ◌≢◌, ◌↔◌, ◌++◌, ◌+◌, ◌<◌, All, IfOk, IfSome, IsTrue, None, OnOk, Some, codes, length, nat_lt, slice_get, string_bytes};
ghost use Rattle.std.specs.Fmt.{decimal};
ghost use Rattle.ds_trace_scene.specs.Columns.{word_after, word_before};
ghost use Rattle.ds_trace_scene.specs.Texts.{IsRowText, IsStepText, IsWordAt, call_text, counted_after, counted_before, crash_text, fails, is_written_back, one_line, place_touched, step_end, verb, written_back};

use crate::columns::{NO_WORD, Passage, PassageEnd, word_after, word_before};
use crate::meaning::meaning;
use crate::names::place_name;
use ds_core::reply::Reply;
use ds_layout::layout::Layout;
use ds_layout::place::Place;
use ds_trace::row::{Begin, Happening, Trace, TraceRow};
use ds_trace::trace::place_named;
use ds_words::access::Access;
use ds_words::words::Word;
use std::alloc::{AllocError, Global};

// Appends the lines of an answer as one: a bar parts them.
fn put_one_line(line: &mut Vec<u8>, answer: &[u8]) -> Result<(), AllocError>
    ensures { OnOk result (line.new.items ≡ line.old.items ++ one_line answer.now) }
{
    let mut rest = answer;
    while let [byte, after @ ..] = rest {
        if *byte != b'\n' {
            line.push(*byte)?;
        } else if !after.is_empty() {
            line.extend_from_slice(b" | ")?;
        }
        rest = after;
    }
    Ok(())
}

/// The lines of an answer as one: a bar parts them.
pub fn one_line(alloc: Global, answer: &[u8]) -> Result<Vec<u8>, AllocError>
    ensures { IfOk result (λ line. line.items ≡ one_line answer.now) }
{
    let mut line = Vec::new(alloc);
    put_one_line(&mut line, answer)?;
    Ok(line)
}

// The text of a call that begins.
fn call_text(alloc: Global, begin: Begin, text: &[u8]) -> Result<Vec<u8>, AllocError>
    ensures { IfOk result (λ line. line.items ≡ call_text begin text.now) }
{
    match begin {
        Begin::Edit(cell) => {
            let mut line = format!(in alloc; "set {cell} ")?.into_bytes();
            line.extend_from_slice(text)?;
            Ok(line)
        }
        Begin::Work(cell) => Ok(format!(in alloc; "work {cell}")?.into_bytes()),
        Begin::Show => Ok(format!(in alloc; "report")?.into_bytes()),
        Begin::Recovery => Ok(format!(in alloc; "recover")?.into_bytes()),
        Begin::Migration => Ok(format!(in alloc; "migrate")?.into_bytes()),
    }
}

// What an access does.
fn verb(access: Access<Place>) -> &'static str
    ensures { result.now ≡ verb access }
{
    match access {
        Access::Nothing => "read the text",
        Access::Load(_) => "load",
        Access::Store(_, _) => "store",
        Access::Or(_, _) => "set bits of",
        Access::SwapIf {
            place: _,
            expected: _,
            value: _,
        } => "swap",
        Access::Flush(_) => "flush",
        Access::Back => "write back",
    }
}

// Whether the places are the same.
fn are_same(place: Place, other: Place) -> bool
    ensures { IsTrue result ↔ place ≡ other }
{
    place == other
}

// The number of a place in the recording, if that looks at it.
fn number_of(trace: &Trace, place: Place) -> Option<usize>
    ensures some { IfSome result (λ number. slice_get trace.now.places.items number ≡ Some place) }
    ensures none { result ≡ None → All (λ other. other ≢ place) trace.now.places.items }
{
    for number in 0..trace.places.len() {
        if are_same(trace.places[number], place) {
            return Some(number);
        }
    }
    None
}

/// Both sides of a word before the event with this number, from 0, and after it; zeros, where the recording does not look
/// at the word.
pub fn sides_at(trace: &Trace, event: usize, place: Place) -> (Word, Word)
    ensures before { IsWordAt trace.now place (λ number. word_before trace.now number event) result.0 }
    ensures after { IsWordAt trace.now place (λ number. word_after trace.now number event) result.1 }
{
    match number_of(trace, place) {
        Some(number) => (
            word_before(trace, number, event),
            word_after(trace, number, event),
        ),
        None => (NO_WORD, NO_WORD),
    }
}

// Whether the entry was written back.
fn is_written_back(end: PassageEnd) -> bool
    ensures { result ≡ is_written_back end }
{
    match end {
        PassageEnd::WrittenBack => true,
        PassageEnd::Lost | PassageEnd::Buffered => false,
    }
}

// The place that a process writes back on a line.
fn written_back(passages: &[Passage], process: usize, line: usize) -> Option<Place>
    ensures { result ≡ written_back passages.now process line }
{
    for passage in passages {
        if passage.process == process && passage.to == line && is_written_back(passage.end) {
            return Some(passage.place);
        }
    }
    None
}

/// The word that is named or written back by what happened at the line.
pub fn place_at(passages: &[Passage], line: usize, what: Happening) -> Option<Place>
    ensures { result ≡ place_touched passages.now line what }
{
    match what {
        Happening::Steps(process, Access::Back) => written_back(passages, process, line),
        what => place_named(what),
    }
}

// Whether the access is a swap that finds another word.
fn fails(access: Access<Place>, before: Word) -> bool
    ensures { result ≡ fails access before }
{
    match access {
        Access::SwapIf {
            place: _,
            expected,
            value: _,
        } => before.cached != expected,
        _ => false,
    }
}

// What is said of a step after its word.
fn step_end(access: Access<Place>, before: Word, counts: bool) -> &'static str
    ensures { result.now ≡ step_end access before counts }
{
    if fails(access, before) {
        ": another word is there"
    } else if counts {
        ": the edit counts"
    } else {
        ""
    }
}

// How many edits are linearized after the event with this number.
fn counted_after(trace: &Trace, event: usize) -> usize
    ensures { result ≡ counted_after trace.now event }
{
    if event < trace.rows.len() {
        trace.rows[event].counted
    } else {
        0
    }
}

// How many edits are linearized before the event with this number.
fn counted_before(trace: &Trace, event: usize) -> usize
    ensures { result ≡ counted_before trace.now event }
{
    if event == 0 {
        0
    } else {
        counted_after(trace, event - 1)
    }
}

// Whether an edit is linearized by an event after which there are as many.
fn counts(trace: &Trace, event: usize, counted: usize) -> bool
    ensures { result ≡ nat_lt (counted_before trace.now event) counted }
{
    counted_before(trace, event) < counted
}

// The text of a step that goes on, after which as many edits are linearized.
fn step_text(
    alloc: Global,
    trace: &Trace,
    event: usize,
    access: Access<Place>,
    place: Option<Place>,
    counted: usize,
) -> Result<Vec<u8>, AllocError>
    ensures { IfOk result (λ text. IsStepText trace.now event access counted place text.items) }
{
    let verb = verb(access);
    let Some(place) = place else {
        return Ok(format!(in alloc; "{verb}")?.into_bytes());
    };
    let (before, _) = sides_at(trace, event, place);
    let name = place_name(alloc, trace.layout, place)?;
    let end = step_end(access, before, counts(trace, event, counted));
    Ok(format!(in alloc; "{verb} {name}{end}")?.into_bytes())
}

// The text of a crash that takes back as many edits.
fn crash_text(alloc: Global, taken: usize) -> Result<Vec<u8>, AllocError>
    ensures { IfOk result (λ text. text.items ≡ crash_text taken) }
{
    if taken == 0 {
        return Ok(format!(in alloc; "crash")?.into_bytes());
    }
    Ok(format!(in alloc; "crash: edits that counted and are taken back: {taken}")?.into_bytes())
}

/// The text of the event with this number, from 0, as it stands in the lane of its process; it names or writes back this
/// word.
pub fn row_text(
    alloc: Global,
    trace: &Trace,
    event: usize,
    place: Option<Place>,
    row: &TraceRow,
) -> Result<Vec<u8>, AllocError>
    ensures { IfOk result (λ text. IsRowText trace.now event place row.now text.items) }
{
    match (row.what, row.reply) {
        (Happening::Begins(_, begin), Reply::Begun(_) | Reply::Entered) => {
            call_text(alloc, begin, &row.text)
        }
        (Happening::Steps(_, access), Reply::Stepped) => {
            step_text(alloc, trace, event, access, place, row.counted)
        }
        (Happening::TakesEntry(_), _) => Ok(format!(in alloc; "take the entry")?.into_bytes()),
        (Happening::Evicts(place), _) => {
            let place = place_name(alloc, trace.layout, place)?;
            Ok(format!(in alloc; "evict {place}")?.into_bytes())
        }
        (Happening::Crashes, _) => {
            let taken = counted_before(trace, event).saturating_sub(row.counted);
            crash_text(alloc, taken)
        }
        _ => one_line(alloc, &row.answer),
    }
}

// One side of a word, before an event and after it.
fn side_text(
    alloc: Global,
    layout: Layout,
    place: Place,
    side: &str,
    before: u64,
    after: u64,
) -> Result<String, AllocError> {
    let old = meaning(alloc, layout, place, before)?;
    if before == after {
        return format!(in alloc; "{side} {before} ({old})");
    }
    let new = meaning(alloc, layout, place, after)?;
    format!(in alloc; "{side} {before} ({old}) becomes {after} ({new})")
}

/// What is shown of the event with this number, from 0, where it is pointed at: its number from 1, and both sides of
/// the word that it names or writes back.
pub fn row_title(
    alloc: Global,
    trace: &Trace,
    event: usize,
    place: Option<Place>,
) -> Result<String, AllocError>
    requires { event < length trace.now.rows.items }
    ensures untouched { place ≡ None → IfOk result (λ title. string_bytes title ≡ codes "event " ++ decimal (event + 1)) }
{
    let count = event + 1;
    let Some(place) = place else {
        return format!(in alloc; "event {count}");
    };
    let layout = trace.layout;
    let (before, after) = sides_at(trace, event, place);
    let name = place_name(alloc, layout, place)?;
    let cached = side_text(alloc, layout, place, "cached", before.cached, after.cached)?;
    let persisted = side_text(
        alloc,
        layout,
        place,
        "persisted",
        before.persisted,
        after.persisted,
    )?;
    format!(in alloc; "event {count}, {name}: {cached}; {persisted}")
}
