//! What a crash takes back.

ghost use Rattle.std.specs.Prelude.{◌≡◌, IfOk, OnOk, length, string_bytes};
ghost use Rattle.ds_layout.specs.Head.{head_of};
ghost use Rattle.ds_trace_brief.specs.Crashing.{crash_text, edit_text, joined, or_none, taken_below, taken_text};

use crate::keep::place_at;
use ds_layout::head::Head;
use ds_layout::layout::Layout;
use ds_layout::place::Place;
use ds_trace::row::Trace;
use ds_trace_scene::columns::{word_after, word_before};
use ds_trace_scene::names::cell_name;
use ds_words::words::Word;
use std::alloc::{AllocError, Global};

// The edit that a word of a cell's head names, if it names one.
fn edit_text(alloc: Global, layout: Layout, cell: usize, word: u64) -> Result<String, AllocError>
    ensures { IfOk result (λ text. string_bytes text ≡ edit_text layout cell (head_of layout.processes word)) }
{
    match Head::read(word, layout.processes) {
        Some(head) => {
            let cell = cell_name(alloc, layout, cell)?;
            format!(in alloc;
                "edit {} of process {} in {cell}",
                head.number, head.process
            )
        }
        None => Ok(String::new(alloc)),
    }
}

// The edit that a crash takes back by which a word turns from the one to the other; else nothing.
fn taken_text(
    alloc: Global,
    layout: Layout,
    place: Place,
    old: Word,
    new: Word,
) -> Result<String, AllocError>
    ensures { IfOk result (λ text. string_bytes text ≡ taken_text layout place old new) }
{
    match place {
        Place::Head(cell) if old.cached != new.cached => {
            edit_text(alloc, layout, cell, old.cached)
        }
        _ => Ok(String::new(alloc)),
    }
}

// Puts one more edit into the sentence, if it is one.
fn join(sentence: &mut String, edit: &str) -> Result<(), AllocError>
    ensures { OnOk result (string_bytes sentence.new ≡ joined (string_bytes sentence.old) edit.now) }
{
    if edit.is_empty() {
        return Ok(());
    }
    if sentence.is_empty() {
        sentence.push_str("the crash takes back ")?;
    } else {
        sentence.push_str(", ")?;
    }
    sentence.push_str(edit)
}

// The sentence of what the crash takes back; nothing where it takes back nothing.
fn taken(alloc: Global, trace: &Trace, event: usize) -> Result<String, AllocError>
    ensures { IfOk result (λ text. string_bytes text ≡ taken_below trace.now event (length trace.now.places.items)) }
{
    let mut sentence = String::new(alloc);
    for number in 0..trace.places.len() {
        let place = place_at(trace, number);
        let old = word_before(trace, number, event);
        let new = word_after(trace, number, event);
        let edit = taken_text(alloc, trace.layout, place, old, new)?;
        join(&mut sentence, edit.as_str())?;
    }
    Ok(sentence)
}

// The sentence, or that there is none.
fn or_none(alloc: Global, sentence: String) -> Result<String, AllocError>
    ensures { IfOk result (λ text. string_bytes text ≡ or_none (string_bytes sentence)) }
{
    if sentence.is_empty() {
        format!(in alloc; "the crash takes back no edit")
    } else {
        Ok(sentence)
    }
}

/// What is said of the crash with this number among the events, from 0: it takes back each edit that the cached side of
/// a head named, and no longer does. An error means that an allocation failed.
pub fn crash_text(alloc: Global, trace: &Trace, event: usize) -> Result<String, AllocError>
    ensures { IfOk result (λ text. string_bytes text ≡ crash_text trace.now event) }
{
    let sentence = taken(alloc, trace, event)?;
    or_none(alloc, sentence)
}
