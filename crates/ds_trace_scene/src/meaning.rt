//! What the words of a sheet say.

ghost use Rattle.std.specs.Prelude.{◌≡◌, IfOk, IfSome, string_bytes};
ghost use Rattle.ds_layout.specs.Announcement.{announcement_of};
ghost use Rattle.ds_layout.specs.Head.{head_of};
ghost use Rattle.ds_layout.specs.Header.{header_of};
ghost use Rattle.ds_layout.specs.Mark.{mark_of, state_of};
ghost use Rattle.ds_layout.specs.Places.{cells_of, edition_of};
ghost use Rattle.ds_layout.specs.Stored.{stored_of};
ghost use Rattle.ds_trace_scene.specs.Meanings.{announcement_label, edition_label, head_label, header_label, kind_name, label_of, phase_name, state_label};

use crate::names::cell_name;
use ds_layout::announcement::{Announcement, Phase};
use ds_layout::bits::has_bit;
use ds_layout::head::Head;
use ds_layout::header::Header;
use ds_layout::layout::Layout;
use ds_layout::mark::{Mark, State};
use ds_layout::place::{Edition, Place};
use ds_layout::stored::{Kind, Stored};
use ds_layout::text::part_bytes;
use std::alloc::{AllocError, Global};

// How many bits of a word are named one by one; of the others only their number is shown.
const NAMED: usize = 2;

fn version_label(alloc: Global, word: u64) -> Result<String, AllocError>
    ensures { IfOk result (λ text. string_bytes text ≡ edition_label (edition_of word)) }
{
    match Edition::read(word) {
        Edition::First => format!(in alloc; "layout 1"),
        Edition::Second => format!(in alloc; "layout 2"),
    }
}

fn version_meaning(alloc: Global, word: u64) -> Result<String, AllocError> {
    match Edition::read(word) {
        Edition::First => format!(in alloc; "the first layout, texts of up to 120 bytes"),
        Edition::Second => format!(in alloc; "the second layout, texts of up to 240 bytes"),
    }
}

fn head_label(alloc: Global, layout: Layout, word: u64) -> Result<String, AllocError>
    ensures { IfOk result (λ text. string_bytes text ≡ head_label (head_of layout.processes word)) }
{
    match Head::read(word, layout.processes) {
        Some(head) => format!(in alloc; "edit {} {}", head.process, head.number),
        None => format!(in alloc; "none"),
    }
}

fn head_meaning(alloc: Global, layout: Layout, word: u64) -> Result<String, AllocError> {
    match Head::read(word, layout.processes) {
        Some(head) => format!(in alloc;
            "edit {} of process {}, stamp {}",
            head.number, head.process, head.stamp
        ),
        None => format!(in alloc; "no edit"),
    }
}

fn mark_label(alloc: Global, layout: Layout, word: u64) -> Result<String, AllocError>
    ensures { IfOk result (λ text. string_bytes text ≡ state_label (state_of (mark_of layout.processes word))) }
{
    match Mark::read(word, layout.processes).state() {
        State::Clean => format!(in alloc; "clean"),
        State::Marked => format!(in alloc; "dirty"),
        State::Held(process) => format!(in alloc; "held {process}"),
    }
}

fn mark_meaning(alloc: Global, layout: Layout, word: u64) -> Result<String, AllocError> {
    let mark = Mark::read(word, layout.processes);
    let dirty = if mark.dirty { "dirty" } else { "not dirty" };
    match mark.holder {
        Some(holder) => format!(in alloc;
            "generation {}, held by process {holder}, {dirty}",
            mark.generation
        ),
        None => format!(in alloc; "generation {}, held by nobody, {dirty}", mark.generation),
    }
}

fn kind_name(kind: Kind) -> &'static str
    ensures { result.now ≡ kind_name kind }
{
    match kind {
        Kind::Blank => "blank",
        Kind::Number => "number",
        Kind::DivZero => "#DIV/0!",
        Kind::Num => "#NUM!",
        Kind::Circular => "Err:522",
    }
}

fn kind_label(alloc: Global, layout: Layout, word: u64) -> Result<String, AllocError>
    ensures { IfOk result (λ text. string_bytes text ≡ kind_name (stored_of (cells_of layout) 0 word).kind) }
{
    let name = kind_name(Stored::read(0, word, layout.cells()).kind);
    format!(in alloc; "{name}")
}

fn kind_meaning(alloc: Global, layout: Layout, word: u64) -> Result<String, AllocError> {
    let stored = Stored::read(0, word, layout.cells());
    let name = kind_name(stored.kind);
    format!(in alloc; "{name}, height {}", stored.height)
}

fn phase_name(phase: Phase) -> &'static str
    ensures { result.now ≡ phase_name phase }
{
    match phase {
        Phase::Pending => "pending",
        Phase::Done => "done",
        Phase::NotDone => "not done",
    }
}

fn announcement_label(alloc: Global, word: u64) -> Result<String, AllocError>
    ensures { IfOk result (λ text. string_bytes text ≡ announcement_label (announcement_of word)) }
{
    match Announcement::read(word) {
        Some(announcement) => {
            let phase = phase_name(announcement.phase);
            format!(in alloc; "{} {phase}", announcement.number)
        }
        None => format!(in alloc; "none"),
    }
}

fn announcement_meaning(alloc: Global, word: u64) -> Result<String, AllocError> {
    match Announcement::read(word) {
        Some(announcement) => {
            let phase = phase_name(announcement.phase);
            format!(in alloc; "edit {} is {phase}", announcement.number)
        }
        None => format!(in alloc; "no edit was announced"),
    }
}

fn header_label(alloc: Global, layout: Layout, word: u64) -> Result<String, AllocError>
    ensures { IfOk result (λ text. string_bytes text ≡ header_label layout word (header_of (cells_of layout) word)) }
{
    match Header::read(word, layout.cells()) {
        Some(header) if word != 0 => {
            let cell = cell_name(alloc, layout, header.cell)?;
            format!(in alloc; "{cell} {}", header.length)
        }
        _ => format!(in alloc; "{word}"),
    }
}

fn header_meaning(alloc: Global, layout: Layout, word: u64) -> Result<String, AllocError> {
    match Header::read(word, layout.cells()) {
        Some(header) => {
            let cell = cell_name(alloc, layout, header.cell)?;
            format!(in alloc; "cell {cell}, a text of so many bytes: {}", header.length)
        }
        None => format!(in alloc; "no header"),
    }
}

// The bytes of a part of a text, up to the last that is not zero.
fn text_label(alloc: Global, word: u64) -> Result<String, AllocError> {
    let bytes = part_bytes(word);
    let mut label = String::new(alloc);
    label.push('"')?;
    for byte in bytes {
        match byte {
            0 => {}
            32..=126 => label.push(byte as char)?,
            _ => label.push('.')?,
        }
    }
    label.push('"')?;
    Ok(label)
}

// The cells whose bits stand in a part of a row, or the edits whose done bits stand in a part.
fn bits_label(
    alloc: Global,
    layout: Layout,
    word: u64,
    first: usize,
    are_cells: bool,
) -> Result<String, AllocError> {
    let mut label = String::new(alloc);
    let mut count = 0usize;
    for bit in 0..64usize {
        if has_bit(word, bit) {
            if count < NAMED {
                let number = first.saturating_add(bit);
                let name = if are_cells {
                    cell_name(alloc, layout, number)?
                } else {
                    format!(in alloc; "{number}")?
                };
                if count > 0 {
                    label.push(' ')?;
                }
                label.push_str(name.as_str())?;
            }
            count = count.saturating_add(1);
        }
    }
    if count > NAMED {
        let more = count - NAMED;
        write!(label, " +{more}")?;
    }
    if count == 0 {
        label.push_str("none")?;
    }
    Ok(label)
}

// The first of the 64 numbers whose bits stand in a part.
fn first_of(part: usize) -> usize {
    part.saturating_mul(64)
}

/// What the word of this place says, in a few letters. An error means that an allocation failed.
pub fn label(alloc: Global, layout: Layout, place: Place, word: u64) -> Result<String, AllocError>
    ensures { IfOk result (λ text. IfSome (label_of layout place word) (λ says. string_bytes text ≡ says)) }
{
    match place {
        Place::Version => version_label(alloc, word),
        Place::Head(_) => head_label(alloc, layout, word),
        Place::Mark(_) => mark_label(alloc, layout, word),
        Place::Value(_) => format!(in alloc; "{}", word.cast_signed()),
        Place::Kind(_) => kind_label(alloc, layout, word),
        Place::Index { row: _, part } => bits_label(alloc, layout, word, first_of(part), true),
        Place::Announce(_) => announcement_label(alloc, word),
        Place::Header {
            process: _,
            number: _,
        } => header_label(alloc, layout, word),
        Place::Text {
            edition: _,
            process: _,
            number: _,
            part: _,
        } => text_label(alloc, word),
        Place::Done { process: _, part } => {
            bits_label(alloc, layout, word, first_of(part), false)
        }
    }
}

/// What the word of this place says, in a sentence.
pub fn meaning(
    alloc: Global,
    layout: Layout,
    place: Place,
    word: u64,
) -> Result<String, AllocError> {
    match place {
        Place::Head(_) => head_meaning(alloc, layout, word),
        Place::Mark(_) => mark_meaning(alloc, layout, word),
        Place::Kind(_) => kind_meaning(alloc, layout, word),
        Place::Announce(_) => announcement_meaning(alloc, word),
        Place::Header {
            process: _,
            number: _,
        } => header_meaning(alloc, layout, word),
        Place::Version => version_meaning(alloc, word),
        Place::Value(_) => label(alloc, layout, place, word),
        Place::Text {
            edition: _,
            process: _,
            number: _,
            part: _,
        } => label(alloc, layout, place, word),
        Place::Index { row: _, part } => {
            let cells = bits_label(alloc, layout, word, first_of(part), true)?;
            format!(in alloc; "cells that may refer to this one: {cells}")
        }
        Place::Done { process: _, part } => {
            let edits = bits_label(alloc, layout, word, first_of(part), false)?;
            format!(in alloc; "edits that count and were superseded: {edits}")
        }
    }
}
