//! What the words of a sheet show, read from what processes see alone.

ghost use Rattle.std.specs.Prelude.{◌≡◌, ◌<◌, ◌≤◌, ◌↔◌, ℕ, List, length, IsTrue, IfOk, ◌+◌, ◌/◌};
ghost use Rattle.ds_layout.specs.declared.place.TheConstants.{RECORDS};
ghost use Rattle.ds_layout.specs.Places.{cells_of};
ghost use Rattle.ds_layout.specs.SheetMemory.{memory};
ghost use Rattle.ds_layout.specs.TextWords.{parts_for};
ghost use Rattle.ds_state.specs.Editions.{most_in};
ghost use Rattle.ds_state.specs.EntryWords.{shown_of};
ghost use Rattle.ds_state.specs.Shown.{mark_at, value_at, AllClean, parts_at, record_at, text_at, header_in};

use ds_eval::value::Value;
use ds_layout::head::Head;
use ds_layout::header::Header;
use ds_layout::layout::Layout;
use ds_layout::mark::{Mark, State};
use ds_layout::place::{Edition, Place};
use ds_layout::sheet_words::SheetWords;
use ds_layout::stored::{Kind, Stored};
use ds_layout::text::{part_bytes, part_length, text_parts};
use std::alloc::{AllocError, Global};

/// The words of a sheet, as they can be read by their places.
pub trait SheetReader {
    ghost use Rattle.ds_words.specs.Memory.{Memory};
    ghost use Rattle.ds_layout.specs.declared.place.Place.{Place};
    ghost use Rattle.ds_layout.specs.declared.layout.Layout.{Layout};
    ghost use Rattle.ds_layout.specs.Places.{IsPlace};

    // What fixes the words, and what they are.
    ghost sheet: { Self → Layout };

    ghost seen: { Self → Memory Place };

    /// What fixes the words.
    fn layout(&self) -> Layout
        ensures { result ≡ sheet self.now };

    /// The cached side of the word at a place.
    fn load(&self, place: Place) -> u64
        requires { IsPlace (sheet self.now) place }
        ensures { result ≡ (seen self.now).cached place };
}

impl SheetReader for SheetWords {
    ghost sheet = { λ s. s.layout };

    ghost seen = { λ s. memory s };

    fn layout(&self) -> Layout {
        SheetWords::layout(self)
    }

    fn load(&self, place: Place) -> u64 {
        SheetWords::load(self, place)
    }
}

/// The mark of the cell with this number.
#[inline(always)]
pub fn mark<W: SheetReader>(words: &W, cell: usize) -> Mark
    requires { cell < cells_of (W.sheet words.now) }
    ensures { result ≡ mark_at (W.sheet words.now) (W.seen words.now) cell }
{
    let word = words.load(Place::Mark(cell));
    Mark::read(word, words.layout().processes)
}

/// Whether no cell's mark is dirty or held.
pub fn are_clean<W: SheetReader>(words: &W) -> bool
    ensures { IsTrue result ↔ AllClean (W.sheet words.now) (W.seen words.now) }
{
    for cell in 0..words.layout().cells() {
        if mark(words, cell).state() != State::Clean {
            return false;
        }
    }
    true
}

/// What the words of a cell show, as they were read.
pub fn shown(stored: Stored) -> Value
    ensures { result ≡ shown_of stored }
{
    match stored.kind {
        Kind::Blank => Value::Blank,
        Kind::Number => Value::Number(stored.value),
        Kind::DivZero => Value::DivZero,
        Kind::Num => Value::Num,
        Kind::Circular => Value::Circular,
    }
}

/// The value of the cell with this number.
pub fn value<W: SheetReader>(words: &W, cell: usize) -> Value
    requires { cell < cells_of (W.sheet words.now) }
    ensures { result ≡ value_at (W.sheet words.now) (W.seen words.now) cell }
{
    let value = words.load(Place::Value(cell));
    let kind = words.load(Place::Kind(cell));
    shown(Stored::read(value, kind, words.layout().cells()))
}

/// The header, where it says no more than the layout has.
pub fn header_in(edition: Edition, header: Option<Header>) -> Option<Header>
    ensures { result ≡ header_in edition header }
{
    match header {
        Some(header) if header.length <= 8 * edition.parts() => Some(header),
        _ => None,
    }
}

// The parts of a record's text, of that number of bytes.
fn parts<W: SheetReader>(
    words: &W,
    alloc: Global,
    edition: Edition,
    process: usize,
    number: usize,
    count: usize,
) -> Result<Vec<u8>, AllocError>
    requires process { process < (W.sheet words.now).processes }
    requires number { number < RECORDS }
    requires count { count ≤ most_in edition }
    ensures { IfOk result (λ v. v.items ≡ parts_at (W.seen words.now) edition process number count (parts_for count)) }
{
    let mut bytes = Vec::with_capacity(alloc, count)?;
    for part in 0..text_parts(count) {
        let word = words.load(Place::Text {
            edition,
            process,
            number,
            part,
        });
        let rest = part_length(count, part);
        bytes.extend_from_slice(&part_bytes(word)[..rest])?;
    }
    Ok(bytes)
}

/// The text of the record that this process has at this number, in a layout: as many bytes as its
/// header says. Where the header is none of the sheet's, or says more than the layout has, no part
/// is read and the text is empty. An error means that an allocation failed.
pub fn record_text<W: SheetReader>(
    words: &W,
    alloc: Global,
    edition: Edition,
    process: usize,
    number: usize,
) -> Result<Vec<u8>, AllocError>
    requires process { process < (W.sheet words.now).processes }
    requires number { number < RECORDS }
    ensures { IfOk result (λ v. v.items ≡ record_at (W.sheet words.now) (W.seen words.now) edition process number) }
{
    let word = words.load(Place::Header { process, number });
    match Header::read(word, words.layout().cells()) {
        Some(header) => {
            if header.length <= 8 * edition.parts() {
                parts(words, alloc, edition, process, number, header.length)
            } else {
                Ok(Vec::new(alloc))
            }
        }
        None => Ok(Vec::new(alloc)),
    }
}

/// The text of the cell with this number: that of the record that its head names, and empty where
/// its word is no head. An error means that an allocation failed.
pub fn text<W: SheetReader>(words: &W, alloc: Global, cell: usize) -> Result<Vec<u8>, AllocError>
    requires { cell < cells_of (W.sheet words.now) }
    ensures { IfOk result (λ v. v.items ≡ text_at (W.sheet words.now) (W.seen words.now) cell) }
{
    let word = words.load(Place::Head(cell));
    match Head::read(word, words.layout().processes) {
        Some(head) => {
            let edition = Edition::read(words.load(Place::Version));
            record_text(words, alloc, edition, head.process, head.number)
        }
        None => Ok(Vec::new(alloc)),
    }
}
