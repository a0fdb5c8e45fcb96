//! Places of words, as scripts write them.

ghost use Rattle.std.specs.Prelude.{◌≡◌, ◌<◌, ◌≤◌, option_map, IfSome};
ghost use Rattle.ds_formula.specs.Cells.{count_of};
ghost use Rattle.ds_formula.specs.Limits.{CELLS_MOST};
ghost use Rattle.ds_layout.specs.Places.{IsPlace};
ghost use Rattle.ds_script.specs.Orders.{cell_only, number_only, kind_of, place_by, place_field};

use ds_formula::cells::Shape;
use ds_layout::layout::Layout;
use ds_layout::place::{DONE_PARTS, Edition, FIRST_PARTS, Place, RECORDS, SECOND_PARTS};
use ds_script_io::fields::{named, numbered};
use ds_script_io::line::word;

/// The first word of a place.
#[derive(Clone, Copy, Debug, PartialEq, Eq)]
pub enum PlaceKind {
    /// `head C`.
    Head,
    /// `mark C`.
    Mark,
    /// `value C`.
    Value,
    /// `kind C`.
    Kind,
    /// `index C PART`.
    Index,
    /// `announce P`.
    Announce,
    /// `header P NUMBER`.
    Header,
    /// `text P NUMBER PART`.
    Text,
    /// `done P PART`.
    Done,
    /// `version`.
    Version,
    /// `newtext P NUMBER PART`.
    NewText,
}

// The number of a cell that is the last word.
fn last_cell(shape: &Shape, rest: Option<&[u8]>) -> Option<usize>
    ensures value { result ≡ cell_only shape.now (option_map (λ r. r.now) rest.entry) }
    ensures inside { IfSome result (λ cell. cell < count_of shape.now) }
{
    match named(shape, rest)? {
        (cell, None) => Some(shape.index(cell)),
        (_, Some(_)) => None,
    }
}

/// A number below the limit that is the last word.
pub fn last_number(limit: usize, rest: Option<&[u8]>) -> Option<usize>
    requires { limit ≤ CELLS_MOST }
    ensures value { result ≡ number_only limit (option_map (λ r. r.now) rest.entry) }
    ensures below { IfSome result (λ n. n < limit) }
{
    match numbered(limit, rest)? {
        (n, None) => Some(n),
        (_, Some(_)) => None,
    }
}

fn kind(word: &[u8]) -> Option<PlaceKind>
    ensures { result ≡ kind_of word.now }
{
    if word == b"head".as_slice() {
        Some(PlaceKind::Head)
    } else if word == b"mark".as_slice() {
        Some(PlaceKind::Mark)
    } else if word == b"value".as_slice() {
        Some(PlaceKind::Value)
    } else if word == b"kind".as_slice() {
        Some(PlaceKind::Kind)
    } else if word == b"index".as_slice() {
        Some(PlaceKind::Index)
    } else if word == b"announce".as_slice() {
        Some(PlaceKind::Announce)
    } else if word == b"header".as_slice() {
        Some(PlaceKind::Header)
    } else if word == b"text".as_slice() {
        Some(PlaceKind::Text)
    } else if word == b"done".as_slice() {
        Some(PlaceKind::Done)
    } else if word == b"version".as_slice() {
        Some(PlaceKind::Version)
    } else if word == b"newtext".as_slice() {
        Some(PlaceKind::NewText)
    } else {
        None
    }
}

fn index_place(layout: &Layout, rest: Option<&[u8]>) -> Option<Place>
    ensures value { result ≡ place_by layout.now PlaceKind.Index (option_map (λ r. r.now) rest.entry) }
    ensures inside { IfSome result (IsPlace layout.now) }
{
    let (cell, rest) = named(&layout.shape, rest)?;
    let part = last_number(layout.row_parts(), rest)?;
    Some(Place::Index {
        row: layout.shape.index(cell),
        part,
    })
}

fn header_place(layout: &Layout, rest: Option<&[u8]>) -> Option<Place>
    ensures value { result ≡ place_by layout.now PlaceKind.Header (option_map (λ r. r.now) rest.entry) }
    ensures inside { IfSome result (IsPlace layout.now) }
{
    let (process, rest) = numbered(layout.processes, rest)?;
    Some(Place::Header {
        process,
        number: last_number(RECORDS, rest)?,
    })
}

fn text_place(layout: &Layout, rest: Option<&[u8]>) -> Option<Place>
    ensures value { result ≡ place_by layout.now PlaceKind.Text (option_map (λ r. r.now) rest.entry) }
    ensures inside { IfSome result (IsPlace layout.now) }
{
    let (process, rest) = numbered(layout.processes, rest)?;
    let (number, rest) = numbered(RECORDS, rest)?;
    let part = last_number(FIRST_PARTS, rest)?;
    Some(Place::Text {
        edition: Edition::First,
        process,
        number,
        part,
    })
}

fn new_text_place(layout: &Layout, rest: Option<&[u8]>) -> Option<Place>
    ensures value { result ≡ place_by layout.now PlaceKind.NewText (option_map (λ r. r.now) rest.entry) }
    ensures inside { IfSome result (IsPlace layout.now) }
{
    let (process, rest) = numbered(layout.processes, rest)?;
    let (number, rest) = numbered(RECORDS, rest)?;
    let part = last_number(SECOND_PARTS, rest)?;
    Some(Place::Text {
        edition: Edition::Second,
        process,
        number,
        part,
    })
}

fn version_place(_layout: &Layout, rest: Option<&[u8]>) -> Option<Place>
    ensures value { result ≡ place_by _layout.now PlaceKind.Version (option_map (λ r. r.now) rest.entry) }
    ensures inside { IfSome result (IsPlace _layout.now) }
{
    match rest {
        None => Some(Place::Version),
        Some(_) => None,
    }
}

fn done_place(layout: &Layout, rest: Option<&[u8]>) -> Option<Place>
    ensures value { result ≡ place_by layout.now PlaceKind.Done (option_map (λ r. r.now) rest.entry) }
    ensures inside { IfSome result (IsPlace layout.now) }
{
    let (process, rest) = numbered(layout.processes, rest)?;
    Some(Place::Done {
        process,
        part: last_number(DONE_PARTS, rest)?,
    })
}

fn place_of(layout: &Layout, kind: PlaceKind, rest: Option<&[u8]>) -> Option<Place>
    ensures value { result ≡ place_by layout.now kind (option_map (λ r. r.now) rest.entry) }
    ensures inside { IfSome result (IsPlace layout.now) }
{
    match kind {
        PlaceKind::Head => Some(Place::Head(last_cell(&layout.shape, rest)?)),
        PlaceKind::Mark => Some(Place::Mark(last_cell(&layout.shape, rest)?)),
        PlaceKind::Value => Some(Place::Value(last_cell(&layout.shape, rest)?)),
        PlaceKind::Kind => Some(Place::Kind(last_cell(&layout.shape, rest)?)),
        PlaceKind::Index => index_place(layout, rest),
        PlaceKind::Announce => Some(Place::Announce(last_number(layout.processes, rest)?)),
        PlaceKind::Header => header_place(layout, rest),
        PlaceKind::Text => text_place(layout, rest),
        PlaceKind::Done => done_place(layout, rest),
        PlaceKind::Version => version_place(layout, rest),
        PlaceKind::NewText => new_text_place(layout, rest),
    }
}

/// The place that the words are, where it is one of the sheet.
pub fn read_place(layout: &Layout, rest: Option<&[u8]>) -> Option<Place>
    ensures value { result ≡ place_field layout.now (option_map (λ r. r.now) rest.entry) }
    ensures inside { IfSome result (IsPlace layout.now) }
{
    let (first, rest) = word(rest?);
    place_of(layout, kind(first)?, rest)
}
