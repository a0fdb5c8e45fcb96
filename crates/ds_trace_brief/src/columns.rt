//! The columns of a brief picture: the words that decide, row by row.

ghost use Rattle.std.specs.Prelude.{◌≡◌, ◌≤◌, ◌*◌, All, IfOk, map};
ghost use Rattle.ds_trace_brief.specs.Briefs.{Fit, IsColumnOf, number_of, words_after};

use crate::keep::place_at;
use ds_layout::layout::Layout;
use ds_layout::place::Place;
use ds_trace::row::Trace;
use ds_trace_scene::columns::word_after;
use ds_trace_scene::meaning::label;
use ds_trace_scene::names::place_name;
use ds_words::words::Word;
use std::alloc::{AllocError, Global};

/// How far the bars of a column are from each other.
pub const INNER: usize = 2;

/// How far columns are from each other.
pub const GAP: usize = 12;

// How much a bar is wider than its text.
const PADDING: usize = 8;

/// A word that decides.
#[derive(Debug, Drop)]
pub struct BriefColumn {
    /// The number of the word in the recording.
    pub number: usize,
    /// Its place.
    pub place: Place,
    /// Its name.
    pub name: String,
    /// Both sides of it after the event of each row.
    pub words: Vec<Word>,
    /// How wide the bar of its cached side is, in pixels.
    pub cached: usize,
    /// How wide the bar of its persisted side is.
    pub persisted: usize,
    /// How wide the column is, with the gap after it.
    pub width: usize,
}

/// How many columns fit.
#[derive(Clone, Copy, Debug, PartialEq, Eq)]
pub struct Extent {
    /// How many of them, from the first on.
    pub count: usize,
    /// How wide these are, side by side.
    pub used: usize,
}

/// How wide these letters are, of 12 pixels height, at most.
pub fn letters(count: usize) -> usize
    ensures { result ≤ 8 * count }
{
    count.saturating_mul(29) / 4
}

// Both sides of a word after each of these events.
fn words_of(
    alloc: Global,
    trace: &Trace,
    number: usize,
    events: &[usize],
) -> Result<Vec<Word>, AllocError>
    ensures { IfOk result (λ words. words.items ≡ words_after trace.now number events.now) }
{
    let mut words = Vec::with_capacity(alloc, events.len())?;
    for event in events {
        words.push(word_after(trace, number, *event))?;
    }
    Ok(words)
}

// How wide bars are that have room for the labels of both sides.
fn bar_widths(
    alloc: Global,
    layout: Layout,
    place: Place,
    words: &[Word],
) -> Result<(usize, usize), AllocError> {
    let mut cached = 0;
    let mut persisted = 0;
    for word in words {
        cached = label(alloc, layout, place, word.cached)?.len().max(cached);
        persisted = label(alloc, layout, place, word.persisted)?
            .len()
            .max(persisted);
    }
    Ok((
        letters(cached).saturating_add(PADDING),
        letters(persisted).saturating_add(PADDING),
    ))
}

// The column of a word, with these events.
fn column_of(
    alloc: Global,
    trace: &Trace,
    number: usize,
    events: &[usize],
) -> Result<BriefColumn, AllocError>
    ensures number { IfOk result (λ column. column.number ≡ number) }
    ensures column { IfOk result (λ column. IsColumnOf trace.now events.now column) }
{
    let place = place_at(trace, number);
    let words = words_of(alloc, trace, number, events)?;
    let name = place_name(alloc, trace.layout, place)?;
    let (cached, persisted) = bar_widths(alloc, trace.layout, place, &words)?;
    let least = letters(name.len());
    let persisted = persisted.max(least.saturating_sub(cached.saturating_add(INNER)));
    let width = cached
        .saturating_add(INNER)
        .saturating_add(persisted)
        .saturating_add(GAP);
    Ok(BriefColumn {
        number,
        place,
        name,
        words,
        cached,
        persisted,
        width,
    })
}

/// The columns of these words, in their order, with these events. An error means that an allocation failed.
pub fn columns(
    alloc: Global,
    trace: &Trace,
    numbers: &[usize],
    events: &[usize],
) -> Result<Vec<BriefColumn>, AllocError>
    ensures numbers { IfOk result (λ columns. map number_of columns.items ≡ numbers.now) }
    ensures columns { IfOk result (λ columns. All (IsColumnOf trace.now events.now) columns.items) }
{
    let mut columns = Vec::with_capacity(alloc, numbers.len())?;
    for number in numbers {
        columns.push(column_of(alloc, trace, *number, events)?)?;
    }
    Ok(columns)
}

/// How many of the columns, from the first on, stand side by side in a room of this width.
pub fn fitting(columns: &[BriefColumn], room: usize) -> Extent
    ensures { Fit room columns.now result.count result.used }
{
    let mut count = 0;
    let mut used = 0;
    for column in columns {
        if column.width > room - used {
            return Extent { count, used };
        }
        used += column.width;
        count += 1;
    }
    Extent { count, used }
}
