//! Where everything stands in a picture, in pixels.

use crate::buffers::passages;
use crate::columns::{Column, Passage, Span, columns, end_line};
use crate::lanes::{Lane, lane_of};
use crate::meaning::label;
use crate::names::place_name;
use crate::texts::row_text;
use ds_layout::layout::Layout;
use ds_layout::place::Place;
use ds_trace::row::{Happening, Trace, TraceRow};
use std::alloc::{AllocError, Global};

/// How wide a letter is, at most.
pub const LETTER: usize = 7;

/// How far two lines are from each other.
pub const LINE: usize = 20;

/// How many letters a text in a lane has at most.
pub const TEXT_LIMIT: usize = 34;

// Where the first line is.
const TOP: usize = 62;

// The width of the margins.
const MARGIN: usize = 14;

// The least width of a bar, and of the gap between two.
const CACHED_WIDTH: usize = 44;

const PERSISTED_WIDTH: usize = 62;

const GAP: usize = 26;

// How much a bar is wider than its text.
const PADDING: usize = 10;

/// A bar, from the left.
#[derive(Clone, Copy, Debug, PartialEq, Eq)]
pub struct Bar {
    /// The left edge of the bar.
    pub left: usize,
    /// How wide it is.
    pub width: usize,
}

/// Where a lane stands.
#[derive(Debug, Drop)]
pub struct LanePlace {
    /// The process of the lane.
    pub process: usize,
    /// Where the names of points end.
    pub points: usize,
    /// Where the calls are drawn.
    pub rail: usize,
    /// Where texts begin.
    pub text: usize,
    /// What is in it.
    pub lane: Lane,
}

/// Where a column stands.
#[derive(Debug, Drop)]
pub struct ColumnPlace {
    /// The bar of the cached side.
    pub cached: Bar,
    /// The bar of the persisted side.
    pub persisted: Bar,
    /// The name of the word.
    pub name: String,
    /// What is in it.
    pub column: Column,
}

/// A text that stands across the lanes.
#[derive(Debug, Drop)]
pub struct Across {
    /// The line of the text.
    pub line: usize,
    /// What kind it is.
    pub kind: AcrossKind,
    /// The text.
    pub text: Vec<u8>,
}

/// What stands across the lanes.
#[derive(Clone, Copy, Debug, PartialEq, Eq)]
pub enum AcrossKind {
    /// A crash.
    Crash,
    /// A stop.
    Stop,
    /// An eviction of this word.
    Eviction(Place),
}

/// A picture: what stands where.
#[derive(Debug, Drop)]
pub struct Picture {
    /// The sheet.
    pub layout: Layout,
    /// The processes, from the left.
    pub lanes: Vec<LanePlace>,
    /// The words, from the left, after the processes.
    pub columns: Vec<ColumnPlace>,
    /// The buffer entries.
    pub passages: Vec<Passage>,
    /// What stands across the lanes.
    pub across: Vec<Across>,
    /// Where the words begin.
    pub words: usize,
    /// How wide it is.
    pub width: usize,
    /// The last line.
    pub end: usize,
}

/// The middle of a line, from the top.
pub fn line_y(line: usize) -> usize {
    TOP.saturating_add(line.saturating_mul(LINE))
}

impl Bar {
    /// The right edge of the bar.
    pub fn right(self) -> usize {
        self.left.saturating_add(self.width)
    }

    /// The middle of the bar.
    pub fn middle(self) -> usize {
        self.left.saturating_add(self.width / 2)
    }
}

// How wide n letters are.
fn letters(count: usize) -> usize {
    count.saturating_mul(LETTER)
}

// What stands across the lanes where this row is, if something does.
fn across_kind(row: &TraceRow) -> Option<AcrossKind> {
    match row.what {
        Happening::Crashes => Some(AcrossKind::Crash),
        Happening::Stops(_) => Some(AcrossKind::Stop),
        Happening::Evicts(place) => Some(AcrossKind::Eviction(place)),
        _ => None,
    }
}

// What stands across the lanes.
fn all_across(alloc: Global, trace: &Trace) -> Result<Vec<Across>, AllocError> {
    let mut across = Vec::new(alloc);
    for (event, row) in trace.rows.iter().enumerate() {
        if let Some(kind) = across_kind(row) {
            across.push(Across {
                line: event.saturating_add(1),
                kind,
                text: row_text(alloc, trace, event, None, row)?,
            })?;
        }
    }
    Ok(across)
}

// The width of a lane's points, and of its texts, in letters.
fn lane_letters(lane: &Lane) -> (usize, usize) {
    let mut points = 0;
    let mut texts = 9;
    for entry in &lane.entries {
        points = entry.points.len().max(points);
        texts = entry.text.len().min(TEXT_LIMIT).max(texts);
    }
    (points, texts)
}

// The lanes side by side, and where they end.
fn place_lanes(
    alloc: Global,
    trace: &Trace,
    passages: &[Passage],
) -> Result<(Vec<LanePlace>, usize), AllocError> {
    let mut lanes = Vec::new(alloc);
    let mut left = MARGIN;
    for process in 0..trace.layout.processes {
        let lane = lane_of(alloc, trace, passages, process)?;
        let (points, texts) = lane_letters(&lane);
        let points = left.saturating_add(letters(points));
        let rail = points.saturating_add(10);
        let text = rail.saturating_add(12);
        left = text.saturating_add(letters(texts)).saturating_add(18);
        lanes.push(LanePlace {
            process,
            points,
            rail,
            text,
            lane,
        })?;
    }
    Ok((lanes, left))
}

// How wide a bar is that has room for these numbers' labels.
fn bar_width(
    alloc: Global,
    layout: Layout,
    place: Place,
    spans: &[Span],
    least: usize,
) -> Result<usize, AllocError> {
    let mut width = least;
    for span in spans {
        let label = label(alloc, layout, place, span.word)?;
        width = letters(label.len()).saturating_add(PADDING).max(width);
    }
    Ok(width)
}

// A column with its left edge there.
fn place_column(
    alloc: Global,
    layout: Layout,
    column: Column,
    left: usize,
) -> Result<ColumnPlace, AllocError> {
    let place = column.place;
    let cached = Bar {
        left,
        width: bar_width(alloc, layout, place, &column.cached, CACHED_WIDTH)?,
    };
    let persisted = Bar {
        left: cached.right().saturating_add(GAP),
        width: bar_width(alloc, layout, place, &column.persisted, PERSISTED_WIDTH)?,
    };
    Ok(ColumnPlace {
        cached,
        persisted,
        name: place_name(alloc, layout, place)?,
        column,
    })
}

// The columns side by side, and where they end.
fn place_columns(
    alloc: Global,
    layout: Layout,
    columns: Vec<Column>,
    words: usize,
) -> Result<(Vec<ColumnPlace>, usize), AllocError> {
    let mut places = Vec::new(alloc);
    let mut left = words;
    for column in columns {
        let place = place_column(alloc, layout, column, left)?;
        left = place.persisted.right().saturating_add(GAP);
        places.push(place)?;
    }
    Ok((places, left))
}

/// Where everything of a recording stands. An error means that an allocation failed.
pub fn place_all(alloc: Global, trace: &Trace) -> Result<Picture, AllocError> {
    let passages = passages(alloc, trace)?;
    let (lanes, words) = place_lanes(alloc, trace, &passages)?;
    let columns = columns(alloc, trace)?;
    let (columns, right) = place_columns(alloc, trace.layout, columns, words)?;
    Ok(Picture {
        layout: trace.layout,
        lanes,
        columns,
        passages,
        across: all_across(alloc, trace)?,
        words,
        width: right.saturating_sub(GAP).saturating_add(MARGIN),
        end: end_line(trace),
    })
}
