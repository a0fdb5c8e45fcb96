//! Draws the words, and the buffers.

use crate::pen::{arrow, circle, group, path, rect, text, title};
use ds_layout::layout::Layout;
use ds_layout::place::Place;
use ds_svg::page::{NoPage, Page};
use ds_trace_scene::columns::{Passage, PassageEnd, Side, Span};
use ds_trace_scene::meaning::{label, meaning};
use ds_trace_scene::places::{Bar, ColumnPlace, LINE, Picture, line_y};
use std::alloc::{AllocError, Global};

/// The column of a place, if it has one.
pub fn column_of(picture: &Picture, place: Place) -> Option<&ColumnPlace> {
    for column in &picture.columns {
        if column.column.place == place {
            return Some(column);
        }
    }
    None
}

fn side_class(side: Side) -> &'static str {
    match side {
        Side::Cached => "c",
        Side::Persisted => "p",
    }
}

fn side_name(side: Side) -> &'static str {
    match side {
        Side::Cached => "cached",
        Side::Persisted => "persisted",
    }
}

// The class of a number on a side of a word.
fn span_class(alloc: Global, side: Side, span: &Span) -> Result<String, AllocError> {
    let side = side_class(side);
    let first = if span.from == 0 { " first" } else { "" };
    let lost = if span.is_lost { " lost" } else { "" };
    format!(in alloc; "{side}{first}{lost}")
}

// The title of a number on a side of a word.
fn span_title(
    alloc: Global,
    layout: Layout,
    column: &ColumnPlace,
    side: Side,
    span: &Span,
) -> Result<String, AllocError> {
    let meaning = meaning(alloc, layout, column.column.place, span.word)?;
    let name = &column.name;
    let side = side_name(side);
    let lost = if span.is_lost {
        "; a crash takes it back"
    } else {
        ""
    };
    format!(in alloc; "{name}, {side}: {} ({meaning}){lost}", span.word)
}

// Strokes through what a crash takes, below its label; a short one has no room for them.
fn draw_strike(
    page: &mut Page,
    alloc: Global,
    bar: Bar,
    top: usize,
    bottom: usize,
) -> Result<(), NoPage> {
    let (left, right) = (bar.left, bar.right());
    let top = top.saturating_add(LINE);
    if top >= bottom {
        return Ok(());
    }
    let outline = format!(in alloc;
        "M{left} {top}L{right} {bottom}M{right} {top}L{left} {bottom}"
    )?;
    path(page, alloc, "strike", outline.as_str())
}

fn bar_of(column: &ColumnPlace, side: Side) -> Bar {
    match side {
        Side::Cached => column.cached,
        Side::Persisted => column.persisted,
    }
}

// A number on a side of a word, from its line to the next.
fn draw_span(
    page: &mut Page,
    alloc: Global,
    layout: Layout,
    column: &ColumnPlace,
    side: Side,
    span: &Span,
) -> Result<(), NoPage> {
    let bar = bar_of(column, side);
    let (top, bottom) = (line_y(span.from), line_y(span.to));
    let class = span_class(alloc, side, span)?;
    group(page, alloc, class.as_str())?;
    let told = span_title(alloc, layout, column, side, span)?;
    title(page, alloc, told.as_bytes())?;
    rect(
        page,
        alloc,
        "bar",
        bar.left,
        top,
        bar.width,
        bottom.saturating_sub(top),
    )?;
    if span.is_lost {
        draw_strike(page, alloc, bar, top, bottom)?;
    }
    let label = label(alloc, layout, column.column.place, span.word)?;
    text(
        page,
        alloc,
        "m",
        bar.middle(),
        top.saturating_add(14),
        label.as_bytes(),
    )?;
    page.end(alloc)
}

// The heading of a column.
fn draw_heading(page: &mut Page, alloc: Global, column: &ColumnPlace) -> Result<(), NoPage> {
    let left = column.cached.left;
    let middle = left.saturating_add(column.persisted.right().saturating_sub(left) / 2);
    text(page, alloc, "h m", middle, 34, column.name.as_bytes())?;
    text(page, alloc, "s m", column.cached.middle(), 50, b"cached")?;
    text(
        page,
        alloc,
        "s m",
        column.persisted.middle(),
        50,
        b"persisted",
    )
}

// A side of a word.
fn draw_side(
    page: &mut Page,
    alloc: Global,
    layout: Layout,
    column: &ColumnPlace,
    side: Side,
    spans: &[Span],
) -> Result<(), NoPage> {
    for span in spans {
        draw_span(page, alloc, layout, column, side, span)?;
    }
    Ok(())
}

/// The words.
pub fn draw_columns(page: &mut Page, alloc: Global, picture: &Picture) -> Result<(), NoPage> {
    let layout = picture.layout;
    for column in &picture.columns {
        group(page, alloc, "word")?;
        draw_heading(page, alloc, column)?;
        draw_side(
            page,
            alloc,
            layout,
            column,
            Side::Cached,
            &column.column.cached,
        )?;
        draw_side(
            page,
            alloc,
            layout,
            column,
            Side::Persisted,
            &column.column.persisted,
        )?;
        page.end(alloc)?;
    }
    Ok(())
}

// The title of a buffer entry.
fn passage_title(
    alloc: Global,
    column: &ColumnPlace,
    passage: &Passage,
) -> Result<String, AllocError> {
    let name = &column.name;
    let process = passage.process;
    match passage.end {
        PassageEnd::WrittenBack => {
            format!(in alloc; "{name}: flushed and written back by process {process}")
        }
        PassageEnd::Lost => format!(in alloc; "{name}: lost with the buffer of process {process}"),
        PassageEnd::Buffered => format!(in alloc; "{name}: in the buffer of process {process}"),
    }
}

// The line of a buffer entry: from the cached side into the buffer, down, and from there to the persisted side.
fn draw_way(
    page: &mut Page,
    alloc: Global,
    column: &ColumnPlace,
    passage: &Passage,
    buffer: usize,
) -> Result<(), NoPage> {
    let (from, to) = (line_y(passage.from), line_y(passage.to));
    let left = column.cached.right();
    match passage.end {
        PassageEnd::WrittenBack => {
            let right = column.persisted.left.saturating_sub(1);
            let outline = format!(in alloc; "M{left} {from}H{buffer}V{to}H{right}")?;
            arrow(page, alloc, "a", "url(#arrow)", outline.as_str())
        }
        PassageEnd::Lost => {
            let outline = format!(in alloc; "M{left} {from}H{buffer}V{to}")?;
            arrow(page, alloc, "a", "url(#cross)", outline.as_str())
        }
        PassageEnd::Buffered => {
            let outline = format!(in alloc; "M{left} {from}H{buffer}V{to}")?;
            path(page, alloc, "a", outline.as_str())
        }
    }
}

fn draw_passage(
    page: &mut Page,
    alloc: Global,
    column: &ColumnPlace,
    passage: &Passage,
) -> Result<(), NoPage> {
    let lane = passage.process % 4;
    let left = column.cached.right();
    let buffer = left
        .saturating_add(6)
        .saturating_add(lane.saturating_mul(4));
    group(page, alloc, "passage")?;
    let told = passage_title(alloc, column, passage)?;
    title(page, alloc, told.as_bytes())?;
    draw_way(page, alloc, column, passage, buffer)?;
    circle(page, alloc, "dot", buffer, line_y(passage.from), 2)?;
    page.end(alloc)
}

/// The buffer entries of the words that have columns.
pub fn draw_passages(page: &mut Page, alloc: Global, picture: &Picture) -> Result<(), NoPage> {
    for passage in &picture.passages {
        if let Some(column) = column_of(picture, passage.place) {
            draw_passage(page, alloc, column, passage)?;
        }
    }
    Ok(())
}
