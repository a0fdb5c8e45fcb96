//! Draws the processes, and what stands across them.

use crate::pen::{arrow, circle, group, named, path, rect, text, title};
use crate::words::column_of;
use ds_layout::place::Place;
use ds_svg::page::{NoPage, Page};
use ds_svg::tag::{Name, Tag};
use ds_trace_scene::lanes::{LaneEntry, Rail, RailEnd, Style};
use ds_trace_scene::places::{
    Across, AcrossKind, LETTER, LINE, LanePlace, Picture, TEXT_LIMIT, line_y,
};
use std::alloc::{AllocError, Global};

// Where the base of a text is that stands on a line.
fn base(line: usize) -> usize {
    line_y(line).saturating_add(4)
}

/// The text, cut where it has no room; three dots show that.
pub fn cut(alloc: Global, text: &[u8], limit: usize) -> Result<Vec<u8>, AllocError> {
    if text.len() <= limit {
        return Vec::from_slice(alloc, text);
    }
    let end = limit.saturating_sub(3).min(text.len());
    let mut front = Vec::from_slice(alloc, &text[..end])?;
    front.extend_from_slice(b"...")?;
    Ok(front)
}

// Where the text of an entry ends.
fn text_end(lane: &LanePlace, entry: &LaneEntry) -> usize {
    let letters = entry.text.len().min(TEXT_LIMIT);
    lane.text
        .saturating_add(letters.saturating_mul(LETTER))
        .saturating_add(4)
}

// The line between an entry and the word that it names, from here on.
fn draw_guide(
    page: &mut Page,
    alloc: Global,
    picture: &Picture,
    left: usize,
    entry: &LaneEntry,
) -> Result<(), NoPage> {
    let Some(place) = entry.place else {
        return Ok(());
    };
    let Some(column) = column_of(picture, place) else {
        return Ok(());
    };
    let y = line_y(entry.line);
    let right = column.cached.left.saturating_sub(1);
    match entry.style {
        Style::Write => {
            let outline = format!(in alloc; "M{left} {y}H{right}")?;
            arrow(page, alloc, "guide", "url(#tip)", outline.as_str())
        }
        Style::Read => {
            let outline = format!(in alloc; "M{right} {y}H{left}")?;
            arrow(page, alloc, "guide", "url(#tip)", outline.as_str())
        }
        _ => {
            let outline = format!(in alloc; "M{left} {y}H{right}")?;
            path(page, alloc, "guide far", outline.as_str())
        }
    }
}

/// The lines between entries and the words that they name.
pub fn draw_guides(page: &mut Page, alloc: Global, picture: &Picture) -> Result<(), NoPage> {
    for lane in &picture.lanes {
        for entry in &lane.lane.entries {
            draw_guide(page, alloc, picture, text_end(lane, entry), entry)?;
        }
    }
    Ok(())
}

// A call, from its begin to its end.
fn draw_rail(page: &mut Page, alloc: Global, x: usize, rail: &Rail) -> Result<(), NoPage> {
    let (from, to) = (line_y(rail.from), line_y(rail.to));
    let outline = format!(in alloc; "M{x} {from}V{to}")?;
    match rail.end {
        RailEnd::Lost => arrow(page, alloc, "rail", "url(#cross)", outline.as_str()),
        RailEnd::Answered | RailEnd::Open => path(page, alloc, "rail", outline.as_str()),
    }
}

/// The sign of an event that does not happen.
pub fn draw_refused(page: &mut Page, alloc: Global, x: usize, y: usize) -> Result<(), NoPage> {
    let (left, right) = (x.saturating_sub(4), x.saturating_add(4));
    let (top, bottom) = (y.saturating_sub(4), y.saturating_add(4));
    let outline = format!(in alloc;
        "M{left} {top}L{right} {bottom}M{left} {bottom}L{right} {top}"
    )?;
    path(page, alloc, "a", outline.as_str())
}

/// The sign of an entry on the line of its call.
pub fn draw_sign(
    page: &mut Page,
    alloc: Global,
    x: usize,
    y: usize,
    style: Style,
) -> Result<(), NoPage> {
    match style {
        Style::Begin => circle(page, alloc, "open", x, y, 5),
        Style::Write => circle(page, alloc, "dot", x, y, 4),
        Style::Read => circle(page, alloc, "open", x, y, 3),
        Style::Move => circle(page, alloc, "dot", x, y, 2),
        Style::Inner => circle(page, alloc, "open", x, y, 2),
        Style::Answer => {
            let (left, top) = (x.saturating_sub(5), y.saturating_sub(5));
            rect(page, alloc, "dot", left, top, 10, 10)
        }
        Style::Refused => draw_refused(page, alloc, x, y),
    }
}

fn text_class(style: Style) -> &'static str {
    match style {
        Style::Begin | Style::Answer => "b",
        Style::Read | Style::Move | Style::Inner => "r",
        Style::Write | Style::Refused => "w",
    }
}

// What is shown of an entry where it is pointed at.
fn entry_title(alloc: Global, entry: &LaneEntry) -> Result<Vec<u8>, AllocError> {
    let mut told = Vec::from_slice(alloc, &entry.text)?;
    told.extend_from_slice(b" (")?;
    told.extend_from_slice(entry.title.as_bytes())?;
    told.extend_from_slice(b")")?;
    Ok(told)
}

// An entry of a lane.
fn draw_entry(
    page: &mut Page,
    alloc: Global,
    lane: &LanePlace,
    entry: &LaneEntry,
) -> Result<(), NoPage> {
    let base = base(entry.line);
    group(page, alloc, "event")?;
    let told = entry_title(alloc, entry)?;
    title(page, alloc, &told)?;
    if !entry.points.is_empty() {
        text(
            page,
            alloc,
            "point",
            lane.points,
            base,
            entry.points.as_bytes(),
        )?;
    }
    draw_sign(page, alloc, lane.rail, line_y(entry.line), entry.style)?;
    let words = cut(alloc, &entry.text, TEXT_LIMIT)?;
    text(
        page,
        alloc,
        text_class(entry.style),
        lane.text,
        base,
        &words,
    )?;
    page.end(alloc)
}

// The lane of a process.
fn draw_lane(page: &mut Page, alloc: Global, lane: &LanePlace) -> Result<(), NoPage> {
    let process = lane.process;
    let id = format!(in alloc; "process-{process}")?;
    page.begin(alloc, Tag::Group, &[named(Name::Id, id.as_bytes())])?;
    let heading = format!(in alloc; "process {process}")?;
    text(
        page,
        alloc,
        "h",
        lane.rail.saturating_sub(5),
        34,
        heading.as_bytes(),
    )?;
    for rail in &lane.lane.rails {
        draw_rail(page, alloc, lane.rail, rail)?;
    }
    draw_entries(page, alloc, lane)?;
    page.end(alloc)
}

fn draw_entries(page: &mut Page, alloc: Global, lane: &LanePlace) -> Result<(), NoPage> {
    for entry in &lane.lane.entries {
        draw_entry(page, alloc, lane, entry)?;
    }
    Ok(())
}

/// The processes.
pub fn draw_lanes(page: &mut Page, alloc: Global, picture: &Picture) -> Result<(), NoPage> {
    for lane in &picture.lanes {
        draw_lane(page, alloc, lane)?;
    }
    Ok(())
}

// The arrow of an eviction.
fn draw_eviction(
    page: &mut Page,
    alloc: Global,
    picture: &Picture,
    place: Place,
    y: usize,
) -> Result<(), NoPage> {
    let Some(column) = column_of(picture, place) else {
        return Ok(());
    };
    let (left, right) = (
        column.cached.right(),
        column.persisted.left.saturating_sub(1),
    );
    let outline = format!(in alloc; "M{left} {y}H{right}")?;
    arrow(page, alloc, "evict", "url(#arrow)", outline.as_str())
}

fn across_class(kind: AcrossKind) -> &'static str {
    match kind {
        AcrossKind::Crash => "crash",
        AcrossKind::Stop => "stop",
        AcrossKind::Eviction(_) => "eviction",
    }
}

// A line across the lanes with its text.
fn draw_one_across(
    page: &mut Page,
    alloc: Global,
    picture: &Picture,
    across: &Across,
) -> Result<(), NoPage> {
    let y = line_y(across.line);
    group(page, alloc, across_class(across.kind))?;
    title(page, alloc, &across.text)?;
    match across.kind {
        AcrossKind::Crash | AcrossKind::Stop => {
            let right = picture.width.saturating_sub(6);
            let outline = format!(in alloc; "M6 {y}H{right}")?;
            path(page, alloc, "line", outline.as_str())?;
        }
        AcrossKind::Eviction(place) => draw_eviction(page, alloc, picture, place, y)?,
    }
    text(page, alloc, "w", 14, y.saturating_sub(4), &across.text)?;
    page.end(alloc)
}

/// Crashes, stops and evictions.
pub fn draw_across(page: &mut Page, alloc: Global, picture: &Picture) -> Result<(), NoPage> {
    for across in &picture.across {
        draw_one_across(page, alloc, picture, across)?;
    }
    Ok(())
}

/// Faint lines, one below every fifth line.
pub fn draw_rules(page: &mut Page, alloc: Global, picture: &Picture) -> Result<(), NoPage> {
    let right = picture.width.saturating_sub(6);
    for line in 1..picture.end {
        if line % 5 == 0 {
            let y = line_y(line).saturating_add(LINE / 2);
            let outline = format!(in alloc; "M6 {y}H{right}")?;
            path(page, alloc, "rule", outline.as_str())?;
        }
    }
    Ok(())
}
