//! Draws the words of a brief picture.

use crate::pen::{group, path, rect, text, title};
use ds_layout::layout::Layout;
use ds_layout::place::Place;
use ds_svg::page::{NoPage, Page};
use ds_trace_brief::columns::{BriefColumn, INNER};
use ds_trace_brief::rows::{BriefRow, Sign};
use ds_trace_brief::scene::Brief;
use ds_trace_scene::columns::Side;
use ds_trace_scene::meaning::{label, meaning};
use ds_words::words::Word;
use std::alloc::{AllocError, Global};

// How high a row is.
const ROW: usize = 20;

// Where the first row is.
const TOP: usize = 46;

/// The upper edge of a row.
pub fn row_top(row: usize) -> usize {
    TOP.saturating_add(row.saturating_mul(ROW))
}

// A bar: a side of a word that is the same from a row up to another.
#[derive(Clone, Copy, Debug, PartialEq, Eq)]
struct Run {
    from: usize,
    to: usize,
    word: u64,
    is_first: bool,
    is_lost: bool,
}

// A side of a column: where its bars stand.
#[derive(Clone, Copy, Debug, PartialEq, Eq)]
struct Strip {
    side: Side,
    left: usize,
    width: usize,
}

fn word_of(word: Word, side: Side) -> u64 {
    match side {
        Side::Cached => word.cached,
        Side::Persisted => word.persisted,
    }
}

fn is_crash(rows: &[BriefRow], row: usize) -> bool {
    match rows.get(row) {
        Some(row) => row.sign == Sign::Crash,
        None => false,
    }
}

// The side of the word after the event of a row.
fn word_after(column: &BriefColumn, side: Side, row: usize) -> u64 {
    match column.words.get(row) {
        Some(word) => word_of(*word, side),
        None => 0,
    }
}

// The bars of a side of a word: a new one where it changes, and after each crash.
fn runs(
    alloc: Global,
    rows: &[BriefRow],
    column: &BriefColumn,
    side: Side,
) -> Result<Vec<Run>, AllocError> {
    let mut runs = Vec::new(alloc);
    let mut from = 0;
    let mut is_first = true;
    for row in 1..rows.len().saturating_add(1) {
        let word = word_after(column, side, from);
        let crashes = is_crash(rows, row);
        let ends = row == rows.len();
        let changes = !ends && word_after(column, side, row) != word;
        if crashes || changes || ends {
            runs.push(Run {
                from: from.saturating_add(if is_crash(rows, from) { 1 } else { 0 }),
                to: row,
                word,
                is_first,
                is_lost: crashes && changes,
            })?;
            from = row;
            is_first = is_first && !changes;
        }
    }
    Ok(runs)
}

fn side_class(side: Side) -> &'static str {
    match side {
        Side::Cached => "c",
        Side::Persisted => "p",
    }
}

fn side_name(side: Side) -> &'static str {
    match side {
        Side::Cached => "cached",
        Side::Persisted => "persisted",
    }
}

// What is shown of a bar where it is pointed at.
fn run_title(
    alloc: Global,
    layout: Layout,
    column: &BriefColumn,
    side: Side,
    run: &Run,
) -> Result<String, AllocError> {
    let meaning = meaning(alloc, layout, column.place, run.word)?;
    let name = &column.name;
    let side = side_name(side);
    let lost = if run.is_lost {
        "; a crash takes it back"
    } else {
        ""
    };
    format!(in alloc; "{name}, {side}: {} ({meaning}){lost}", run.word)
}

// A bar with its label in its first row.
fn draw_run(
    page: &mut Page,
    alloc: Global,
    layout: Layout,
    column: &BriefColumn,
    strip: Strip,
    run: &Run,
) -> Result<(), NoPage> {
    let (top, bottom) = (row_top(run.from), row_top(run.to));
    if top >= bottom {
        return Ok(());
    }
    let side = side_class(strip.side);
    let first = if run.is_first { " first" } else { "" };
    let lost = if run.is_lost { " lost" } else { "" };
    let class = format!(in alloc; "{side}{first}{lost}")?;
    group(page, alloc, class.as_str())?;
    let told = run_title(alloc, layout, column, strip.side, run)?;
    title(page, alloc, told.as_bytes())?;
    let height = bottom.saturating_sub(top);
    rect(page, alloc, "bar", strip.left, top, strip.width, height)?;
    let label = label(alloc, layout, column.place, run.word)?;
    let middle = strip.left.saturating_add(strip.width / 2);
    text(
        page,
        alloc,
        "m",
        middle,
        top.saturating_add(14),
        label.as_bytes(),
    )?;
    page.end(alloc)
}

// A side of a word.
fn draw_strip(
    page: &mut Page,
    alloc: Global,
    scene: &Brief,
    column: &BriefColumn,
    strip: Strip,
) -> Result<(), NoPage> {
    let runs = runs(alloc, &scene.rows, column, strip.side)?;
    for run in &runs {
        draw_run(page, alloc, scene.layout, column, strip, run)?;
    }
    Ok(())
}

// A word, with its left edge there.
fn draw_column(
    page: &mut Page,
    alloc: Global,
    scene: &Brief,
    column: &BriefColumn,
    left: usize,
) -> Result<(), NoPage> {
    let cached = Strip {
        side: Side::Cached,
        left,
        width: column.cached,
    };
    let persisted = Strip {
        side: Side::Persisted,
        left: left.saturating_add(column.cached).saturating_add(INNER),
        width: column.persisted,
    };
    group(page, alloc, "word")?;
    let right = persisted.left.saturating_add(persisted.width);
    let middle = left.saturating_add(right.saturating_sub(left) / 2);
    text(page, alloc, "h m", middle, 36, column.name.as_bytes())?;
    draw_strip(page, alloc, scene, column, cached)?;
    draw_strip(page, alloc, scene, column, persisted)?;
    page.end(alloc)
}

/// The words of a brief picture.
pub fn draw_brief_columns(page: &mut Page, alloc: Global, scene: &Brief) -> Result<(), NoPage> {
    let mut left = scene.words;
    for column in &scene.columns {
        draw_column(page, alloc, scene, column, left)?;
        left = left.saturating_add(column.width);
    }
    Ok(())
}
