//! Draws a brief picture: rows of events beside rails, and words as bars.

ghost use Rattle.std.specs.Prelude.{◌≤◌, IfOk, length};
ghost use Rattle.ds_svg.specs.Pages.{IsDocument};

use crate::brief_style::{BRIEF_LEGEND, draw_brief_legend, draw_brief_style};
use crate::brief_words::{draw_brief_columns, row_top};
use crate::pen::{arrow, group, path, rect, text, title};
use crate::processes::{cut, draw_refused, draw_sign};
use crate::style::draw_definitions;
use crate::svg::begin_page;
use ds_svg::page::{NoPage, Page};
use ds_trace::row::Trace;
use ds_trace_brief::rows::{BriefRow, Sign};
use ds_trace_brief::scene::{Brief, BriefRail, MARGIN, RAIL, TEXT_LIMIT, brief_of};
use ds_trace_scene::lanes::{RailEnd, Style};
use std::alloc::{AllocError, Global};

// The least width, for the legend.
const LEAST_WIDTH: usize = 700;

// The middle of a row.
fn middle(row: usize) -> usize {
    row_top(row).saturating_add(10)
}

// The base of the text of a row.
fn base(row: usize) -> usize {
    row_top(row).saturating_add(14)
}

// Where the rail of a process is.
fn rail_x(process: usize) -> usize {
    process
        .saturating_mul(RAIL)
        .saturating_add(MARGIN)
        .saturating_add(6)
}

// A call.
fn draw_rail(
    page: &mut Page,
    alloc: Global,
    scene: &Brief,
    rail: &BriefRail,
) -> Result<(), NoPage> {
    let x = rail_x(rail.process);
    let from = middle(rail.from);
    let to = if rail.to < scene.rows.len() {
        middle(rail.to)
    } else {
        row_top(rail.to)
    };
    let outline = format!(in alloc; "M{x} {from}V{to}")?;
    match rail.end {
        RailEnd::Lost => arrow(page, alloc, "rail", "url(#cross)", outline.as_str()),
        RailEnd::Answered | RailEnd::Open => path(page, alloc, "rail", outline.as_str()),
    }
}

// The rails, each with its process above.
fn draw_rails(page: &mut Page, alloc: Global, scene: &Brief) -> Result<(), NoPage> {
    text(page, alloc, "w", MARGIN, 18, b"process")?;
    for process in 0..scene.layout.processes {
        let name = format!(in alloc; "{process}")?;
        text(page, alloc, "h m", rail_x(process), 36, name.as_bytes())?;
    }
    for rail in &scene.rails {
        draw_rail(page, alloc, scene, rail)?;
    }
    Ok(())
}

fn text_class(style: Style) -> &'static str {
    match style {
        Style::Begin | Style::Answer => "b",
        _ => "w",
    }
}

// A row beside the rails: its sign, and its text.
fn draw_row(
    page: &mut Page,
    alloc: Global,
    scene: &Brief,
    number: usize,
    row: &BriefRow,
) -> Result<(), NoPage> {
    let class = match row.sign {
        Sign::Call { process, style } => {
            draw_sign(page, alloc, rail_x(process), middle(number), style)?;
            text_class(style)
        }
        Sign::Stop(process) => {
            draw_refused(page, alloc, rail_x(process), middle(number))?;
            "b"
        }
        Sign::Eviction | Sign::Crash => "w",
    };
    let words = cut(alloc, &row.text, TEXT_LIMIT)?;
    text(page, alloc, class, scene.text, base(number), &words)
}

// The band of a crash, with its sentence.
fn draw_crash(
    page: &mut Page,
    alloc: Global,
    left: usize,
    width: usize,
    number: usize,
    row: &BriefRow,
) -> Result<(), NoPage> {
    let (top, bottom) = (row_top(number), row_top(number.saturating_add(1)));
    let right = width.saturating_sub(6);
    let outline = format!(in alloc; "M6 {top}H{right}M6 {bottom}H{right}")?;
    path(page, alloc, "line", outline.as_str())?;
    let room = right.saturating_sub(left).saturating_mul(4) / 29;
    let words = cut(alloc, &row.text, room)?;
    text(page, alloc, "b", left, base(number), &words)
}

// What is shown of a row where it is pointed at: its whole text, and its event.
fn row_title(alloc: Global, row: &BriefRow) -> Result<Vec<u8>, AllocError> {
    let mut told = Vec::from_slice(alloc, &row.text)?;
    told.extend_from_slice(b" (")?;
    told.extend_from_slice(row.title.as_bytes())?;
    told.extend_from_slice(b")")?;
    Ok(told)
}

// The rows.
fn draw_rows(page: &mut Page, alloc: Global, scene: &Brief, width: usize) -> Result<(), NoPage> {
    for (number, row) in scene.rows.iter().enumerate() {
        group(
            page,
            alloc,
            if row.sign == Sign::Crash {
                "crash"
            } else {
                "event"
            },
        )?;
        let told = row_title(alloc, row)?;
        title(page, alloc, &told)?;
        match row.sign {
            Sign::Crash => draw_crash(page, alloc, scene.text, width, number, row)?,
            _ => draw_row(page, alloc, scene, number, row)?,
        }
        page.end(alloc)?;
    }
    Ok(())
}

// A faint line above each row.
fn draw_rules(page: &mut Page, alloc: Global, scene: &Brief, width: usize) -> Result<(), NoPage> {
    let right = width.saturating_sub(6);
    for number in 0..scene.rows.len() {
        let y = row_top(number);
        let outline = format!(in alloc; "M6 {y}H{right}")?;
        path(page, alloc, "rule", outline.as_str())?;
    }
    Ok(())
}

// How many words have no room, where some have none.
fn draw_hidden(page: &mut Page, alloc: Global, scene: &Brief) -> Result<(), NoPage> {
    let hidden = scene.hidden;
    if hidden == 0 {
        return Ok(());
    }
    let words = format!(in alloc; "words that change too, and have no room here: {hidden}")?;
    let base = row_top(scene.rows.len()).saturating_add(18);
    text(page, alloc, "w", MARGIN, base, words.as_bytes())
}

// All that stands on the page.
fn fill(
    page: &mut Page,
    alloc: Global,
    scene: &Brief,
    width: usize,
    height: usize,
) -> Result<(), NoPage> {
    title(
        page,
        alloc,
        b"The run of a script, in short: time runs down",
    )?;
    draw_brief_style(page, alloc)?;
    draw_definitions(page, alloc)?;
    rect(page, alloc, "ground", 0, 0, width, height)?;
    draw_rules(page, alloc, scene, width)?;
    draw_brief_columns(page, alloc, scene)?;
    draw_rails(page, alloc, scene)?;
    draw_rows(page, alloc, scene, width)?;
    draw_hidden(page, alloc, scene)?;
    draw_brief_legend(page, alloc, height.saturating_sub(BRIEF_LEGEND))
}

/// The brief picture of a recording, as a well-formed SVG document of at most n bytes. An error is a picture that would
/// have more, or a failed allocation.
pub fn draw_brief(alloc: Global, trace: &Trace, limit: usize) -> Result<Vec<u8>, NoPage>
    ensures document { IfOk result (λ svg. IsDocument svg.items) }
    ensures within { IfOk result (λ svg. length svg.items ≤ limit) }
{
    let scene = brief_of(alloc, trace)?;
    let width = scene.width.max(LEAST_WIDTH);
    let height = row_top(scene.rows.len())
        .saturating_add(if scene.hidden == 0 { 10 } else { 30 })
        .saturating_add(BRIEF_LEGEND);
    let mut page = begin_page(alloc, limit, width, height)?;
    fill(&mut page, alloc, &scene, width, height)?;
    let svg = page.finish(alloc)?;
    if svg.len() > limit {
        return Err(NoPage::TooLong);
    }
    Ok(svg)
}
