//! Writes a recording as one self-contained SVG.

ghost use Rattle.std.specs.Prelude.{◌≤◌, IfOk, length};
ghost use Rattle.ds_svg.specs.Pages.{IsDocument};

use crate::pen::{named, numbered, rect, title};
use crate::processes::{draw_across, draw_guides, draw_lanes, draw_rules};
use crate::style::{LEGEND_HEIGHT, draw_definitions, draw_legend, draw_style};
use crate::words::{draw_columns, draw_passages};
use ds_svg::page::{NoPage, Page};
use ds_svg::tag::Name;
use ds_trace::row::Trace;
use ds_trace_scene::places::{Picture, line_y, place_all};
use std::alloc::Global;

// The least width, for the legend.
const LEAST_WIDTH: usize = 650;

/// The page, so wide and so high.
pub fn begin_page(
    alloc: Global,
    limit: usize,
    width: usize,
    height: usize,
) -> Result<Page, NoPage> {
    let view = format!(in alloc; "0 0 {width} {height}")?;
    let attributes = [
        named(Name::Namespace, b"http://www.w3.org/2000/svg"),
        numbered(Name::Width, width),
        numbered(Name::Height, height),
        named(Name::ViewBox, view.as_bytes()),
        named(Name::Role, b"img"),
    ];
    Page::new(alloc, limit, &attributes)
}

// All that stands on the page.
fn fill(
    page: &mut Page,
    alloc: Global,
    picture: &Picture,
    width: usize,
    height: usize,
) -> Result<(), NoPage> {
    title(page, alloc, b"The run of a script: time runs down")?;
    draw_style(page, alloc)?;
    draw_definitions(page, alloc)?;
    rect(page, alloc, "ground", 0, 0, width, height)?;
    draw_rules(page, alloc, picture)?;
    draw_guides(page, alloc, picture)?;
    draw_columns(page, alloc, picture)?;
    draw_passages(page, alloc, picture)?;
    draw_across(page, alloc, picture)?;
    draw_lanes(page, alloc, picture)?;
    draw_legend(page, alloc, height.saturating_sub(LEGEND_HEIGHT))
}

/// The picture of a recording, as a well-formed SVG document of at most n bytes. An error is a picture that would have
/// more, or a failed allocation.
pub fn draw(alloc: Global, trace: &Trace, limit: usize) -> Result<Vec<u8>, NoPage>
    ensures document { IfOk result (λ svg. IsDocument svg.items) }
    ensures within { IfOk result (λ svg. length svg.items ≤ limit) }
{
    let picture = place_all(alloc, trace)?;
    let width = picture.width.max(LEAST_WIDTH);
    let height = line_y(picture.end)
        .saturating_add(16)
        .saturating_add(LEGEND_HEIGHT);
    let mut page = begin_page(alloc, limit, width, height)?;
    fill(&mut page, alloc, &picture, width, height)?;
    let svg = page.finish(alloc)?;
    if svg.len() > limit {
        return Err(NoPage::TooLong);
    }
    Ok(svg)
}
