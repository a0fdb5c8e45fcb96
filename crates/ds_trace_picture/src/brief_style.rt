//! The looks of a brief picture: letters of 12 pixels, and its legend.

use crate::pen::{circle, group, named, rect, text};
use ds_svg::page::{NoPage, Page};
use ds_svg::tag::{Name, Tag};
use std::alloc::Global;

/// How high the legend is.
pub const BRIEF_LEGEND: usize = 70;

// Each colour stands before its variable, for what draws without variables of style sheets (librsvg).
const STYLE: &str =
    "svg{--bg:#fff;--ink:#1f2328;--dim:#59636e;--rule:#e4e8ec;--c:#cfe6ff;--cs:#0969da;--p:#fff;--ps:#8a5a00;--x:#c4191f;background:var(--bg)}\
@media(prefers-color-scheme:dark){svg{--bg:#0d1117;--ink:#e6edf3;--dim:#9aa4ae;--rule:#222a33;--c:#123a66;--cs:#6cb0ff;--p:#0d1117;--ps:#d9a441;--x:#ff7b72}}\
.ground{fill:#fff;fill:var(--bg)}\
text{font:12px ui-monospace,SFMono-Regular,Menlo,Consolas,'DejaVu Sans Mono','Liberation Mono',monospace;fill:#1f2328;fill:var(--ink)}\
.h,.b{font-weight:700}.m{text-anchor:middle}\
.c .bar{fill:#cfe6ff;fill:var(--c);stroke:#0969da;stroke:var(--cs)}.p .bar{fill:url(#hatch);stroke:#8a5a00;stroke:var(--ps);stroke-dasharray:4 2}\
.p text{paint-order:stroke;stroke:#fff;stroke:var(--bg);stroke-width:4px;stroke-linejoin:round}\
.first text{fill:#59636e;fill:var(--dim)}.first.c .bar,.first.p .bar{fill:none;stroke-opacity:.5}\
.lost .bar{fill:none;stroke:#c4191f;stroke:var(--x);stroke-width:1.5;stroke-dasharray:2 2}.lost text{text-decoration:line-through;fill:#c4191f;fill:var(--x)}\
.a{fill:none;stroke:#1f2328;stroke:var(--ink);stroke-width:1.5}\
.dot{fill:#1f2328;fill:var(--ink);stroke:none}.open{fill:#fff;fill:var(--bg);stroke:#1f2328;stroke:var(--ink);stroke-width:1.5}\
.rail{stroke:#59636e;stroke:var(--dim);stroke-width:2;fill:none}\
.rule{stroke:#e4e8ec;stroke:var(--rule);fill:none}.head,.tip{fill:#1f2328;fill:var(--ink)}.x{stroke:#c4191f;stroke:var(--x);stroke-width:1.5;fill:none}\
.back{fill:#fff;fill:var(--p)}.hatching{stroke:#8a5a00;stroke:var(--ps);stroke-width:1.4;opacity:.7}\
.crash .line{stroke:#c4191f;stroke:var(--x);stroke-width:2;fill:none}.crash text{fill:#c4191f;fill:var(--x)}";

/// The style of the page.
pub fn draw_brief_style(page: &mut Page, alloc: Global) -> Result<(), NoPage> {
    page.begin(alloc, Tag::Style, &[])?;
    page.say(alloc, STYLE.as_bytes())?;
    page.end(alloc)
}

// The sides of words, in the legend.
fn explain_sides(page: &mut Page, alloc: Global) -> Result<(), NoPage> {
    group(page, alloc, "c")?;
    rect(page, alloc, "bar", 0, 0, 18, 12)?;
    page.end(alloc)?;
    text(page, alloc, "w", 24, 10, b"cached: processes see it")?;
    group(page, alloc, "p")?;
    rect(page, alloc, "bar", 216, 0, 18, 12)?;
    page.end(alloc)?;
    text(page, alloc, "w", 240, 10, b"persisted: a crash leaves it")?;
    group(page, alloc, "c lost")?;
    rect(page, alloc, "bar", 462, 0, 18, 12)?;
    page.end(alloc)?;
    text(page, alloc, "w", 486, 10, b"taken back by a crash")
}

// The signs of events, in the legend.
fn explain_signs(page: &mut Page, alloc: Global) -> Result<(), NoPage> {
    circle(page, alloc, "open", 9, 28, 5)?;
    text(page, alloc, "w", 24, 32, b"a call begins")?;
    circle(page, alloc, "dot", 225, 28, 3)?;
    text(page, alloc, "w", 240, 32, b"it has come to this point")?;
    rect(page, alloc, "dot", 466, 23, 10, 10)?;
    text(page, alloc, "w", 486, 32, b"it is answered")
}

// The labels of words, in the legend.
fn explain_labels(page: &mut Page, alloc: Global) -> Result<(), NoPage> {
    text(page, alloc, "w", 24, 54, b"edit 1 0: process 1's edit 0")?;
    text(page, alloc, "w", 240, 54, b"announce 1: of its last edit")?;
    text(page, alloc, "w", 486, 54, b"dirty: to be recalculated")
}

/// The legend, with its upper edge there.
pub fn draw_brief_legend(page: &mut Page, alloc: Global, top: usize) -> Result<(), NoPage> {
    let place = format!(in alloc; "translate(12 {top})")?;
    let attributes = [
        named(Name::Id, b"legend"),
        named(Name::Transform, place.as_bytes()),
    ];
    page.begin(alloc, Tag::Group, &attributes)?;
    explain_sides(page, alloc)?;
    explain_signs(page, alloc)?;
    explain_labels(page, alloc)?;
    page.end(alloc)
}
