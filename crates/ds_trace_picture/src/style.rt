//! The looks of a picture: its colours, its arrows, its legend.

use crate::pen::{arrow, circle, group, named, numbered, path, rect, text};
use ds_svg::page::{NoPage, Page};
use ds_svg::tag::{Name, Tag};
use std::alloc::Global;

/// How high the legend is.
pub const LEGEND_HEIGHT: usize = 46;

// Each colour stands before its variable, for what draws without variables of style sheets (librsvg).
const STYLE: &str =
    "svg{--bg:#fff;--ink:#1f2328;--dim:#59636e;--rule:#e4e8ec;--c:#cfe6ff;--cs:#0969da;--p:#fff;--ps:#8a5a00;--x:#c4191f;background:var(--bg)}\
@media(prefers-color-scheme:dark){svg{--bg:#0d1117;--ink:#e6edf3;--dim:#9aa4ae;--rule:#222a33;--c:#123a66;--cs:#6cb0ff;--p:#0d1117;--ps:#d9a441;--x:#ff7b72}}\
.ground{fill:#fff;fill:var(--bg)}\
text{font:11px ui-monospace,SFMono-Regular,Menlo,Consolas,'DejaVu Sans Mono','Liberation Mono',monospace;fill:#1f2328;fill:var(--ink)}\
.h{font-weight:700}.s{font-size:10px;fill:#59636e;fill:var(--dim)}.m{text-anchor:middle}\
.c .bar{fill:#cfe6ff;fill:var(--c);stroke:#0969da;stroke:var(--cs)}.p .bar{fill:url(#hatch);stroke:#8a5a00;stroke:var(--ps);stroke-dasharray:4 2}\
.c text,.p text,.eviction text,.crash text,.stop text{paint-order:stroke;stroke:#fff;stroke:var(--bg);stroke-width:3px;stroke-linejoin:round}\
.c text{stroke:#cfe6ff;stroke:var(--c)}.first text{fill:#59636e;fill:var(--dim)}.first.c .bar,.first.p .bar{fill:none;stroke-opacity:.5}.first.c text,.first.p text{stroke:#fff;stroke:var(--bg)}\
.lost .bar{fill:none;stroke:#c4191f;stroke:var(--x);stroke-dasharray:1 2}.lost text{text-decoration:line-through;stroke:#fff;stroke:var(--bg)}\
.strike{stroke:#c4191f;stroke:var(--x);fill:none}\
.a,.evict{fill:none;stroke:#1f2328;stroke:var(--ink)}.evict{stroke-width:2;stroke-dasharray:3 2}\
.dot{fill:#1f2328;fill:var(--ink);stroke:none}.open{fill:#fff;fill:var(--bg);stroke:#1f2328;stroke:var(--ink);stroke-width:1.5}\
.rail{stroke:#59636e;stroke:var(--dim);stroke-width:2;fill:none}.guide{stroke:#59636e;stroke:var(--dim);stroke-width:.6;fill:none;opacity:.75}.far{stroke-dasharray:1 3}\
.b{font-weight:700}.r{fill:#59636e;fill:var(--dim)}.point{text-anchor:end;font-style:italic;fill:#59636e;fill:var(--dim)}\
.rule{stroke:#e4e8ec;stroke:var(--rule);fill:none}.tip{fill:#59636e;fill:var(--dim)}.head{fill:#1f2328;fill:var(--ink)}.x{stroke:#c4191f;stroke:var(--x);stroke-width:1.5;fill:none}\
.back{fill:#fff;fill:var(--p)}.hatching{stroke:#8a5a00;stroke:var(--ps);stroke-width:1.4;opacity:.7}\
.crash .line{stroke:#c4191f;stroke:var(--x);stroke-width:2.5;fill:none}.crash text{font-weight:700;fill:#c4191f;fill:var(--x)}\
.stop .line{stroke:#c4191f;stroke:var(--x);stroke-width:1.5;stroke-dasharray:8 4;fill:none}.stop text{font-weight:700;fill:#c4191f;fill:var(--x)}\
.eviction text{font-style:italic}";

/// The style of the page.
pub fn draw_style(page: &mut Page, alloc: Global) -> Result<(), NoPage> {
    page.begin(alloc, Tag::Style, &[])?;
    page.say(alloc, STYLE.as_bytes())?;
    page.end(alloc)
}

// The pattern of the persisted sides.
fn draw_pattern(page: &mut Page, alloc: Global) -> Result<(), NoPage> {
    let pattern = [
        named(Name::Id, b"hatch"),
        numbered(Name::Width, 6),
        numbered(Name::Height, 6),
        named(Name::PatternUnits, b"userSpaceOnUse"),
        named(Name::PatternTransform, b"rotate(45)"),
    ];
    page.begin(alloc, Tag::Pattern, &pattern)?;
    rect(page, alloc, "back", 0, 0, 6, 6)?;
    path(page, alloc, "hatching", "M0 0V6")?;
    page.end(alloc)
}

// A marker of ten by ten, drawn so large, whose middle or tip lies there.
fn draw_marker(
    page: &mut Page,
    alloc: Global,
    id: &str,
    size: usize,
    tip: usize,
    class: &str,
    outline: &str,
) -> Result<(), NoPage> {
    let marker = [
        named(Name::Id, id.as_bytes()),
        named(Name::ViewBox, b"0 0 10 10"),
        numbered(Name::ReferenceX, tip),
        numbered(Name::ReferenceY, 5),
        numbered(Name::MarkerWidth, size),
        numbered(Name::MarkerHeight, size),
        named(Name::MarkerUnits, b"userSpaceOnUse"),
        named(Name::Orient, b"auto"),
    ];
    page.begin(alloc, Tag::Marker, &marker)?;
    path(page, alloc, class, outline)?;
    page.end(alloc)
}

/// The pattern and the markers that the page draws with.
pub fn draw_definitions(page: &mut Page, alloc: Global) -> Result<(), NoPage> {
    page.begin(alloc, Tag::Definitions, &[])?;
    draw_pattern(page, alloc)?;
    draw_marker(page, alloc, "arrow", 7, 10, "head", "M0 0L10 5L0 10z")?;
    draw_marker(page, alloc, "tip", 6, 10, "tip", "M0 0L10 5L0 10z")?;
    draw_marker(page, alloc, "cross", 10, 5, "x", "M1 1L9 9M9 1L1 9")?;
    page.end(alloc)
}

// The sides of words, in the legend.
fn explain_sides(page: &mut Page, alloc: Global) -> Result<(), NoPage> {
    group(page, alloc, "c")?;
    rect(page, alloc, "bar", 0, 0, 18, 12)?;
    page.end(alloc)?;
    text(page, alloc, "w", 24, 10, b"cached: processes see it")?;
    group(page, alloc, "p")?;
    rect(page, alloc, "bar", 210, 0, 18, 12)?;
    page.end(alloc)?;
    text(page, alloc, "w", 234, 10, b"persisted: a crash leaves it")?;
    group(page, alloc, "c lost")?;
    rect(page, alloc, "bar", 448, 0, 18, 12)?;
    path(page, alloc, "strike", "M448 0L466 12M466 0L448 12")?;
    page.end(alloc)?;
    text(page, alloc, "w", 472, 10, b"taken back by a crash")
}

// The signs of events, in the legend.
fn explain_signs(page: &mut Page, alloc: Global) -> Result<(), NoPage> {
    arrow(page, alloc, "a", "url(#arrow)", "M0 26H9V34H20")?;
    circle(page, alloc, "dot", 9, 26, 2)?;
    text(page, alloc, "w", 24, 34, b"flush, then write-back")?;
    arrow(page, alloc, "evict", "url(#arrow)", "M210 30H228")?;
    text(page, alloc, "w", 234, 34, b"eviction")?;
    circle(page, alloc, "dot", 318, 30, 4)?;
    text(page, alloc, "w", 328, 34, b"writes")?;
    circle(page, alloc, "open", 392, 30, 3)?;
    text(page, alloc, "w", 400, 34, b"reads")?;
    rect(page, alloc, "dot", 452, 25, 10, 10)?;
    text(page, alloc, "w", 472, 34, b"answer")
}

/// The legend, with its upper edge there.
pub fn draw_legend(page: &mut Page, alloc: Global, top: usize) -> Result<(), NoPage> {
    let place = format!(in alloc; "translate(14 {top})")?;
    let attributes = [
        named(Name::Id, b"legend"),
        named(Name::Transform, place.as_bytes()),
    ];
    page.begin(alloc, Tag::Group, &attributes)?;
    explain_sides(page, alloc)?;
    explain_signs(page, alloc)?;
    page.end(alloc)
}
