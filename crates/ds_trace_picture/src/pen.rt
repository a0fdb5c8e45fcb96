//! Shapes and texts of a page.

use ds_svg::page::{NoPage, Page};
use ds_svg::tag::{Attribute, AttributeValue, Name, Tag};
use std::alloc::Global;

/// An attribute with this text.
pub fn named(name: Name, text: &[u8]) -> Attribute<'_> {
    Attribute {
        name,
        value: AttributeValue::Text(text),
    }
}

/// An attribute with this number.
pub fn numbered(name: Name, number: usize) -> Attribute<'static> {
    Attribute {
        name,
        value: AttributeValue::Number(number),
    }
}

/// A group of this class opens.
pub fn group(page: &mut Page, alloc: Global, class: &str) -> Result<(), NoPage> {
    page.begin(alloc, Tag::Group, &[named(Name::Class, class.as_bytes())])
}

/// The title of the element that is open.
pub fn title(page: &mut Page, alloc: Global, text: &[u8]) -> Result<(), NoPage> {
    page.begin(alloc, Tag::Title, &[])?;
    page.say(alloc, text)?;
    page.end(alloc)
}

/// A text of this class, with its base there.
pub fn text(
    page: &mut Page,
    alloc: Global,
    class: &str,
    x: usize,
    y: usize,
    words: &[u8],
) -> Result<(), NoPage> {
    let class = named(Name::Class, class.as_bytes());
    let place = [class, numbered(Name::X, x), numbered(Name::Y, y)];
    page.begin(alloc, Tag::Text, &place)?;
    page.say(alloc, words)?;
    page.end(alloc)
}

/// A rectangle.
pub fn rect(
    page: &mut Page,
    alloc: Global,
    class: &str,
    x: usize,
    y: usize,
    width: usize,
    height: usize,
) -> Result<(), NoPage> {
    let class = named(Name::Class, class.as_bytes());
    let place = [
        class,
        numbered(Name::X, x),
        numbered(Name::Y, y),
        numbered(Name::Width, width),
        numbered(Name::Height, height),
    ];
    page.put(alloc, Tag::Rect, &place)
}

/// A circle.
pub fn circle(
    page: &mut Page,
    alloc: Global,
    class: &str,
    x: usize,
    y: usize,
    radius: usize,
) -> Result<(), NoPage> {
    let class = named(Name::Class, class.as_bytes());
    let place = [
        class,
        numbered(Name::CenterX, x),
        numbered(Name::CenterY, y),
        numbered(Name::Radius, radius),
    ];
    page.put(alloc, Tag::Circle, &place)
}

/// A path.
pub fn path(page: &mut Page, alloc: Global, class: &str, outline: &str) -> Result<(), NoPage> {
    let class = named(Name::Class, class.as_bytes());
    let outline = named(Name::Outline, outline.as_bytes());
    page.put(alloc, Tag::Path, &[class, outline])
}

/// A path that ends in this marker.
pub fn arrow(
    page: &mut Page,
    alloc: Global,
    class: &str,
    marker: &str,
    outline: &str,
) -> Result<(), NoPage> {
    let class = named(Name::Class, class.as_bytes());
    let outline = named(Name::Outline, outline.as_bytes());
    let marker = named(Name::MarkerEnd, marker.as_bytes());
    page.put(alloc, Tag::Path, &[class, marker, outline])
}
