//! Elements and their attributes.

ghost use Rattle.std.specs.Prelude.{◌≡◌, ◌++◌, IfOk, OnOk, codes};
ghost use Rattle.std.specs.Fmt.{decimal};
ghost use Rattle.ds_svg.specs.Markup.{attribute_text, attributes_text, close_text, empty_text, name_of, open_text, tag_name, value_text};

use crate::escape::put_escaped;
use std::alloc::{AllocError, Global};

/// The name of an element.
#[derive(Clone, Copy, Debug, PartialEq, Eq)]
pub enum Tag {
    /// `g`.
    Group,
    /// `title`.
    Title,
    /// `style`.
    Style,
    /// `text`.
    Text,
    /// `rect`.
    Rect,
    /// `path`.
    Path,
    /// `circle`.
    Circle,
    /// `defs`.
    Definitions,
    /// `marker`.
    Marker,
    /// `pattern`.
    Pattern,
}

/// The name of an attribute.
#[derive(Clone, Copy, Debug, PartialEq, Eq)]
pub enum Name {
    /// `class`.
    Class,
    /// `id`.
    Id,
    /// `x`.
    X,
    /// `y`.
    Y,
    /// `cx`.
    CenterX,
    /// `cy`.
    CenterY,
    /// `r`.
    Radius,
    /// `width`.
    Width,
    /// `height`.
    Height,
    /// `d`.
    Outline,
    /// `transform`.
    Transform,
    /// `viewBox`.
    ViewBox,
    /// `xmlns`.
    Namespace,
    /// `role`.
    Role,
    /// `refX`.
    ReferenceX,
    /// `refY`.
    ReferenceY,
    /// `markerWidth`.
    MarkerWidth,
    /// `markerHeight`.
    MarkerHeight,
    /// `markerUnits`.
    MarkerUnits,
    /// `marker-end`.
    MarkerEnd,
    /// `orient`.
    Orient,
    /// `patternUnits`.
    PatternUnits,
    /// `patternTransform`.
    PatternTransform,
}

/// The value of an attribute.
#[derive(Clone, Copy, Debug)]
pub enum AttributeValue<'a> {
    /// A number.
    Number(usize),
    /// A text, which is escaped.
    Text(&'a [u8]),
}

/// An attribute of an element.
#[derive(Clone, Copy, Debug)]
pub struct Attribute<'a> {
    /// The name of the attribute.
    pub name: Name,
    /// The value of the attribute.
    pub value: AttributeValue<'a>,
}

impl Tag {
    /// The name as it is written.
    pub fn name(self) -> &'static str
        ensures { result.now ≡ tag_name self }
    {
        match self {
            Tag::Group => "g",
            Tag::Title => "title",
            Tag::Style => "style",
            Tag::Text => "text",
            Tag::Rect => "rect",
            Tag::Path => "path",
            Tag::Circle => "circle",
            Tag::Definitions => "defs",
            Tag::Marker => "marker",
            Tag::Pattern => "pattern",
        }
    }
}

impl Name {
    /// The name as it is written.
    pub fn name(self) -> &'static str
        ensures { result.now ≡ name_of self }
    {
        match self {
            Name::Class => "class",
            Name::Id => "id",
            Name::X => "x",
            Name::Y => "y",
            Name::CenterX => "cx",
            Name::CenterY => "cy",
            Name::Radius => "r",
            Name::Width => "width",
            Name::Height => "height",
            Name::Outline => "d",
            Name::Transform => "transform",
            Name::ViewBox => "viewBox",
            Name::Namespace => "xmlns",
            Name::Role => "role",
            Name::ReferenceX => "refX",
            Name::ReferenceY => "refY",
            Name::MarkerWidth => "markerWidth",
            Name::MarkerHeight => "markerHeight",
            Name::MarkerUnits => "markerUnits",
            Name::MarkerEnd => "marker-end",
            Name::Orient => "orient",
            Name::PatternUnits => "patternUnits",
            Name::PatternTransform => "patternTransform",
        }
    }
}

// Appends a value to the text.
fn put_value(alloc: Global, text: &mut Vec<u8>, value: AttributeValue<'_>) -> Result<(), AllocError>
    ensures { OnOk result (text.new.items ≡ text.old.items ++ value_text value.entry) }
{
    match value {
        AttributeValue::Number(number) => {
            let digits = format!(in alloc; "{number}")?;
            put_escaped(text, digits.as_bytes())
        }
        AttributeValue::Text(bytes) => put_escaped(text, bytes),
    }
}

// Appends an attribute to the text.
fn put_attribute(
    alloc: Global,
    text: &mut Vec<u8>,
    attribute: Attribute<'_>,
) -> Result<(), AllocError>
    ensures { OnOk result (text.new.items ≡ text.old.items ++ attribute_text attribute.entry) }
{
    text.extend_from_slice(b" ")?;
    text.extend_from_slice(attribute.name.name().as_bytes())?;
    text.extend_from_slice(b"=\"")?;
    put_value(alloc, text, attribute.value)?;
    text.extend_from_slice(b"\"")
}

/// Appends attributes to the text. An error means that an allocation failed; some of them may stand there then.
pub fn put_attributes(
    alloc: Global,
    text: &mut Vec<u8>,
    attributes: &[Attribute<'_>],
) -> Result<(), AllocError>
    ensures { OnOk result (text.new.items ≡ text.old.items ++ attributes_text attributes.now) }
{
    for attribute in attributes {
        put_attribute(alloc, text, *attribute)?;
    }
    Ok(())
}
