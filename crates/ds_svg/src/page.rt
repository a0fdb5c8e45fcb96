//! Pages.

ghost use Rattle.std.specs.Prelude.{◌≡◌, ◌++◌, ◌∷◌, [], ◌≤◌, List, IfOk, IfSome, IfNone, OnOk, OnErr, is_ok, length, if◌then◌else◌};
ghost use Rattle.ds_svg.specs.Markup.{close_text, empty_text, escaped, open_text, tag_name};
ghost use Rattle.ds_svg.specs.Pages.{Closes, IsDocument, PageValue, svg_name};
ghost use Rattle.ds_svg.specs.declared.tag.Tag.{Tag};

use crate::escape::put_escaped;
use crate::tag::{Attribute, Tag, put_attributes};
use std::alloc::{AllocError, AllocFailed, Global};
use std::marker::Model;

/// Why there is no page.
#[derive(Clone, Copy, Debug, PartialEq, Eq, Drop)]
pub enum NoPage {
    /// It would have more bytes than its limit.
    TooLong,
    /// An allocation failed.
    NoMemory,
}

impl From<AllocError> for NoPage {
    fn from(_error: AllocError) -> NoPage {
        NoPage::NoMemory
    }
}

impl From<AllocFailed<Tag>> for NoPage {
    fn from(_failed: AllocFailed<Tag>) -> NoPage {
        NoPage::NoMemory
    }
}

/// A page that is being written: the element `svg` is open, and others in it, each within the one before. At each moment
/// what is written is the front of a well-formed document of no more bytes than the limit.
#[derive(Drop)]
pub struct Page {
    // The elements that are open within `svg`, the innermost last.
    elements: Vec<Tag>,
    text: Vec<u8>,
    limit: usize,
}

impl Model for Page {
    ghost use Rattle.ds_svg.specs.Pages.{IsPage, PageValue};

    ghost Value = { PageValue };

    ghost view = { λ p. record {
      elements = p.elements.items;
      text = p.text.items;
      limit = p.limit;
    } };

    ghost invariant = { λ p. IsPage (record {
      elements = p.elements.items;
      text = p.text.items;
      limit = p.limit;
    }) };
}

// Appends a piece to the text, where that stays within the limit.
fn append(text: &mut Vec<u8>, limit: usize, piece: &[u8]) -> Result<(), NoPage>
    requires { length text.old.items ≤ limit }
    ensures items { text.new.items ≡ (if is_ok result then text.old.items ++ piece.now else text.old.items) }
    ensures within { length text.new.items ≤ limit }
{
    if piece.len() > limit - text.len() {
        return Err(NoPage::TooLong);
    }
    text.extend_from_slice(piece)?;
    Ok(())
}

// The tag that opens an element.
fn opening(alloc: Global, name: &str, attributes: &[Attribute<'_>]) -> Result<Vec<u8>, AllocError>
    ensures { IfOk result (λ piece. piece.items ≡ open_text name.now attributes.now) }
{
    let mut piece = Vec::from_slice(alloc, b"<")?;
    piece.extend_from_slice(name.as_bytes())?;
    put_attributes(alloc, &mut piece, attributes)?;
    piece.extend_from_slice(b">")?;
    Ok(piece)
}

// An element with nothing in it.
fn emptiness(alloc: Global, name: &str, attributes: &[Attribute<'_>]) -> Result<Vec<u8>, AllocError>
    ensures { IfOk result (λ piece. piece.items ≡ empty_text name.now attributes.now) }
{
    let mut piece = Vec::from_slice(alloc, b"<")?;
    piece.extend_from_slice(name.as_bytes())?;
    put_attributes(alloc, &mut piece, attributes)?;
    piece.extend_from_slice(b"/>")?;
    Ok(piece)
}

// The tag that closes an element.
fn closing(alloc: Global, name: &str) -> Result<Vec<u8>, AllocError>
    ensures { IfOk result (λ piece. piece.items ≡ close_text name.now) }
{
    let mut piece = Vec::from_slice(alloc, b"</")?;
    piece.extend_from_slice(name.as_bytes())?;
    piece.extend_from_slice(b">")?;
    Ok(piece)
}

impl Page {
    /// A page with the element `svg` open, which has these attributes. An error is a limit that is too small, or a
    /// failed allocation.
    pub fn new(alloc: Global, limit: usize, attributes: &[Attribute<'_>]) -> Result<Page, NoPage>
        ensures { IfOk result (λ p. p ≡ record { elements = []; text = open_text svg_name attributes.now; limit = limit }) }
    {
        let piece = opening(alloc, "svg", attributes)?;
        if piece.len() > limit {
            return Err(NoPage::TooLong);
        }
        Ok(Page {
            elements: Vec::new(alloc),
            text: piece,
            limit,
        })
    }

    /// Opens an element with these attributes, within those that are open. After an error the page is as it was.
    pub fn begin(
        &mut self,
        alloc: Global,
        tag: Tag,
        attributes: &[Attribute<'_>],
    ) -> Result<(), NoPage>
        ensures done { OnOk result (self.new ≡ record { elements = self.old.elements ++ tag ∷ []; text = self.old.text ++ open_text (tag_name tag) attributes.now; limit = self.old.limit }) }
        ensures not_done { OnErr result (self.new ≡ self.old) }
    {
        let piece = opening(alloc, tag.name(), attributes)?;
        self.elements.push(tag)?;
        match append(&mut self.text, self.limit, &piece) {
            Ok(()) => Ok(()),
            Err(why) => {
                self.elements.truncate(self.elements.len() - 1);
                Err(why)
            }
        }
    }

    /// Writes an element with these attributes and nothing in it. After an error the page is as it was.
    pub fn put(
        &mut self,
        alloc: Global,
        tag: Tag,
        attributes: &[Attribute<'_>],
    ) -> Result<(), NoPage>
        ensures done { OnOk result (self.new ≡ record { elements = self.old.elements; text = self.old.text ++ empty_text (tag_name tag) attributes.now; limit = self.old.limit }) }
        ensures not_done { OnErr result (self.new ≡ self.old) }
    {
        let piece = emptiness(alloc, tag.name(), attributes)?;
        append(&mut self.text, self.limit, &piece)
    }

    /// Writes a text. After an error the page is as it was.
    pub fn say(&mut self, alloc: Global, text: &[u8]) -> Result<(), NoPage>
        ensures done { OnOk result (self.new ≡ record { elements = self.old.elements; text = self.old.text ++ escaped text.now; limit = self.old.limit }) }
        ensures not_done { OnErr result (self.new ≡ self.old) }
    {
        let mut piece = Vec::new(alloc);
        put_escaped(&mut piece, text)?;
        append(&mut self.text, self.limit, &piece)
    }

    // The innermost element that is open within `svg`.
    fn innermost(&self) -> Option<Tag>
        ensures some { IfSome result (λ tag. (outer : List Tag) × (self.now.elements ≡ outer ++ tag ∷ [])) }
        ensures none { IfNone result (self.now.elements ≡ []) }
    {
        if self.elements.is_empty() {
            return None;
        }
        Some(self.elements[self.elements.len() - 1])
    }

    /// Closes the innermost element; where none is open within `svg`, nothing happens. After an error the page is as it was.
    pub fn end(&mut self, alloc: Global) -> Result<(), NoPage>
        ensures done { OnOk result (Closes self.old self.new) }
        ensures not_done { OnErr result (self.new ≡ self.old) }
    {
        let Some(tag) = self.innermost() else {
            return Ok(());
        };
        let piece = closing(alloc, tag.name())?;
        append(&mut self.text, self.limit, &piece)?;
        self.elements.truncate(self.elements.len() - 1);
        Ok(())
    }

    // Closes all that is open within `svg`.
    fn close_all(&mut self, alloc: Global) -> Result<(), NoPage>
        ensures closed { OnOk result (self.new.elements ≡ []) }
        ensures limit { self.new.limit ≡ self.old.limit }
    {
        'elements: loop {
            if self.elements.is_empty() {
                return Ok(());
            }
            self.end(alloc)?;
        }
    }

    /// The whole document: all that is open is closed, and `svg` itself. An error is a document that is too long, or a
    /// failed allocation.
    pub fn finish(self, alloc: Global) -> Result<Vec<u8>, NoPage>
        ensures document { IfOk result (λ text. IsDocument text.items) }
        ensures within { IfOk result (λ text. length text.items ≤ self.limit) }
    {
        let mut page = self;
        page.close_all(alloc)?;
        let piece = closing(alloc, "svg")?;
        append(&mut page.text, page.limit, &piece)?;
        Ok(page.text)
    }
}
