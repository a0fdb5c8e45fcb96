//! Texts that edits have read, kept with their contents for the works on them.

ghost use Rattle.std.specs.Prelude.{◌≡◌, ◌≤◌, IfOk, IfSome, IsTrue};
ghost use Rattle.ds_formula.specs.Cells.{count_of};
ghost use Rattle.ds_formula.specs.Grammar.{Reads};
ghost use Rattle.ds_formula.specs.Limits.{PROCESSES_MOST};
ghost use Rattle.ds_formula.specs.Plain.{plain};
ghost use Rattle.ds_formula.specs.Refs.{AreRefs};
ghost use Rattle.ds_work.specs.Reading.{IsReading};

use ds_formula::cells::{Cell, Shape};
use ds_formula::content::Content;
use ds_layout::head::Head;
use ds_layout::place::RECORDS;
use ds_state::edit::EditCall;
use ds_state::text::Text;
use ds_state::work::WorkCall;
use ds_work::reading::{reading, take_content};
use once_cell::race::OnceBox;
use std::alloc::{AllocError, Global};

/// How many bytes a text has at least that is kept. To keep a shorter one costs its edit more than it saves a work
/// (bench/README.md).
const KEPT_LEAST: usize = 32;

/// A text with its content: the one that the text has on a sheet of this shape.
#[derive(Drop)]
pub struct KeptText {
    shape: Shape,
    text: Text,
    content: Content,
    pub ghost reads: { ∥ Reads shape text (plain content) ∥₁ },
}

impl KeptText {
    // This text, with this content of it.
    fn new(shape: Shape, text: Text, content: Content) -> KeptText
        requires { Reads shape text (plain content) }
        ensures { (result.shape ≡ shape) × (result.text ≡ text) }
    {
        KeptText {
            shape,
            text,
            content,
        }
    }

    // Whether it is this text, of a sheet of this shape.
    fn is(&self, shape: Shape, text: &[u8]) -> bool
        ensures shape { IsTrue result → self.now.shape ≡ shape }
        ensures text { IsTrue result → self.now.text ≡ text.now }
    {
        self.shape.columns == shape.columns
            && self.shape.rows == shape.rows
            && self.text.as_slice() == text
    }

    // A copy of the content, and the cells written in it. An error means that an allocation failed.
    fn copied(&self, alloc: Global) -> Result<(Content, Vec<Cell>), AllocError>
        ensures reads { IfOk result (λ r. Reads self.now.shape self.now.text (plain r.0)) }
        ensures cells { IfOk result (λ r. AreRefs (plain r.0) r.1.items) }
    {
        let content = self.content.copy(alloc)?;
        let cells = content.refs(alloc)?;
        Ok((content, cells))
    }

    // A copy of the content of this text, on a sheet of this shape, and the cells written in it. None where another
    // text is kept, or where an allocation fails.
    fn content_of(&self, alloc: Global, shape: Shape, text: &[u8]) -> Option<(Content, Vec<Cell>)>
        ensures reads { IfSome result (λ r. Reads shape text.now (plain r.0)) }
        ensures cells { IfSome result (λ r. AreRefs (plain r.0) r.1.items) }
    {
        if !self.is(shape, text) {
            return None;
        }
        match self.copied(alloc) {
            Ok(copied) => Some(copied),
            Err(_) => None,
        }
    }
}

/// For each record of a sheet the text that an edit has read for it, if one is kept. Such a text is set once: it is
/// another one than the record's words say where a number was given out again.
#[derive(Drop)]
pub struct KeptTexts {
    records: Vec<OnceBox<KeptText>>,
}

impl KeptTexts {
    /// None is kept yet, for the records of that number of processes. An error means that an allocation failed.
    pub(crate) fn make(alloc: Global, processes: usize) -> Result<KeptTexts, AllocError>
        requires { processes ≤ PROCESSES_MOST }
    {
        let count = processes * RECORDS;
        let mut records = Vec::with_capacity(alloc, count)?;
        for _record in 0..count {
            records.push(OnceBox::new(alloc))?;
        }
        Ok(KeptTexts { records })
    }

    // Keeps a text for the record of this number, unless one is kept there, or an allocation fails.
    fn set(&self, alloc: Global, record: usize, kept: KeptText) {
        if let Some(cell) = self.records.get(record) {
            if let Ok(kept) = Box::new(alloc, kept) {
                let _set = cell.set(kept);
            }
        }
    }

    /// Keeps the content of an edit's text, on a sheet of this shape, for the works that meet this text in the words, where
    /// it is a long formula: unless one is kept for that record, or an allocation fails. It touches no word, and no clause
    /// can say whether it did.
    pub(crate) fn keep(&self, alloc: Global, shape: Shape, call: &EditCall, content: Content)
        requires { Reads shape call.now.text (plain content) }
    {
        if call.text.len() < KEPT_LEAST {
            return;
        }
        if let Content::Formula(_) = content {
            let record = call.process * RECORDS + call.number;
            self.set(alloc, record, KeptText::new(shape, call.text, content));
        }
    }

    // What is kept for the record that a head's word names.
    fn named(&self, head: u64) -> Option<&KeptText> {
        let head = Head::parts(head);
        self.records
            .get(head.process * RECORDS + head.number)?
            .get()
    }

    /// The work has the content of the text that it has gathered, on a sheet of this shape, and lists the cells written
    /// in it: it copies the content that is kept for the record that it noted, where that is of just this text, or else
    /// it reads the text. Where memory is refused for that, it gives its cell back dirty.
    pub(crate) fn read(&self, alloc: Global, call: &mut WorkCall, shape: Shape)
        requires { count_of shape ≡ call.old.cells }
        ensures { IsReading shape call.old call.new }
    {
        let copied = match self.named(call.head) {
            Some(kept) => kept.content_of(alloc, shape, call.text.as_slice()),
            None => None,
        };
        match copied {
            Some((content, cells)) => take_content(call, shape, content, &cells),
            None => reading(alloc, call, shape),
        }
    }
}
