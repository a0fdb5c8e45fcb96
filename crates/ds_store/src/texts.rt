//! The texts that the edits of a journal lead to.

ghost use Rattle.std.specs.Prelude.{◌≡◌, ◌<◌, ◌++◌, ◌∷◌, [], List, ℕ, Some, Vec, length, slice_index_or, false, true, IfErr, IfOk, OnOk, map};
ghost use Rattle.std.specs.Global.{Global};
ghost use Rattle.std.specs.String.{string_bytes};
ghost use Rattle.ds_formula.specs.declared.cells.Cell.{Cell};
ghost use Rattle.ds_formula.specs.Cells.{IsInside, count_of as cells_in, index_of};
ghost use Rattle.ds_script_io.specs.Fields.{is_skipped};
ghost use Rattle.ds_store_journal.specs.Journals.{asked_view, edit_in};
ghost use Rattle.ds_store.specs.Texts.{AreTexts, HasTexts, SameTexts};
ghost use Rattle.ds_store.specs.Told.{IsOfLines};

use crate::fault::StoreFault;
use ds_formula::cells::{Cell, Shape};
use ds_layout::layout::Layout;
use ds_store_journal::counts::EditCounts;
use ds_store_journal::fault::JournalFault;
use ds_store_journal::journal::{AskedEdit, read_edit, read_sheet};
use std::alloc::{AllocError, Global};

/// A journal as far as its lines were read, and the texts of its sheet's cells.
#[derive(Drop)]
pub struct JournalTexts {
    layout: Layout,
    counts: EditCounts,
    texts: Vec<Vec<u8>>,
    pub ghost all: { length texts.items ≡ cells_in layout.shape },
}

// No text for each cell.
fn no_texts(alloc: Global, shape: Shape) -> Result<Vec<Vec<u8>>, AllocError>
    ensures count { IfOk result (λ texts. length texts.items ≡ cells_in shape) }
    ensures texts { IfOk result (λ texts. AreTexts shape texts.items []) }
{
    let mut texts = Vec::with_capacity(alloc, shape.count())?;
    for _cell in 0..shape.count() {
        texts.push_reserved(Vec::new(alloc));
    }
    Ok(texts)
}

impl JournalTexts {
    // After the first line, which makes the sheet.
    fn begin(alloc: Global, line: &[u8]) -> Result<JournalTexts, JournalFault>
        ensures { IfOk result (λ t. HasTexts t.layout t.counts.counts.items t.texts.items (line.now ∷ [])) }
    {
        let layout = read_sheet(line)?;
        Ok(JournalTexts {
            layout,
            counts: EditCounts::new(alloc, layout.processes)?,
            texts: no_texts(alloc, layout.shape)?,
        })
    }

    // The cell has the text of the edit that a line asks for.
    fn put(&mut self, alloc: Global, asked: AskedEdit<'_>) -> Result<(), JournalFault>
        requires { IsInside self.old.layout.shape asked.cell }
        ensures { OnOk result ((lines : List (List ℕ)) (line : List ℕ) → is_skipped line ≡ false → edit_in self.old.layout line ≡ Some (asked_view asked.entry)
            → HasTexts self.old.layout self.old.counts.counts.items self.old.texts.items lines → HasTexts self.new.layout self.new.counts.counts.items self.new.texts.items (lines ++ line ∷ [])) }
    {
        let AskedEdit {
            process,
            cell,
            text,
        } = asked;
        let shape = self.layout.shape;
        let text = Vec::from_slice(alloc, text)?;
        let Some(_number) = self.counts.count(process) else {
            return Err(JournalFault::NoEdit);
        };
        self.texts[shape.index(cell)] = text;
        Ok(())
    }

    // Reads the next line: the cell of its edit has its text then, or the line is passed over.
    fn read(&mut self, alloc: Global, line: &[u8]) -> Result<(), JournalFault>
        ensures { OnOk result ((lines : List (List ℕ)) → HasTexts self.old.layout self.old.counts.counts.items self.old.texts.items lines
            → HasTexts self.new.layout self.new.counts.counts.items self.new.texts.items (lines ++ line.now ∷ [])) }
    {
        let layout = self.layout;
        match read_edit(&layout, line) {
            Ok(Some(asked)) => self.put(alloc, asked),
            Ok(None) => Ok(()),
            Err(fault) => Err(fault),
        }
    }

    /// The layout of its sheet.
    pub fn layout(&self) -> Layout
        ensures { result ≡ self.now.layout }
    {
        self.layout
    }

    /// The text of a cell: that of the last edit of it, or none.
    pub fn text_of(&self, cell: Cell) -> &[u8]
        ensures { IsInside self.now.layout.shape cell → (d : Vec ℕ Global) → result.now ≡ (slice_index_or self.now.texts.items (index_of self.now.layout.shape cell) d).items }
    {
        if !self.layout.shape.contains(cell) {
            return &[];
        }
        self.texts[self.layout.shape.index(cell)].as_slice()
    }

    /// Whether another journal's sheet has as many columns and rows, and the same text in each cell.
    pub fn is_same(&self, other: &JournalTexts) -> bool
        ensures { result ≡ true → (lines more : List (List ℕ)) → HasTexts self.now.layout self.now.counts.counts.items self.now.texts.items lines
            → HasTexts other.now.layout other.now.counts.counts.items other.now.texts.items more → SameTexts self.now.layout lines other.now.layout more }
    {
        let (shape, again) = (self.layout.shape, other.layout.shape);
        shape.columns == again.columns
            && shape.rows == again.rows
            && are_same(&self.texts, &other.texts)
    }
}

// Whether all texts are the same.
fn are_same(texts: &[Vec<u8>], others: &[Vec<u8>]) -> bool
    ensures { result ≡ true → (k : ℕ) (d : Vec ℕ Global) → k < length texts.now → (slice_index_or others.now k d).items ≡ (slice_index_or texts.now k d).items }
{
    if texts.len() != others.len() {
        return false;
    }
    for number in 0..texts.len() {
        if others[number].as_slice() != texts[number].as_slice() {
            return false;
        }
    }
    true
}

// Reads the lines after the first one, each in its turn.
fn read_rest(alloc: Global, texts: &mut JournalTexts, rest: &[String]) -> Result<(), StoreFault>
    ensures texts { OnOk result ((before : List (List ℕ)) → HasTexts texts.old.layout texts.old.counts.counts.items texts.old.texts.items before
        → HasTexts texts.new.layout texts.new.counts.counts.items texts.new.texts.items (before ++ map string_bytes rest.now)) }
    ensures of_lines { IfErr result IsOfLines }
{
    let mut number = 1usize;
    for line in rest {
        number = number.saturating_add(1);
        if let Err(fault) = texts.read(alloc, line.as_bytes()) {
            return Err(StoreFault::at_line(number, fault));
        }
    }
    Ok(())
}

/// The texts that the lines of a journal lead to. An error says which line is none of a journal.
pub fn texts_of(alloc: Global, lines: &[String]) -> Result<JournalTexts, StoreFault>
    ensures texts { IfOk result (λ t. HasTexts t.layout t.counts.counts.items t.texts.items (map string_bytes lines.now)) }
    ensures of_lines { IfErr result IsOfLines }
{
    let Some((first, rest)) = lines.split_first() else {
        return Err(StoreFault::Missing(1));
    };
    let mut texts = match JournalTexts::begin(alloc, first.as_bytes()) {
        Ok(texts) => texts,
        Err(fault) => return Err(StoreFault::at_line(1, fault)),
    };
    read_rest(alloc, &mut texts, rest)?;
    Ok(texts)
}
