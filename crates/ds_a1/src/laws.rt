//! A text of OpenFormula that has a content, shown in A1 notation and read back, is the same text, and has the same
//! content.

ghost use Rattle.std.specs.Prelude.{◌≡◌, ◌↔◌, ℕ, List, Ok};
ghost use Rattle.ds_formula.specs.declared.cells.Shape.{Shape};
ghost use Rattle.ds_formula.specs.Plain.{PlainContent};
ghost use Rattle.ds_formula.specs.Grammar.{Reads};
ghost use Rattle.ds_a1.specs.Notation.{ReadsA1, closed, opens};

/// A text in A1 notation has just the contents of the text that it opens as: what `to_a1` shows of a text has its
/// contents, no more and no less.
pub fn shown_texts_keep_contents()
    ensures { (shape : Shape) (text shown : List ℕ) (content : PlainContent) → opens shown ≡ Ok text → (ReadsA1 shape shown content ↔ Reads shape text content) }
{}

/// Each text that has a content, in A1 notation, opens as itself, and has that content: `to_a1` shows every one.
pub fn contents_are_shown()
    ensures text { (shape : Shape) (text : List ℕ) (content : PlainContent) → Reads shape text content → opens (closed text) ≡ Ok text }
    ensures content { (shape : Shape) (text : List ℕ) (content : PlainContent) → Reads shape text content → ReadsA1 shape (closed text) content }
{}
