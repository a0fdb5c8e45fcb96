//! Laws over the definitions alone: functions without other work, whose contracts are the theorems.

ghost use Rattle.std.specs.Prelude.{◌≡◌, ◌≢◌, ℕ, min, ℤ, pos, List, ◌++◌};
ghost use Rattle.ds_formula.specs.declared.cells.Shape as shapes;
ghost use Rattle.ds_formula.specs.declared.cells.Cell as cells;
ghost use Rattle.ds_formula.specs.declared.cells.Rect as areas;
ghost use Rattle.ds_formula.specs.Cells.{IsInside, index_of, count_of};
ghost use Rattle.ds_formula.specs.Plain.{PlainContent, Formula};
ghost use Rattle.ds_formula.specs.Refs.{Refers};
ghost use Rattle.ds_formula.specs.declared.content.Function.{Function};
ghost use Rattle.ds_formula.specs.Functions.{first_functions, scope_with};
ghost use Rattle.ds_formula.specs.Uses.{ContentCallsOnly};
ghost use Rattle.ds_formula.specs.Grammar.{Reads, ReadsIn};
ghost use Rattle.ds_eval.specs.declared.value.Value as values;
ghost use Rattle.ds_eval.specs.declared.inputs.Entry as entries;
ghost use Rattle.ds_eval.specs.Scratch.{Runs, at, IsScratch, WalkLaw};
ghost use Rattle.ds_eval.specs.Evaluation.{formula_value, content_value, content_value_with, cells_of};
ghost use Rattle.ds_eval.specs.Numbers.{floor_div};
ghost use Rattle.ds_eval.specs.Meanings.{IsAbove, AreCellsOf, IsFloor};
ghost use Rattle.ds_eval.specs.Local.{local, content_height, height_of, IsLocal, IsShown};
ghost use Rattle.ds_eval.specs.Showable.{CanShow};

use crate::value::Value;

/// References that can be followed as often as there are cells can be followed for ever.
pub fn walk_law()
    ensures { (shape : shapes.Shape) (sheet : cells.Cell → PlainContent) (c : cells.Cell) → IsInside shape c → WalkLaw shape sheet c }
{}

/// Where each cell's entry is what its neighbours' entries give, all values are those from scratch.
pub fn fixed_point()
    ensures { (shape : shapes.Shape) (sheet : cells.Cell → PlainContent) (entries : cells.Cell → entries.Entry) (shown : List values.Value) → IsLocal shape sheet entries → IsShown shape entries shown → IsScratch shape sheet shown }
{}

/// Values from scratch rest on what the cells of the sheet hold, and on nothing beyond it.
pub fn sheets_law()
    ensures { (shape : shapes.Shape) (old new : cells.Cell → PlainContent) (shown : List values.Value) → ((c : cells.Cell) → IsInside shape c → old c ≡ new c) → IsScratch shape old shown → IsScratch shape new shown }
{}

/// `Err:522` stands only where references can be followed for ever.
pub fn circular_only()
    ensures { (shape : shapes.Shape) (sheet : cells.Cell → PlainContent) (shown : List values.Value) → IsScratch shape sheet shown → (c : cells.Cell) → IsInside shape c → at shown (index_of shape c) ≡ Value.Circular → Runs shape sheet c }
{}

/// A formula's value is never blank.
pub fn never_blank()
    ensures { (shape : shapes.Shape) (read : cells.Cell → values.Value) (f : Formula) → formula_value shape read f ≢ Value.Blank }
{}

/// A cell's entry rests on the entries of the cells of the sheet that are written in it, and on no other one.
pub fn neighbours_law()
    ensures { (shape : shapes.Shape) (content : PlainContent) (old new : cells.Cell → entries.Entry) → ((d : cells.Cell) → Refers content d → IsInside shape d → old d ≡ new d) → local shape content old ≡ local shape content new }
{}

/// A cell can show the entry of a content that was read, where it can be shown what the cells that are written in it have.
pub fn shown_law()
    ensures { (shape : shapes.Shape) (text : List ℕ) (content : PlainContent) (entries : cells.Cell → entries.Entry) → Reads shape text content → ((d : cells.Cell) → Refers content d → IsInside shape d → CanShow shape (entries d)) → CanShow shape (local shape content entries) }
{}

/// A cell's height is one more than the greatest height of a cell of the sheet that is written in it, at most the number of
/// cells, and 0 where none is.
pub fn height_law()
    ensures { (shape : shapes.Shape) (content : PlainContent) (entries : cells.Cell → entries.Entry) → IsAbove shape content (height_of entries) (content_height shape (height_of entries) content) × ((local shape content entries).height ≡ min (count_of shape) (content_height shape (height_of entries) content)) }
{}

/// The cells of a range are those of the sheet within it, in reading order.
pub fn range_law()
    ensures { (shape : shapes.Shape) (area : areas.Rect) → AreCellsOf shape area (cells_of shape area) }
{}

/// MOD rests on the whole number below a quotient, or at it.
pub fn floor_law()
    ensures { (a b : ℤ) → b ≢ pos 0 → IsFloor a b (floor_div a b) }
{}

/// A content that calls some functions alone has the same value where further functions are known.
pub fn values_stay()
    ensures { (old new : List Function) (shape : shapes.Shape) (read : cells.Cell → values.Value) (content : PlainContent) → ContentCallsOnly old content → content_value_with old shape read content ≡ content_value_with (old ++ new) shape read content }
{}

/// The law for the first seven functions and for all: a content without COUNT, AND, OR and NOT, as that of each text
/// which was read without them, has the value that it had without them.
pub fn first_values_stay()
    ensures called { (shape : shapes.Shape) (read : cells.Cell → values.Value) (content : PlainContent) → ContentCallsOnly first_functions content → content_value_with first_functions shape read content ≡ content_value shape read content }
    ensures read { (shape : shapes.Shape) (text : List ℕ) (content : PlainContent) (read : cells.Cell → values.Value) → ReadsIn (scope_with first_functions shape) text content → content_value_with first_functions shape read content ≡ content_value shape read content }
{}
