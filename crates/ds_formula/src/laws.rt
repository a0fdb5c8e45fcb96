//! Laws over the definitions alone: functions without other work, whose contracts are the theorems.

ghost use Rattle.std.specs.Prelude.{ℕ, List, ◌++◌};
ghost use Rattle.ds_formula.specs.declared.cells.Shape.{Shape};
ghost use Rattle.ds_formula.specs.declared.content.Function.{Function};
ghost use Rattle.ds_formula.specs.declared.fault.TextFault.{TextFault};
ghost use Rattle.ds_formula.specs.Plain.{PlainContent};
ghost use Rattle.ds_formula.specs.Functions.{first_functions, later_functions, scope_with};
ghost use Rattle.ds_formula.specs.Uses.{ContentCallsOnly};
ghost use Rattle.ds_formula.specs.Grammar.{ReadsIn, FaultsIn, Reads, Faults, IsNameAmong};

/// A text that has a content where some functions may be named has the same one where further functions may be named.
pub fn contents_stay()
    ensures { (old new : List Function) (shape : Shape) (text : List ℕ) (content : PlainContent) → ReadsIn (scope_with old shape) text content → ReadsIn (scope_with (old ++ new) shape) text content }
{}

/// A text that is refused where some functions may be named is refused for the same fault at the same byte where further
/// functions may be named, unless what stands there is the name of one of these.
pub fn faults_stay()
    ensures { (old new : List Function) (shape : Shape) (text : List ℕ) (fault : TextFault) → FaultsIn (scope_with old shape) text fault → (IsNameAmong new text fault → ⊥) → FaultsIn (scope_with (old ++ new) shape) text fault }
{}

/// The content of a text calls no functions but those that the text may name.
pub fn contents_call_known_functions()
    ensures { (functions : List Function) (shape : Shape) (text : List ℕ) (content : PlainContent) → ReadsIn (scope_with functions shape) text content → ContentCallsOnly functions content }
{}

/// The law for the first seven functions and for all: a text that has a content with SUM, MIN, MAX, ABS, MOD, QUOTIENT
/// and IF has the same one with COUNT, AND, OR and NOT beside them; and one that is refused stays so, for the same
/// fault at the same byte, unless one of these four names stands there.
pub fn first_texts_stay()
    ensures contents { (shape : Shape) (text : List ℕ) (content : PlainContent) → ReadsIn (scope_with first_functions shape) text content → Reads shape text content }
    ensures faults { (shape : Shape) (text : List ℕ) (fault : TextFault) → FaultsIn (scope_with first_functions shape) text fault → (IsNameAmong later_functions text fault → ⊥) → Faults shape text fault }
{}
