//! Equal contents.

ghost use Rattle.std.specs.Prelude.{◌≡◌, ◌↔◌, map, IsTrue};
ghost use Rattle.ds_formula.specs.Plain.{formula, plain};

use crate::inputs::Input;
use ds_formula::content::{Content, Tree};

// Whether two formulas are equal.
#[cycle(sameness)]
fn same_tree(left: &Tree, right: &Tree) -> bool
    ensures yes { IsTrue result → formula left.now ≡ formula right.now }
    ensures no { formula left.now ≡ formula right.now → IsTrue result }
{
    match left {
        Tree::Number(a) => match right {
            Tree::Number(b) => a == b,
            _ => false,
        },
        Tree::Reference(a) => match right {
            Tree::Reference(b) => a == b,
            _ => false,
        },
        Tree::Range(a) => match right {
            Tree::Range(b) => a == b,
            _ => false,
        },
        Tree::Prefix(s, a) => match right {
            Tree::Prefix(t, b) => s == t && same_tree(a, b),
            _ => false,
        },
        Tree::Binary(s, a, c) => match right {
            Tree::Binary(t, b, d) => s == t && same_tree(a, b) && same_tree(c, d),
            _ => false,
        },
        Tree::Call(s, a) => match right {
            Tree::Call(t, b) => s == t && same_trees(a, b),
            _ => false,
        },
    }
}

#[cycle(sameness)]
fn same_trees(left: &[Tree], right: &[Tree]) -> bool
    ensures yes { IsTrue result → map formula left.now ≡ map formula right.now }
    ensures no { map formula left.now ≡ map formula right.now → IsTrue result }
{
    if left.len() != right.len() {
        return false;
    }
    for i in 0..left.len() {
        if !same_tree(&left[i], &right[i]) {
            return false;
        }
    }
    true
}

/// Whether two contents are equal, wherever they lie in memory.
pub fn same_content(left: &Content, right: &Content) -> bool
    ensures yes { IsTrue result → plain left.now ≡ plain right.now }
    ensures no { plain left.now ≡ plain right.now → IsTrue result }
{
    match left {
        Content::Blank => matches!(right, Content::Blank),
        Content::Number(a) => match right {
            Content::Number(b) => a == b,
            Content::Blank | Content::Formula(_) => false,
        },
        Content::Formula(a) => match right {
            Content::Formula(b) => same_tree(a, b),
            Content::Blank | Content::Number(_) => false,
        },
    }
}

/// Whether the inputs are equal.
pub fn same_inputs(left: &[Input], right: &[Input]) -> bool
    ensures yes { IsTrue result → left.now ≡ right.now }
    ensures no { left.now ≡ right.now → IsTrue result }
{
    if left.len() != right.len() {
        return false;
    }
    for i in 0..left.len() {
        if left[i] != right[i] {
            return false;
        }
    }
    true
}
