//! How the fields of a grid are read.

ghost use Rattle.std.specs.Prelude.{◌≡◌, is_some};
ghost use Rattle.ds_formula.specs.Grammar.{expression_of};
ghost use Rattle.ds_grid.specs.Labels.{begins_value, is_label, leads, passes};

use ds_a1::notation::Notation;

/// How the fields of a grid are read.
#[derive(Clone, Copy, Debug, PartialEq, Eq)]
pub struct GridForm {
    /// How formulas are written.
    pub notation: Notation,
    /// Whether labels pass through as they are, and count as blank; otherwise they are refused.
    pub keeps_labels: bool,
}

impl GridForm {
    /// Whether this field passes through as a label.
    pub fn passes(self, field: &[u8]) -> bool
        ensures { result ≡ passes self field.now }
    {
        self.keeps_labels && is_label(field)
    }
}

fn leads(byte: u8) -> bool
    ensures { result ≡ leads byte }
{
    matches!(byte, b' ' | b'\t' | b'+' | b'-' | b'.')
}

#[tactic(auto, unfolding(crate::specs::Labels::begins_value))]
fn begins_value(text: &[u8]) -> bool
    ensures { result ≡ begins_value text.now }
{
    let mut rest = text;
    while let [byte, left @ ..] = rest {
        if !leads(*byte) {
            return byte.is_ascii_digit() || *byte == b'=';
        }
        rest = left;
    }
    false
}

// Whether a text is a formula.
#[tactic(auto, unfolding(ds_formula::specs::Grammar::expression_of))]
fn is_formula(text: &[u8]) -> bool
    ensures { result ≡ is_some (expression_of text.now) }
{
    match text {
        [b'=', ..] => true,
        [b'o', b'f', b':', b'=', ..] => true,
        _ => false,
    }
}

/// Whether a field is a label, as a heading or a name: it is not empty, and begins neither as a number nor as a formula,
/// where spaces, signs and points may stand before a number's digits or a formula's `=`. So a number or a formula with a
/// fault is none.
pub fn is_label(text: &[u8]) -> bool
    ensures { result ≡ is_label text.now }
{
    match text {
        [] => false,
        [_, ..] => !(is_formula(text) || begins_value(text)),
    }
}
