//! Where ranges stand in an expression.

ghost use Rattle.std.specs.Prelude.{◌≡◌};
ghost use Rattle.ds_formula.specs.Ranges.{used, first_of, as_argument};

use crate::content::Function;

/// How the ranges of an expression stand, with places by how many bytes are left from them on.
#[derive(Clone, Copy, Debug, PartialEq, Eq)]
pub enum Ranges {
    /// Each stands where a range may.
    Placed,
    /// The expression is a range, in parentheses or not, that begins there.
    Bare(usize),
    /// Some stand where none may, the leftmost there.
    Misplaced(usize),
}

impl Ranges {
    /// Where the expression is used in a place that takes no range.
    pub fn used(self) -> Ranges
        ensures { result ≡ used self }
    {
        match self {
            Ranges::Bare(left) => Ranges::Misplaced(left),
            ranges => ranges,
        }
    }

    /// The ranges of one expression, and then those of another one.
    pub fn first_of(self, other: Ranges) -> Ranges
        ensures { result ≡ first_of self other }
    {
        match self {
            Ranges::Placed => other,
            ranges => ranges,
        }
    }

    /// Where the expression is a whole argument.
    pub fn as_argument(self, function: Function) -> Ranges
        ensures { result ≡ as_argument function self }
    {
        match self {
            Ranges::Bare(_) if function.takes_ranges() => Ranges::Placed,
            ranges => ranges.used(),
        }
    }
}
