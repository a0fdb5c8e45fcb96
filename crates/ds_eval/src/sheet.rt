//! A sheet: what each cell holds.

ghost use Rattle.std.specs.Prelude.{◌≡◌, length};
ghost use Rattle.ds_formula.specs.Cells.{count_of};

use ds_formula::cells::Shape;
use ds_formula::content::Content;

/// A shape, and a content for each of its cells, row by row from the left.
#[derive(Debug, Drop)]
pub struct Sheet {
    /// How many columns and rows there are.
    pub shape: Shape,
    /// What each cell holds, row by row from the left.
    pub contents: Vec<Content>,
    ghost whole: { length contents.items ≡ count_of shape },
}

impl Sheet {
    /// A sheet of these contents.
    pub fn new(shape: Shape, contents: Vec<Content>) -> Sheet
        requires { length contents.items ≡ count_of shape }
        ensures { (result.shape ≡ shape) × (result.contents.items ≡ contents.items) }
    {
        Sheet { shape, contents }
    }
}
