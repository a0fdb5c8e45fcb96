//! One look at a cell's neighbours.

ghost use Rattle.std.specs.Prelude.{◌≡◌};
ghost use Rattle.ds_formula.specs.Plain.{plain};
ghost use Rattle.ds_eval.specs.Inputs.{entry_in};
ghost use Rattle.ds_eval.specs.Local as spec;

use crate::evaluate::evaluate;
use crate::inputs::{Entry, Inputs};
use crate::value::Value;
use ds_formula::cells::Shape;
use ds_formula::content::Content;

/// The entry of a cell that holds the content, where the cells that it refers to have these entries.
///
/// The height is 0 without references, else one more than the greatest height among the cells referred to, at most
/// the number of cells; at that height the value is `Err:522`. It takes no memory. Our own rule.
pub fn local(content: &Content, shape: Shape, inputs: &Inputs) -> Entry
    ensures { result ≡ spec.local shape (plain content.now) (entry_in inputs.now.items) }
{
    match content {
        Content::Blank => Entry {
            value: Value::Blank,
            height: 0,
        },
        Content::Number(number) => Entry {
            value: Value::Number(*number),
            height: 0,
        },
        Content::Formula(tree) => {
            let entry = evaluate(tree, shape, inputs);
            if entry.height == shape.count() {
                return Entry {
                    value: Value::Circular,
                    height: entry.height,
                };
            }
            entry
        }
    }
}
