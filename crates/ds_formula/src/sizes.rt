//! How large an expression is.

ghost use Rattle.std.specs.Prelude.{◌≡◌, ◌-◌, ◌^◌, min};
ghost use Rattle.ds_formula.specs.Plain.{formula};
ghost use Rattle.ds_formula.specs.Sizes.{nodes, depth};

use crate::content::Tree;

impl Tree {
    // How many nodes there are, or the greatest number where they are more.
    pub(crate) fn nodes(&self) -> usize
        ensures { result ≡ min (nodes (formula self.now)) (2 ^ 64 - 1) }
    {
        match self {
            Tree::Number(_) | Tree::Reference(_) | Tree::Range(_) => 1,
            Tree::Prefix(_, operand) => operand.nodes().saturating_add(1),
            Tree::Binary(_, left, right) => left
                .nodes()
                .saturating_add(right.nodes())
                .saturating_add(1),
            Tree::Call(_, arguments) => {
                let mut count = 1usize;
                for argument in arguments {
                    count = count.saturating_add(argument.nodes());
                }
                count
            }
        }
    }

    // How deep they are nested, or the greatest number where they are deeper.
    pub(crate) fn depth(&self) -> usize
        ensures { result ≡ min (depth (formula self.now)) (2 ^ 64 - 1) }
    {
        match self {
            Tree::Number(_) | Tree::Reference(_) | Tree::Range(_) => 1,
            Tree::Prefix(_, operand) => operand.depth().saturating_add(1),
            Tree::Binary(_, left, right) => left.depth().max(right.depth()).saturating_add(1),
            Tree::Call(_, arguments) => {
                let mut deepest = 0;
                for argument in arguments {
                    deepest = argument.depth().max(deepest);
                }
                deepest.saturating_add(1)
            }
        }
    }
}
