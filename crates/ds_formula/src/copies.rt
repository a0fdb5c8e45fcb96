//! Copies of contents.

ghost use Rattle.std.specs.Prelude.{◌≡◌, IfOk};
ghost use Rattle.ds_formula.specs.Plain.{formula, plain};

use crate::content::{Content, Tree};
use std::alloc::{AllocError, Global};

impl Content {
    /// An equal content. The only error is a failed allocation.
    pub fn copy(&self, alloc: Global) -> Result<Content, AllocError>
        ensures { IfOk result (λ c. plain c ≡ plain self.now) }
    {
        match self {
            Content::Blank => Ok(Content::Blank),
            Content::Number(number) => Ok(Content::Number(*number)),
            Content::Formula(tree) => Ok(Content::Formula(tree.copy(alloc)?)),
        }
    }
}

impl Tree {
    fn copy(&self, alloc: Global) -> Result<Tree, AllocError>
        ensures { IfOk result (λ t. formula t ≡ formula self.now) }
    {
        match self {
            Tree::Number(number) => Ok(Tree::Number(*number)),
            Tree::Reference(cell) => Ok(Tree::Reference(*cell)),
            Tree::Range(area) => Ok(Tree::Range(*area)),
            Tree::Prefix(sign, operand) => {
                let operand = operand.copy(alloc)?;
                Ok(Tree::Prefix(*sign, Box::new(alloc, operand)?))
            }
            Tree::Binary(operator, left, right) => {
                let left = left.copy(alloc)?;
                let right = right.copy(alloc)?;
                Ok(Tree::Binary(*operator, Box::new(alloc, left)?, Box::new(alloc, right)?))
            }
            Tree::Call(function, arguments) => {
                let mut copies = Vec::new(alloc);
                for argument in arguments {
                    copies.push(argument.copy(alloc)?)?;
                }
                Ok(Tree::Call(*function, copies))
            }
        }
    }
}
