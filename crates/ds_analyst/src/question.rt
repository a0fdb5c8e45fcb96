//! Questions about a script.

use std::alloc::{AllocError, Global};

/// What is asked about a script.
#[derive(Clone, Copy, Debug, PartialEq, Eq)]
pub enum Question {
    /// What all orders of the steps of its begun calls come to, with a crash at any moment or without one.
    Orders,
    /// Its run, as a picture.
    Run,
}

/// What a question about a script comes to.
#[derive(Drop)]
pub enum Analysis {
    /// What was asked for: lines of JSON of the orders, an SVG of the run.
    Found(Vec<u8>),
    /// The script cannot be carried out, or goes beyond a limit: why, in words.
    Unfit(Vec<u8>),
}

/// Whoever answers questions about scripts.
pub trait Analyst {
    ghost use Rattle.std.specs.Prelude.{List, ℕ, IfOk};
    ghost use Rattle.ds_analyst.specs.declared.question.Question.{Question};
    ghost use Rattle.ds_analyst.specs.declared.question.Analysis.{Analysis};

    /// What the answer to a question about a script may be.
    ghost finds: { Self → Question → List ℕ → Analysis → Type 0 };

    /// The answer to a question about a script. An error: out of memory.
    fn analyze(
        &self,
        alloc: Global,
        question: Question,
        script: &[u8],
    ) -> Result<Analysis, AllocError>
        ensures { IfOk result (finds self.now question script.now) };
}
