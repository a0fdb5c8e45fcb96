//! Calls, the steps that they may take, and sides, drawn at random.

ghost use Rattle.std.specs.Prelude.{◌≡◌, ◌+◌};

use crate::grid::{CELLS, FAULTY, texts};
use pm_board::fuse::Fuse;
use rand_core::utils::NextWord;
use rand_pcg::Pcg32;
use std::alloc::{AllocError, Global};

/// A call that is asked for. Cells are by their numbers.
#[derive(Clone, Copy, Debug, PartialEq, Eq)]
pub enum DrawnCall {
    /// An edit of a cell.
    Edit {
        /// The cell.
        cell: usize,
        /// The text that it is to have.
        text: &'static str,
    },
    /// Work on a cell.
    Work(usize),
    /// A recovery.
    Recover,
    /// A report.
    Show,
}

/// What stops a call: it says yes n times, and counts how often it did.
#[derive(Clone, Copy)]
pub struct Limit {
    left: u64,
    /// How often it said yes.
    pub taken: u64,
}

impl Fuse for Limit {
    ghost said = { λ first now yeses noes. first.left ≡ now.left + yeses };

    fn go(&mut self) -> bool {
        if self.left == 0 {
            return false;
        }
        self.left -= 1;
        self.taken = self.taken.wrapping_add(1);
        true
    }
}

impl Limit {
    /// It is asked, and says no.
    pub fn is_over(&mut self) -> bool {
        !self.go()
    }

    /// It stops nothing.
    pub fn none() -> Limit {
        Limit {
            left: u64::MAX,
            taken: 0,
        }
    }
}

/// A generator.
#[derive(Drop)]
pub struct Draw {
    generator: Pcg32,
}

impl Draw {
    /// The generator of this seed and stream.
    pub fn new(seed: u64, stream: u64) -> Draw {
        Draw {
            generator: Pcg32::new(seed, stream),
        }
    }

    /// A number below the bound; 0 where that is 0.
    pub fn below(&mut self, bound: usize) -> usize {
        let word: u32 = self.generator.next_word();
        (word as usize).checked_rem(bound).unwrap_or(0)
    }

    /// A call. Where the process is stopped it is a recovery, but for one time in eight.
    pub fn call(&mut self, is_stopped: bool) -> DrawnCall {
        if is_stopped && self.below(8) != 0 {
            return DrawnCall::Recover;
        }
        let cell = self.below(CELLS);
        match self.below(20) {
            0..=6 => {
                let texts = texts(cell);
                let place = self.below(texts.len());
                let text = texts.get(place).copied().unwrap_or("");
                DrawnCall::Edit { cell, text }
            }
            7 => DrawnCall::Edit { cell, text: FAULTY },
            8..=15 => DrawnCall::Work(cell),
            16..=18 => DrawnCall::Show,
            _ => DrawnCall::Recover,
        }
    }

    /// What stops a call: nothing in two of three cases, else a few steps.
    pub fn limit(&mut self) -> Limit {
        match self.below(3) {
            0 => Limit {
                left: self.below(48) as u64,
                taken: 0,
            },
            _ => Limit::none(),
        }
    }

    /// For each of n words whether it is evicted.
    pub fn sides(&mut self, alloc: Global, count: usize) -> Result<Vec<bool>, AllocError> {
        let mut sides = Vec::with_capacity(alloc, count)?;
        for _ in 0..count {
            sides.push(self.below(2) == 0)?;
        }
        Ok(sides)
    }
}
