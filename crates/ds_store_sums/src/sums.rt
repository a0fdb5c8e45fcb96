//! Lines are seen to have their sums.

ghost use Rattle.std.specs.Prelude.{◌≡◌, ◌≢◌, ◌++◌, ◌∷◌, [], List, ℕ, true, IfOk, OnOk, Err};
ghost use Rattle.std.specs.String.{string_bytes};
ghost use Rattle.ds_store_sums.specs.Sums.{AreSummed, is_sum, loosened, sum_of};
ghost use Rattle.ds_store_sums.specs.Taken.{IsAt};

use sha2::{Digest, Sha256};
use std::alloc::{AllocError, Global};

// What a line with a sum begins with.
const MARK: &str = "# sum ";

/// What lines end with.
#[derive(Clone, Copy, Debug, PartialEq, Eq)]
pub enum Tail {
    /// None of them has a sum.
    NoSum,
    /// The last one has a sum.
    Summed,
    /// There are lines after the last one that has a sum.
    Loose,
}

/// Why a line is not added.
#[derive(Clone, Copy, Debug, PartialEq, Eq)]
pub enum SumFault {
    /// It has a sum, which is not that of the lines before it.
    Wrong,
    /// An allocation failed.
    NoMemory,
}

impl From<AllocError> for SumFault {
    fn from(_error: AllocError) -> SumFault {
        SumFault::NoMemory
    }
}

/// The digest of lines that were added one after another, each of which that has a sum has that of those before it.
#[derive(Drop)]
pub struct LineSums {
    hasher: Sha256,
    tail: Tail,
}

impl Tail {
    // What the lines end with after one more that has no sum.
    fn loosened(self) -> Tail
        ensures { result ≡ loosened self }
    {
        match self {
            Tail::NoSum => Tail::NoSum,
            Tail::Summed | Tail::Loose => Tail::Loose,
        }
    }
}

/// Whether a line is one with a sum: it begins with `# sum `.
pub fn is_sum(line: &str) -> bool
    ensures { result ≡ is_sum line.now }
{
    line.as_bytes().starts_with(MARK.as_bytes())
}

impl LineSums {
    /// Before the first line.
    pub fn new() -> LineSums
        ensures { IsAt result [] }
    {
        LineSums {
            hasher: Sha256::new(),
            tail: Tail::NoSum,
        }
    }

    /// The line that has the sum of all lines that were added: `# sum ` and their SHA-256 in hexadecimal digits.
    pub fn sum(&self, alloc: Global) -> Result<String, AllocError>
        ensures { IfOk result (λ line. (lines : List (List ℕ)) → IsAt self.now lines → string_bytes line ≡ sum_of lines) }
    {
        let mut line = String::from_str(alloc, MARK)?;
        let digest = hex::encode(alloc, self.hasher.clone()?.finalize())?;
        line.push_str(&digest)?;
        Ok(line)
    }

    // The line is the next one, and the lines end with this then.
    fn take(&mut self, line: &str, tail: Tail)
        ensures { (lines : List (List ℕ)) → IsAt self.old lines → (AreSummed (lines ++ line.now ∷ []) tail) → IsAt self.new (lines ++ line.now ∷ []) }
    {
        self.hasher.update(line);
        self.hasher.update("\n");
        self.tail = tail;
    }

    /// Adds the next line. It is refused where it has a sum, which is not that of the lines before it: then they are as
    /// they were.
    pub fn add(&mut self, alloc: Global, line: &str) -> Result<(), SumFault>
        ensures added { OnOk result ((lines : List (List ℕ)) → IsAt self.old lines → IsAt self.new (lines ++ line.now ∷ [])) }
        ensures wrong { result ≡ Err SumFault.Wrong → (lines : List (List ℕ)) → IsAt self.old lines → (is_sum line.now ≡ true) × (line.now ≢ sum_of lines) × (self.new ≡ self.old) }
    {
        if !is_sum(line) {
            self.take(line, self.tail.loosened());
            return Ok(());
        }
        let Ok(sum) = self.sum(alloc) else {
            return Err(SumFault::NoMemory);
        };
        if sum.as_str() != line {
            return Err(SumFault::Wrong);
        }
        self.take(line, Tail::Summed);
        Ok(())
    }

    /// What the lines that were added end with.
    pub fn tail(&self) -> Tail
        ensures { result ≡ self.now.tail }
    {
        self.tail
    }
}
