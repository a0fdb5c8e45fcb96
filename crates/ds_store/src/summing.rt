//! The lines of a journal are seen to have their sums.

ghost use Rattle.std.specs.Prelude.{◌≡◌, ◌≢◌, ◌++◌, ◌∷◌, [], List, ℕ, true, IfErr, IfOk, map};
ghost use Rattle.std.specs.String.{string_bytes};
ghost use Rattle.ds_script_io.specs.Fields.{is_skipped};
ghost use Rattle.ds_store_sums.specs.Sums.{sum_of};
ghost use Rattle.ds_store_sums.specs.Taken.{IsAt};
ghost use Rattle.ds_store.specs.Summing.{AreNotAdded, HaveNoSums, summed_anew};
ghost use Rattle.ds_store.specs.Told.{IsOfLines};
ghost use Rattle.ds_store.specs.Unsound.{AreUnsummed};

use crate::fault::StoreFault;
use ds_store_sums::sums::{LineSums, SumFault, Tail, is_sum};
use std::alloc::Global;

/// Adds lines, and says where the last one stands that has a sum; 0 for none.
pub(crate) fn add_all(
    alloc: Global,
    sums: &mut LineSums,
    lines: &[String],
) -> Result<usize, StoreFault>
    ensures added { IfOk result (λ _. (before : List (List ℕ)) → IsAt sums.old before → IsAt sums.new (before ++ map string_bytes lines.now)) }
    ensures wrong { (before : List (List ℕ)) → IsAt sums.old before → IfErr result (AreNotAdded before (map string_bytes lines.now)) }
    ensures of_lines { IfErr result IsOfLines }
{
    let mut number = 0usize;
    let mut last = 0usize;
    for line in lines {
        number = number.saturating_add(1);
        match sums.add(alloc, line) {
            Ok(()) => {}
            Err(SumFault::Wrong) => return Err(StoreFault::Sum(number)),
            Err(SumFault::NoMemory) => return Err(StoreFault::NoMemory),
        }
        if is_sum(line) {
            last = number;
        }
    }
    Ok(last)
}

/// The sums of a journal of these lines. The fault is of a line whose sum is not that of the lines before it, or of lines
/// that have none after the last one that has.
pub(crate) fn summed(alloc: Global, lines: &[String]) -> Result<LineSums, StoreFault>
    ensures sums { IfOk result (λ s. IsAt s (map string_bytes lines.now)) }
    ensures tail { IfOk result (λ s. s.tail ≢ Tail.Loose) }
    ensures wrong { IfErr result (AreUnsummed (map string_bytes lines.now)) }
    ensures of_lines { IfErr result IsOfLines }
{
    let mut sums = LineSums::new();
    let last = add_all(alloc, &mut sums, lines)?;
    if sums.tail() == Tail::Loose {
        return Err(StoreFault::NoSum(last.saturating_add(1)));
    }
    Ok(sums)
}

/// Adds lines, and after them one with their sum and that of all before them.
pub(crate) fn sum_up(
    alloc: Global,
    sums: &mut LineSums,
    lines: Vec<String>,
) -> Result<Vec<String>, StoreFault>
    ensures summed { IfOk result (λ all. (before : List (List ℕ)) → IsAt sums.old before → IsAt sums.new (before ++ map string_bytes all.items)
        × ((sum : List ℕ) × (map string_bytes all.items ≡ map string_bytes lines.items ++ sum ∷ []) × (is_skipped sum ≡ true) × (sum ≡ sum_of (before ++ map string_bytes lines.items)))) }
    ensures plain { (before : List (List ℕ)) → IsAt sums.old before → HaveNoSums (map string_bytes lines.items) → IfErr result (λ fault. fault ≡ StoreFault.NoMemory) }
    ensures of_lines { IfErr result IsOfLines }
{
    let mut lines = lines;
    add_all(alloc, sums, &lines)?;
    let sum = sums.sum(alloc)?;
    if sums.add(alloc, &sum).is_err() {
        return Err(StoreFault::NoMemory);
    }
    match lines.push(sum) {
        Ok(()) => Ok(lines),
        Err(_) => Err(StoreFault::NoMemory),
    }
}

/// Lines without their sums, and after them one that has the sum of all: as they are to be committed first.
pub fn with_sum(alloc: Global, lines: Vec<String>) -> Result<Vec<String>, StoreFault>
    ensures anew { IfOk result (λ all. map string_bytes all.items ≡ summed_anew (map string_bytes lines.items)) }
    ensures of_lines { IfErr result IsOfLines }
{
    let mut plain = lines;
    plain.retain(|line| !is_sum(line));
    sum_up(alloc, &mut LineSums::new(), plain)
}
