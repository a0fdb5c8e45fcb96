//! What every run of marks has.

ghost use Rattle.pm_mark.specs.Rises.{MarksRise, RaisesLast, RaisesLoseToOthers};

use crate::mark::Mark;
use pm_base::machine::Structured;

/// No event but a crash lowers the mark.
pub fn marks_rise(processes: usize)
    ensures { MarksRise processes }
{
    Mark::law(&processes);
}

/// Where a process was answered that the mark is up, no event takes it back, not even a crash.
pub fn raises_last(processes: usize)
    ensures { RaisesLast processes }
{
    Mark::law(&processes);
}

/// A raise that ends with no answer has lost to another one: at its swap the mark was above the value that it had loaded.
pub fn raises_lose_to_others(processes: usize)
    ensures { RaisesLoseToOthers processes }
{
    Mark::law(&processes);
}
