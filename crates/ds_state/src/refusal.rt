//! Why a call is refused.

ghost use Rattle.std.specs.Prelude.{◌≡◌};
ghost use Rattle.ds_state.specs.declared.refusal.Refusal.TheVariants.{NoMemory};
ghost use Rattle.ds_state.specs.Refusals.{refusal_of};

use ds_formula::fault::{FaultKind, TextFault};
use std::alloc::{AllocError, AllocFailed};

/// Why a call is refused. After a refusal the sheet and its processes are as they were. Each cause
/// has a code, the number that a script prints after `refused`.
#[derive(Clone, Copy, Debug, PartialEq, Eq)]
pub enum Refusal {
    /// The text has no content, but this fault. The code that scripts print is 1.
    Text(TextFault),
    /// The process is in a call. The code that scripts print is 2.
    Busy,
    /// The process is stopped. The code that scripts print is 3.
    Stopped,
    /// The process has spent its 256 records; of a show: too many were answered Settled, so that no more
    /// can be counted. The code that scripts print is 4.
    RecordsFull,
    /// An allocation failed. The code that scripts print is 5.
    NoMemory,
    /// This process migrates the sheet, so that no other one may recover. The code that scripts print is 6.
    Migrating(usize),
    /// This process is not stopped, so that no other one may migrate the sheet. The code that scripts print is 7.
    NotStopped(usize),
}

impl From<TextFault> for Refusal {
    ghost from_gives = { λ f r. r ≡ refusal_of f };

    fn from(fault: TextFault) -> Refusal {
        match fault.kind {
            FaultKind::NoMemory => Refusal::NoMemory,
            _ => Refusal::Text(fault),
        }
    }
}

impl From<AllocError> for Refusal {
    ghost from_gives = { λ _ r. r ≡ NoMemory };

    fn from(_error: AllocError) -> Refusal {
        Refusal::NoMemory
    }
}

impl<T: Drop> From<AllocFailed<T>> for Refusal {
    ghost from_gives = { λ _ r. r ≡ NoMemory };

    fn from(_failed: AllocFailed<T>) -> Refusal {
        Refusal::NoMemory
    }
}
