//! The right to act for a process.

ghost use Rattle.std.specs.Prelude.{◌≤◌};
ghost use Rattle.ds_layout.specs.declared.place.TheConstants.{RECORDS};
ghost use Rattle.ds_shared.specs.Known.{IsKnown, IsMemory, IsNote};
ghost use Rattle.ds_eval.specs.Code.{plain_code};
ghost use Rattle.std.specs.Coded.{codes};

use ds_layout::place::Edition;
use ds_state::situation::Rest;
use ds_structure_shared::calls::SheetSeat;

/// What was answered before a sheet was opened. Its owner keeps it for the close.
#[derive(Drop)]
pub struct Past {
    pub(crate) place: SheetSeat,
    pub ghost memory: { IsMemory place } by { Prim.hlevel (codes, plain_code) },
}

/// What a pass had seen of a sheet's history once. It takes no memory, and can go to another thread, whose pass is
/// shown it by `SharedSheet::learn`.
#[derive(Drop)]
pub struct Note {
    pub(crate) place: SheetSeat,
    pub ghost known: { IsNote place } by { Prim.hlevel (codes, plain_code) },
}

/// The right to act for a process of a sheet.
#[derive(Drop)]
pub struct Pass {
    pub(crate) place: SheetSeat,
    pub(crate) process: usize,
    pub(crate) number: usize,
    pub(crate) stopped: bool,
    pub ghost few: { number ≤ RECORDS },
    pub ghost known: { IsKnown place process number stopped } by { Prim.hlevel (codes, plain_code) },
}

impl Pass {
    ghost use Rattle.std.specs.Prelude.{◌≡◌};
    ghost use Rattle.ds_structure.specs.Calls.{second_rest};

    /// The process that it acts for.
    pub fn process(&self) -> usize
        ensures { result ≡ self.now.process }
    {
        self.process
    }

    // What its process knows between calls: the number of its next edit, and the second layout.
    pub(crate) fn rest(&self) -> Rest
        ensures { result ≡ second_rest self.now.number }
    {
        Rest {
            number: self.number,
            edition: Edition::Second,
        }
    }
}
