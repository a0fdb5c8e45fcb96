//! Recoveries as calls of the structure.

ghost use Rattle.std.specs.Prelude.{◌≡◌, ◌<◌};
ghost use Rattle.ds_state.specs.RecoverStages.{IsRecovery};

use crate::laws::recoveries_are_calls;
use crate::sheet::{Sheet, SheetKey};
use ds_recover::machine::{effect_of, got, want};
use ds_state::recovery::{RecoverCall, RecoveryEnd};
use ds_state::turn::Turn;
use ds_words::access::Access;
use pm_base::machine::Machine;

// It is a recovery of a sheet.
fn is_recovery(call: &RecoverCall)
    ensures { IsRecovery call.now }
{
    // For the proof: reading the field gives its invariant.
    let _stage = call.stage;
}

impl Machine<Sheet> for RecoverCall {
    type End = RecoveryEnd;

    ghost use Rattle.ds_structure.specs.Calls.{recoveries};

    ghost calls = { recoveries };

    #[inline(always)]
    fn turn(&self, key: &SheetKey) -> Option<RecoveryEnd> {
        let _key = key;
        match effect_of(self) {
            Turn::Answers(end) => Some(end),
            Turn::GoesOn => None,
        }
    }

    #[inline(always)]
    fn want(&self, key: &SheetKey) -> Access<usize> {
        key.numbered(want(self))
    }

    #[inline(always)]
    fn got(&mut self, key: &SheetKey, word: u64) {
        let _key = key;
        got(self, word);
        is_recovery(self);
    }

    fn law(key: &SheetKey) {
        recoveries_are_calls(key);
    }
}
