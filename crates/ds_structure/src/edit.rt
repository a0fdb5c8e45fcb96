//! Edits as calls of the structure.

ghost use Rattle.std.specs.Prelude.{◌≡◌, ◌<◌};
ghost use Rattle.ds_layout.specs.SheetMemory.{NamesPlace};
ghost use Rattle.ds_state.specs.CallsFit.{IsSheetOf};
ghost use Rattle.ds_state.specs.Edits.{IsEdit};

use crate::laws::edits_are_calls;
use crate::sheet::{Sheet, SheetKey};
use ds_edit::machine::{got, want};
use ds_state::answer::EditEnd;
use ds_state::edit::EditCall;
use ds_state::stage::Stage;
use ds_words::access::Access;
use pm_base::machine::Machine;

// It is an edit of a sheet.
fn is_edit(call: &EditCall)
    ensures { IsEdit call.now }
{
    // For the proof: reading the field gives its invariant.
    let _stage = call.stage;
}

impl Machine<Sheet> for EditCall {
    type End = EditEnd;

    ghost use Rattle.ds_structure.specs.Calls.{edits};

    ghost calls = { edits };

    #[inline(always)]
    fn turn(&self, key: &SheetKey) -> Option<EditEnd> {
        let _key = key;
        match self.stage {
            Stage::Answer(how) => Some(EditEnd::of(self.processes, self.number, how)),
            _ => None,
        }
    }

    #[inline(always)]
    fn want(&self, key: &SheetKey) -> Access<usize> {
        key.numbered(want(self))
    }

    #[inline(always)]
    fn got(&mut self, key: &SheetKey, word: u64) {
        let _key = key;
        got(self, word);
        is_edit(self);
    }

    fn law(key: &SheetKey) {
        edits_are_calls(key);
    }
}
