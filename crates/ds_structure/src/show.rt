//! Shows as calls of the structure.

ghost use Rattle.std.specs.Prelude.{◌≡◌, ◌<◌};
ghost use Rattle.ds_state.specs.ShowStages.{IsShow};

use crate::laws::shows_are_calls;
use crate::sheet::{Sheet, SheetKey};
use ds_show::machine::{got, want};
use ds_state::show::{ShowCall, ShowEnd, ShowStage};
use ds_words::access::Access;
use pm_base::machine::Machine;

// It is a show of a sheet.
fn is_show(call: &ShowCall)
    ensures { IsShow call.now }
{
    // For the proof: reading the field gives its invariant.
    let _stage = call.stage;
}

impl Machine<Sheet> for ShowCall {
    type End = ShowEnd;

    ghost use Rattle.ds_structure.specs.Calls.{shows};

    ghost calls = { shows };

    #[inline(always)]
    fn turn(&self, key: &SheetKey) -> Option<ShowEnd> {
        let _key = key;
        match self.stage {
            ShowStage::Answer(end) => Some(end),
            _ => None,
        }
    }

    #[inline(always)]
    fn want(&self, key: &SheetKey) -> Access<usize> {
        key.numbered(want(self))
    }

    #[inline(always)]
    fn got(&mut self, key: &SheetKey, word: u64) {
        let _key = key;
        got(self, word);
        is_show(self);
    }

    fn law(key: &SheetKey) {
        shows_are_calls(key);
    }
}
