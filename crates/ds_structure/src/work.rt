//! Works as calls of the structure.

ghost use Rattle.std.specs.Prelude.{◌≡◌, ◌<◌};
ghost use Rattle.ds_state.specs.Works.{IsWork};

use crate::laws::works_are_calls;
use crate::sheet::{Sheet, SheetKey};
use ds_state::work::{WorkCall, WorkEnd, WorkStage};
use ds_words::access::Access;
use ds_work::laws::works_are_of_a_sheet;
use ds_work::machine::{got, want};
use pm_base::machine::Machine;

/// Where the steps of a work have led.
#[derive(Clone, Copy, Debug, PartialEq, Eq)]
pub enum WorkPause {
    /// It is to read the content of the text that it has gathered, and then goes on as a call that begins there.
    Reads,
    /// It is to take the entry that its content gives on its inputs, and then goes on so.
    Waits,
    /// It has ended so.
    Answers(WorkEnd),
}

impl Machine<Sheet> for WorkCall {
    type End = WorkPause;

    ghost use Rattle.ds_structure.specs.Calls.{works};

    ghost calls = { works };

    #[inline(always)]
    fn turn(&self, key: &SheetKey) -> Option<WorkPause> {
        let _key = key;
        match self.stage {
            WorkStage::Read => Some(WorkPause::Reads),
            WorkStage::Wait => Some(WorkPause::Waits),
            WorkStage::Answer(end) => Some(WorkPause::Answers(end)),
            _ => None,
        }
    }

    #[inline(always)]
    fn want(&self, key: &SheetKey) -> Access<usize> {
        key.numbered_in(want(self, key.layout.shape))
    }

    #[inline(always)]
    fn got(&mut self, key: &SheetKey, word: u64) {
        let _key = key;
        got(self, word);
        works_are_of_a_sheet(self);
    }

    fn law(key: &SheetKey) {
        works_are_calls(key);
    }
}
