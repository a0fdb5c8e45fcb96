//! What one pass has seen is shown to another.

ghost use Rattle.std.specs.Prelude.{◌≡◌};
ghost use Rattle.pm_board.specs.Looks.{Extends};
ghost use Rattle.ds_shared.specs.Known.{noted_by, seen_by};
ghost use Rattle.ds_shared.specs.Answers.{HasLooked, IsNoteOf, IsOf};

use crate::pass::{Note, Pass};
use crate::sheet::SharedSheet;

impl SharedSheet {
    /// What the pass has seen of the sheet's history until now, to be shown to others: all its calls that were
    /// answered, and all that stands before them. It costs a load of one word.
    pub fn note(&self, pass: &mut Pass) -> Note
        requires { IsOf self.now pass.old }
        ensures pass { IsOf self.now pass.new × HasLooked pass.old pass.new × (seen_by pass.new.place ≡ seen_by pass.old.place) }
        ensures note { IsNoteOf self.now result × (noted_by result.place ≡ seen_by pass.old.place) }
    {
        let place = self.board.words.note(&mut pass.place);
        Note { place }
    }

    /// The pass is shown what another one had seen, and looks at the sheet, by two loads: what it has then seen
    /// begins with that, and with what it had seen itself. So each call of it that begins later stands after all
    /// of both.
    pub fn learn(&self, pass: &mut Pass, note: Note)
        requires pass { IsOf self.now pass.old }
        requires note { IsNoteOf self.now note }
        ensures pass { IsOf self.now pass.new × HasLooked pass.old pass.new }
        ensures note { Extends (seen_by pass.new.place) (noted_by note.place) }
    {
        let Note { place } = note;
        self.board.words.join(&mut pass.place, place);
        self.board.words.look(&mut pass.place);
    }
}
