//! Boards of sheets, with the texts that their edits have read.

ghost use Rattle.std.specs.Prelude.{◌≡◌, IfOk, false, []};
ghost use Rattle.ds_formula.specs.Grammar.{Reads};
ghost use Rattle.ds_formula.specs.Plain.{plain};
ghost use Rattle.pm_board.specs.Views.{RunsFrom, first_view};
ghost use Rattle.ds_structure.specs.Sheet.{sheet};
ghost use Rattle.ds_structure_shared.specs.Boards.{new_words};

use crate::calls::SheetSeat;
use crate::kept::KeptTexts;
use ds_formula::content::Content;
use ds_layout::layout::Layout;
use ds_state::edit::EditCall;
use ds_structure::sheet::{Sheet, SheetKey};
use pm_board::board::Board;
use std::alloc::{AllocError, Global};

/// A board of a new sheet in this layout, and a seat that runs each of its processes. An error: out of memory.
pub fn make(alloc: Global, layout: Layout) -> Result<(Board<Sheet>, SheetSeat), AllocError>
    ensures layout { IfOk result (λ r. r.0.key.layout ≡ layout) }
    ensures table { IfOk result (λ r. r.1.table_id ≡ r.0.table.shared.table_id) }
    ensures view { IfOk result (λ r. r.1.me ≡ (first_view sheet r.0.key false [], [])) }
    ensures rest { IfOk result (λ r. RunsFrom sheet r.0.key false 0 r.1.me) }
    ensures made { IfOk result (λ r. r.0.table.shared.key.stopped ≡ false) }
    ensures words { IfOk result (λ r. r.0.table.shared.key.words.value.items ≡ new_words layout) }
{
    // For the proof: it is below the number of words, and that is a small one.
    let _words = layout.words();
    let (board, rest) = Board::<Sheet>::make(alloc, SheetKey::new(layout))?;
    Ok((board, rest))
}

/// A board of a sheet, with the texts that its edits have read. No clause speaks of those: what a work does is the same
/// without.
#[derive(Drop)]
pub struct KeptBoard {
    /// The words that threads share.
    pub words: Board<Sheet>,
    /// The layout of the sheet.
    pub layout: Layout,
    pub(crate) kept: KeptTexts,
    pub ghost same: { words.key.layout ≡ layout },
}

impl KeptBoard {
    /// Room for the texts of a sheet with this layout. An error: out of memory.
    pub fn room(alloc: Global, layout: Layout) -> Result<KeptTexts, AllocError> {
        KeptTexts::make(alloc, layout.processes)
    }

    /// The board with that room.
    pub fn of(words: Board<Sheet>, kept: KeptTexts) -> KeptBoard
        ensures { (result.words ≡ words) × (result.layout ≡ words.key.layout) }
    {
        let layout = words.key.layout;
        KeptBoard {
            words,
            layout,
            kept,
        }
    }

    /// The board without it.
    pub fn into_words(self) -> Board<Sheet>
        ensures { result ≡ self.words }
    {
        let KeptBoard {
            words,
            layout: _,
            kept: _,
        } = self;
        words
    }

    /// Keeps the content of an edit's text for the works that meet this text in the words, where it is a long formula:
    /// unless one is kept for that record, or an allocation fails. It touches no word, and no clause can say whether it
    /// did.
    pub fn keep(&self, alloc: Global, call: &EditCall, content: Content)
        requires { Reads self.now.layout.shape call.now.text (plain content) }
    {
        self.kept.keep(alloc, self.layout.shape, call, content);
    }
}
