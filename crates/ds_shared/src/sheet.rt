//! The shared sheet.

ghost use Rattle.std.specs.Prelude.{◌≡◌, ◌<◌, ℕ, false, slice_index, slice_index_or, length, IfOk};
ghost use Rattle.std.specs.Mem.Slots.{slots_items};
ghost use Rattle.ds_layout.specs.Places.{words_of};
ghost use Rattle.pm_board.specs.Views.{past_of};

use ds_eval::value::Value;
use ds_formula::cells::Cell;
use ds_layout::layout::Layout;
use ds_layout::mark::Mark;
use ds_layout::place::Place;
use ds_state::shown::{SheetReader, mark, text, value};
use ds_structure::sheet::Sheet;
use ds_structure_shared::board::KeptBoard;
use pm_board::closed::ClosedBoard;
use std::alloc::{AllocError, Global};

/// A sheet that threads share.
#[derive(Drop)]
pub struct SharedSheet {
    pub(crate) board: KeptBoard,
}

impl SharedSheet {
    /// What fixes its words: the shape of the sheet, and how many processes it has.
    pub fn layout(&self) -> Layout
        ensures { result ≡ self.now.board.layout }
    {
        self.board.layout
    }
}

/// The words, once no seat is left. It remembers what was answered. Call `free` at the end.
pub struct ClosedSheet {
    pub(crate) words: ClosedBoard<Sheet>,
    pub(crate) layout: Layout,
    pub ghost same: { words.key.layout ≡ layout },
}

impl SheetReader for ClosedSheet {
    ghost use Rattle.ds_layout.specs.SheetMemory.{memory_at};
    ghost use Rattle.pm_board.specs.Table.{two_sided};
    ghost use Rattle.ds_structure.specs.Sheet.{apart_of};
    ghost use Rattle.std.specs.Prelude.{[]};

    ghost sheet = { λ s. s.layout };

    ghost seen = { λ s. memory_at s.layout (two_sided (apart_of s.layout) (slots_items s.words.table.words) (λ q. [])) };

    fn layout(&self) -> Layout {
        self.layout
    }

    fn load(&self, place: Place) -> u64 {
        self.words.cached(self.layout.number(place))
    }
}

impl ClosedSheet {
    ghost use Rattle.ds_layout.specs.Places.{IsPlace, number_of};
    ghost use Rattle.ds_formula.specs.Cells.{IsInside, index_of};
    ghost use Rattle.ds_state.specs.Shown.{last_text};
    ghost use Rattle.ds_state.specs.World.{of_cell};
    ghost use Rattle.ds_state.specs.Sound.{IsSound};
    ghost use Rattle.pm_board.specs.Rule.{Witness, world_on};
    ghost use Rattle.pm_board.specs.Table.{cached_at, persisted_at};
    ghost use Rattle.ds_structure.specs.Sheet.{apart_of, plain, sheet};

    /// The text of a cell: that of the last of its linearized edits. An error means that an allocation failed.
    pub fn text_of(&self, alloc: Global, cell: Cell) -> Result<Vec<u8>, AllocError>
        requires { IsInside self.now.layout.shape cell }
        ensures { IfOk result (λ v. (b : Witness sheet self.now.words.key) → IsSound (plain self.now.words.key (world_on sheet self.now.words.key (slots_items self.now.words.table.words) b))
            → v.items ≡ last_text (of_cell (index_of self.now.layout.shape cell) b.hidden.counted)) }
    {
        text(self, alloc, self.layout.shape.index(cell))
    }

    /// The cached side of the word at a place.
    pub fn cached(&self, place: Place) -> u64
        requires { IsPlace self.now.layout place }
        ensures { result ≡ slice_index (slots_items self.now.words.table.words) (cached_at (apart_of self.now.layout) (number_of self.now.layout place)) }
    {
        self.words.cached(self.layout.number(place))
    }

    /// The persisted side of the word at a place.
    pub fn persisted(&self, place: Place) -> u64
        requires { IsPlace self.now.layout place }
        ensures { result ≡ slice_index (slots_items self.now.words.table.words) (persisted_at (apart_of self.now.layout) (number_of self.now.layout place)) }
    {
        self.words.persisted(self.layout.number(place))
    }

    /// Gives the memory back.
    pub fn free(self) {
        let ClosedSheet { words, layout: _ } = self;
        words.free();
    }
}

impl ClosedSheet {
    ghost use Rattle.ds_formula.specs.Cells.{IsInside, index_of};
    ghost use Rattle.ds_layout.specs.SheetMemory.{memory_at};
    ghost use Rattle.ds_state.specs.Shown.{mark_at, value_at};
    ghost use Rattle.pm_board.specs.Table.{two_sided};
    ghost use Rattle.pm_board.specs.Rule.{Witness, AtRest, Survives, HasSideLeft};
    ghost use Rattle.ds_structure.specs.Sheet.{apart_of, sheet};
    ghost use Rattle.std.specs.Prelude.{[]};
    ghost use Rattle.ds_shared.specs.Answers.{Rests};

    /// The value of a cell, as its words show it.
    pub fn value_of(&self, cell: Cell) -> Value
        requires { IsInside self.now.layout.shape cell }
        ensures { result ≡ value_at self.now.layout (memory_at self.now.layout (two_sided (apart_of self.now.layout) (slots_items self.now.words.table.words) (λ q. []))) (index_of self.now.layout.shape cell) }
    {
        value(self, self.layout.shape.index(cell))
    }

    /// The mark of a cell.
    pub fn mark_of(&self, cell: Cell) -> Mark
        requires { IsInside self.now.layout.shape cell }
        ensures { result ≡ mark_at self.now.layout (memory_at self.now.layout (two_sided (apart_of self.now.layout) (slots_items self.now.words.table.words) (λ q. []))) (index_of self.now.layout.shape cell) }
    {
        mark(self, self.layout.shape.index(cell))
    }

    /// A crash, before which the chosen words were evicted: of each word the cached side is left where
    /// it is chosen, else the persisted side. To the words after it, too, a run leads, by these evictions and the crash, in
    /// which what is remembered stands.
    pub fn crash_with(&mut self, choice: &[bool])
        requires { length choice.now ≡ words_of self.old.layout }
        ensures layout { (self.new.layout ≡ self.old.layout) × (self.new.words.key ≡ self.old.words.key) }
        ensures before { past_of self.new.words.before ≡ past_of self.old.words.before }
        ensures words { (n : ℕ) → n < words_of self.old.layout → HasSideLeft (apart_of self.old.layout) (slice_index_or choice.now n false) (slots_items self.old.words.table.words) (slots_items self.new.words.table.words) n }
        ensures rests { Rests self.old → Rests self.new }
        ensures survives { (b : Witness sheet self.old.words.key) → AtRest sheet self.old.words.key (slots_items self.old.words.table.words) b → Survives sheet self.old.words.key (slots_items self.old.words.table.words) (slots_items self.new.words.table.words) b }
    {
        self.words.crash_with(choice);
    }
}
