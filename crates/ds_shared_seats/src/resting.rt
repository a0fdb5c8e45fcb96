//! A closed sheet, which may be opened again.

ghost use Rattle.std.specs.Prelude.{ℕ, ◌≡◌, ◌<◌, ◌≤◌, [], length, IfOk, slice_index_or, true, false};
ghost use Rattle.ds_shared.specs.Answers.{Rests};
ghost use Rattle.ds_shared_seats.specs.Resting.{is_chosen};

use crate::fault::Fault;
use crate::sheet::{OpenSheet, Room};
use ds_eval::value::Value;
use ds_formula::cells::Cell;
use ds_layout::layout::Layout;
use ds_layout::mark::Mark;
use ds_shared::sheet::ClosedSheet;
use ds_state::shown::SheetReader;
use std::alloc::{AllocError, Global};

/// A closed sheet. A run leads to its words, at rest, and what it remembers stands in that run.
pub struct RestingSheet {
    pub(crate) sheet: ClosedSheet,
    pub ghost rests: { ∥ Rests sheet ∥₁ },
}

impl Drop for RestingSheet {
    fn drop(self) {
        self.into_sheet().free();
    }
}

// Which words are chosen.
fn chosen(alloc: Global, choice: &[u8], count: usize) -> Result<Vec<bool>, AllocError>
    requires { count ≤ length choice.now }
    ensures length { IfOk result (λ v. length v.items ≡ count) }
    ensures each { IfOk result (λ v. (n : ℕ) → n < count → slice_index_or v.items n false ≡ is_chosen choice.now n) }
{
    let mut words = Vec::with_capacity(alloc, count)?;
    for number in 0..count {
        words.push(choice[number] != 0)?;
    }
    Ok(words)
}

impl RestingSheet {
    ghost use Rattle.std.specs.Prelude.{IfErr, OnOk};
    ghost use Rattle.std.specs.Arc.{arc_value};
    ghost use Rattle.std.specs.Mem.Slots.{slots_items};
    ghost use Rattle.ds_formula.specs.Cells.{IsInside, index_of};
    ghost use Rattle.ds_layout.specs.Places.{words_of};
    ghost use Rattle.ds_layout.specs.SheetMemory.{memory_at};
    ghost use Rattle.ds_state.specs.Shown.{mark_at, value_at};
    ghost use Rattle.pm_board.specs.Table.{two_sided};
    ghost use Rattle.ds_structure.specs.Sheet.{apart_of};
    ghost use Rattle.ds_shared.specs.Answers.{opened_with};
    ghost use Rattle.ds_shared.specs.Known.{past_in};
    ghost use Rattle.pm_board.specs.Views.{past_of};
    ghost use Rattle.ds_shared_seats.specs.Resting.{Remembers, Crashes, CanNotCrash, IsTextIn, LacksText, LacksCellIn};
    ghost use Rattle.ds_shared_seats.specs.Sheets.{AllFresh};

    /// A closed sheet that may be opened again.
    pub(crate) fn of(sheet: ClosedSheet) -> RestingSheet
        requires { Rests sheet }
        ensures { result.sheet ≡ sheet }
    {
        RestingSheet { sheet }
    }

    /// The closed sheet itself.
    pub(crate) fn into_sheet(self) -> ClosedSheet
        ensures { (result ≡ self.sheet) × Rests result }
    {
        let RestingSheet { sheet } = self;
        sheet
    }

    /// Its layout.
    pub fn layout(&self) -> Layout
        ensures { result ≡ self.now.sheet.layout }
    {
        self.sheet.layout()
    }

    /// The text of a cell: that of the last of its edits that count. Errors: NoCell, NoMemory.
    pub fn text_of(&self, alloc: Global, cell: Cell) -> Result<Vec<u8>, Fault>
        ensures ok { IfOk result (λ v. IsInside self.now.sheet.layout.shape cell × IsTextIn self.now.sheet cell v.items) }
        ensures err { IfErr result (LacksText self.now.sheet cell) }
    {
        if !self.layout().shape.contains(cell) {
            return Err(Fault::NoCell);
        }
        match self.sheet.text_of(alloc, cell) {
            Ok(text) => Ok(text),
            Err(_) => Err(Fault::NoMemory),
        }
    }

    /// The value of a cell, as its words show it. An error is that the sheet has no such cell.
    pub fn value_of(&self, cell: Cell) -> Result<Value, Fault>
        ensures ok { IfOk result (λ v. IsInside self.now.sheet.layout.shape cell × (v ≡ value_at self.now.sheet.layout (memory_at self.now.sheet.layout (two_sided (apart_of self.now.sheet.layout) (slots_items self.now.sheet.words.table.words) (λ q. []))) (index_of self.now.sheet.layout.shape cell))) }
        ensures err { IfErr result (LacksCellIn self.now.sheet cell) }
    {
        if self.layout().shape.contains(cell) {
            Ok(self.sheet.value_of(cell))
        } else {
            Err(Fault::NoCell)
        }
    }

    /// The mark of a cell. An error is that the sheet has no such cell.
    pub fn mark_of(&self, cell: Cell) -> Result<Mark, Fault>
        ensures ok { IfOk result (λ m. IsInside self.now.sheet.layout.shape cell × (m ≡ mark_at self.now.sheet.layout (memory_at self.now.sheet.layout (two_sided (apart_of self.now.sheet.layout) (slots_items self.now.sheet.words.table.words) (λ q. []))) (index_of self.now.sheet.layout.shape cell))) }
        ensures err { IfErr result (LacksCellIn self.now.sheet cell) }
    {
        if self.layout().shape.contains(cell) {
            Ok(self.sheet.mark_of(cell))
        } else {
            Err(Fault::NoCell)
        }
    }

    /// A crash, before which the words were evicted whose item of the choice is not 0: of each word the cached side is
    /// left where it is chosen, else the persisted one. Items past the last word are not read. Errors: ShortChoice,
    /// NoMemory.
    pub fn crash_with(&mut self, alloc: Global, choice: &[u8]) -> Result<(), Fault>
        ensures ok { OnOk result (Crashes choice.now self.old.sheet self.new.sheet) }
        ensures err { IfErr result (λ why. CanNotCrash choice.now self.old.sheet why × (self.new ≡ self.old)) }
    {
        let count = self.layout().words();
        if choice.len() < count {
            return Err(Fault::ShortChoice);
        }
        let Ok(words) = chosen(alloc, choice, count) else {
            return Err(Fault::NoMemory);
        };
        self.sheet.crash_with(words.as_slice());
        Ok(())
    }

    /// Opens the sheet again, with its words, and with every process stopped. Where an allocation fails it comes back
    /// closed: all that it remembered it remembers.
    pub fn reopen(self, alloc: Global) -> Result<OpenSheet, RestingSheet>
        ensures layout { IfOk result (λ r. (arc_value r.sheet).board.layout ≡ self.sheet.layout) }
        ensures words { IfOk result (λ r. opened_with (arc_value r.sheet) ≡ slots_items self.sheet.words.table.words) }
        ensures past { IfOk result (λ r. past_in r.past.place ≡ past_of self.sheet.words.before) }
        ensures fresh { IfOk result (λ r. AllFresh true r) }
        ensures back { IfErr result (λ r. Remembers self.sheet r.sheet) }
    {
        let layout = self.layout();
        let Ok(room) = Room::make(alloc, layout.processes) else {
            return Err(self);
        };
        match self.into_sheet().reopen(alloc) {
            Ok((sheet, past, passes)) => {
                match OpenSheet::of(alloc, layout, sheet, past, passes, room) {
                    Ok(open) => Ok(open),
                    Err((sheet, past, passes)) => {
                        Err(RestingSheet::of(sheet.close(past, passes)))
                    }
                }
            }
            Err(sheet) => Err(RestingSheet::of(sheet)),
        }
    }
}
