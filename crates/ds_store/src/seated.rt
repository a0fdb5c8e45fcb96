//! A sheet that threads share, with the seats of all its processes.

ghost use Rattle.std.specs.Prelude.{◌≡◌, ◌<◌, ◌++◌, ◌∷◌, [], List, false, length, IfOk, IfErr, OnOk};
ghost use Rattle.std.specs.Arc.{arc_value};
ghost use Rattle.ds_formula.specs.declared.cells.Cell.{Cell};
ghost use Rattle.ds_layout.specs.declared.layout.Layout.{Layout};
ghost use Rattle.ds_shared_seats.specs.Calls.{Edits};
ghost use Rattle.ds_shared_seats.specs.Sheets.{AllFresh, IsSeatOf};
ghost use Rattle.ds_store_journal.specs.Journals.{KeptEdit};
ghost use Rattle.ds_formula.specs.Cells.{IsInside};
ghost use Rattle.ds_shared.specs.declared.ended.Ended.{Ended};
ghost use Rattle.ds_state.specs.declared.answer.EditEnd.{EditEnd};
ghost use Rattle.ds_store.specs.Replays.{IsNotDone, MissesEdit};
ghost use Rattle.ds_store.specs.Stores.{AreFresh, AreSeated, IsMadeBy, STEPS_MOST};
ghost use Rattle.ds_eval.specs.Code.{plain_code};
ghost use Rattle.std.specs.Coded.{codes};

use ds_formula::cells::Cell;
use ds_layout::layout::Layout;
use ds_shared::ended::Ended;
use ds_shared_seats::seat::Seat;
use ds_shared_seats::sheet::OpenSheet;
use ds_state::answer::EditEnd;
use ds_store_journal::fault::JournalFault;
use std::alloc::{AllocError, Global};

/// A sheet that threads share, with the seats of all its processes, in their order.
#[derive(Drop)]
pub struct SeatedSheet {
    sheet: OpenSheet,
    seats: Vec<Seat>,
    pub ghost seated: { AreSeated (arc_value sheet.sheet) seats.items } by { Prim.hlevel (codes, plain_code) },
}

// The seats of all processes of a new sheet, in their order. An error is that an allocation failed.
fn all_seats(alloc: Global, sheet: &mut OpenSheet) -> Result<Vec<Seat>, AllocError>
    requires { AllFresh false sheet.old }
    ensures sheet { arc_value sheet.new.sheet ≡ arc_value sheet.old.sheet }
    ensures seats { IfOk result (λ seats. AreSeated (arc_value sheet.old.sheet) seats.items × AreFresh seats.items) }
{
    let processes = sheet.layout().processes;
    let mut seats = Vec::with_capacity(alloc, processes)?;
    for process in 0..processes {
        let Ok(seat) = sheet.take(alloc, process) else {
            return Err(AllocError);
        };
        seats.push_reserved(seat);
    }
    Ok(seats)
}

// What an edit that ended so has come to, which is to be done with this number: an error is why it has not.
fn as_kept(number: usize, how: Ended<EditEnd>) -> Result<(), JournalFault>
    ensures done { OnOk result (how ≡ Ended.Answered (EditEnd.Done number)) }
    ensures not_done { IfErr result (IsNotDone number how) }
{
    match how {
        Ended::Answered(EditEnd::Done(told)) if told == number => Ok(()),
        Ended::Answered(EditEnd::Done(_)) | Ended::Stopped => Err(JournalFault::Other),
        Ended::Answered(EditEnd::Overtaken(_, _)) => Err(JournalFault::NotDone),
        Ended::Refused(why) => Err(JournalFault::Refused(why)),
    }
}

// A whole edit by a seat, which is to be done with this number.
fn edited(
    alloc: Global,
    seat: &mut Seat,
    number: usize,
    cell: Cell,
    text: &[u8],
) -> Result<(), JournalFault>
    ensures edits { OnOk result (Edits (arc_value seat.old.sheet) cell text.now STEPS_MOST seat.old.pass seat.new.pass (Ended.Answered (EditEnd.Done number))) }
    ensures not_done { IsInside (arc_value seat.old.sheet).board.layout.shape cell → IfErr result (λ fault. (how : Ended EditEnd)
        × Edits (arc_value seat.old.sheet) cell text.now STEPS_MOST seat.old.pass seat.new.pass how × IsNotDone number how fault) }
    ensures sheet { IsSeatOf (arc_value seat.old.sheet) seat.new }
    ensures process { seat.new.pass.process ≡ seat.old.pass.process }
{
    match seat.edit(alloc, cell, text, u64::MAX) {
        Ok(how) => as_kept(number, how),
        Err(_) => Err(JournalFault::NoEdit),
    }
}

impl SeatedSheet {
    /// A new sheet of this layout. An error is that an allocation failed.
    pub fn make(alloc: Global, layout: Layout) -> Result<SeatedSheet, AllocError>
        ensures { IfOk result (λ s. IsMadeBy layout [] (arc_value s.sheet.sheet) s.seats.items) }
    {
        let mut sheet = OpenSheet::make(alloc, layout)?;
        let seats = all_seats(alloc, &mut sheet)?;
        Ok(SeatedSheet { sheet, seats })
    }

    /// The process makes an edit, which is to be answered Done with this number. The fault is that the sheet has no such
    /// process or cell, or that it was answered otherwise; then the sheet is of no use any more.
    pub(crate) fn edit(
        &mut self,
        alloc: Global,
        process: usize,
        number: usize,
        cell: Cell,
        text: &[u8],
    ) -> Result<(), JournalFault>
        ensures not_done { process < length self.old.seats.items → IsInside (arc_value self.old.sheet.sheet).board.layout.shape cell
            → IfErr result (MissesEdit (arc_value self.old.sheet.sheet) self.old.seats.items self.new.seats.items (record { process = process; cell = cell; text = text.now }) number) }
        ensures made { OnOk result ((layout : Layout) (edits : List KeptEdit) → IsMadeBy layout edits (arc_value self.old.sheet.sheet) self.old.seats.items
            → IsMadeBy layout (edits ++ record { process = process; number = number; cell = cell; text = text.now } ∷ []) (arc_value self.new.sheet.sheet) self.new.seats.items) }
    {
        if process >= self.seats.len() {
            return Err(JournalFault::NoEdit);
        }
        edited(alloc, &mut self.seats[process], number, cell, text)
    }

    /// Its layout.
    pub fn layout(&self) -> Layout
        ensures { result ≡ (arc_value self.now.sheet.sheet).board.layout }
    {
        self.sheet.layout()
    }

    /// The sheet, and the seats of its processes, in their order.
    pub fn into_parts(self) -> (OpenSheet, Vec<Seat>)
        ensures { (result.0 ≡ self.sheet) × (result.1 ≡ self.seats) }
    {
        let SeatedSheet { sheet, seats } = self;
        (sheet, seats)
    }
}
