//! What a cell is, of a shared sheet whose edits are listed.

ghost use Rattle.std.specs.Prelude.{◌≡◌, IfSome, None, option_map};
ghost use Rattle.ds_server.specs.Replies.{entry_view, got_view, report_view};
ghost use Rattle.ds_net_desks.specs.CellQuestions.{HasGot, HasLooked, HasTried, SaysLast, got_said};
ghost use Rattle.ds_net_desks.specs.DeskSeats.{Uses};
ghost use Rattle.ds_net_desks.specs.SharedDesks.{HasReported};

use crate::numbered_seat::NumberedSeat;
use crate::seat_pool::SeatPool;
use crate::shared_desk::seat_report;
use ds_formula::cells::Cell;
use ds_net_floor::edit_list::{EditList, is_same};
use ds_net_floor::keeping::Backlog;
use ds_net_floor::notebook::Notebook;
use ds_net_floor::visit::Visit;
use ds_order::course::Course;
use ds_server::desk::{CallRefusal, Got, ListedEdit, Reported};
use std::alloc::Global;
use std::sync::Wait;
use std::time::Clock;

// How often it is tried beside edits. Then they wait for it.
const TRIES: usize = 2;

/// A question for a cell, as one session asks it.
#[derive(Drop)]
pub struct CellQuestion<'a, R: Wait + Clock> {
    /// What waits.
    pub rt: &'a R,
    /// The seats of the sheet.
    pub pool: &'a SeatPool,
    /// In which order a report works on the cells.
    pub course: &'a Course,
    /// The visit of the session.
    pub visit: &'a Visit<'a>,
    /// The cell.
    pub cell: Cell,
    /// Its number in the sheet.
    pub number: usize,
}

// What the report says of the cell with this number, of which this is the last edit.
pub(crate) fn got_of(
    end: Result<Reported, CallRefusal>,
    number: usize,
    edit: Option<ListedEdit>,
) -> Result<Got, CallRefusal>
    ensures { (cell : Cell) → got_view cell result ≡ got_said cell number (option_map entry_view edit) (report_view end) }
{
    match end {
        Ok(Reported::Settled(values)) => match values.get(number) {
            Some(value) => Ok(Got::Settled {
                value: *value,
                edit,
            }),
            None => Err(CallRefusal::NoMemory),
        },
        Ok(Reported::Unsettled(place, word)) => Ok(Got::Unsettled(place, word)),
        Err(why) => Err(why),
    }
}

// The last edit of the cell in the list.
fn last_in(alloc: Global, list: &EditList, cell: Cell) -> Result<Option<ListedEdit>, CallRefusal>
    ensures { SaysLast cell list.now result }
{
    match list.last(alloc, cell) {
        Ok(edit) => Ok(edit),
        Err(_) => Err(CallRefusal::NoMemory),
    }
}

impl<'a, R: Wait + Clock> CellQuestion<'a, R> {
    // Looks at the last edit of the cell, while nobody edits.
    fn last(
        &self,
        alloc: Global,
        notebook: &mut Notebook<'_>,
    ) -> Result<Option<ListedEdit>, CallRefusal>
        ensures looked { HasLooked self.now.cell notebook.old.seen.items result notebook.new.seen.items }
        ensures notes { (notebook.new.heard ≡ notebook.old.heard) × (notebook.new.keyed ≡ notebook.old.keyed) }
    {
        let backlog = notebook.take_turn(self.rt);
        last_in(alloc, backlog.show(notebook), self.cell)
    }

    // A report by the seat.
    fn report(&self, alloc: Global, numbered: &mut NumberedSeat) -> Result<Reported, CallRefusal>
        ensures uses { Uses HasReported numbered.old (report_view result) numbered.new }
        ensures process { numbered.new.seat.pass.process ≡ numbered.old.seat.pass.process }
    {
        let end = seat_report(self.rt, alloc, self.pool, numbered, self.course, self.visit);
        self.visit.counts_report(&end);
        end
    }

    // A try beside edits. None where the last edit of the cell is another one after the report than before it.
    fn tried(
        &self,
        alloc: Global,
        notebook: &mut Notebook<'_>,
        numbered: &mut NumberedSeat,
    ) -> Option<Result<Got, CallRefusal>>
        ensures some { IfSome result (λ got. HasGot self.now.cell self.now.number numbered.old notebook.old.seen.items (got_view self.now.cell got) numbered.new notebook.new.seen.items) }
        ensures none { result ≡ None → HasTried numbered.old notebook.old.seen.items numbered.new notebook.new.seen.items }
        ensures notes { (notebook.new.heard ≡ notebook.old.heard) × (notebook.new.keyed ≡ notebook.old.keyed) }
        ensures process { numbered.new.seat.pass.process ≡ numbered.old.seat.pass.process }
    {
        let first = match self.last(alloc, notebook) {
            Ok(first) => first,
            Err(why) => return Some(Err(why)),
        };
        let end = self.report(alloc, numbered);
        let later = match self.last(alloc, notebook) {
            Ok(later) => later,
            Err(why) => return Some(Err(why)),
        };
        if is_same(&first, &later) {
            Some(got_of(end, self.number, later))
        } else {
            None
        }
    }

    // A try for which edits wait.
    fn tried_alone(
        &self,
        alloc: Global,
        notebook: &mut Notebook<'_>,
        numbered: &mut NumberedSeat,
    ) -> Result<Got, CallRefusal>
        ensures got { HasGot self.now.cell self.now.number numbered.old notebook.old.seen.items (got_view self.now.cell result) numbered.new notebook.new.seen.items }
        ensures notes { (notebook.new.heard ≡ notebook.old.heard) × (notebook.new.keyed ≡ notebook.old.keyed) }
        ensures process { numbered.new.seat.pass.process ≡ numbered.old.seat.pass.process }
    {
        let backlog = notebook.take_turn(self.rt);
        self.tried_with(alloc, &backlog, notebook, numbered)
    }

    // A try with the list, which does not change meanwhile.
    fn tried_with(
        &self,
        alloc: Global,
        backlog: &Backlog,
        notebook: &mut Notebook<'_>,
        numbered: &mut NumberedSeat,
    ) -> Result<Got, CallRefusal>
        ensures got { HasGot self.now.cell self.now.number numbered.old notebook.old.seen.items (got_view self.now.cell result) numbered.new notebook.new.seen.items }
        ensures notes { (notebook.new.heard ≡ notebook.old.heard) × (notebook.new.keyed ≡ notebook.old.keyed) }
        ensures process { numbered.new.seat.pass.process ≡ numbered.old.seat.pass.process }
    {
        match last_in(alloc, backlog.show(notebook), self.cell) {
            Ok(edit) => {
                let end = self.report(alloc, numbered);
                backlog.show(notebook);
                got_of(end, self.number, edit)
            }
            Err(why) => Err(why),
        }
    }

    /// The answer, by this seat: the value of the cell and its last edit that counts, of one moment.
    pub fn answer(
        &self,
        alloc: Global,
        notebook: &mut Notebook<'_>,
        numbered: &mut NumberedSeat,
    ) -> Result<Got, CallRefusal>
        ensures got { HasGot self.now.cell self.now.number numbered.old notebook.old.seen.items (got_view self.now.cell result) numbered.new notebook.new.seen.items }
        ensures notes { (notebook.new.heard ≡ notebook.old.heard) × (notebook.new.keyed ≡ notebook.old.keyed) }
        ensures process { numbered.new.seat.pass.process ≡ numbered.old.seat.pass.process }
    {
        for _ in 0..TRIES {
            if let Some(got) = self.tried(alloc, notebook, numbered) {
                return got;
            }
        }
        self.tried_alone(alloc, notebook, numbered)
    }
}
