//! A desk that is a shared sheet whose edits are kept in a store.

ghost use Rattle.std.specs.Prelude.{◌≡◌, ◌++◌, ◌∷◌, [], IfOk};
ghost use Rattle.ds_server.specs.Replies.{set_view};
ghost use Rattle.ds_net_desks.specs.Counting.{number_seen, seen_by};
ghost use Rattle.ds_net_desks.specs.DeskSeats.{Uses};
ghost use Rattle.ds_net_desks.specs.Hearing.{HearsNoKey, HearsNoted};
ghost use Rattle.ds_net_desks.specs.StoredDesks.{HasListed, HasUndone, SaysBefore, SaysPart, StoredSet, notes_in};

use crate::computed::computed_values;
use crate::keyed::{Once, resolved, seat_edit_once};
use crate::numbered_seat::{NumberedSeat, number_seen};
use crate::numbering::Numbering;
use crate::seat_pool::SeatPool;
use crate::shared_desk::{SharedDesk, edited};
use ds_formula::cells::{Cell, Shape};
use ds_net_floor::edit_list::EditList;
use ds_net_floor::keeping::{Backlog, Keeping};
use ds_net_floor::notebook::Notebook;
use ds_server::desk::{CallRefusal, Desk, Got, History, ListedEdit, Reported};
use ds_shared_seats::seat::Seat;
use ds_state::answer::EditEnd;
use ds_state::recovery::LastEdit;
use ds_store_journal::edit::AnsweredEdit;
use std::alloc::{AllocError, Global};
use std::sync::Wait;
use std::time::Clock;

/// What one session sees of a shared sheet with a store: what it sees of the sheet, and a notebook, which has the keeper of the store
/// and what the session has to do with it.
#[derive(Drop)]
pub struct StoredDesk<'a, R: Wait + Clock> {
    shared: SharedDesk<'a, R>,
    notebook: Notebook<'a>,
}

impl<'a, R: Wait + Clock> StoredDesk<'a, R> {
    /// Over this desk of the sheet, before the keeper has heard of an edit.
    pub fn new(shared: SharedDesk<'a, R>, keeping: &'a Keeping) -> StoredDesk<'a, R> {
        StoredDesk {
            shared,
            notebook: Notebook::new(keeping),
        }
    }
}

// The keeper hears of an edit that is done, and it is listed by the number by which clients know it, with a copy of its text.
#[tactic(auto, using(crate::proofs::Hears::hears_one))]
fn hear(
    backlog: &mut Backlog,
    notebook: &mut Notebook<'_>,
    numberings: &[Numbering],
    edit: AnsweredEdit,
    copy: Vec<u8>,
)
    requires { copy.items ≡ edit.text }
    ensures noted { notebook.new.heard.items ≡ notebook.old.heard.items ++ (number_seen numberings.now edit.process edit.number, edit) ∷ [] }
    ensures notes { (notebook.new.seen ≡ notebook.old.seen) × (notebook.new.keyed ≡ notebook.old.keyed) }
    ensures hears { HearsNoted backlog.old notebook.old.heard.items backlog.new notebook.new.heard.items }
    ensures keys { HearsNoKey backlog.old backlog.new }
{
    let known = number_seen(numberings, edit.process, edit.number);
    backlog.hear(notebook, edit, known, copy);
}

// An edit by the seat, which nobody else's overlaps, with room for the keeper to hear of it and for the list, by this text and a
// copy of it.
#[tactic(auto, using(crate::proofs::Hears::hears_none, crate::proofs::Hears::hears_after))]
fn edited_alone(
    alloc: Global,
    backlog: &mut Backlog,
    notebook: &mut Notebook<'_>,
    numberings: &[Numbering],
    seat: &mut Seat,
    cell: Cell,
    text: Vec<u8>,
    copy: Vec<u8>,
) -> Result<EditEnd, CallRefusal>
    requires { copy.items ≡ text.items }
    ensures set { StoredSet notebook.old.heard.items cell text.items notebook.new.heard.items (seen_by numberings.now seat.old.pass.process (set_view result)) seat.old (set_view result) seat.new }
    ensures notes { (notebook.new.seen ≡ notebook.old.seen) × (notebook.new.keyed ≡ notebook.old.keyed) }
    ensures hears { HearsNoted backlog.old notebook.old.heard.items backlog.new notebook.new.heard.items }
    ensures keys { HearsNoKey backlog.old backlog.new }
{
    if backlog.make_room().is_err() {
        return Err(CallRefusal::NoMemory);
    }
    let process = seat.process();
    match edited(alloc, seat, cell, text.as_slice()) {
        Ok(EditEnd::Done(number)) => {
            let edit = AnsweredEdit {
                process,
                number,
                cell,
                text,
            };
            hear(backlog, notebook, numberings, edit, copy);
            Ok(EditEnd::Done(number))
        }
        other => other,
    }
}

// The same, answered by the numbers that clients know.
fn edited_seen(
    alloc: Global,
    backlog: &mut Backlog,
    notebook: &mut Notebook<'_>,
    numbered: &mut NumberedSeat,
    cell: Cell,
    text: Vec<u8>,
    copy: Vec<u8>,
) -> Result<EditEnd, CallRefusal>
    requires { copy.items ≡ text.items }
    ensures uses { Uses (StoredSet notebook.old.heard.items cell text.items notebook.new.heard.items (set_view result)) numbered.old (set_view result) numbered.new }
    ensures process { numbered.new.seat.pass.process ≡ numbered.old.seat.pass.process }
    ensures notes { (notebook.new.seen ≡ notebook.old.seen) × (notebook.new.keyed ≡ notebook.old.keyed) }
    ensures hears { HearsNoted backlog.old notebook.old.heard.items backlog.new notebook.new.heard.items }
    ensures keys { HearsNoKey backlog.old backlog.new }
{
    let end = edited_alone(
        alloc,
        backlog,
        notebook,
        &numbered.numberings,
        &mut numbered.seat,
        cell,
        text,
        copy,
    );
    numbered.set_seen(end)
}

// Two copies of a text: that which is kept, and that which is listed.
fn copies(alloc: Global, text: &[u8]) -> Result<(Vec<u8>, Vec<u8>), AllocError>
    ensures { IfOk result (λ copies. (copies.0.items ≡ text.now) × (copies.1.items ≡ text.now)) }
{
    let kept = Vec::from_slice(alloc, text)?;
    let listed = Vec::from_slice(alloc, text)?;
    Ok((kept, listed))
}

/// The same of this text, where there is room for copies of it.
pub(crate) fn edited_as(
    alloc: Global,
    backlog: &mut Backlog,
    notebook: &mut Notebook<'_>,
    numbered: &mut NumberedSeat,
    cell: Cell,
    text: &[u8],
) -> Result<EditEnd, CallRefusal>
    ensures uses { Uses (StoredSet notebook.old.heard.items cell text.now notebook.new.heard.items (set_view result)) numbered.old (set_view result) numbered.new }
    ensures process { numbered.new.seat.pass.process ≡ numbered.old.seat.pass.process }
    ensures notes { (notebook.new.seen ≡ notebook.old.seen) × (notebook.new.keyed ≡ notebook.old.keyed) }
    ensures hears { HearsNoted backlog.old notebook.old.heard.items backlog.new notebook.new.heard.items }
    ensures keys { HearsNoKey backlog.old backlog.new }
{
    match copies(alloc, text) {
        Ok((kept, listed)) => edited_seen(alloc, backlog, notebook, numbered, cell, kept, listed),
        Err(_) => Err(CallRefusal::NoMemory),
    }
}

// A whole edit by the seat, in the newest sheet, which nobody else's overlaps; the keeper of the store hears of it before the
// next one begins, if it is done. Where memory is short for that, nothing is done.
fn seat_edit<R: Wait>(
    rt: &R,
    alloc: Global,
    pool: &SeatPool,
    notebook: &mut Notebook<'_>,
    numbered: &mut NumberedSeat,
    cell: Cell,
    text: &[u8],
) -> Result<EditEnd, CallRefusal>
    ensures uses { Uses (StoredSet notebook.old.heard.items cell text.now notebook.new.heard.items (set_view result)) numbered.old (set_view result) numbered.new }
    ensures process { numbered.new.seat.pass.process ≡ numbered.old.seat.pass.process }
    ensures notes { (notebook.new.seen ≡ notebook.old.seen) × (notebook.new.keyed ≡ notebook.old.keyed) }
{
    let mut backlog = notebook.take_turn(rt);
    pool.catch_up(rt, numbered);
    let end = edited_as(alloc, &mut backlog, notebook, numbered, cell, text);
    notebook.wake();
    end
}

// The text that the cell had before its last edit in the list.
fn text_before(alloc: Global, list: &EditList, cell: Cell) -> Result<Vec<u8>, CallRefusal>
    ensures { SaysBefore cell list.now result }
{
    match list.text_before(alloc, cell) {
        Ok(Some(text)) => Ok(text),
        Ok(None) => Err(CallRefusal::NoEdit),
        Err(_) => Err(CallRefusal::NoMemory),
    }
}

// An edit to the text that the cell had before its last edit, and that text.
fn seat_undo<R: Wait>(
    rt: &R,
    alloc: Global,
    pool: &SeatPool,
    notebook: &mut Notebook<'_>,
    numbered: &mut NumberedSeat,
    cell: Cell,
) -> (Result<EditEnd, CallRefusal>, Vec<u8>)
    ensures undone { HasUndone cell numbered.old (notes_in notebook.old) (set_view result.0) numbered.new (notes_in notebook.new) }
    ensures process { numbered.new.seat.pass.process ≡ numbered.old.seat.pass.process }
{
    let mut backlog = notebook.take_turn(rt);
    let text = match text_before(alloc, backlog.show(notebook), cell) {
        Ok(text) => text,
        Err(why) => return (Err(why), Vec::new(alloc)),
    };
    pool.catch_up(rt, numbered);
    let end = edited_as(
        alloc,
        &mut backlog,
        notebook,
        numbered,
        cell,
        text.as_slice(),
    );
    notebook.wake();
    (end, text)
}

// A part of this list.
fn part_of(alloc: Global, list: &EditList, from: usize, most: usize) -> Result<History, CallRefusal>
    ensures { SaysPart from most list.now result }
{
    match list.part(alloc, from, most) {
        Ok(history) => Ok(history),
        Err(_) => Err(CallRefusal::NoMemory),
    }
}

// A part of the list of the edits that count, while nobody edits.
fn listed_part<R: Wait>(
    rt: &R,
    alloc: Global,
    notebook: &mut Notebook<'_>,
    from: usize,
    most: usize,
) -> Result<History, CallRefusal>
    ensures listed { HasListed from most notebook.old.seen.items result notebook.new.seen.items }
    ensures notes { (notebook.new.heard ≡ notebook.old.heard) × (notebook.new.keyed ≡ notebook.old.keyed) }
{
    let backlog = notebook.take_turn(rt);
    part_of(alloc, backlog.show(notebook), from, most)
}

/// As the shared sheet's desk; and the keeper of the store hears of each edit that is answered Done, of no other, and in
/// the order in which they count.
impl<'a, R: Wait + Clock> Desk for StoredDesk<'a, R> {
    ghost use Rattle.ds_net_desks.specs.DeskSeats.{IsSeatedAt};
    ghost use Rattle.ds_net_desks.specs.PoolSizes.{count_of};
    ghost use Rattle.std.specs.Prelude.{option_map};
    ghost use Rattle.ds_net_desks.specs.StoredDesks.{StoredDeals, notes_in};

    ghost rules = { record {
      shape = λ d. d.shared.shape;
      processes = λ d. count_of d.shared.pool.now;
      token = λ d. option_map (λ t. t.now) d.shared.token;
      sits = λ d p. IsSeatedAt d.shared.numbered p;
      does = λ old call said new. StoredDeals old.shared.shape old.shared.numbered (notes_in old.notebook) call said new.shared.numbered (notes_in new.notebook);
    } };

    fn shape(&self) -> Shape {
        self.shared.shape()
    }

    fn processes(&self) -> usize {
        self.shared.processes()
    }

    fn token(&self) -> Option<&[u8]> {
        self.shared.token()
    }

    fn join(&mut self, alloc: Global, process: usize) -> Result<Option<LastEdit>, CallRefusal> {
        self.shared.join(alloc, process)
    }

    fn join_any(&mut self, alloc: Global) -> Result<(usize, Option<LastEdit>), CallRefusal> {
        self.shared.join_any(alloc)
    }

    fn set(
        &mut self,
        alloc: Global,
        _process: usize,
        cell: Cell,
        text: &[u8],
    ) -> Result<EditEnd, CallRefusal> {
        let (rt, pool) = (self.shared.rt, self.shared.pool);
        let Some(numbered) = &mut self.shared.numbered else {
            return Err(CallRefusal::ProcessTaken);
        };
        let end = seat_edit(rt, alloc, pool, &mut self.notebook, numbered, cell, text);
        self.shared.noted(alloc, cell, text, &end);
        end
    }

    fn set_once(
        &mut self,
        alloc: Global,
        _process: usize,
        cell: Cell,
        text: &[u8],
        key: &[u8],
    ) -> Result<EditEnd, CallRefusal> {
        let (rt, pool) = (self.shared.rt, self.shared.pool);
        let Some(numbered) = &mut self.shared.numbered else {
            return Err(CallRefusal::ProcessTaken);
        };
        let once = seat_edit_once(
            rt,
            alloc,
            pool,
            &mut self.notebook,
            numbered,
            cell,
            text,
            key,
        );
        if let Once::Made(end) = &once {
            self.shared.noted(alloc, cell, text, end);
        }
        once.end()
    }

    fn undo(&mut self, alloc: Global, _process: usize, cell: Cell) -> Result<EditEnd, CallRefusal> {
        let (rt, pool) = (self.shared.rt, self.shared.pool);
        let Some(numbered) = &mut self.shared.numbered else {
            return Err(CallRefusal::ProcessTaken);
        };
        let (end, text) = seat_undo(rt, alloc, pool, &mut self.notebook, numbered, cell);
        self.shared.noted(alloc, cell, text.as_slice(), &end);
        end
    }

    fn report(&mut self, alloc: Global, process: usize) -> Result<Reported, CallRefusal> {
        self.shared.report(alloc, process)
    }

    fn view(&mut self, alloc: Global, _joined: Option<usize>) -> Result<Reported, CallRefusal> {
        let end = match self.shared.viewed(alloc) {
            Ok(end) => end,
            Err(none) => computed_values(
                self.shared.rt,
                alloc,
                self.shared.shape,
                &mut self.notebook,
                &none,
            ),
        };
        self.shared.counted(&end);
        end
    }

    fn get(
        &mut self,
        alloc: Global,
        _joined: Option<usize>,
        cell: Cell,
    ) -> Result<Got, CallRefusal> {
        self.shared.got(alloc, &mut self.notebook, cell)
    }

    fn history(&mut self, alloc: Global, from: usize, most: usize) -> Result<History, CallRefusal> {
        listed_part(self.shared.rt, alloc, &mut self.notebook, from, most)
    }

    fn resolve(&mut self, alloc: Global, key: &[u8]) -> Result<Option<ListedEdit>, CallRefusal> {
        resolved(self.shared.rt, alloc, &mut self.notebook, key)
    }

    fn last(&mut self, alloc: Global, process: usize) -> Result<Option<LastEdit>, CallRefusal> {
        self.shared.last(alloc, process)
    }

    fn leave(&mut self, process: usize) {
        self.shared.leave(process);
    }
}
