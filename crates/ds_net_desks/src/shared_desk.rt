//! A desk that is a sheet which threads share, with no lock.

ghost use Rattle.std.specs.Prelude.{◌≡◌, IfErr, IfOk, ℕ};
ghost use Rattle.ds_formula.specs.Cells.{IsInside};
ghost use Rattle.ds_shared_seats.specs.Sheets.{IsSeatOf};
ghost use Rattle.ds_server.specs.Replies.{got_view, last_view, set_view, report_view};
ghost use Rattle.ds_net_desks.specs.SharedDesks.{HasSet, HasReported, HasRecovered, set_said, last_said, report_said, sheet_of};
ghost use Rattle.ds_net_desks.specs.CellQuestions.{HasAsked};
ghost use Rattle.ds_net_desks.specs.DeskSeats.{HasNoSeat, HasTaken, HasViewed, IsSeatedAt, Uses};
ghost use Rattle.ds_net_desks.specs.PoolSizes.{NoneIsFree};

use crate::cell_question::CellQuestion;
use crate::computed::computed_cell;
use crate::numbered_seat::NumberedSeat;
use crate::seat_pool::{NoneFree, SeatPool};
use crate::shared_settle::{STEPS_MOST, shared_settle};
use ds_formula::cells::{Cell, Shape};
use ds_net_floor::notebook::Notebook;
use ds_net_floor::visit::Visit;
use ds_order::course::Course;
use ds_order::known::KnownReferences;
use ds_server::desk::{CallRefusal, Desk, Got, History, ListedEdit, Reported};
use ds_shared::ended::Ended;
use ds_shared_seats::seat::Seat;
use ds_state::answer::EditEnd;
use ds_state::recovery::{LastEdit, RecoveryEnd};
use ds_state::show::ShowEnd;
use std::alloc::Global;
use std::sync::Wait;
use std::time::Clock;

/// What one session sees of a sheet that threads share: the pool of its seats, and the seat of the process that the session
/// has joined.
#[derive(Drop)]
pub struct SharedDesk<'a, R: Wait + Clock> {
    pub rt: &'a R,
    pub shape: Shape,
    pub pool: &'a SeatPool,
    pub joins: usize,
    pub token: Option<&'a [u8]>,
    visit: &'a Visit<'a>,
    references: &'a KnownReferences,
    course: Course,
    pub numbered: Option<NumberedSeat>,
}

impl<'a, R: Wait + Clock> SharedDesk<'a, R> {
    /// Before a process is joined. The first processes, this number of them, may be joined, with this token, if there is one.
    /// The visit notes which process is
    /// joined, and counts what the calls come to. The references are those of the texts that were set; reports go by them.
    pub fn new(
        rt: &'a R,
        alloc: Global,
        shape: Shape,
        pool: &'a SeatPool,
        joins: usize,
        token: Option<&'a [u8]>,
        visit: &'a Visit<'a>,
        references: &'a KnownReferences,
    ) -> SharedDesk<'a, R> {
        SharedDesk {
            rt,
            shape,
            pool,
            joins,
            token,
            visit,
            references,
            course: Course::new(alloc),
            numbered: None,
        }
    }
}

impl<'a, R: Wait + Clock> SharedDesk<'a, R> {
    /// Counts an edit that has ended so, and notes the references of a text that was set.
    pub fn noted(
        &self,
        alloc: Global,
        cell: Cell,
        text: &[u8],
        end: &Result<EditEnd, CallRefusal>,
    ) {
        if let Ok(EditEnd::Done(_)) = end {
            self.references.note(alloc, cell, text);
        }
        self.visit.counts_set(end);
    }
}

impl<'a, R: Wait + Clock> SharedDesk<'a, R> {
    // The session takes this seat. What the last edit of its process was, as its recovery reports it.
    fn take_seat(
        &mut self,
        alloc: Global,
        mut numbered: NumberedSeat,
    ) -> Result<Option<LastEdit>, CallRefusal>
        ensures taken { HasTaken numbered (last_view result) self.new.numbered }
        ensures rest { (self.new.shape ≡ self.old.shape) × (self.new.pool ≡ self.old.pool) × (self.new.token ≡ self.old.token) }
    {
        match recovered(alloc, &mut numbered.seat) {
            Ok(last) => {
                let seen = numbered.last_seen(last);
                self.visit.joins(numbered.process());
                self.numbered = Some(numbered);
                Ok(seen)
            }
            Err(why) => {
                self.pool.put_back(self.rt, numbered);
                Err(why)
            }
        }
    }

    /// A report by the seat of the process that the session has joined, else by any that nobody has. An error is that there is
    /// none, and nothing is done.
    pub fn viewed(&mut self, alloc: Global) -> Result<Result<Reported, CallRefusal>, NoneFree>
        ensures viewed { IfOk result (λ end. HasViewed self.old.numbered (report_view end) self.new.numbered) }
        ensures none { IfErr result (λ none. HasNoSeat self.old.numbered self.new.numbered × NoneIsFree self.old.pool.now self.old.joins none) }
        ensures process { (process : ℕ) → IsSeatedAt self.old.numbered process → IsSeatedAt self.new.numbered process }
        ensures rest { (self.new.shape ≡ self.old.shape) × (self.new.pool ≡ self.old.pool) × (self.new.token ≡ self.old.token) }
    {
        self.course.renew(alloc, self.references);
        let (rt, pool, visit) = (self.rt, self.pool, self.visit);
        if let Some(numbered) = &mut self.numbered {
            return Ok(seat_report(rt, alloc, pool, numbered, &self.course, visit));
        }
        let mut numbered = match pool.take_any(rt, self.joins) {
            Ok(numbered) => numbered,
            Err(none) => return Err(none),
        };
        let end = seat_report(rt, alloc, pool, &mut numbered, &self.course, visit);
        pool.put_back(rt, numbered);
        Ok(end)
    }

    /// Counts what a report has come to.
    pub fn counted(&self, end: &Result<Reported, CallRefusal>) {
        self.visit.counts_report(end);
    }

    /// What a cell is, and its last edit that counts, of a sheet whose edits are listed: by the seat of the process that the
    /// session has joined, else by any that nobody has, else from scratch.
    pub fn got(
        &mut self,
        alloc: Global,
        notebook: &mut Notebook<'_>,
        cell: Cell,
    ) -> Result<Got, CallRefusal>
        requires { IsInside self.old.shape cell }
        ensures asked { HasAsked self.old.shape cell self.old.numbered notebook.old.seen.items (got_view cell result) self.new.numbered notebook.new.seen.items }
        ensures notes { (notebook.new.heard ≡ notebook.old.heard) × (notebook.new.keyed ≡ notebook.old.keyed) }
        ensures process { (process : ℕ) → IsSeatedAt self.old.numbered process → IsSeatedAt self.new.numbered process }
        ensures rest { (self.new.shape ≡ self.old.shape) × (self.new.pool ≡ self.old.pool) × (self.new.token ≡ self.old.token) }
    {
        self.course.renew(alloc, self.references);
        let (rt, pool, joins) = (self.rt, self.pool, self.joins);
        let question = CellQuestion {
            rt,
            pool,
            course: &self.course,
            visit: self.visit,
            cell,
            number: self.shape.index(cell),
        };
        if let Some(numbered) = &mut self.numbered {
            return question.answer(alloc, notebook, numbered);
        }
        let mut numbered = match pool.take_any(rt, joins) {
            Ok(numbered) => numbered,
            Err(none) => return computed_cell(rt, alloc, self.shape, notebook, cell, &none),
        };
        let got = question.answer(alloc, notebook, &mut numbered);
        pool.put_back(rt, numbered);
        got
    }
}

// What a recovery reports. It is stopped only after more steps than it can take.
fn last_of(ended: Ended<RecoveryEnd>) -> Result<Option<LastEdit>, CallRefusal>
    ensures { last_view result ≡ last_said ended }
{
    match ended {
        Ended::Answered(RecoveryEnd::Last(resolved)) => Ok(Some(resolved)),
        Ended::Answered(RecoveryEnd::Nothing) => Ok(None),
        Ended::Refused(why) => Err(CallRefusal::from(why)),
        Ended::Stopped => Err(CallRefusal::Stopped),
    }
}

// How an edit ended, or why it has not begun.
fn ended(ended: Ended<EditEnd>) -> Result<EditEnd, CallRefusal>
    ensures { set_view result ≡ set_said ended }
{
    match ended {
        Ended::Answered(end) => Ok(end),
        Ended::Refused(why) => Err(CallRefusal::from(why)),
        Ended::Stopped => Err(CallRefusal::Stopped),
    }
}

/// A whole edit. A cell that the seat's sheet has not is another sheet's, as its process is.
pub fn edited(
    alloc: Global,
    seat: &mut Seat,
    cell: Cell,
    text: &[u8],
) -> Result<EditEnd, CallRefusal>
    ensures { HasSet seat.old cell text.now (set_view result) seat.new }
{
    match seat.edit(alloc, cell, text, STEPS_MOST) {
        Ok(how) => ended(how),
        Err(_) => Err(CallRefusal::ProcessTaken),
    }
}

// How a report ended; where it is settled, the seat gives away the values that it has kept of it.
fn reported_as(
    alloc: Global,
    ended: Ended<ShowEnd>,
    seat: &mut Seat,
) -> Result<Reported, CallRefusal>
    ensures said { report_view result ≡ report_said ended seat.old.last.items }
    ensures seat { IsSeatOf (sheet_of seat.old) seat.new × (seat.new.pass ≡ seat.old.pass) }
{
    match ended {
        Ended::Answered(ShowEnd::Settled) => Ok(Reported::Settled(seat.take_values(alloc))),
        Ended::Answered(ShowEnd::Unsettled(place, word)) => { Ok(Reported::Unsettled(place, word)) }
        Ended::Refused(why) => Err(CallRefusal::from(why)),
        Ended::Stopped => Err(CallRefusal::Stopped),
    }
}

// A settle in this order, and a report.
fn reported<R: Wait + Clock>(
    rt: &R,
    alloc: Global,
    seat: &mut Seat,
    course: &Course,
    visit: &Visit<'_>,
) -> Result<Reported, CallRefusal>
    ensures { HasReported seat.old (report_view result) seat.new }
{
    shared_settle(rt, alloc, seat, course, visit)?;
    let how = seat.show(alloc, STEPS_MOST);
    reported_as(alloc, how, seat)
}

// A whole recovery, and what it tells.
fn recovered(alloc: Global, seat: &mut Seat) -> Result<Option<LastEdit>, CallRefusal>
    ensures { HasRecovered seat.old (last_view result) seat.new }
{
    last_of(seat.recover(alloc, STEPS_MOST))
}

// An edit by the seat, in the newest sheet.
fn seat_edit<R: Wait>(
    rt: &R,
    alloc: Global,
    pool: &SeatPool,
    numbered: &mut NumberedSeat,
    cell: Cell,
    text: &[u8],
) -> Result<EditEnd, CallRefusal>
    ensures uses { Uses (λ seat plain after. HasSet seat cell text.now plain after) numbered.old (set_view result) numbered.new }
    ensures process { numbered.new.seat.pass.process ≡ numbered.old.seat.pass.process }
{
    pool.catch_up(rt, numbered);
    let end = edited(alloc, &mut numbered.seat, cell, text);
    numbered.set_seen(end)
}

/// A report by the seat, of the newest sheet.
pub fn seat_report<R: Wait + Clock>(
    rt: &R,
    alloc: Global,
    pool: &SeatPool,
    numbered: &mut NumberedSeat,
    course: &Course,
    visit: &Visit<'_>,
) -> Result<Reported, CallRefusal>
    ensures uses { Uses HasReported numbered.old (report_view result) numbered.new }
    ensures process { numbered.new.seat.pass.process ≡ numbered.old.seat.pass.process }
{
    pool.catch_up(rt, numbered);
    reported(rt, alloc, &mut numbered.seat, course, visit)
}

// A recovery by the seat, in the newest sheet, and what it reports.
fn seat_last<R: Wait>(
    rt: &R,
    alloc: Global,
    pool: &SeatPool,
    numbered: &mut NumberedSeat,
) -> Result<Option<LastEdit>, CallRefusal>
    ensures uses { Uses HasRecovered numbered.old (last_view result) numbered.new }
    ensures process { numbered.new.seat.pass.process ≡ numbered.old.seat.pass.process }
{
    pool.catch_up(rt, numbered);
    match recovered(alloc, &mut numbered.seat) {
        Ok(last) => Ok(numbered.last_seen(last)),
        Err(why) => Err(why),
    }
}

/// A session over a shared sheet has the seat of the process that it has joined.
impl<'a, R: Wait + Clock> Desk for SharedDesk<'a, R> {
    ghost use Rattle.ds_net_desks.specs.DeskSeats.{SeatDeals};
    ghost use Rattle.ds_net_desks.specs.PoolSizes.{count_of};
    ghost use Rattle.std.specs.Prelude.{option_map};

    ghost rules = { record {
      shape = λ d. d.shape;
      processes = λ d. count_of d.pool.now;
      token = λ d. option_map (λ t. t.now) d.token;
      sits = λ d p. IsSeatedAt d.numbered p;
      does = λ old call said new. SeatDeals old.numbered call said new.numbered;
    } };

    fn shape(&self) -> Shape {
        self.shape
    }

    fn processes(&self) -> usize {
        self.pool.len()
    }

    fn token(&self) -> Option<&[u8]> {
        self.token
    }

    fn join(&mut self, alloc: Global, process: usize) -> Result<Option<LastEdit>, CallRefusal> {
        if self.numbered.is_some() || process >= self.joins {
            return Err(CallRefusal::ProcessTaken);
        }
        match self.pool.take(self.rt, process) {
            Ok(numbered) => self.take_seat(alloc, numbered),
            Err(_missed) => Err(CallRefusal::ProcessTaken),
        }
    }

    fn join_any(&mut self, alloc: Global) -> Result<(usize, Option<LastEdit>), CallRefusal> {
        if self.numbered.is_some() {
            return Err(CallRefusal::ProcessTaken);
        }
        let Ok(numbered) = self.pool.take_any(self.rt, self.joins) else {
            return Err(CallRefusal::ProcessTaken);
        };
        let process = numbered.process();
        match self.take_seat(alloc, numbered) {
            Ok(last) => Ok((process, last)),
            Err(why) => Err(why),
        }
    }

    fn set(
        &mut self,
        alloc: Global,
        _process: usize,
        cell: Cell,
        text: &[u8],
    ) -> Result<EditEnd, CallRefusal> {
        let (rt, pool) = (self.rt, self.pool);
        let Some(numbered) = &mut self.numbered else {
            return Err(CallRefusal::ProcessTaken);
        };
        let end = seat_edit(rt, alloc, pool, numbered, cell, text);
        self.noted(alloc, cell, text, &end);
        end
    }

    fn set_once(
        &mut self,
        _alloc: Global,
        _process: usize,
        _cell: Cell,
        _text: &[u8],
        _key: &[u8],
    ) -> Result<EditEnd, CallRefusal> {
        Err(CallRefusal::NoHistory)
    }

    fn undo(
        &mut self,
        _alloc: Global,
        _process: usize,
        _cell: Cell,
    ) -> Result<EditEnd, CallRefusal> {
        Err(CallRefusal::NoHistory)
    }

    fn report(&mut self, alloc: Global, _process: usize) -> Result<Reported, CallRefusal> {
        let (rt, pool, visit) = (self.rt, self.pool, self.visit);
        let Some(numbered) = &mut self.numbered else {
            return Err(CallRefusal::ProcessTaken);
        };
        self.course.renew(alloc, self.references);
        let end = seat_report(rt, alloc, pool, numbered, &self.course, visit);
        self.visit.counts_report(&end);
        end
    }

    fn view(&mut self, alloc: Global, _joined: Option<usize>) -> Result<Reported, CallRefusal> {
        let end = match self.viewed(alloc) {
            Ok(end) => end,
            Err(_none) => Err(CallRefusal::ProcessTaken),
        };
        self.counted(&end);
        end
    }

    fn get(
        &mut self,
        _alloc: Global,
        _joined: Option<usize>,
        _cell: Cell,
    ) -> Result<Got, CallRefusal> {
        Err(CallRefusal::NoHistory)
    }

    fn history(
        &mut self,
        _alloc: Global,
        _from: usize,
        _most: usize,
    ) -> Result<History, CallRefusal> {
        Err(CallRefusal::NoHistory)
    }

    fn resolve(&mut self, _alloc: Global, _key: &[u8]) -> Result<Option<ListedEdit>, CallRefusal> {
        Err(CallRefusal::NoHistory)
    }

    fn last(&mut self, alloc: Global, _process: usize) -> Result<Option<LastEdit>, CallRefusal> {
        let (rt, pool) = (self.rt, self.pool);
        let Some(numbered) = &mut self.numbered else {
            return Err(CallRefusal::ProcessTaken);
        };
        seat_last(rt, alloc, pool, numbered)
    }

    fn leave(&mut self, _process: usize) {
        if let Some(numbered) = self.numbered.take() {
            self.pool.put_back(self.rt, numbered);
        }
    }
}
