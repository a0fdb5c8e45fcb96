//! The settle of a sheet that threads share.

ghost use Rattle.std.specs.Prelude.{◌≡◌, IfErr};
ghost use Rattle.std.specs.Result.{IsOkAnd};
ghost use Rattle.ds_net_desks.specs.SharedDesks.{BreaksOff, FitsCause, HasWorked, sheet_of};
ghost use Rattle.ds_shared_seats.specs.Sheets.{IsSeatOf};

use ds_net_floor::visit::Visit;
use ds_order::course::Course;
use ds_order::sweep::{Outcome, Sweep};
use ds_server::desk::CallRefusal;
use ds_shared::ended::Ended;
use ds_shared_seats::fault::Fault;
use ds_shared_seats::seat::Seat;
use ds_state::work::WorkEnd;
use std::alloc::Global;
use std::sync::Wait;
use std::thread;
use std::time::{Clock, Duration};

/// How many rounds more there may be, beyond what a settle that is alone needs, where others hold the marks, and how long
/// it rests after a round that found only such marks, in milliseconds.
pub const PATIENCE: usize = 250;

pub const REST: u64 = 1;

/// What a round or a sweep over the cells has found.
#[derive(Clone, Copy, Debug, PartialEq, Eq)]
pub enum Round {
    // No marked cell.
    Clean,
    // Marked cells, each of which another process holds.
    Held,
    // Marked cells, and work was done on one.
    Worked,
}

/// How many steps a call of a session may take: as many as are counted.
pub const STEPS_MOST: u64 = u64::MAX;

// What a round has found with this work, which may end the settle: an error is why. A cell that the sheet has not wants no
// work.
fn with_work(round: Round, worked: Result<Ended<WorkEnd>, Fault>) -> Result<Round, CallRefusal>
    ensures { IfErr result (λ why. IsOkAnd worked (λ how. FitsCause how why)) }
{
    match worked {
        Ok(Ended::Answered(WorkEnd::NotDirty)) | Err(_) => Ok(round),
        Ok(Ended::Answered(WorkEnd::Missed)) if round != Round::Worked => Ok(Round::Held),
        Ok(Ended::Answered(WorkEnd::NoMemory)) => Err(CallRefusal::NoMemory),
        Ok(Ended::Answered(_)) => Ok(Round::Worked),
        Ok(Ended::Refused(why)) => Err(CallRefusal::from(why)),
        Ok(Ended::Stopped) => Err(CallRefusal::Stopped),
    }
}

// What a sweep hears of this work.
fn outcome_of(worked: &Result<Ended<WorkEnd>, Fault>) -> Outcome {
    match worked {
        Ok(Ended::Answered(WorkEnd::Published(true) | WorkEnd::Again)) => Outcome::Changed,
        Ok(Ended::Answered(WorkEnd::Published(false) | WorkEnd::Worn)) => Outcome::Unchanged,
        Ok(Ended::Answered(WorkEnd::Missed)) => Outcome::Held,
        _ => Outcome::Clean,
    }
}

// Whether the session is over: then nobody waits for what it works on.
fn is_over(visit: Option<&Visit<'_>>) -> bool {
    visit.is_some_and(|visit| visit.is_over())
}

/// One round over the cells in this order, with work on each, until the session of the visit, if it is one's, is over. An
/// error is why a work was refused or stopped, or that an allocation failed in one.
pub fn shared_round(
    alloc: Global,
    seat: &mut Seat,
    course: &Course,
    visit: Option<&Visit<'_>>,
) -> Result<Round, CallRefusal>
    ensures works { HasWorked (sheet_of seat.old) seat.old seat.new }
    ensures err { IfErr result (BreaksOff (sheet_of seat.old) seat.old seat.new) }
{
    let shape = seat.layout().shape;
    let mut round = Round::Clean;
    for place in 0..shape.count() {
        if is_over(visit) {
            break;
        }
        let index = course.cell(place, shape.count());
        round = with_work(round, seat.work(alloc, shape.cell(index), STEPS_MOST))?;
    }
    Ok(round)
}

// A sweep for a session, or a short one for a worker.
fn sweep_of<'a>(
    course: &'a Course,
    cells: usize,
    from: usize,
    visit: Option<&Visit<'_>>,
) -> Sweep<'a>
    ensures { result.cells ≡ cells }
{
    match visit {
        Some(_) => Sweep::new(course, cells, from),
        None => Sweep::short(course, cells, from),
    }
}

/// One sweep over the cells, round from this place of the order, with work on each that it says, until the session of the
/// visit, if it is one's, is over; without one it ends after four works a cell. An error is why a work was refused or stopped,
/// or that an allocation failed in one.
pub fn shared_sweep(
    alloc: Global,
    seat: &mut Seat,
    course: &Course,
    from: usize,
    visit: Option<&Visit<'_>>,
) -> Result<Round, CallRefusal>
    ensures works { HasWorked (sheet_of seat.old) seat.old seat.new }
    ensures err { IfErr result (BreaksOff (sheet_of seat.old) seat.old seat.new) }
{
    let shape = seat.layout().shape;
    let mut round = Round::Clean;
    let mut sweep = sweep_of(course, shape.count(), from, visit);
    while let Some(index) = sweep.cell() {
        if is_over(visit) {
            break;
        }
        let worked = seat.work(alloc, shape.cell(index), STEPS_MOST);
        sweep.note(outcome_of(&worked));
        round = with_work(round, worked)?;
    }
    Ok(round)
}

/// Works on the cells: in a sweep, and then in at most N + 252 rounds in this order over the N cells, until one finds none that
/// is marked, or the session is over. After one that found only marks that others hold it rests for a millisecond. An error is
/// why a work was refused or stopped, or that an allocation failed in one.
// After one small edit a sweep and a round look at each cell. A round that finds none takes about a tenth of the time of the
// report, so the sweep looks at all cells, and not only at those that depend on edits.
pub fn shared_settle<R: Wait + Clock>(
    rt: &R,
    alloc: Global,
    seat: &mut Seat,
    course: &Course,
    visit: &Visit<'_>,
) -> Result<(), CallRefusal>
    ensures works { HasWorked (sheet_of seat.old) seat.old seat.new }
    ensures err { IfErr result (BreaksOff (sheet_of seat.old) seat.old seat.new) }
{
    let rounds = seat.layout().cells() + 2 + PATIENCE;
    let mut found = shared_sweep(alloc, seat, course, 0, Some(visit))?;
    for _ in 0..rounds {
        match found {
            Round::Clean => break,
            Round::Held => thread::sleep(rt, Duration::from_millis(REST)),
            Round::Worked => {}
        }
        found = shared_round(alloc, seat, course, Some(visit))?;
    }
    Ok(())
}
