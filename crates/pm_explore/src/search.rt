//! The search.

ghost use Rattle.std.specs.Prelude.{◌≡◌, IfOk, IsTrue};
ghost use Rattle.pm_explore.specs.Closed.{AreAll};
ghost use Rattle.pm_explore.specs.Starts.{Starts};
ghost use Rattle.pm_explore.specs.declared.happen.Came.TheVariants.{To};
ghost use Rattle.pm_explore.specs.declared.search.Ending.TheVariants as endings;

use crate::closure::is_closed;
use crate::explored::Explored;
use crate::happen::{Came, happen};
use crate::position::Position;
use crate::setting::{Move, Setting};
use crate::start::start_of;
use crate::table::{Table, Way, add, find};
use ds_words::access::Access;
use std::alloc::{AllocError, Global};

/// How a search ended.
#[derive(Clone, Copy, Debug, PartialEq, Eq)]
pub enum Ending {
    /// Every position was found, and it was checked that nothing leads out of them.
    Ended,
    /// There are more positions than the limit. Nothing is known of the others.
    Cut,
    /// An access goes to this word, which is not in the window, or a word of the window is not there. Nothing is known of
    /// what comes after it.
    Outside(usize),
    /// Something leads out of the positions. Nothing is known of what comes after it.
    Open,
}

/// What a search found.
#[derive(Drop)]
pub struct Exploration<D, T> {
    /// The positions, in the order in which they were found: none was found later than one with a longer way.
    pub table: Table<D, T>,
    /// How many times something that may happen led from one position to another, or to the same.
    pub transitions: u64,
    /// How it ended.
    pub ending: Ending,
}

// A number for an access.
fn code_of(access: Option<Access<usize>>) -> u64 {
    match access {
        None => 0,
        Some(Access::Nothing) => 1,
        Some(Access::Back) => 2,
        Some(Access::Load(number)) => (number as u64).wrapping_mul(8).wrapping_add(3),
        Some(Access::Store(number, _)) => (number as u64).wrapping_mul(8).wrapping_add(4),
        Some(Access::Or(number, _)) => (number as u64).wrapping_mul(8).wrapping_add(5),
        Some(Access::Flush(number)) => (number as u64).wrapping_mul(8).wrapping_add(6),
        Some(
            Access::SwapIf {
                place,
                expected: _,
                value: _,
            },
        ) => (place as u64).wrapping_mul(8).wrapping_add(7),
    }
}

// Numbers for what each process does, by its next access.
pub(crate) fn codes<P: Explored>(
    key: &P::Key,
    x: &Position<P::Doing, P::Response>,
) -> Result<Vec<u64>, AllocError> {
    let mut codes = Vec::with_capacity(*x.doing.allocator(), x.doing.len())?;
    for process in 0..x.doing.len() {
        codes.push(code_of(P::want(key, process, x.doing[process])))?;
    }
    Ok(codes)
}

// All that may happen at a position.
fn all_moves<P: Explored>(
    alloc: Global,
    setting: &Setting<P::Key, P::Doing>,
) -> Result<Vec<Move>, AllocError> {
    let mut moves = Vec::new(alloc);
    for number in 0..setting.calls.len() {
        moves.push(Move::Begin(number))?;
    }
    for process in 0..P::processes(&setting.key) {
        moves.push(Move::Step(process))?;
        moves.push(Move::Stop(process))?;
    }
    for number in &setting.window {
        moves.push(Move::Evict(*number))?;
    }
    moves.push(Move::Crash)?;
    Ok(moves)
}

// Takes what happens at a position into the table: how the search ends there, if it does.
fn spread<P: Explored>(
    alloc: Global,
    setting: &Setting<P::Key, P::Doing>,
    found: &mut Exploration<P::Doing, P::Response>,
    way: Way,
) -> Result<Option<Ending>, AllocError> {
    if way.from >= found.table.positions.len() {
        return Ok(Some(Ending::Open));
    }
    match happen::<P>(setting, &found.table.positions[way.from], way.by)? {
        Came::To(next) => {
            found.transitions = found.transitions.saturating_add(1);
            let codes = codes::<P>(&setting.key, &next)?;
            add::<P>(alloc, &mut found.table, next, &codes, way)?;
            Ok(None)
        }
        Came::Stays => Ok(None),
        Came::Outside(number) => Ok(Some(Ending::Outside(number))),
        Came::NoSeat => Ok(Some(Ending::Open)),
    }
}

// Takes all that may happen at a position into the table: how the search ends there, if it does.
fn spread_all<P: Explored>(
    alloc: Global,
    setting: &Setting<P::Key, P::Doing>,
    moves: &[Move],
    found: &mut Exploration<P::Doing, P::Response>,
    from: usize,
) -> Result<Option<Ending>, AllocError> {
    for by in moves {
        let way = Way { from, by: *by };
        if let Some(ending) = spread::<P>(alloc, setting, found, way)? {
            return Ok(Some(ending));
        }
    }
    Ok(None)
}

// Takes position after position, in the order in which they were found.
fn go_through<P: Explored>(
    alloc: Global,
    setting: &Setting<P::Key, P::Doing>,
    found: &mut Exploration<P::Doing, P::Response>,
    limit: usize,
) -> Result<Ending, AllocError> {
    let moves = all_moves::<P>(alloc, setting)?;
    for from in 0..limit {
        if from >= found.table.positions.len() {
            return Ok(Ending::Ended);
        }
        if let Some(ending) = spread_all::<P>(alloc, setting, &moves, found, from)? {
            return Ok(ending);
        }
    }
    Ok(Ending::Cut)
}

// Whether the search has ended: nothing leads out of the positions, and the start is one of them.
fn is_whole<P: Explored>(
    setting: &Setting<P::Key, P::Doing>,
    table: &Table<P::Doing, P::Response>,
    start: &Position<P::Doing, P::Response>,
) -> Result<bool, AllocError>
    requires { Starts P.structure setting.now (To start.now) }
    ensures { IfOk result (λ b. IsTrue b → AreAll P.structure setting.now table.now.positions.items) }
{
    let closed = is_closed::<P>(setting, table)?;
    if !closed {
        return Ok(false);
    }
    let codes = codes::<P>(&setting.key, start)?;
    Ok(find::<P>(table, start, &codes).is_some())
}

// What was found, with how the search ended: as one that has ended only if that is checked.
fn ended<P: Explored>(
    setting: &Setting<P::Key, P::Doing>,
    mut found: Exploration<P::Doing, P::Response>,
    start: &Position<P::Doing, P::Response>,
    ending: Ending,
) -> Result<Exploration<P::Doing, P::Response>, AllocError>
    requires { Starts P.structure setting.now (To start.now) }
    ensures { IfOk result (λ e. e.ending ≡ endings.Ended → AreAll P.structure setting.now e.table.positions.items) }
{
    found.ending = match ending {
        Ending::Ended => {
            let whole = is_whole::<P>(setting, &found.table, start)?;
            if whole { Ending::Ended } else { Ending::Open }
        }
        Ending::Cut => Ending::Cut,
        Ending::Outside(number) => Ending::Outside(number),
        Ending::Open => Ending::Open,
    };
    Ok(found)
}

// What was found before anything.
fn nothing<P: Explored>(alloc: Global, ending: Ending) -> Exploration<P::Doing, P::Response>
    ensures { result.ending ≡ ending }
{
    Exploration {
        table: Table::new(alloc),
        transitions: 0,
        ending,
    }
}

/// Goes through all positions, breadth first, but through no more than this many. An error means that an allocation failed.
pub fn explore<P: Explored>(
    alloc: Global,
    setting: &Setting<P::Key, P::Doing>,
    limit: usize,
) -> Result<Exploration<P::Doing, P::Response>, AllocError>
    ensures { IfOk result (λ e. e.ending ≡ endings.Ended → AreAll P.structure setting.now e.table.positions.items) }
{
    let start = match start_of::<P>(alloc, setting)? {
        Came::To(start) => start,
        Came::Outside(number) => return Ok(nothing::<P>(alloc, Ending::Outside(number))),
        Came::Stays => return Ok(nothing::<P>(alloc, Ending::Open)),
        Came::NoSeat => return Ok(nothing::<P>(alloc, Ending::Open)),
    };
    let mut found = nothing::<P>(alloc, Ending::Open);
    let first = Way {
        from: 0,
        by: Move::Crash,
    };
    let codes = codes::<P>(&setting.key, &start)?;
    add::<P>(alloc, &mut found.table, start.copy()?, &codes, first)?;
    let ending = go_through::<P>(alloc, setting, &mut found, limit)?;
    ended::<P>(setting, found, &start, ending)
}
