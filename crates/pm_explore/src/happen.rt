//! What may happen at a position, and where it leads.

ghost use Rattle.std.specs.Prelude.{◌≡◌, ◌<◌, IfOk, IsTrue, length};
ghost use Rattle.ds_words.specs.declared.access.Access.{Access};
ghost use Rattle.pm_explore.specs.Cells.{IsFlushedAs};
ghost use Rattle.pm_explore.specs.Positions.{Comes, IsTurn};
ghost use Rattle.pm_explore.specs.declared.setting.Move.TheVariants.{Begin, Step, Stop, Evict, Crash};

use crate::cells::Seen;
use crate::explored::Explored;
use crate::position::{self, Position};
use crate::setting::{Move, Setting, Turn};
use ds_words::access::{Access, Class};
use std::alloc::AllocError;

/// Where something that may happen leads.
#[derive(Drop)]
pub enum Came<D, T> {
    /// To this position.
    To(Position<D, T>),
    /// It cannot happen, or changes nothing.
    Stays,
    /// An access goes to this word, which is not in the window.
    Outside(usize),
    /// The position has too few processes.
    NoSeat,
}

// Whether a call's turn has come.
fn is_turn(turn: Turn, begun: usize) -> bool
    ensures { IsTurn turn begun → IsTrue result }
{
    match turn {
        Turn::Own(number) => begun == number,
        Turn::Any => true,
    }
}

// A planned call begins.
fn begins<P: Explored>(
    setting: &Setting<P::Key, P::Doing>,
    x: &Position<P::Doing, P::Response>,
    number: usize,
) -> Result<Came<P::Doing, P::Response>, AllocError>
    ensures { IfOk result (Comes P.structure setting.now x.now (Begin number)) }
{
    if number >= setting.calls.len() {
        return Ok(Came::Stays);
    }
    let planned = setting.calls[number];
    let process = planned.process;
    if process >= x.doing.len() || process >= x.begun.len() || x.begun[process] == usize::MAX {
        return Ok(Came::NoSeat);
    }
    if !is_turn(planned.turn, x.begun[process])
        || !P::may_begin(&setting.key, process, x.doing[process], planned.call)
    {
        return Ok(Came::Stays);
    }
    Ok(Came::To(x.begun_with(process, planned.call, planned.turn)?))
}

// The class of the word that an access flushes.
fn flush_class<P: Explored>(key: &P::Key, access: Access<usize>) -> Class
    ensures { IsFlushedAs (P.structure.class_in key.now) access result }
{
    match access {
        Access::Flush(number) => P::class(key, number),
        _ => Class::Stamped,
    }
}

// A process takes a step.
fn steps<P: Explored>(
    setting: &Setting<P::Key, P::Doing>,
    x: &Position<P::Doing, P::Response>,
    process: usize,
) -> Result<Came<P::Doing, P::Response>, AllocError>
    ensures { IfOk result (Comes P.structure setting.now x.now (Step process)) }
{
    if process >= x.doing.len() || process >= x.cells.buffers.len() {
        return Ok(Came::NoSeat);
    }
    let now = x.doing[process];
    let Some(access) = P::want(&setting.key, process, now) else {
        return Ok(Came::Stays);
    };
    let class = flush_class::<P>(&setting.key, access);
    let (seen, next) = x.performed(&setting.window, class, process, access)?;
    match seen {
        Seen::Answer(word) => {
            let landed = P::got(&setting.key, process, now, word);
            Ok(Came::To(position::landed::<P>(next, process, landed)?))
        }
        Seen::Never => Ok(Came::Stays),
        Seen::Outside(number) => Ok(Came::Outside(number)),
    }
}

// A process stops.
fn stops<P: Explored>(
    setting: &Setting<P::Key, P::Doing>,
    x: &Position<P::Doing, P::Response>,
    process: usize,
) -> Result<Came<P::Doing, P::Response>, AllocError>
    ensures { IfOk result (Comes P.structure setting.now x.now (Stop process)) }
{
    if !setting.stops {
        return Ok(Came::Stays);
    }
    if process >= x.doing.len() || process >= x.cells.buffers.len() {
        return Ok(Came::NoSeat);
    }
    Ok(Came::To(x.stopped_with(process, P::stopped())?))
}

// A word is evicted.
fn evicts<P: Explored>(
    setting: &Setting<P::Key, P::Doing>,
    x: &Position<P::Doing, P::Response>,
    number: usize,
) -> Result<Came<P::Doing, P::Response>, AllocError>
    ensures { IfOk result (Comes P.structure setting.now x.now (Evict number)) }
{
    if !setting.evicts || x.cells.is_clean(&setting.window, number) {
        return Ok(Came::Stays);
    }
    Ok(Came::To(x.evicted_with(&setting.window, number)?))
}

// All crashes.
fn crashes<P: Explored>(
    setting: &Setting<P::Key, P::Doing>,
    x: &Position<P::Doing, P::Response>,
) -> Result<Came<P::Doing, P::Response>, AllocError>
    ensures { IfOk result (Comes P.structure setting.now x.now Crash) }
{
    if !setting.crashes {
        return Ok(Came::Stays);
    }
    Ok(Came::To(x.crashed_with(P::stopped())?))
}

/// Where it leads that this happens. An error means that an allocation failed.
pub fn happen<P: Explored>(
    setting: &Setting<P::Key, P::Doing>,
    x: &Position<P::Doing, P::Response>,
    happens: Move,
) -> Result<Came<P::Doing, P::Response>, AllocError>
    ensures { IfOk result (Comes P.structure setting.now x.now happens) }
{
    match happens {
        Move::Begin(number) => begins::<P>(setting, x, number),
        Move::Step(process) => steps::<P>(setting, x, process),
        Move::Stop(process) => stops::<P>(setting, x, process),
        Move::Evict(number) => evicts::<P>(setting, x, number),
        Move::Crash => crashes::<P>(setting, x),
    }
}
