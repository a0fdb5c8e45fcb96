//! A shortest way to a position, and its replay.

ghost use Rattle.std.specs.Prelude.{IfOk};
ghost use Rattle.pm_explore.specs.Closed.{Replays};

use crate::explored::Explored;
use crate::happen::{Came, happen};
use crate::position::Position;
use crate::setting::{Move, Setting};
use crate::start::start_of;
use crate::table::Table;
use std::alloc::{AllocError, Global};

/// What happens on the way on which a search first came to the position with this number: no shorter one leads there. An
/// error means that an allocation failed.
pub fn way_to<D, T>(
    alloc: Global,
    table: &Table<D, T>,
    number: usize,
) -> Result<Vec<Move>, AllocError> {
    let mut way = Vec::new(alloc);
    let mut at = number;
    for _ in 0..table.ways.len() {
        if at == 0 || at >= table.ways.len() {
            break;
        }
        let last = table.ways[at];
        way.push(last.by)?;
        at = last.from;
    }
    way.reverse();
    Ok(way)
}

/// Takes a schedule from the start, each thing in its turn, and answers with the position that it leads to; each run of the
/// structure by this schedule ends at a point that this position shows. None where one of it leads nowhere. An error means
/// that an allocation failed.
pub fn replay<P: Explored>(
    alloc: Global,
    setting: &Setting<P::Key, P::Doing>,
    schedule: &[Move],
) -> Result<Came<P::Doing, P::Response>, AllocError>
    ensures { IfOk result (Replays P.structure setting.now schedule.now) }
{
    let mut at = match start_of::<P>(alloc, setting)? {
        Came::To(start) => start,
        Came::Outside(number) => return Ok(Came::Outside(number)),
        Came::Stays => return Ok(Came::Stays),
        Came::NoSeat => return Ok(Came::NoSeat),
    };
    for i in 0..schedule.len() {
        let came = happen::<P>(setting, &at, schedule[i])?;
        match came {
            Came::To(next) => at = next,
            Came::Outside(number) => return Ok(Came::Outside(number)),
            Came::Stays => return Ok(Came::Stays),
            Came::NoSeat => return Ok(Came::NoSeat),
        }
    }
    Ok(Came::To(at))
}
