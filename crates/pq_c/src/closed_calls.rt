//! Crashes of a closed queue that is held.

ghost use Rattle.std.specs.Prelude.{ℕ, ◌≡◌, Result};
ghost use Rattle.pq_c.specs.declared.failure.Failure.{Failure};
ghost use Rattle.pq_c.specs.Closed.{CrashesClosed, TellsCrash};
ghost use Rattle.pq_c.specs.Shared.{OnClosed};

use crate::failure::Failure;
use crate::held::Held;
use c_handles::tell::Numbered;
use pq_seats::fault::Fault;
use std::alloc::Global;

/// A crash, before which the words were evicted that are chosen, and how many words there are: also where the choice is
/// too short.
pub fn crash_with(alloc: Global, held: &mut Held, choice: &[u8], words: &mut usize) -> u32
    ensures { (answered : Result (Unit {0}) Failure) × OnClosed (CrashesClosed choice.now words.old words.new) held.old answered held.new
        × TellsCrash words.old words.new answered result }
{
    let Held::Closed(closed) = held else {
        return Failure::WrongHolder.number();
    };
    let count = closed.words();
    match closed.crash_with(alloc, choice) {
        Ok(()) => {
            *words = count;
            0
        }
        Err(fault) => {
            if fault == Fault::ShortChoice {
                *words = count;
            }
            Failure::of(fault).number()
        }
    }
}
