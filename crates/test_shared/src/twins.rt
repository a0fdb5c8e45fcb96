//! The same drawn calls, one after the other, on a world and on a shared sheet: they end alike, and leave the same words.

ghost use Rattle.ds_shared.specs.Answers.{Rests};
ghost use Rattle.std.specs.Prelude.{◌≡◌};

use crate::crowd::{Crowd, reopened};
use crate::draw::{Draw, DrawnCall};
use crate::rounds::crash;
use crate::single::Single;
use ds_layout::place::Place;
use ds_shared::ended::Ended;
use ds_shared::sheet::ClosedSheet;
use ds_state::answer::Answer;
use ds_state::shown::SheetReader;
use ds_words::words::Word;
use std::alloc::Global;
use std::test::Fail;

// How many sheets there are.
const SHEETS: u64 = 2;

// How often each is closed.
const ROUNDS: usize = 2;

// How many calls come before each close.
const CALLS: usize = 120;

/// Where the two are not the same.
#[derive(Clone, Copy, Debug, PartialEq, Eq)]
enum Difference {
    /// An allocation failed.
    NoMemory,
    /// A call of a process ended otherwise.
    Call {
        process: usize,
        call: DrawnCall,
        single: Option<Ended<Answer>>,
        shared: Option<Ended<Answer>>,
    },
    /// The values of a process's settled report are other ones.
    Values(usize),
    /// A word has other sides.
    Word {
        place: Place,
        single: Word,
        shared: Word,
    },
}

// A drawn call, on both.
fn call(
    alloc: Global,
    single: &mut Single,
    crowd: &mut Crowd,
    draw: &mut Draw,
) -> Result<(), Difference> {
    let process = draw.below(4);
    let call = draw.call(single.is_stopped(process));
    let limit = draw.limit();
    let one = single.call(alloc, process, call, limit);
    let (two, values) = crowd.call(alloc, process, call, limit);
    if one.is_none() || one != two {
        return Err(Difference::Call {
            process,
            call,
            single: one,
            shared: two,
        });
    }
    match values {
        Some(values) if !single.reported(process, &values) => Err(Difference::Values(process)),
        _ => Ok(()),
    }
}

// The word at a place has the same sides on both.
fn compare_word(single: &Single, closed: &ClosedSheet, place: Place) -> Result<(), Difference> {
    if !closed.layout().contains(place) {
        return Err(Difference::NoMemory);
    }
    let shared = Word {
        cached: closed.cached(place),
        persisted: closed.persisted(place),
    };
    match single.word(place) {
        Some(word) if word == shared => Ok(()),
        Some(single) => Err(Difference::Word {
            place,
            single,
            shared,
        }),
        None => Err(Difference::NoMemory),
    }
}

// Each word has the same value in both.
fn compare(single: &Single, closed: &ClosedSheet) -> Result<(), Difference> {
    let layout = closed.layout();
    for number in 0..layout.words() {
        compare_word(single, closed, layout.place(number))?;
    }
    Ok(())
}

// One crash on both, with the words compared before it and after it.
fn crash_both(
    alloc: Global,
    single: &mut Single,
    closed: &mut ClosedSheet,
    draw: &mut Draw,
) -> Result<(), Difference>
    requires { Rests closed.old }
    ensures { Rests closed.new }
{
    single.stop(alloc);
    compare(single, closed)?;
    let sides = draw
        .sides(alloc, single.layout().words())
        .map_err(|_| Difference::NoMemory)?;
    crash(closed, &sides);
    single.crash(alloc, &sides);
    compare(single, closed)
}

// Drawn calls on both, a close, a crash, and the shared sheet opened again.
fn round(
    alloc: Global,
    single: &mut Single,
    mut crowd: Crowd,
    draw: &mut Draw,
) -> Result<Crowd, Difference> {
    for _ in 0..CALLS {
        call(alloc, single, &mut crowd, draw)?;
    }
    let (mut closed, hands) = crowd.close(alloc).ok_or(Difference::NoMemory)?;
    match crash_both(alloc, single, &mut closed, draw) {
        Ok(()) => reopened(alloc, closed, hands).ok_or(Difference::NoMemory),
        Err(difference) => {
            closed.free();
            Err(difference)
        }
    }
}

// Rounds on both.
fn rounds(alloc: Global, seed: u64) -> Result<(), Difference> {
    let mut single = Single::new(alloc).ok_or(Difference::NoMemory)?;
    let mut crowd = Crowd::new(alloc, seed).ok_or(Difference::NoMemory)?;
    let mut draw = Draw::new(seed, 8);
    for _ in 0..ROUNDS {
        crowd = round(alloc, &mut single, crowd, &mut draw)?;
    }
    Ok(())
}

#[test]
fn calls_leave_the_same_words(rt: HostRuntime) -> Result<(), Fail> {
    for seed in 0..SHEETS {
        assert_eq!(rt; rounds(rt.alloc(), seed), Ok(()));
    }
    Ok(())
}
