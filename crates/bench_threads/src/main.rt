//! How long calls of threads take on a shared sheet, and on a sheet behind a lock: what bench/shared.sh measures.
#![tactic(auto)]

mod gate;
mod locked;
mod pace;
mod round;
mod shared;
mod tally;

use crate::pace::{Beneath, Pace, pace_of};
use crate::tally::PaceTally;
use std::alloc::{AllocError, Global};
use std::process::ExitCode;
use std::rt::Env;
use std::sync::Wait;
use std::thread::Threads;
use std::time::Clock;
use std::{env, io};

// What is asked for, where the words ask for something.
fn asked<R: Env + Alloc<A = Global>>(rt: &R) -> io::Result<Option<Pace>> {
    let words = env::args(rt)?.collect::<Vec<String>>(rt.alloc())?;
    Ok(pace_of(&words))
}

// What the threads that report have counted, and the others.
fn measure<R: Threads + Wait + Clock + Sync>(
    rt: &R,
    alloc: Global,
    pace: Pace,
) -> Result<(PaceTally, PaceTally), AllocError> {
    match pace.beneath {
        Beneath::Shared => shared::measure(rt, alloc, pace),
        Beneath::Locked => locked::measure(rt, alloc, pace),
    }
}

fn main(rt: HostRuntime) -> io::Result<ExitCode> {
    let Some(pace) = asked(&rt)? else {
        println!(rt;
            "usage: bench_threads shared|locked own|one|work|report number|two|range|sixteen|greatest THREADS SHEETS"
        )?;
        return Ok(ExitCode::SUCCESS);
    };
    let (reports, edits) = measure(&rt, rt.alloc(), pace)?;
    println!(rt;
        "reports {} {} {}",
        reports.calls,
        reports.nanoseconds(),
        reports.good
    )?;
    println!(rt;
        "edits {} {} {}",
        edits.calls,
        edits.nanoseconds(),
        edits.good
    )?;
    Ok(ExitCode::SUCCESS)
}
