//! `dsheet run --stops --brief`.

ghost use Rattle.std.specs.Prelude.{List, ℕ, OnOk};
ghost use Rattle.std.specs.Io.KnownBytes.{Appends};
ghost use Rattle.ds_script_io.specs.Streams.{writer_of};
ghost use Rattle.ds_stop_groups.specs.Groups.{IsGrouped};

use crate::closing::Closing;
use crate::faults::show_refusals;
use crate::progress::Progress;
use crate::run::{RunForm, print_refusals, read_script, stop_read};
use crate::source::{Source, open};
use crate::status::CLOSED;
use ds_sched::{ScriptEnd, StopRange, Writing};
use ds_stop_groups::groups::grouped;
use std::alloc::Global;
use std::fs::{File, Files};
use std::io::{self, BufWriter, Read, Write};

// Writes the blocks of stops, from this one on, in short. An error says that this failed, or that an allocation did; no
// text of such blocks has another one.
fn put_groups<W: Write>(
    alloc: Global,
    blocks: &[u8],
    start: u64,
    writer: &mut Writing<W>,
) -> Result<(), ScriptEnd>
    ensures { OnOk result ((lines : List ℕ) × IsGrouped start blocks.now lines × Appends (W.contents (writer_of writer.old)) (W.contents (writer_of writer.new)) lines) }
{
    let Ok(lines) = grouped(alloc, blocks, start) else {
        return Err(ScriptEnd::NoMemory);
    };
    match writer.write_all(&lines) {
        Ok(()) => Ok(()),
        Err(_) => Err(ScriptEnd::WriteFailed),
    }
}

// The same to standard output, of a script that ended so; gives how that ends.
fn end_groups<R: AllocGlobal + Print>(
    rt: &R,
    blocks: &[u8],
    start: u64,
    end: ScriptEnd,
    closed: &mut bool,
) -> ScriptEnd {
    let output = Closing::new(io::writer(rt), closed);
    let Ok(buffered) = BufWriter::new(rt.alloc(), output) else {
        return ScriptEnd::NoMemory;
    };
    let mut writer = Writing::new(buffered);
    match put_groups(rt.alloc(), blocks, start, &mut writer) {
        Ok(()) => match writer.flush() {
            Ok(()) => end,
            Err(_) => ScriptEnd::WriteFailed,
        },
        Err(failed) => failed,
    }
}

// The crashes of a script from a reader, as `run_groups`.
fn groups_from<R: AllocGlobal + Print + Eprint, I: Read + Drop>(
    rt: &R,
    input: I,
    range: StopRange,
    form: RunForm,
    shows: bool,
) -> u8 {
    let script = match read_script(rt, input, form.notation) {
        Ok(script) => script,
        Err(status) => return status,
    };
    let mut blocks = Vec::new(rt.alloc());
    let end = {
        let mut writer = Writing::new(Progress::new(&mut blocks, rt, shows));
        stop_read(rt.alloc(), &script, range, &mut writer)
    };
    let mut closed = false;
    let end = end_groups(rt, &blocks, range.first.max(1), end, &mut closed);
    if closed {
        return CLOSED;
    }
    script.conclude(rt, &end);
    let refused = show_refusals(rt, script.notation(), &script.script, script.lines(&end));
    print_refusals(rt, form.strict, refused);
    script.status(&end, form.strict, refused)
}

/// `dsheet run --stops --brief`: as `run_stops`, but stops that follow each other and come to the same are one line of
/// standard output, with their range. The lines come when the script has ended. The status is 141 where nobody reads them any
/// more.
pub fn run_groups<R: AllocGlobal + Input + Print + Eprint + Files<File = File>>(
    rt: &R,
    source: Source<'_>,
    range: StopRange,
    form: RunForm,
    shows: bool,
) -> u8 {
    match source {
        Source::StandardInput => groups_from(rt, rt.reader(), range, form, shows),
        Source::File(path) => match open(rt, path) {
            Ok(file) => groups_from(rt, file, range, form, shows),
            Err(status) => status,
        },
    }
}
