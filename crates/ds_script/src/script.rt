//! Runs scripts.

ghost use Rattle.std.specs.Prelude.{◌≡◌, ◌≢◌, ◌≤◌, ◌+◌, ◌*◌, ◌<◌, ◌^◌, ◌-◌, Bool, List, ℕ, IfOk, IfErr, length, take, true};
ghost use Rattle.std.specs.Io.KnownBytes.{Consumes, Appends};
ghost use Rattle.ds_state.specs.Fresh.{IsNew};
ghost use Rattle.ds_state.specs.Value.{WorldValue, world_of, IsGood};
ghost use Rattle.ds_state.specs.Works.{SEEN_MOST};
ghost use Rattle.ds_layout.specs.Places.{cells_of};
ghost use Rattle.ds_calls.specs.Whole.{HasProcess};
ghost use Rattle.ds_calls.specs.Lone.{AreIdle};
ghost use Rattle.ds_core.specs.Takes.{WorldRun};
ghost use Rattle.ds_core.specs.Headline.{HasHeadline};
ghost use Rattle.ds_script_io.specs.Streams.{reader_of, writer_of, is_flushed, bytes_given, has_ended, read_failed, write_failed};
ghost use Rattle.ds_script_io.specs.Input.{Within};
ghost use Rattle.ds_script_io.specs.declared.ending.ScriptEnd.TheVariants as ends;
ghost use Rattle.ds_script.specs.declared.script.Hindrance.TheVariants as hindrances;
ghost use Rattle.ds_script.specs.Orders.{Recalculate, Settle, command_view};
ghost use Rattle.ds_script.specs.Doing.{IsOrderOf, plan};
ghost use Rattle.ds_script.specs.Plays.{Played};
ghost use Rattle.ds_script.specs.LoneSettles.{SaysClean};
ghost use Rattle.ds_script.specs.Script.{Progress, Carried, Writes, Concludes, is_whole};
ghost use Rattle.ds_script.specs.Running.{Obeyed, Stopped, RanLines, HidesNone, after, break_of, ending_of};
ghost use Rattle.ds_formula.specs.Limits.{INPUT_MOST};

use crate::carry::{carry_out, new_world};
use crate::order::{Begun, Command, read_order};
use ds_formula::cells::Shape;
use ds_layout::layout::Layout;
use ds_layout::place::Edition;
use ds_script_io::ending::{ScriptEnd, ScriptFault};
use ds_script_io::input::{Input, InputEnd, read_input};
use ds_script_io::line::{INPUT_LIMIT, NextLine, next_line};
use ds_script_io::streams::{Reading, Writing};
use ds_state::world::World;
use std::alloc::{AllocError, Global};
use std::io::{Read, Write};

// Why no further line is carried out.
#[derive(Drop)]
enum Hindrance {
    Fault(ScriptFault),
    NoMemory,
    WriteFailed,
}

impl From<ScriptFault> for Hindrance {
    ghost from_gives = { λ f s. s ≡ hindrances.Fault f };

    fn from(fault: ScriptFault) -> Hindrance {
        Hindrance::Fault(fault)
    }
}

impl From<AllocError> for Hindrance {
    ghost from_gives = { λ _ s. s ≡ hindrances.NoMemory };

    fn from(_error: AllocError) -> Hindrance {
        Hindrance::NoMemory
    }
}

/// What has come before the next line, where the last one was this command.
pub fn begun_by(command: Command<'_>) -> Begun
    ensures { result ≡ after (command_view command.entry) }
{
    match command {
        Command::Sheet(_) => Begun::Sheet,
        _ => Begun::Command,
    }
}

// Carries a line out and writes its answer. It answers what has come before the next line.
fn obey<W: Write>(
    alloc: Global,
    line: &[u8],
    begun: Begun,
    world: &mut World,
    writer: &mut Writing<W>,
) -> Result<Begun, Hindrance>
    ensures obeyed { IfOk result (λ now. Obeyed begun world.old line.now now world.new (W.contents (writer_of writer.old)) (W.contents (writer_of writer.new))) }
    ensures stopped { IfErr result (λ stop. Stopped begun world.old line.now (W.contents (writer_of writer.old)) (W.contents (writer_of writer.new)) (write_failed writer.new) stop) }
    ensures no_failure { IfOk result (λ now. write_failed writer.new ≡ write_failed writer.old) }
    ensures none_hidden { IfErr result (λ stop. stop ≢ hindrances.WriteFailed → write_failed writer.new ≡ write_failed writer.old) }
{
    let Some(command) = read_order(line, begun, world)? else {
        return Ok(begun);
    };
    let now = begun_by(command);
    let text = carry_out(alloc, world, command)?;
    match writer.write_all(&text) {
        Ok(()) => Ok(now),
        Err(_) => Err(Hindrance::WriteFailed),
    }
}

// Why lines are left.
#[derive(Drop)]
enum Break {
    Fault(usize, ScriptFault),
    NoMemory,
    WriteFailed,
}

// The break at this line, counted from 1.
fn break_at(line: usize, hindrance: Hindrance) -> Break
    ensures { result ≡ break_of line hindrance }
{
    match hindrance {
        Hindrance::Fault(kind) => Break::Fault(line, kind),
        Hindrance::NoMemory => Break::NoMemory,
        Hindrance::WriteFailed => Break::WriteFailed,
    }
}

// Carries the lines of a script out, to its end or to the first that stops it.
fn run_lines<W: Write>(
    alloc: Global,
    script: &[u8],
    whole: bool,
    writer: &mut Writing<W>,
) -> Result<(), Break>
    requires { length script.now < 2 ^ 62 }
    ensures none_hidden { HidesNone result (write_failed writer.old) (write_failed writer.new) }
    ensures ran { RanLines whole script.now (W.contents (writer_of writer.old)) (W.contents (writer_of writer.new)) (write_failed writer.new) result }
{
    let shape = Shape {
        columns: 2,
        rows: 2,
    };
    let layout = Layout {
        shape,
        processes: 2,
    };
    let Ok(mut world) = new_world(alloc, layout, Edition::Second) else {
        return Err(Break::NoMemory);
    };
    let mut begun = Begun::Nothing;
    let mut lines = 0usize;
    let mut rest = script;
    'lines: loop {
        match next_line(rest, whole) {
            NextLine::Nothing => return Ok(()),
            NextLine::TooLong => return Err(Break::Fault(lines + 1, ScriptFault::LineTooLong)),
            NextLine::Line(line, behind) => {
                match obey(alloc, line, begun, &mut world, writer) {
                    Ok(now) => begun = now,
                    Err(stop) => return Err(break_at(lines + 1, stop)),
                }
                lines += 1;
                rest = behind;
            }
        }
    }
}

// How a script ended, whose lines were run up to this.
fn ending(run: Result<(), Break>, end: ScriptEnd) -> ScriptEnd
    ensures { result ≡ ending_of run end }
{
    match run {
        Ok(()) => end,
        Err(Break::Fault(line, kind)) => ScriptEnd::Fault { line, kind },
        Err(Break::NoMemory) => ScriptEnd::NoMemory,
        Err(Break::WriteFailed) => ScriptEnd::WriteFailed,
    }
}

// Runs the lines of what was read.
fn run_input<W: Write>(
    alloc: Global,
    input: &Input,
    limit: usize,
    writer: &mut Writing<W>,
) -> ScriptEnd
    requires small { limit < 2 ^ 62 - 1 }
    requires within { Within limit (length input.now.bytes.items) input.now.end }
    ensures no_failure { result ≢ ScriptEnd.WriteFailed → write_failed writer.new ≡ write_failed writer.old }
    ensures write_failed { result ≡ ScriptEnd.WriteFailed → write_failed writer.new ≡ true }
    ensures writes { result ≢ ScriptEnd.WriteFailed → (out : List ℕ) × Appends (W.contents (writer_of writer.old)) (W.contents (writer_of writer.new)) out
        × Writes input.now.end (take limit input.now.bytes.items) out result }
{
    let bytes = input.bytes.as_slice();
    match input.end {
        InputEnd::Ended => ending(run_lines(alloc, bytes, true, writer), ScriptEnd::Ended),
        InputEnd::TooLong => {
            let run = run_lines(alloc, &bytes[..limit], false, writer);
            ending(run, ScriptEnd::TooLong)
        }
        InputEnd::Failed => ending(
            run_lines(alloc, bytes, false, writer),
            ScriptEnd::ReadFailed,
        ),
    }
}

// Runs a script of at most n bytes.
fn run_within<R: Read, W: Write>(
    alloc: Global,
    limit: usize,
    reader: &mut Reading<R>,
    writer: &mut Writing<W>,
) -> ScriptEnd
    requires { limit < 2 ^ 62 - 1 }
    ensures given { bytes_given reader.new ≤ bytes_given reader.old + (limit + 1) }
    ensures no_failure { result ≢ ScriptEnd.WriteFailed → write_failed writer.new ≡ write_failed writer.old }
    ensures write_failed { result ≡ ScriptEnd.WriteFailed → write_failed writer.new ≡ true }
    ensures flushed { is_flushed writer.old ≡ true → result ≢ ScriptEnd.WriteFailed → is_flushed writer.new ≡ true }
    ensures outcome { result ≢ ScriptEnd.WriteFailed → (bytes : List ℕ) × (out : List ℕ) × Consumes (R.remaining (reader_of reader.old)) (R.remaining (reader_of reader.new)) bytes
        × Appends (W.contents (writer_of writer.old)) (W.contents (writer_of writer.new)) out
        × Concludes limit (R.remaining (reader_of reader.new)) (has_ended reader.new) (read_failed reader.new) bytes out result }
{
    let Ok(input) = read_input(alloc, reader, limit) else {
        return ScriptEnd::NoMemory;
    };
    let end = run_input(alloc, &input, limit, writer);
    match writer.flush() {
        Ok(()) => end,
        Err(_) => ScriptEnd::WriteFailed,
    }
}

/// Runs a script: reads all of it, carries its lines out in order, and writes the answers to its commands.
///
/// At most 1,048,577 bytes are read. The script's meaning is that of the definitions of `Script`: the events of its
/// commands, one after another, are a run of a fresh world (`scripts_are_runs`), and each answer is the text of what
/// its events were answered.
pub fn run_script<R: Read, W: Write>(
    alloc: Global,
    reader: &mut Reading<R>,
    writer: &mut Writing<W>,
) -> ScriptEnd
    ensures given { bytes_given reader.new ≤ bytes_given reader.old + (INPUT_MOST + 1) }
    ensures no_failure { result ≢ ScriptEnd.WriteFailed → write_failed writer.new ≡ write_failed writer.old }
    ensures write_failed { result ≡ ScriptEnd.WriteFailed → write_failed writer.new ≡ true }
    ensures flushed { is_flushed writer.old ≡ true → result ≢ ScriptEnd.WriteFailed → is_flushed writer.new ≡ true }
    ensures outcome { result ≢ ScriptEnd.WriteFailed → (bytes : List ℕ) × (out : List ℕ) × Consumes (R.remaining (reader_of reader.old)) (R.remaining (reader_of reader.new)) bytes
        × Appends (W.contents (writer_of writer.old)) (W.contents (writer_of writer.new)) out
        × Concludes INPUT_MOST (R.remaining (reader_of reader.new)) (has_ended reader.new) (read_failed reader.new) bytes out result }
{
    run_within(alloc, INPUT_LIMIT, reader, writer)
}

/// What a script does to its world is one run of `ds_core::take` from a new sheet on, whatever its
/// events are answered; so that what is proved of runs is true of scripts, and first of all the headline.
#[tactic(auto, using(crate::proofs::Scripts::carried_runs, crate::proofs::Scripts::carried_new, crate::proofs::Scripts::carried_good))]
pub fn scripts_are_runs()
    ensures runs { (whole : Bool) (script : List ℕ) (lines : ℕ) (p : Progress) (out rest : List ℕ)
        → Carried whole script lines p out rest → WorldRun p.start p.events p.replies p.world }
    ensures new { (whole : Bool) (script : List ℕ) (lines : ℕ) (p : Progress) (out rest : List ℕ)
        → Carried whole script lines p out rest → IsNew (world_of p.start) }
    ensures good { (whole : Bool) (script : List ℕ) (lines : ℕ) (p : Progress) (out rest : List ℕ)
        → Carried whole script lines p out rest → IsGood p.start }
    ensures headline { (whole : Bool) (script : List ℕ) (lines : ℕ) (p : Progress) (out rest : List ℕ)
        → Carried whole script lines p out rest → (run : WorldRun p.start p.events p.replies p.world)
        → HasHeadline p.start p.events p.replies p.world run }
{}

/// A line `settle P` of a script, where each process is idle, as before its first call, between calls,
/// and after a crash once every process has recovered, answers `clean`, unless an allocation fails. So
/// it is in each script with fewer than 2^58 events, and some for the settle itself.
pub fn lone_settles_answer_clean()
    ensures { (whole : Bool) (script : List ℕ) (lines : ℕ) (at : Progress) (out rest : List ℕ)
        → Carried whole script lines at out rest → (p : ℕ) (text : List ℕ) (new : WorldValue)
        → HasProcess at.world p → AreIdle (world_of at.world)
        → length at.events + 2 * (cells_of at.world.sheet.layout + 2) ≤ SEEN_MOST
        → (order : List ℕ) → Played (plan at.world order (Settle p)) at.world text new → SaysClean p text }
{}

/// So does a line `recalc P`: in each script with fewer than 2^58 events before it, less some for the recalculation.
pub fn lone_recalculations_answer_clean()
    ensures { (whole : Bool) (script : List ℕ) (lines : ℕ) (at : Progress) (out rest : List ℕ)
        → Carried whole script lines at out rest → (p : ℕ) (order : List ℕ) (text : List ℕ) (new : WorldValue)
        → HasProcess at.world p → AreIdle (world_of at.world) → IsOrderOf at.world (Recalculate p) order
        → length at.events + 2 * (2 * cells_of at.world.sheet.layout + 2) ≤ SEEN_MOST
        → Played (plan at.world order (Recalculate p)) at.world text new → SaysClean p text }
{}
