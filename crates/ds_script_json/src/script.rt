//! Runs scripts whose answers are lines of JSON.

ghost use Rattle.std.specs.Prelude.{◌≡◌, ◌≢◌, ◌≤◌, ◌+◌, ◌<◌, ◌^◌, ◌-◌, Bool, List, ℕ, IfOk, IfErr, length, take, true};
ghost use Rattle.std.specs.Io.KnownBytes.{Consumes, Appends};
ghost use Rattle.ds_script_io.specs.Streams.{reader_of, writer_of, is_flushed, bytes_given, has_ended, read_failed, write_failed};
ghost use Rattle.ds_script_io.specs.Input.{Within};
ghost use Rattle.ds_script_io.specs.declared.ending.ScriptEnd.TheVariants as ends;
ghost use Rattle.ds_script.specs.Script.{Progress, Carried, Concludes, Writes, is_whole};
ghost use Rattle.ds_script_json.specs.JsonScripts.{InJson, Obeyed, RanInJson, SaysInJson, StoppedAt, ending_of};
ghost use Rattle.ds_formula.specs.Limits.{INPUT_MOST};

use crate::carry::carry_out;
use crate::line::end_line;
use ds_formula::cells::Shape;
use ds_layout::layout::Layout;
use ds_layout::place::Edition;
use ds_script::carry::new_world;
use ds_script::order::{Begun, read_order};
use ds_script::script::begun_by;
use ds_script_io::ending::{ScriptEnd, ScriptFault};
use ds_script_io::input::{Input, InputEnd, read_input};
use ds_script_io::line::{INPUT_LIMIT, NextLine, next_line};
use ds_script_io::streams::{Reading, Writing};
use ds_state::world::World;
use std::alloc::Global;
use std::io::{Read, Write};

// Carries out the line of this number, and writes its answer. It answers what has come before the next line; an error is how
// the script ends.
fn obey<W: Write>(
    alloc: Global,
    number: usize,
    line: &[u8],
    begun: Begun,
    world: &mut World,
    writer: &mut Writing<W>,
) -> Result<Begun, ScriptEnd>
    ensures obeyed { IfOk result (λ now. Obeyed begun world.old line.now now world.new (W.contents (writer_of writer.old)) (W.contents (writer_of writer.new))) }
    ensures stopped { IfErr result (λ end. StoppedAt number begun world.old line.now (W.contents (writer_of writer.old)) (W.contents (writer_of writer.new)) (write_failed writer.new) end) }
    ensures no_failure { IfOk result (λ now. write_failed writer.new ≡ write_failed writer.old) }
    ensures none_hidden { IfErr result (λ end. end ≢ ends.WriteFailed → write_failed writer.new ≡ write_failed writer.old) }
{
    let order = match read_order(line, begun, world) {
        Ok(order) => order,
        Err(kind) => return Err(ScriptEnd::Fault { line: number, kind }),
    };
    let Some(command) = order else {
        return Ok(begun);
    };
    let now = begun_by(command);
    let Ok(end) = carry_out(alloc, world, command) else {
        return Err(ScriptEnd::NoMemory);
    };
    let Ok(text) = end_line(alloc, world, end) else {
        return Err(ScriptEnd::NoMemory);
    };
    match writer.write_all(&text) {
        Ok(()) => Ok(now),
        Err(_) => Err(ScriptEnd::WriteFailed),
    }
}

// Carries the lines of a script out, to its end or to the first that stops it; an error is how the script ends then.
fn run_lines<W: Write>(
    alloc: Global,
    script: &[u8],
    whole: bool,
    writer: &mut Writing<W>,
) -> Result<(), ScriptEnd>
    requires { length script.now < 2 ^ 62 }
    ensures no_failure { IfOk result (λ _. write_failed writer.new ≡ write_failed writer.old) }
    ensures none_hidden { IfErr result (λ end. end ≢ ends.WriteFailed → write_failed writer.new ≡ write_failed writer.old) }
    ensures ran { RanInJson whole script.now (W.contents (writer_of writer.old)) (W.contents (writer_of writer.new)) (write_failed writer.new) result }
{
    let shape = Shape {
        columns: 2,
        rows: 2,
    };
    let layout = Layout {
        shape,
        processes: 2,
    };
    let Ok(mut world) = new_world(alloc, layout, Edition::Second) else {
        return Err(ScriptEnd::NoMemory);
    };
    let mut begun = Begun::Nothing;
    let mut lines = 0usize;
    let mut rest = script;
    'lines: loop {
        match next_line(rest, whole) {
            NextLine::Nothing => return Ok(()),
            NextLine::TooLong => {
                return Err(ScriptEnd::Fault {
                    line: lines + 1,
                    kind: ScriptFault::LineTooLong,
                });
            }
            NextLine::Line(line, behind) => {
                match obey(alloc, lines + 1, line, begun, &mut world, writer) {
                    Ok(now) => begun = now,
                    Err(end) => return Err(end),
                }
                lines += 1;
                rest = behind;
            }
        }
    }
}

// How a script ended, whose lines were run up to this.
fn ending(run: Result<(), ScriptEnd>, end: ScriptEnd) -> ScriptEnd
    ensures { result ≡ ending_of run end }
{
    match run {
        Ok(()) => end,
        Err(broken) => broken,
    }
}

// Runs the lines of what was read.
fn run_input<W: Write>(
    alloc: Global,
    input: &Input,
    limit: usize,
    writer: &mut Writing<W>,
) -> ScriptEnd
    requires small { limit < 2 ^ 62 - 1 }
    requires within { Within limit (length input.now.bytes.items) input.now.end }
    ensures no_failure { result ≢ ScriptEnd.WriteFailed → write_failed writer.new ≡ write_failed writer.old }
    ensures write_failed { result ≡ ScriptEnd.WriteFailed → write_failed writer.new ≡ true }
    ensures writes { result ≢ ScriptEnd.WriteFailed → (out json : List ℕ) × Appends (W.contents (writer_of writer.old)) (W.contents (writer_of writer.new)) json
        × Writes input.now.end (take limit input.now.bytes.items) out result
        × SaysInJson (is_whole input.now.end) (take limit input.now.bytes.items) out json }
{
    let bytes = input.bytes.as_slice();
    match input.end {
        InputEnd::Ended => ending(run_lines(alloc, bytes, true, writer), ScriptEnd::Ended),
        InputEnd::TooLong => {
            let run = run_lines(alloc, &bytes[..limit], false, writer);
            ending(run, ScriptEnd::TooLong)
        }
        InputEnd::Failed => ending(
            run_lines(alloc, bytes, false, writer),
            ScriptEnd::ReadFailed,
        ),
    }
}

// Runs a script of at most n bytes.
fn run_within<R: Read, W: Write>(
    alloc: Global,
    limit: usize,
    reader: &mut Reading<R>,
    writer: &mut Writing<W>,
) -> ScriptEnd
    requires { limit < 2 ^ 62 - 1 }
    ensures given { bytes_given reader.new ≤ bytes_given reader.old + (limit + 1) }
    ensures no_failure { result ≢ ScriptEnd.WriteFailed → write_failed writer.new ≡ write_failed writer.old }
    ensures write_failed { result ≡ ScriptEnd.WriteFailed → write_failed writer.new ≡ true }
    ensures flushed { is_flushed writer.old ≡ true → result ≢ ScriptEnd.WriteFailed → is_flushed writer.new ≡ true }
    ensures outcome { result ≢ ScriptEnd.WriteFailed → (bytes out json : List ℕ) × (whole : Bool) × Consumes (R.remaining (reader_of reader.old)) (R.remaining (reader_of reader.new)) bytes
        × Appends (W.contents (writer_of writer.old)) (W.contents (writer_of writer.new)) json
        × Concludes limit (R.remaining (reader_of reader.new)) (has_ended reader.new) (read_failed reader.new) bytes out result
        × SaysInJson whole (take limit bytes) out json }
{
    let Ok(input) = read_input(alloc, reader, limit) else {
        return ScriptEnd::NoMemory;
    };
    let end = run_input(alloc, &input, limit, writer);
    match writer.flush() {
        Ok(()) => end,
        Err(_) => ScriptEnd::WriteFailed,
    }
}

/// Runs a script as `ds_script::script::run_script` does, but each answer is a line of JSON.
///
/// What is read, what becomes of the sheet and how the script ends is as there, with the same answers; what is written is
/// the JSON of these answers, line by line (`json_scripts_are_scripts`).
pub fn run_script_in_json<R: Read, W: Write>(
    alloc: Global,
    reader: &mut Reading<R>,
    writer: &mut Writing<W>,
) -> ScriptEnd
    ensures given { bytes_given reader.new ≤ bytes_given reader.old + (INPUT_MOST + 1) }
    ensures no_failure { result ≢ ScriptEnd.WriteFailed → write_failed writer.new ≡ write_failed writer.old }
    ensures write_failed { result ≡ ScriptEnd.WriteFailed → write_failed writer.new ≡ true }
    ensures flushed { is_flushed writer.old ≡ true → result ≢ ScriptEnd.WriteFailed → is_flushed writer.new ≡ true }
    ensures outcome { result ≢ ScriptEnd.WriteFailed → (bytes out json : List ℕ) × (whole : Bool) × Consumes (R.remaining (reader_of reader.old)) (R.remaining (reader_of reader.new)) bytes
        × Appends (W.contents (writer_of writer.old)) (W.contents (writer_of writer.new)) json
        × Concludes INPUT_MOST (R.remaining (reader_of reader.new)) (has_ended reader.new) (read_failed reader.new) bytes out result
        × SaysInJson whole (take INPUT_MOST bytes) out json }
{
    run_within(alloc, INPUT_LIMIT, reader, writer)
}

/// The text whose lines are written as JSON is what the script is answered without that: the same commands are carried out,
/// on the same worlds, with the same events and replies.
#[tactic(auto, using(crate::proofs::JsonRuns::is_carried))]
pub fn json_scripts_are_scripts()
    ensures { (whole : Bool) (script : List ℕ) (lines : ℕ) (p : Progress) (out json rest : List ℕ)
        → InJson whole script lines p out json rest → Carried whole script lines p out rest }
{}
