//! A crash after each step of a script.

ghost use Rattle.std.specs.Prelude.{◌≡◌, ◌≢◌, ◌<◌, ◌≤◌, ◌+◌, ◌*◌, ◌^◌, Bool, true, List, ℕ, IfOk, length};
ghost use Rattle.std.specs.Io.KnownBytes.{Appends};
ghost use Rattle.ds_state.specs.Value.{world_of, IsGood};
ghost use Rattle.ds_state.specs.Fresh.{IsNew};
ghost use Rattle.ds_core.specs.Takes.{WorldRun};
ghost use Rattle.ds_core.specs.Headline.{HasHeadline};
ghost use Rattle.ds_script.specs.Script.{IsMade};
ghost use Rattle.ds_formula.specs.Limits.{INPUT_MOST};
ghost use Rattle.ds_script_io.specs.Streams.{writer_of, is_flushed, write_failed};
ghost use Rattle.ds_script_io.specs.declared.ending.ScriptEnd.TheVariants as ends;
ghost use Rattle.ds_script_stops.specs.Reaching.{IsTold, end_of};
ghost use Rattle.ds_layout.specs.Places.{cells_of};
ghost use Rattle.ds_layout.specs.declared.place.Edition.TheVariants as editions;
ghost use Rattle.ds_state.specs.Works.{SEEN_MOST};
ghost use Rattle.ds_calls.specs.Whole.{HasProcess};
ghost use Rattle.ds_script_stops.specs.CleanBlocks.{TellsClean};
ghost use Rattle.ds_script_stops.specs.StopBlocks.{IsBlock, StopsWith, StopsInRange, StopsWithin, block_events, block_replies};

use crate::block::block_of;
use crate::range::StopRange;
use crate::reach::{ScriptPosition, Short, go_on};
use ds_formula::cells::Shape;
use ds_layout::layout::Layout;
use ds_layout::place::Edition;
use ds_script::carry::new_world;
use ds_script_io::ending::ScriptEnd;
use ds_script_io::line::INPUT_LIMIT;
use ds_script_io::streams::Writing;
use ds_state::world::World;
use std::alloc::{AllocError, Global};
use std::io::Write;

// A new world of two columns, two rows and two processes.
fn fresh(alloc: Global) -> Result<World, AllocError>
    ensures { IfOk result (λ w. IsMade 2 2 2 editions.Second w) }
{
    let shape = Shape {
        columns: 2,
        rows: 2,
    };
    let layout = Layout {
        shape,
        processes: 2,
    };
    new_world(alloc, layout, Edition::Second)
}

// The block of the stop after n steps in this world, and nothing where it is not one of the range. An error means that
// an allocation failed.
fn told(alloc: Global, world: &World, range: StopRange, stop: u64) -> Result<Vec<u8>, AllocError>
    ensures { IfOk result (λ text. IsTold range stop world.now text.items) }
{
    if range.contains(stop) {
        block_of(alloc, world, stop)
    } else {
        Ok(Vec::new(alloc))
    }
}

// How a script ends that does not come to the next step.
fn ending(short: Short, whole: bool) -> ScriptEnd
    ensures { result ≡ end_of whole short }
{
    match short {
        Short::Ended if whole => ScriptEnd::Ended,
        Short::Ended => ScriptEnd::TooLong,
        Short::Fault { line, kind } => ScriptEnd::Fault { line, kind },
        Short::NoMemory => ScriptEnd::NoMemory,
    }
}

// Writes the block of each step of the range that the script comes to. No script comes to 2^64 - 1 steps.
fn write_blocks<W: Write>(
    alloc: Global,
    script: &[u8],
    whole: bool,
    range: StopRange,
    writer: &mut Writing<W>,
) -> ScriptEnd
    requires { length script.now < 2 ^ 62 }
    ensures no_failure { result ≢ ScriptEnd.WriteFailed → write_failed writer.new ≡ write_failed writer.old }
    ensures write_failed { result ≡ ScriptEnd.WriteFailed → write_failed writer.new ≡ true }
    ensures writes { result ≢ ScriptEnd.WriteFailed → (out : List ℕ) × Appends (W.contents (writer_of writer.old)) (W.contents (writer_of writer.new)) out
        × StopsWith range whole script.now out result }
{
    let Ok(mut world) = fresh(alloc) else {
        return ScriptEnd::NoMemory;
    };
    let mut place = ScriptPosition::first(script);
    for stops in 0..u64::MAX {
        match go_on(alloc, whole, place, stops + 1, &mut world) {
            Ok(now) => place = now,
            Err(short) => return ending(short, whole),
        }
        match told(alloc, &world, range, stops + 1) {
            Ok(text) => match writer.write_all(&text) {
                Ok(()) => {}
                Err(_) => return ScriptEnd::WriteFailed,
            },
            Err(_) => return ScriptEnd::NoMemory,
        }
    }
    ScriptEnd::NoMemory
}

// The same law of a script of which no more than the limit is carried out.
fn write_front<W: Write>(
    alloc: Global,
    limit: usize,
    script: &[u8],
    range: StopRange,
    writer: &mut Writing<W>,
) -> ScriptEnd
    requires { limit < 2 ^ 62 }
    ensures no_failure { result ≢ ScriptEnd.WriteFailed → write_failed writer.new ≡ write_failed writer.old }
    ensures write_failed { result ≡ ScriptEnd.WriteFailed → write_failed writer.new ≡ true }
    ensures writes { result ≢ ScriptEnd.WriteFailed → (out : List ℕ) × Appends (W.contents (writer_of writer.old)) (W.contents (writer_of writer.new)) out
        × StopsInRange range limit script.now out result }
{
    if script.len() <= limit {
        write_blocks(alloc, script, true, range, writer)
    } else {
        write_blocks(alloc, &script[..limit], false, range, writer)
    }
}

// Writes the blocks of a script within a limit, and passes on what the writer holds back.
fn stop_within<W: Write>(
    alloc: Global,
    limit: usize,
    script: &[u8],
    range: StopRange,
    writer: &mut Writing<W>,
) -> ScriptEnd
    requires { limit < 2 ^ 62 }
    ensures no_failure { result ≢ ScriptEnd.WriteFailed → write_failed writer.new ≡ write_failed writer.old }
    ensures write_failed { result ≡ ScriptEnd.WriteFailed → write_failed writer.new ≡ true }
    ensures flushed { is_flushed writer.old ≡ true → result ≢ ScriptEnd.WriteFailed → is_flushed writer.new ≡ true }
    ensures writes { result ≢ ScriptEnd.WriteFailed → (out : List ℕ) × Appends (W.contents (writer_of writer.old)) (W.contents (writer_of writer.new)) out
        × StopsInRange range limit script.now out result }
{
    let end = write_front(alloc, limit, script, range, writer);
    match writer.flush() {
        Ok(()) => end,
        Err(_) => ScriptEnd::WriteFailed,
    }
}

/// Runs a script once, without output. After each of its steps that is in the range it crashes a copy of the sheet, and
/// writes what is reported after the crash: `stop K`, a line for the recovery of each process, what a settle of process
/// 0 leaves, and its report. The script is run to its end also where the range ends before.
///
/// `Ended` where the script ends; `Fault` where it meets a fault before that; `TooLong` for a script of more than
/// 1,048,576 bytes, whose commands that are whole within them are stopped at; `NoMemory` where an allocation failed
/// outside a command that has a refusal for it. The blocks of all steps of the range before are written, each by one
/// write. After `WriteFailed` nothing is said of how much went out. It never answers `ReadFailed`.
pub fn stop_in_range<W: Write>(
    alloc: Global,
    script: &[u8],
    range: StopRange,
    writer: &mut Writing<W>,
) -> ScriptEnd
    ensures no_failure { result ≢ ScriptEnd.WriteFailed → write_failed writer.new ≡ write_failed writer.old }
    ensures write_failed { result ≡ ScriptEnd.WriteFailed → write_failed writer.new ≡ true }
    ensures flushed { is_flushed writer.old ≡ true → result ≢ ScriptEnd.WriteFailed → is_flushed writer.new ≡ true }
    ensures not_read { result ≢ ScriptEnd.ReadFailed }
    ensures writes { result ≢ ScriptEnd.WriteFailed → (out : List ℕ) × Appends (W.contents (writer_of writer.old)) (W.contents (writer_of writer.new)) out
        × StopsInRange range INPUT_MOST script.now out result }
{
    stop_within(alloc, INPUT_LIMIT, script, range, writer)
}

/// Writes the block of each step of the script.
pub fn stop_at_each<W: Write>(alloc: Global, script: &[u8], writer: &mut Writing<W>) -> ScriptEnd
    ensures no_failure { result ≢ ScriptEnd.WriteFailed → write_failed writer.new ≡ write_failed writer.old }
    ensures write_failed { result ≡ ScriptEnd.WriteFailed → write_failed writer.new ≡ true }
    ensures flushed { is_flushed writer.old ≡ true → result ≢ ScriptEnd.WriteFailed → is_flushed writer.new ≡ true }
    ensures not_read { result ≢ ScriptEnd.ReadFailed }
    ensures writes { result ≢ ScriptEnd.WriteFailed → (out : List ℕ) × Appends (W.contents (writer_of writer.old)) (W.contents (writer_of writer.new)) out
        × StopsWithin INPUT_MOST script.now out result }
{
    stop_in_range(alloc, script, StopRange::ALL, writer)
}

/// The events of a block, those of the script up to its step, the crash and what is done after it, are one run of
/// `ds_core::take` from a new sheet on, whatever they are answered; so that what is proved of runs is true of stops,
/// and first of all the headline. As many steps of the script stand before the crash as the block says.
pub fn blocks_are_runs()
    ensures runs { (whole : Bool) (script : List ℕ) (k : ℕ) (text : List ℕ) → (b : IsBlock whole script k text)
        → WorldRun b.stands.progress.start (block_events b) (block_replies b) b.new }
    ensures new { (whole : Bool) (script : List ℕ) (k : ℕ) (text : List ℕ) → (b : IsBlock whole script k text) → IsNew (world_of b.stands.progress.start) }
    ensures good { (whole : Bool) (script : List ℕ) (k : ℕ) (text : List ℕ) → (b : IsBlock whole script k text) → IsGood b.stands.progress.start }
    ensures headline { (whole : Bool) (script : List ℕ) (k : ℕ) (text : List ℕ) → (b : IsBlock whole script k text)
        → (run : WorldRun b.stands.progress.start (block_events b) (block_replies b) b.new)
        → HasHeadline b.stands.progress.start (block_events b) (block_replies b) b.new run }
{}

/// What is reported after the crash of a block is a recovery of each process, in their order, then a settle of process
/// 0, which is alone, and its report: the line of that settle is `clean`, or names a failed allocation. So it is in
/// each block of fewer than 2^58 events, less some for the settle.
pub fn blocks_are_clean()
    ensures { (whole : Bool) (script : List ℕ) (k : ℕ) (text : List ℕ) → (b : IsBlock whole script k text)
        → HasProcess b.crashed 0 → length (block_events b) + 2 * (cells_of b.crashed.sheet.layout + 2) ≤ SEEN_MOST
        → TellsClean b.crashed b.events b.replies b.answers b.new }
{}
