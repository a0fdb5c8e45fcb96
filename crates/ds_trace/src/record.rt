//! Records a script, with the words at given places.

ghost use Rattle.std.specs.Prelude.{◌≡◌, ◌<◌, ◌↔◌, ◌^◌, [], IfErr, IfOk, IsTrue, OnOk, length};
ghost use Rattle.ds_layout.specs.declared.place.Edition.TheVariants as editions;
ghost use Rattle.ds_script.specs.Script.{IsMade};
ghost use Rattle.ds_trace.specs.Traces.{IsRecord, IsTraceOf, IsUntraced, PassesLine, StopsLine, why_not};
ghost use Rattle.ds_trace.specs.declared.record.Hindrance.TheVariants as hindrances;
ghost use Rattle.ds_trace.specs.declared.record.Untraced.TheVariants as untraced;

use crate::look::words;
use crate::play::carry_out;
use crate::row::{Trace, TraceRow};
use crate::turn::NoTrace;
use ds_formula::cells::Shape;
use ds_layout::layout::Layout;
use ds_layout::place::{Edition, Place};
use ds_script::carry::new_world;
use ds_script::order::{Begun, read_order};
use ds_script::script::begun_by;
use ds_script_io::ending::ScriptFault;
use ds_script_io::line::{NextLine, next_line};
use ds_state::world::World;
use ds_words::words::Word;
use std::alloc::{AllocError, Global};

/// Why a script has no recording.
#[derive(Clone, Copy, Debug, PartialEq, Eq, Drop)]
pub enum Untraced {
    /// This line, counted from 1, has a fault.
    Fault {
        /// The line.
        line: usize,
        /// The fault of the line.
        kind: ScriptFault,
    },
    /// The run has more events than a recording has room for.
    TooManyEvents,
    /// An allocation failed, outside a command that has a refusal for it.
    NoMemory,
}

impl From<AllocError> for Untraced {
    ghost from_gives = { λ _ why. why ≡ untraced.NoMemory };

    fn from(_error: AllocError) -> Untraced {
        Untraced::NoMemory
    }
}

// Why no further line is carried out.
#[derive(Clone, Copy, Debug, PartialEq, Eq, Drop)]
enum Hindrance {
    Fault(ScriptFault),
    NoTrace(NoTrace),
}

impl From<ScriptFault> for Hindrance {
    ghost from_gives = { λ f s. s ≡ hindrances.Fault f };

    fn from(fault: ScriptFault) -> Hindrance {
        Hindrance::Fault(fault)
    }
}

impl From<NoTrace> for Hindrance {
    ghost from_gives = { λ why s. s ≡ hindrances.NoTrace why };

    fn from(why: NoTrace) -> Hindrance {
        Hindrance::NoTrace(why)
    }
}

// Why a script has no recording that is stopped at this line, counted from 1.
fn why_not(line: usize, hindrance: Hindrance) -> Untraced
    ensures { result ≡ why_not line hindrance }
{
    match hindrance {
        Hindrance::Fault(kind) => Untraced::Fault { line, kind },
        Hindrance::NoTrace(NoTrace::TooManyEvents) => Untraced::TooManyEvents,
        Hindrance::NoTrace(NoTrace::NoMemory) => Untraced::NoMemory,
    }
}

// Carries a line out. It answers what has come before the next line.
fn obey(
    alloc: Global,
    places: &[Place],
    line: &[u8],
    begun: Begun,
    world: &mut World,
    rows: &mut Vec<TraceRow>,
) -> Result<Begun, Hindrance>
    ensures passes { IfOk result (λ now. PassesLine places.now begun world.old line.now now world.new rows.old.items rows.new.items) }
    ensures stops { IfErr result (λ stop. StopsLine begun world.old line.now rows.old.items stop) }
{
    let Some(command) = read_order(line, begun, world)? else {
        return Ok(begun);
    };
    let now = begun_by(command);
    carry_out(alloc, world, places, command, rows)?;
    Ok(now)
}

// A new world of two columns, two rows and two processes.
fn fresh(alloc: Global) -> Result<World, AllocError>
    ensures { IfOk result (λ w. IsMade 2 2 2 editions.Second w) }
{
    let shape = Shape {
        columns: 2,
        rows: 2,
    };
    let layout = Layout {
        shape,
        processes: 2,
    };
    new_world(alloc, layout, Edition::Second)
}

// Whether no event has a row yet.
fn has_none(rows: &Vec<TraceRow>) -> bool
    ensures { IsTrue result ↔ (rows.now.items ≡ []) }
{
    rows.is_empty()
}

// Carries the lines of a script out, from a new world on, and puts the rows of their events one after the other. It
// answers the words of the new sheet: those of the world that has no row yet.
fn record_lines(
    alloc: Global,
    places: &[Place],
    script: &[u8],
    whole: bool,
    world: &mut World,
    rows: &mut Vec<TraceRow>,
) -> Result<Vec<Word>, Untraced>
    requires made { IsMade 2 2 2 editions.Second world.old }
    requires empty { rows.old.items ≡ [] }
    requires short { length script.now < 2 ^ 62 }
    ensures record { IfOk result (λ start. IsRecord whole script.now places.now start.items world.new rows.new.items) }
    ensures untraced { IfErr result (λ why. IsUntraced whole script.now why) }
{
    let mut start = words(alloc, world, places)?;
    let mut begun = Begun::Nothing;
    let mut lines = 0usize;
    let mut rest = script;
    'lines: loop {
        match next_line(rest, whole) {
            NextLine::Nothing => return Ok(start),
            NextLine::TooLong => {
                return Err(Untraced::Fault {
                    line: lines + 1,
                    kind: ScriptFault::LineTooLong,
                });
            }
            NextLine::Line(line, behind) => {
                match obey(alloc, places, line, begun, world, rows) {
                    Ok(now) => begun = now,
                    Err(stop) => return Err(why_not(lines + 1, stop)),
                }
                if has_none(rows) {
                    start = words(alloc, world, places)?;
                }
                lines += 1;
                rest = behind;
            }
        }
    }
}

fn layout_of(world: &World) -> Layout
    ensures { result ≡ world.now.sheet.layout }
{
    world.words.layout()
}

/// The rows of a script, from a new sheet of two columns, two rows and two processes on, or from the one that it begins
/// with: one for each event, with both sides of the words at these places. Where it is not `whole`, what comes after
/// its last line feed is left out.
pub fn record(
    alloc: Global,
    script: &[u8],
    whole: bool,
    places: Vec<Place>,
) -> Result<Trace, Untraced>
    requires { length script.now < 2 ^ 62 }
    ensures trace { IfOk result (λ trace. IsTraceOf whole script.now trace) }
    ensures places { IfOk result (λ trace. trace.places.items ≡ places.items) }
    ensures untraced { IfErr result (λ why. IsUntraced whole script.now why) }
{
    let Ok(mut world) = fresh(alloc) else {
        return Err(Untraced::NoMemory);
    };
    let mut rows = Vec::new(alloc);
    let start = record_lines(alloc, &places, script, whole, &mut world, &mut rows)?;
    let layout = layout_of(&world);
    Ok(Trace {
        layout,
        places,
        start,
        rows,
    })
}
