//! Runs a script from step to step.

ghost use Rattle.std.specs.Prelude.{◌≡◌, ◌<◌, ◌≤◌, ◌+◌, ◌^◌, Bool, List, ℕ, None, IfOk, IfErr, IfSome, length};
ghost use Rattle.ds_layout.specs.declared.place.Edition.TheVariants as editions;
ghost use Rattle.ds_state.specs.Value.{WorldValue};
ghost use Rattle.ds_script.specs.Script.{IsMade, StandsAt};
ghost use Rattle.ds_script.specs.ScriptTurns.{IsWithin};
ghost use Rattle.ds_script_stops.specs.Reaching.{Advances, StopsLine, IsAt, FallsShort, Reaches, short_at};
ghost use Rattle.ds_script_stops.specs.declared.reach.Hindrance.TheVariants as hindrances;

use crate::play::{Played, carry_up_to, play};
use ds_script::order::{Begun, read_order};
use ds_script::script::begun_by;
use ds_script::turn::Left;
use ds_script_io::ending::ScriptFault;
use ds_script_io::line::{NextLine, next_line};
use ds_state::world::World;
use std::alloc::{AllocError, Global};

/// A point of a run of a script, between two lines.
#[derive(Clone, Copy, Debug, PartialEq, Eq)]
pub struct StepPoint {
    /// What came before.
    pub begun: Begun,
    /// How many steps the run has taken.
    pub taken: u64,
}

/// Where a run of a script stands, between two events.
#[derive(Debug, Drop)]
pub struct ScriptPosition<'a> {
    /// How many lines have begun.
    pub lines: usize,
    /// What has begun, and how many steps the run has taken.
    pub point: StepPoint,
    /// What is left of the command of the last of these lines; none where it has ended.
    pub left: Option<Left>,
    /// The script after these lines.
    pub rest: &'a [u8],
}

// How far a line was carried out, in a run that goes up to a step.
#[derive(Debug, Drop)]
enum Advance {
    // To its end: the point after it.
    Passed(StepPoint),
    // Up to that step: what has begun, and what is left of the line's command.
    Halted(Begun, Option<Left>),
}

// Why a line is not carried out.
#[derive(Clone, Copy, Debug, PartialEq, Eq, Drop)]
enum Hindrance {
    Fault(ScriptFault),
    NoMemory,
}

impl From<ScriptFault> for Hindrance {
    ghost from_gives = { λ f s. s ≡ hindrances.Fault f };

    fn from(fault: ScriptFault) -> Hindrance {
        Hindrance::Fault(fault)
    }
}

impl From<AllocError> for Hindrance {
    ghost from_gives = { λ _ s. s ≡ hindrances.NoMemory };

    fn from(_error: AllocError) -> Hindrance {
        Hindrance::NoMemory
    }
}

/// Why a run of a script does not come to a step.
#[derive(Clone, Copy, Debug, PartialEq, Eq)]
pub enum Short {
    /// The script has ended before.
    Ended,
    /// This line, counted from 1, has a fault.
    Fault { line: usize, kind: ScriptFault },
    /// An allocation failed, outside a command that has a refusal for it.
    NoMemory,
}

// Carries a line out, in a run that goes up to the last step.
fn obey(
    alloc: Global,
    line: &[u8],
    point: StepPoint,
    last: u64,
    world: &mut World,
) -> Result<Advance, Hindrance>
    requires { point.taken < last }
    ensures advances { IfOk result (λ now. Advances world.old point line.now last now world.new) }
    ensures stops { IfErr result (λ stop. StopsLine world.old point line.now stop) }
{
    let Some(command) = read_order(line, point.begun, world)? else {
        return Ok(Advance::Passed(point));
    };
    let begun = begun_by(command);
    match carry_up_to(alloc, world, command, point.taken, last)? {
        Played::Ended(taken) => Ok(Advance::Passed(StepPoint { begun, taken })),
        Played::Halted(left) => Ok(Advance::Halted(begun, left)),
    }
}

// Why a run ends that is stopped at this line, counted from 1.
fn stop_at(line: usize, hindrance: Hindrance) -> Short
    ensures { result ≡ short_at line hindrance }
{
    match hindrance {
        Hindrance::Fault(kind) => Short::Fault { line, kind },
        Hindrance::NoMemory => Short::NoMemory,
    }
}

// Carries a run of a script on, from between two lines up to the last step.
fn through_lines<'a>(
    alloc: Global,
    whole: bool,
    from: ScriptPosition<'a>,
    last: u64,
    world: &mut World,
) -> Result<ScriptPosition<'a>, Short>
    requires between { from.left ≡ None }
    requires below { from.point.taken < last }
    requires short { from.lines + length from.rest.now < 2 ^ 62 }
    ensures stands { IfOk result (λ now. (script : List ℕ) → IsAt whole script from.entry world.old
        → StandsAt whole script last world.new × IsAt whole script now world.new) }
    ensures taken { IfOk result (λ now. now.point.taken ≡ last) }
    ensures within { IfOk result (λ now. IfSome now.left (IsWithin world.new)) }
    ensures short { IfOk result (λ now. now.lines + length now.rest.now ≤ from.entry.lines + length from.entry.rest.now) }
    ensures falls { IfErr result (λ short. (script : List ℕ) → IsAt whole script from.entry world.old → FallsShort whole script last world.new short) }
{
    let mut lines = from.lines;
    let mut point = from.point;
    let mut rest = from.rest;
    'lines: loop {
        match next_line(rest, whole) {
            NextLine::Nothing => return Err(Short::Ended),
            NextLine::TooLong => {
                return Err(Short::Fault {
                    line: lines + 1,
                    kind: ScriptFault::LineTooLong,
                });
            }
            NextLine::Line(line, behind) => {
                lines += 1;
                rest = behind;
                match obey(alloc, line, point, last, world) {
                    Ok(Advance::Passed(now)) => point = now,
                    Ok(Advance::Halted(begun, left)) => {
                        let point = StepPoint { begun, taken: last };
                        return Ok(ScriptPosition {
                            lines,
                            point,
                            left,
                            rest,
                        });
                    }
                    Err(stop) => return Err(stop_at(lines, stop)),
                }
            }
        }
    }
}

impl<'a> ScriptPosition<'a> {
    /// Before the first line of a script.
    pub fn first(script: &'a [u8]) -> ScriptPosition<'a>
        ensures at { (whole : Bool) (w : WorldValue) → IsMade 2 2 2 editions.Second w → IsAt whole script.now result w }
        ensures taken { result.point.taken ≡ 0 }
        ensures within { (w : WorldValue) → IfSome result.left (IsWithin w) }
        ensures short { result.lines + length result.rest.now ≤ length script.now }
    {
        ScriptPosition {
            lines: 0,
            point: StepPoint {
                begun: Begun::Nothing,
                taken: 0,
            },
            left: None,
            rest: script,
        }
    }
}

/// Carries a run of a script on from its place up to a step, without any output: it stands after that step then, in
/// the middle of a command or at its end. An error is why it does not come so far. Where the script is not `whole`, a
/// last piece without a line feed is no line.
pub fn go_on<'a>(
    alloc: Global,
    whole: bool,
    place: ScriptPosition<'a>,
    last: u64,
    world: &mut World,
) -> Result<ScriptPosition<'a>, Short>
    requires below { place.point.taken < last }
    requires within { IfSome place.left (IsWithin world.old) }
    requires short { place.lines + length place.rest.now < 2 ^ 62 }
    ensures stands { IfOk result (λ now. (script : List ℕ) → IsAt whole script place.entry world.old
        → StandsAt whole script last world.new × IsAt whole script now world.new) }
    ensures taken { IfOk result (λ now. now.point.taken ≡ last) }
    ensures within { IfOk result (λ now. IfSome now.left (IsWithin world.new)) }
    ensures short { IfOk result (λ now. now.lines + length now.rest.now ≤ place.entry.lines + length place.entry.rest.now) }
    ensures falls { IfErr result (λ short. (script : List ℕ) → IsAt whole script place.entry world.old → FallsShort whole script last world.new short) }
{
    let ScriptPosition {
        lines,
        point,
        left,
        rest,
    } = place;
    let Some(left) = left else {
        let between = ScriptPosition {
            lines,
            point,
            left: None,
            rest,
        };
        return through_lines(alloc, whole, between, last, world);
    };
    let begun = point.begun;
    match play(alloc, world, left, point.taken, last) {
        Played::Halted(left) => {
            let point = StepPoint { begun, taken: last };
            Ok(ScriptPosition {
                lines,
                point,
                left,
                rest,
            })
        }
        Played::Ended(taken) => {
            let point = StepPoint { begun, taken };
            let between = ScriptPosition {
                lines,
                point,
                left: None,
                rest,
            };
            through_lines(alloc, whole, between, last, world)
        }
    }
}

/// Carries a script out in a new world of two columns, two rows and two processes, without any output, until it has
/// taken n steps: it stands after the last one then, in the middle of a command or at its end. An error is why
/// it does not come so far; where the script has ended, the world is the one that it leads to. Where the script is not `whole`, a last piece without a line feed is no line.
pub fn reach(
    alloc: Global,
    script: &[u8],
    whole: bool,
    last: u64,
    world: &mut World,
) -> Result<(), Short>
    requires made { IsMade 2 2 2 editions.Second world.old }
    requires some { 1 ≤ last }
    requires short { length script.now < 2 ^ 62 }
    ensures { Reaches whole script.now last world.new result }
{
    match go_on(alloc, whole, ScriptPosition::first(script), last, world) {
        Ok(_place) => Ok(()),
        Err(short) => Err(short),
    }
}
