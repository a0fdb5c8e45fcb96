//! A command, event by event.

ghost use Rattle.std.specs.Prelude.{◌≡◌, ◌<◌, ℕ, All, IfSome, Ok};
ghost use Rattle.ds_layout.specs.Places.{cells_of};
ghost use Rattle.ds_state.specs.Value.{WorldValue, world_of};
ghost use Rattle.ds_state.specs.declared.answer.Answer.TheVariants.{Work};
ghost use Rattle.ds_core.specs.declared.event.Event.TheVariants.{Step};
ghost use Rattle.ds_core.specs.declared.reply.Reply.TheVariants.{Answered};
ghost use Rattle.ds_script.specs.declared.drive.Until.TheVariants.{InRound, ToPoint};
ghost use Rattle.ds_calls.specs.Settling.{IsInTurn};
ghost use Rattle.ds_recalculation.specs.Recalculations.{stop_of};
ghost use Rattle.ds_script.specs.Doing.{after_work, at_turn, called, driven, ended, entered, gone, in_order, offered, stepped, to_point};
ghost use Rattle.ds_script.specs.Plays.{WantsStep};
ghost use Rattle.ds_script.specs.ScriptTurns.{Remains, IsStep, IsWithin, TakesTurn};

use crate::drive::{Until, has_come};
use crate::point::PointName;
use crate::settle::begin;
use ds_calls::finish::step_once;
use ds_calls::settle;
use ds_core::reply::Reply;
use ds_recalculation::recalculation::{is_marked, stop_of};
use ds_state::answer::Answer;
use ds_state::work::WorkEnd;
use ds_state::world::World;
use ds_work::offer::offer_own;
use std::alloc::Global;

/// What is left of a command that has not ended.
#[derive(Debug, Drop)]
pub enum Left {
    /// The process is driven.
    Drives(usize, Until),
    /// A settle of the process, with n rounds left after this one, works on the cell with this number, and goes
    /// on after it.
    Works {
        /// The process.
        process: usize,
        /// How many rounds are left after this one.
        rounds: usize,
        /// The cell, by its number.
        cell: usize,
    },
    /// A recalculation of the process works on the cell with this number, and goes on with the rest of its order.
    WorksInOrder {
        /// The process.
        process: usize,
        /// The cell, by its number.
        cell: usize,
        /// The cells that are left of the order.
        rest: Vec<usize>,
    },
    /// The process is driven through a work of a recalculation, which goes on with the rest of its order.
    DrivesInOrder {
        /// The process.
        process: usize,
        /// The cells that are left of the order.
        rest: Vec<usize>,
    },
}

/// One event of a command.
#[derive(Debug, Drop)]
pub struct CommandTurn {
    /// Whether it was a step that was taken.
    pub stepped: bool,
    /// What the event was answered.
    pub reply: Reply,
    /// What is left of the command after it; none where the command has ended.
    pub left: Option<Left>,
}

/// What is left of a command that drives a process up to a point: nothing where that is passed.
pub fn to_point(world: &World, process: usize, name: PointName) -> Option<Left>
    ensures remains { Remains result (to_point process name ((world_of world.now).situation process)) }
    ensures within { IfSome result (IsWithin world.now) }
    ensures same { IfSome result (λ next. next ≡ Left.Drives process (ToPoint name)) }
{
    if has_come(world, process, name) {
        None
    } else {
        Some(Left::Drives(process, Until::ToPoint(name)))
    }
}

/// What is left of a settle by the process at this turn of its: nothing where it ends.
pub fn left_of(process: usize, turn: settle::SettleStage) -> Option<Left>
    ensures remains { (w : WorldValue) → Remains result (at_turn w process turn) }
    ensures within { (w : WorldValue) → IsInTurn (cells_of w.sheet.layout) turn → IfSome result (IsWithin w) }
{
    match turn {
        settle::SettleStage::Ends(_) => None,
        settle::SettleStage::Works { rounds, cell } => Some(Left::Works {
            process,
            rounds,
            cell,
        }),
    }
}

/// What is left once the beginning of a call was answered: once begun, the process is driven.
pub fn after_begin(process: usize, until: Until, reply: Reply) -> Option<Left>
    ensures remains { (w : WorldValue) → Remains result (called w process until reply) }
    ensures same { IfSome result (λ next. next ≡ Left.Drives process until) }
{
    match reply {
        Reply::Begun(_) | Reply::Entered => Some(Left::Drives(process, until)),
        _ => None,
    }
}

// What is left once the process's work was offered its entry.
fn after_offer(world: &World, process: usize, until: Until) -> Option<Left>
    requires { IsWithin world.now (Left.Drives process until) }
    ensures remains { Remains result (offered world.now process until) }
    ensures within { IfSome result (IsWithin world.now) }
    ensures same { IfSome result (λ next. next ≡ Left.Drives process until) }
{
    match until {
        Until::ToPoint(name) => to_point(world, process, name),
        Until::OneStep | Until::ToAnswer | Until::InRound { rounds: _, cell: _ } => {
            Some(Left::Drives(process, until))
        }
    }
}

// What is left once the process has made a step.
fn after_step(world: &World, process: usize, until: Until) -> Option<Left>
    requires { IsWithin world.now (Left.Drives process until) }
    ensures remains { Remains result (stepped world.now process until) }
    ensures within { IfSome result (IsWithin world.now) }
{
    match until {
        Until::OneStep => None,
        Until::ToPoint(name) => to_point(world, process, name),
        Until::ToAnswer | Until::InRound { rounds: _, cell: _ } => {
            Some(Left::Drives(process, until))
        }
    }
}

// What is left of a settle once its work on the cell has ended so.
fn after_work(
    world: &World,
    process: usize,
    rounds: usize,
    cell: usize,
    end: WorkEnd,
) -> Option<Left>
    requires { cell < cells_of world.now.sheet.layout }
    ensures remains { Remains result (ended world.now process (InRound rounds cell) (Answered (Work end))) }
    ensures within { IfSome result (IsWithin world.now) }
{
    let next = settle::worked(world, rounds, cell, Ok(end));
    left_of(process, next)
}

// What is left once the process's call was answered: of a settle, where a work of its was.
fn after_answer(world: &World, process: usize, until: Until, answer: Answer) -> Option<Left>
    requires { IsWithin world.now (Left.Drives process until) }
    ensures remains { Remains result (ended world.now process until (Answered answer)) }
    ensures within { IfSome result (IsWithin world.now) }
{
    match until {
        Until::OneStep | Until::ToPoint(_) | Until::ToAnswer => None,
        Until::InRound { rounds, cell } => match answer {
            Answer::Work(end) => after_work(world, process, rounds, cell, end),
            _ => None,
        },
    }
}

// Work of a settle begins, or is refused.
fn begin_work(
    alloc: Global,
    world: &mut World,
    process: usize,
    rounds: usize,
    cell: usize,
) -> CommandTurn
    requires { cell < cells_of world.old.sheet.layout }
    ensures { TakesTurn (Left.Works process rounds cell) world.old result world.new }
{
    let reply = begin(alloc, world, process, cell);
    CommandTurn {
        stepped: false,
        reply,
        left: after_begin(process, Until::InRound { rounds, cell }, reply),
    }
}

// What is left once a step of the process had this reply.
fn after_reply(world: &World, process: usize, until: Until, reply: Reply) -> Option<Left>
    requires { IsWithin world.now (Left.Drives process until) }
    ensures remains { Remains result (driven world.now process until (Step process) reply) }
    ensures within { IfSome result (IsWithin world.now) }
{
    match reply {
        Reply::Stepped => after_step(world, process, until),
        Reply::Answered(answer) => after_answer(world, process, until, answer),
        _ => None,
    }
}

// Whether the reply says that a step was taken.
fn is_taken(reply: Reply) -> bool
    ensures { (p : ℕ) → IsStep result (Step p) reply }
{
    match reply {
        Reply::Stepped | Reply::Answered(_) => true,
        _ => false,
    }
}

// The process makes a step, if it can.
fn step(alloc: Global, world: &mut World, process: usize, until: Until) -> CommandTurn
    requires wants { WantsStep world.old process }
    requires within { IsWithin world.old (Left.Drives process until) }
    ensures { TakesTurn (Left.Drives process until) world.old result world.new }
{
    let reply = step_once(alloc, world, process);
    CommandTurn {
        stepped: is_taken(reply),
        reply,
        left: after_reply(world, process, until, reply),
    }
}

// The process's work is offered the entry that it waits for, or else the process makes a step.
fn go(alloc: Global, world: &mut World, process: usize, until: Until) -> CommandTurn
    requires { IsWithin world.old (Left.Drives process until) }
    ensures { TakesTurn (Left.Drives process until) world.old result world.new }
{
    world.is_always_good();
    if offer_own(world, process) {
        world.is_always_good();
        CommandTurn {
            stepped: false,
            reply: Reply::Stepped,
            left: after_offer(world, process, until),
        }
    } else {
        step(alloc, world, process, until)
    }
}

/// What is left of a recalculation by the process with these cells left of its order: it works on the first of them that is
/// marked; where none is, it settles.
pub fn in_order(world: &World, process: usize, order: Vec<usize>) -> Option<Left>
    requires { All (λ c. c < cells_of world.now.sheet.layout) order.items }
    ensures remains { Remains result (in_order world.now process order.items) }
    ensures within { IfSome result (IsWithin world.now) }
{
    let mut rest = order;
    while !rest.is_empty() {
        let cell = rest.remove(0);
        if is_marked(world, cell) {
            return Some(Left::WorksInOrder {
                process,
                cell,
                rest,
            });
        }
    }
    left_of(process, settle::first_turn(world))
}

// What is left of a recalculation once a work of its has ended so.
fn after_work_in_order(
    world: &World,
    process: usize,
    rest: Vec<usize>,
    end: WorkEnd,
) -> Option<Left>
    requires { All (λ c. c < cells_of world.now.sheet.layout) rest.items }
    ensures remains { Remains result (after_work world.now process rest.items (stop_of (Ok end))) }
    ensures within { IfSome result (IsWithin world.now) }
{
    match stop_of(Ok(end)) {
        Some(_) => None,
        None => in_order(world, process, rest),
    }
}

// What is left of a recalculation once the process's call had this answer.
fn after_answer_in_order(
    world: &World,
    process: usize,
    rest: Vec<usize>,
    answer: Answer,
) -> Option<Left>
    requires { All (λ c. c < cells_of world.now.sheet.layout) rest.items }
    ensures remains { Remains result (gone world.now process rest.items (Answered answer)) }
    ensures within { IfSome result (IsWithin world.now) }
{
    match answer {
        Answer::Work(end) => after_work_in_order(world, process, rest, end),
        _ => None,
    }
}

// What is left of a recalculation once a step of the work that it drives had this reply.
fn gone(world: &World, process: usize, rest: Vec<usize>, reply: Reply) -> Option<Left>
    requires { All (λ c. c < cells_of world.now.sheet.layout) rest.items }
    ensures remains { Remains result (gone world.now process rest.items reply) }
    ensures within { IfSome result (IsWithin world.now) }
{
    match reply {
        Reply::Stepped => Some(Left::DrivesInOrder { process, rest }),
        Reply::Answered(answer) => after_answer_in_order(world, process, rest, answer),
        _ => None,
    }
}

// What is left of a recalculation once the beginning of a work of its had this reply.
fn entered(process: usize, rest: Vec<usize>, reply: Reply) -> Option<Left>
    ensures remains { (w : WorldValue) → Remains result (entered w process rest.items reply) }
    ensures same { IfSome result (λ next. next ≡ Left.DrivesInOrder process rest) }
{
    match reply {
        Reply::Begun(_) | Reply::Entered => Some(Left::DrivesInOrder { process, rest }),
        _ => None,
    }
}

// Work of a recalculation begins, or is refused.
fn begin_in_order(
    alloc: Global,
    world: &mut World,
    process: usize,
    cell: usize,
    rest: Vec<usize>,
) -> CommandTurn
    requires { IsWithin world.old (Left.WorksInOrder process cell rest) }
    ensures { TakesTurn (Left.WorksInOrder process cell rest) world.old result world.new }
{
    let reply = begin(alloc, world, process, cell);
    CommandTurn {
        stepped: false,
        reply,
        left: entered(process, rest, reply),
    }
}

// A process in a work of a recalculation makes a step, if it can.
fn step_in_order(alloc: Global, world: &mut World, process: usize, rest: Vec<usize>) -> CommandTurn
    requires wants { WantsStep world.old process }
    requires within { IsWithin world.old (Left.DrivesInOrder process rest) }
    ensures { TakesTurn (Left.DrivesInOrder process rest) world.old result world.new }
{
    let reply = step_once(alloc, world, process);
    CommandTurn {
        stepped: is_taken(reply),
        reply,
        left: gone(world, process, rest, reply),
    }
}

// A process in a work of a recalculation is offered the entry that its work waits for, or else makes a step.
fn go_in_order(alloc: Global, world: &mut World, process: usize, rest: Vec<usize>) -> CommandTurn
    requires { IsWithin world.old (Left.DrivesInOrder process rest) }
    ensures { TakesTurn (Left.DrivesInOrder process rest) world.old result world.new }
{
    world.is_always_good();
    if offer_own(world, process) {
        world.is_always_good();
        CommandTurn {
            stepped: false,
            reply: Reply::Stepped,
            left: Some(Left::DrivesInOrder { process, rest }),
        }
    } else {
        step_in_order(alloc, world, process, rest)
    }
}

/// Takes the next event of a command.
pub fn take_turn(alloc: Global, world: &mut World, left: Left) -> CommandTurn
    requires { IsWithin world.old left }
    ensures { TakesTurn left world.old result world.new }
{
    match left {
        Left::Drives(process, until) => go(alloc, world, process, until),
        Left::Works {
            process,
            rounds,
            cell,
        } => begin_work(alloc, world, process, rounds, cell),
        Left::WorksInOrder {
            process,
            cell,
            rest,
        } => begin_in_order(alloc, world, process, cell, rest),
        Left::DrivesInOrder { process, rest } => go_in_order(alloc, world, process, rest),
    }
}
