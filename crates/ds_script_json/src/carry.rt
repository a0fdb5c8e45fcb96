//! Carries commands out, and says how each ended.

ghost use Rattle.std.specs.Prelude.{ℕ, List, ◌≡◌, ◌≤◌, IfOk};
ghost use Rattle.ds_state.specs.Value.{WorldValue, world_of};
ghost use Rattle.ds_calls.specs.Whole.{HasProcess};
ghost use Rattle.ds_recalculation.specs.Plans.{IsPlan};
ghost use Rattle.ds_script.specs.Orders.{CanDo, command_view, beginning};
ghost use Rattle.ds_script.specs.Doing.{Once, Calls, Drives, in_order, settle, to_point};
ghost use Rattle.ds_script.specs.Plays.{Played, IsNoRound, halt_text};
ghost use Rattle.ds_script_json.specs.CommandEnds.{CanShow, Obeys, text_of};

use ds_calls::finish::finish;
use ds_calls::settle::{SettleEnd, SettleStage, first_turn};
use ds_core::event::Event;
use ds_core::reply::Reply;
use ds_core::take::take;
use ds_formula::cells::Cell;
use ds_layout::place::{Edition, Place};
use ds_recalculation::recalculation::{planned, recalculate_in};
use ds_script::carry::{begins, new_world};
use ds_script::drive::{Halt, Until, drive, has_come};
use ds_script::order::{Call, Command};
use ds_script::point::PointName;
use ds_script::settle::begin as begin_work;
use ds_state::answer::Answer;
use ds_state::world::World;
use std::alloc::{AllocError, Global};

/// How a command has ended.
#[derive(Clone, Copy, Debug, PartialEq, Eq)]
pub enum CommandEnd {
    /// A new sheet is made, which is answered by nothing.
    Made,
    /// Its last event had this reply, to this process.
    Replied(usize, Reply),
    /// The call of this process has passed this point.
    At(usize, PointName),
    /// A settle or a recalculation by this process has ended so.
    Settled(usize, SettleEnd),
    /// It asks what this cell shows.
    Peeked(Cell),
    /// It asks for both sides of the word at this place.
    Read(Place),
}

// One event.
fn once(alloc: Global, world: &mut World, process: usize, event: &Event) -> CommandEnd
    ensures played { Played (Once process event.now) world.old (text_of world.new result) world.new }
    ensures shows { CanShow world.new result }
{
    CommandEnd::Replied(process, take(alloc, world, event))
}

// The beginning of a call.
fn begin(alloc: Global, world: &mut World, process: usize, call: Call<'_>) -> CommandEnd
    ensures played { Played (Once process (beginning process call.entry)) world.old (text_of world.new result) world.new }
    ensures shows { CanShow world.new result }
{
    CommandEnd::Replied(process, begins(alloc, world, process, call))
}

// Where a process was driven to.
fn halted(process: usize, halt: Halt) -> CommandEnd
    ensures text { (w : WorldValue) → text_of w result ≡ halt_text w process halt }
    ensures shows { (w : WorldValue) → CanShow w result }
{
    match halt {
        Halt::At(name) => CommandEnd::At(process, name),
        Halt::Replied(reply) => CommandEnd::Replied(process, reply),
    }
}

// `step`, `run`.
fn run(alloc: Global, world: &mut World, process: usize, until: Until) -> CommandEnd
    requires { IsNoRound until }
    ensures played { Played (Drives process until) world.old (text_of world.new result) world.new }
    ensures shows { CanShow world.new result }
{
    halted(process, drive(alloc, world, process, until))
}

// A whole call.
fn whole(alloc: Global, world: &mut World, process: usize, call: Call<'_>) -> CommandEnd
    ensures played { Played (Calls process (beginning process call.entry)) world.old (text_of world.new result) world.new }
    ensures shows { CanShow world.new result }
{
    match begins(alloc, world, process, call) {
        Reply::Begun(_) | Reply::Entered => {
            let answer: Answer = finish(alloc, world, process);
            CommandEnd::Replied(process, Reply::Answered(answer))
        }
        reply => CommandEnd::Replied(process, reply),
    }
}

// `run P to POINT`.
#[tactic(auto, using(crate::proofs::Carrying::says_so))]
fn run_to(alloc: Global, world: &mut World, process: usize, name: PointName) -> CommandEnd
    ensures played { Played (to_point process name ((world_of world.old).situation process)) world.old (text_of world.new result) world.new }
    ensures shows { CanShow world.new result }
{
    if has_come(world, process, name) {
        return CommandEnd::At(process, name);
    }
    run(alloc, world, process, Until::ToPoint(name))
}

// A settle by a process that the sheet does not have: its first work, if there is one, cannot begin.
fn settle_nobody(alloc: Global, world: &mut World, process: usize) -> CommandEnd
    requires { world.old.sheet.layout.processes ≤ process }
    ensures played { Played (settle world.old process) world.old (text_of world.new result) world.new }
    ensures shows { CanShow world.new result }
{
    match first_turn(world) {
        SettleStage::Ends(end) => CommandEnd::Settled(process, end),
        SettleStage::Works { rounds: _, cell } => {
            CommandEnd::Replied(process, begin_work(alloc, world, process, cell))
        }
    }
}

// `settle P`.
fn settle(alloc: Global, world: &mut World, process: usize) -> CommandEnd
    ensures played { Played (settle world.old process) world.old (text_of world.new result) world.new }
    ensures shows { CanShow world.new result }
{
    if process >= world.words.layout().processes {
        return settle_nobody(alloc, world, process);
    }
    CommandEnd::Settled(process, ds_calls::settle::settle(alloc, world, process))
}

// `recalc P`.
fn recalculate(alloc: Global, world: &mut World, process: usize) -> Result<CommandEnd, AllocError>
    requires { HasProcess world.old process }
    ensures played { IfOk result (λ end. (order : List ℕ) × IsPlan world.old order
        × Played (in_order world.old process order) world.old (text_of world.new end) world.new) }
    ensures shows { IfOk result (CanShow world.new) }
{
    let order = planned(alloc, world)?;
    let end = recalculate_in(alloc, world, process, order.as_slice());
    Ok(CommandEnd::Settled(process, end))
}

/// Carries a command out, and says how it has ended: the text of that is the answer that `ds_script::carry::carry_out`
/// gives. An error means that an allocation failed.
#[tactic(auto, using(crate::proofs::Carrying::says_so))]
pub fn carry_out(
    alloc: Global,
    world: &mut World,
    command: Command<'_>,
) -> Result<CommandEnd, AllocError>
    requires { CanDo world.old.sheet.layout command }
    ensures obeys { IfOk result (λ end. Obeys world.old (command_view command.entry) end world.new) }
    ensures shows { IfOk result (λ end. CanShow world.new end) }
{
    let end = match command {
        Command::Sheet(layout) => {
            *world = new_world(alloc, layout, Edition::Second)?;
            CommandEnd::Made
        }
        Command::Layout(layout, edition) => {
            *world = new_world(alloc, layout, edition)?;
            CommandEnd::Made
        }
        Command::Whole(process, call) => whole(alloc, world, process, call),
        Command::Begin(process, call) => begin(alloc, world, process, call),
        Command::Settle(process) => settle(alloc, world, process),
        Command::Recalculate(process) => recalculate(alloc, world, process)?,
        Command::Step(process) => run(alloc, world, process, Until::OneStep),
        Command::RunTo(process, name) => run_to(alloc, world, process, name),
        Command::Run(process) => run(alloc, world, process, Until::ToAnswer),
        Command::Stop(process) => once(alloc, world, process, &Event::Stop(process)),
        Command::Crash => once(alloc, world, 0, &Event::Crash),
        Command::Evict(place) => once(alloc, world, 0, &Event::Evict(place)),
        Command::Peek(cell) => CommandEnd::Peeked(cell),
        Command::Word(place) => CommandEnd::Read(place),
    };
    Ok(end)
}
