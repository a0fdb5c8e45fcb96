//! What is reported after an order: every process recovers, process 0 settles and reports.

ghost use Rattle.std.specs.Prelude.{◌≡◌, ◌<◌, IfOk, length, map};
ghost use Rattle.ds_explore_state.specs.States.{seat_of};
ghost use Rattle.ds_explore.specs.Judging.{AreAnswers, AreRecoveries, EndsIn, ReportsEnding, answer_text, replied, reported_in, texts_of};

use ds_calls::call::{whole_recovery, whole_show};
use ds_calls::settle::{SettleEnd, settle};
use ds_core::ends::CallEnd;
use ds_core::event::Event;
use ds_core::reply::Reply;
use ds_core::take::take;
use ds_eval::value::Value;
use ds_explore_state::position::ProcessState;
use ds_script::texts::{end_bytes, reply_bytes};
use ds_state::answer::Answer;
use ds_state::recovery::RecoveryEnd;
use ds_state::refusal::Refusal;
use ds_state::show::ShowEnd;
use ds_state::world::World;
use std::alloc::{AllocError, Global};

/// What calls were answered, and the texts of that.
#[derive(Drop)]
pub(crate) struct Said {
    /// What the call of each process was answered, if it was.
    pub(crate) answers: Vec<Option<Answer>>,
    /// The text of that, or of its stop.
    pub(crate) texts: Vec<Vec<u8>>,
}

/// What is reported after an order, and what the calls were answered before.
#[derive(Drop)]
pub(crate) struct OutcomeEnding {
    /// What the call of each process was answered, if it was.
    pub(crate) answers: Vec<Option<Answer>>,
    /// How the recovery of each process ended.
    pub(crate) resolved: Vec<Result<RecoveryEnd, Refusal>>,
    /// What the settle leaves.
    pub(crate) left: SettleEnd,
    /// How the report ended.
    pub(crate) reported: Result<ShowEnd, Refusal>,
    /// Whether the order ends with a crash.
    pub(crate) crashed: bool,
}

// What is replied to a call that has come to this.
fn replied<E: CallEnd>(came: Result<E, Refusal>) -> Reply
    ensures { result ≡ replied E.kind came }
{
    match came {
        Ok(end) => Reply::Answered(end.answer()),
        Err(refusal) => Reply::Refused(refusal),
    }
}

// The text of what a process's call was answered, in this world; else this one.
fn answer_text(
    alloc: Global,
    world: &World,
    process: usize,
    answer: Option<Answer>,
    other: &[u8],
) -> Result<Vec<u8>, AllocError>
    ensures { IfOk result (λ text. text.items ≡ answer_text world.now process answer other.now) }
{
    match answer {
        Some(answer) => reply_bytes(alloc, world, process, Reply::Answered(answer)),
        None => Vec::from_slice(alloc, other),
    }
}

// What a process's call was answered that an order has left so, and the text of that, or of its stop.
fn said_by(
    alloc: Global,
    world: &World,
    process: usize,
    seat: &ProcessState,
) -> Result<(Option<Answer>, Vec<u8>), AllocError>
    ensures { IfOk result (λ said. (said.0 ≡ seat.now.answer) × (said.1.items ≡ answer_text world.now process seat.now.answer seat.now.text.items)) }
{
    let answer = seat.answer;
    let text = answer_text(alloc, world, process, answer, &seat.text)?;
    Ok((answer, text))
}

/// What the calls of an order were answered that ends in this world, and has left its processes so. An error means that
/// an allocation failed.
pub(crate) fn what_was_said(
    alloc: Global,
    world: &World,
    seats: &[ProcessState],
) -> Result<Said, AllocError>
    ensures { IfOk result (λ said. AreAnswers world.now (map seat_of seats.now) said.answers.items (texts_of said.texts.items)) }
{
    let mut answers = Vec::new(alloc);
    let mut texts = Vec::new(alloc);
    for process in 0..seats.len() {
        let (answer, text) = said_by(alloc, world, process, &seats[process])?;
        answers.push(answer)?;
        texts.push(text)?;
    }
    Ok(Said { answers, texts })
}

/// An order ends in this world, with a crash or without one.
pub(crate) fn end_order(alloc: Global, world: &mut World, crashed: bool)
    ensures { EndsIn crashed world.old world.new }
{
    if crashed {
        let _crashed = take(alloc, world, &Event::Crash);
    }
}

// What recoveries came to, and their texts.
#[derive(Drop)]
struct Recovered {
    resolved: Vec<Result<RecoveryEnd, Refusal>>,
    text: Vec<u8>,
}

// Each process recovers, in their order.
fn recover(alloc: Global, world: &mut World) -> Result<Recovered, AllocError>
    ensures recoveries { IfOk result (λ recovered. AreRecoveries world.old recovered.resolved.items recovered.text.items world.new) }
    ensures all { IfOk result (λ recovered. length recovered.resolved.items ≡ world.old.sheet.layout.processes) }
{
    let mut resolved = Vec::new(alloc);
    let mut text = Vec::new(alloc);
    for process in 0..world.words.layout().processes {
        if process >= world.words.layout().processes {
            return Err(AllocError);
        }
        let came = whole_recovery(alloc, world, process);
        let line = reply_bytes(alloc, world, process, replied(came))?;
        text.extend_from_slice(&line)?;
        resolved.push(came)?;
    }
    Ok(Recovered { resolved, text })
}

/// Every process recovers, after a crash or not; then process 0 settles, and reports: what that came to, after these
/// answers, and its text. An error means that an allocation failed.
pub(crate) fn end(
    alloc: Global,
    world: &mut World,
    answers: Vec<Option<Answer>>,
    crashed: bool,
) -> Result<(OutcomeEnding, Vec<u8>), AllocError>
    ensures reports { IfOk result (λ end. ReportsEnding world.old end.0 end.1.items world.new) }
    ensures answers { IfOk result (λ end. end.0.answers ≡ answers) }
    ensures crashed { IfOk result (λ end. end.0.crashed ≡ crashed) }
{
    let Recovered { resolved, mut text } = recover(alloc, world)?;
    let left = settle(alloc, world, 0);
    let settled = end_bytes(alloc, world, 0, left)?;
    let reported = whole_show(alloc, world, 0);
    let line = reply_bytes(alloc, world, 0, replied(reported))?;
    text.extend_from_slice(&settled)?;
    text.extend_from_slice(&line)?;
    let ending = OutcomeEnding {
        answers,
        resolved,
        left,
        reported,
        crashed,
    };
    Ok((ending, text))
}

/// The values that process 0 has reported.
pub(crate) fn values(world: &World) -> &[Value]
    ensures { result.now ≡ reported_in world.now }
{
    if 0 < world.situations.len() {
        world.reports.of(0)
    } else {
        &[]
    }
}
