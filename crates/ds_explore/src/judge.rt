//! Whether an outcome is one that may be.

ghost use Rattle.std.specs.Prelude.{◌≡◌, ◌≢◌, ◌++◌, List, IfOk, IsFalse, IsTrue, OnOk, length, map, option_copied, option_map, true};
ghost use Rattle.ds_explore.specs.Judging.{AddsValueFlaws, EndsIn, FitsValue, IsJudgeOf, IsJudged, JudgesReport, JudgesValues, answer_at, any_below, asked_in, asked_of, edit_at, flaws_below, has_text, is_contradicted, is_done, is_done_at, is_done_in, is_done_with, is_overtaken_by_none, is_refused, is_reported_done, is_reported_otherwise, is_reported_twice, is_text, is_undone, may_hold, plain_asked, process_flaw, same_bool, same_end, settle_flaw, recovery_at, text_flaw, texts_in, texts_of};
ghost use Rattle.ds_explore.specs.declared.flaw.Flaw.{Flaw};
ghost use Rattle.ds_state.specs.Value.{WorldValue};

use crate::ends::{OutcomeEnding, end_order, values};
use crate::flaw::{Flaw, add};
use ds_calls::settle::SettleEnd;
use ds_eval::value::Value;
use ds_formula::cells::Shape;
use ds_state::answer::{Answer, EditEnd};
use ds_state::edit::EditCall;
use ds_state::recovery::{LastEdit, RecoveryEnd};
use ds_state::refusal::Refusal;
use ds_state::show::ShowEnd;
use ds_state::shown;
use ds_state::situation::Situation;
use ds_state::world::World;
use ds_text_values::values::evaluated;
use std::alloc::{AllocError, Global};

/// An edit under way where the script ends.
#[derive(Drop)]
pub(crate) struct Asked {
    number: usize,
    cell: usize,
    text: Vec<u8>,
}

/// What outcomes are judged by: where the script ends, the edits under way, and the texts of the cells.
#[derive(Drop)]
pub(crate) struct Judge {
    // The edit of each process, where it is in one.
    asked: Vec<Option<Asked>>,
    // The text of each cell.
    texts: Vec<Vec<u8>>,
    // The text of each cell that a crash leaves.
    crashed: Vec<Vec<u8>>,
}

/// The text of each cell.
fn texts(alloc: Global, world: &World) -> Result<Vec<Vec<u8>>, AllocError>
    ensures { IfOk result (λ texts. texts_of texts.items ≡ texts_in world.now) }
{
    let mut texts = Vec::new(alloc);
    for cell in 0..world.words.layout().cells() {
        texts.push(shown::text(&world.words, alloc, cell)?)?;
    }
    Ok(texts)
}

// The texts of the cells after a crash of a copy of the world.
fn crashed_texts(alloc: Global, world: &World) -> Result<Vec<Vec<u8>>, AllocError>
    ensures { IfOk result (λ texts. (lost : WorldValue) × EndsIn true world.now lost × (texts_of texts.items ≡ texts_in lost)) }
{
    let mut copy = world.copy(alloc)?;
    end_order(alloc, &mut copy, true);
    texts(alloc, &copy)
}

// The edit that a call carries out.
fn asked_by(alloc: Global, call: &EditCall) -> Result<Asked, AllocError>
    ensures { IfOk result (λ asked. plain_asked asked ≡ asked_of call.now) }
{
    Ok(Asked {
        number: call.number,
        cell: call.cell,
        text: Vec::from_slice(alloc, call.text.as_slice())?,
    })
}

// The edit that a process in this situation carries out, if it is in one.
fn edit_of(alloc: Global, situation: &Situation) -> Result<Option<Asked>, AllocError>
    ensures { IfOk result (λ asked. option_map plain_asked asked ≡ asked_in situation.now) }
{
    match situation {
        Situation::Editing(call) => Ok(Some(asked_by(alloc, call)?)),
        _ => Ok(None),
    }
}

// The edits under way.
fn all_asked(alloc: Global, situations: &[Situation]) -> Result<Vec<Option<Asked>>, AllocError>
    ensures { IfOk result (λ all. map (option_map plain_asked) all.items ≡ map asked_in situations.now) }
{
    let mut all = Vec::new(alloc);
    for number in 0..situations.len() {
        all.push(edit_of(alloc, &situations[number])?)?;
    }
    Ok(all)
}

// Whether a recovery has reported that this edit of its process is done: of another edit, or of none, that it is not.
fn is_reported_done(asked: &Asked, resolved: LastEdit) -> bool
    ensures { result ≡ is_reported_done asked.now resolved }
{
    resolved.number == asked.number && resolved.cell == asked.cell && resolved.counts
}

// What the recovery of a process came to after the order.
fn recovery_at(ending: &OutcomeEnding, process: usize) -> Option<Result<RecoveryEnd, Refusal>>
    ensures { result ≡ recovery_at ending.now process }
{
    ending.resolved.get(process).copied()
}

// What the call of a process was answered.
fn answer_at(ending: &OutcomeEnding, process: usize) -> Option<Answer>
    ensures { result ≡ answer_at ending.now process }
{
    match ending.answers.get(process) {
        Some(answer) => *answer,
        None => None,
    }
}

// Whether an edit is done, by what the recovery of its process came to.
fn is_done(asked: &Asked, resolved: Option<Result<RecoveryEnd, Refusal>>) -> bool
    ensures { result ≡ is_done asked.now resolved }
{
    match resolved {
        Some(Ok(RecoveryEnd::Last(resolved))) => is_reported_done(asked, resolved),
        _ => false,
    }
}

// Whether the answer to an edit says otherwise than this, whether it is done.
fn is_contradicted(done: bool, answer: Option<Answer>) -> bool
    ensures { result ≡ is_contradicted done answer }
{
    match answer {
        Some(Answer::Edit(EditEnd::Done(_))) => !done,
        Some(Answer::Edit(EditEnd::Overtaken(_, _))) => done,
        _ => false,
    }
}

// Whether two recoveries reported the same.
fn same_end(one: RecoveryEnd, other: RecoveryEnd) -> bool
    ensures { result ≡ same_end one other }
{
    match (one, other) {
        (RecoveryEnd::Nothing, RecoveryEnd::Nothing) => true,
        (RecoveryEnd::Last(a), RecoveryEnd::Last(b)) => {
            a.number == b.number && a.cell == b.cell && same_bool(a.counts, b.counts)
        }
        _ => false,
    }
}

fn same_bool(one: bool, other: bool) -> bool
    ensures { result ≡ same_bool one other }
{
    if one { other } else { !other }
}

// Whether a call was a recovery, and the next one reports otherwise.
fn is_reported_twice(answer: Option<Answer>, again: Option<Result<RecoveryEnd, Refusal>>) -> bool
    ensures { result ≡ is_reported_twice answer again }
{
    match (answer, again) {
        (Some(Answer::Recovery(end)), Some(Ok(again))) => !same_end(end, again),
        (Some(Answer::Recovery(_)), _) => true,
        _ => false,
    }
}

// Whether a recovery is refused, or there was none.
fn is_refused(resolved: Option<Result<RecoveryEnd, Refusal>>) -> bool
    ensures { result ≡ is_refused resolved }
{
    match resolved {
        Some(Ok(_)) => false,
        _ => true,
    }
}

// Whether this is the edit that was asked of its process, and it is not done.
fn is_undone(
    asked: Option<&Asked>,
    number: usize,
    resolved: Option<Result<RecoveryEnd, Refusal>>,
) -> bool
    ensures { result ≡ is_undone (option_copied asked.entry) number resolved }
{
    match asked {
        Some(asked) => asked.number == number && !is_done(asked, resolved),
        None => false,
    }
}

// Whether an edit that was asked for is reported otherwise than it was answered.
fn is_reported_otherwise(
    asked: Option<&Asked>,
    resolved: Option<Result<RecoveryEnd, Refusal>>,
    answer: Option<Answer>,
) -> bool
    ensures { result ≡ is_reported_otherwise (option_copied asked.entry) resolved answer }
{
    match asked {
        Some(asked) => is_contradicted(is_done(asked, resolved), answer),
        None => false,
    }
}

// Whether the edit that was asked for is one of the cell, and done.
fn is_done_in(
    asked: Option<&Asked>,
    cell: usize,
    resolved: Option<Result<RecoveryEnd, Refusal>>,
) -> bool
    ensures { result ≡ is_done_in (option_copied asked.entry) cell resolved }
{
    match asked {
        Some(asked) => asked.cell == cell && is_done(asked, resolved),
        None => false,
    }
}

// Whether the edit that was asked for has this text.
fn has_text(asked: Option<&Asked>, text: &[u8]) -> bool
    ensures { result ≡ has_text (option_copied asked.entry) text.now }
{
    match asked {
        Some(asked) => asked.text.as_slice() == text,
        None => false,
    }
}

// Whether there is a text, and it is this one.
fn is_text(found: Option<&Vec<u8>>, text: &[u8]) -> bool
    ensures { result ≡ is_text (option_copied found.entry) text.now }
{
    match found {
        Some(found) => found.as_slice() == text,
        None => false,
    }
}

// What is wrong with how a settle ended.
fn settle_flaw(left: SettleEnd) -> Option<Flaw>
    ensures { result ≡ settle_flaw left }
{
    match left {
        SettleEnd::Left(0) => None,
        _ => Some(Flaw::NotClean),
    }
}

impl Judge {
    /// The judge of orders that begin in this world. An error means that an allocation failed.
    pub(crate) fn new(alloc: Global, world: &World) -> Result<Judge, AllocError>
        ensures { IfOk result (IsJudgeOf world.now) }
    {
        let asked = all_asked(alloc, &world.situations)?;
        let now = texts(alloc, world)?;
        let crashed = crashed_texts(alloc, world)?;
        Ok(Judge {
            asked,
            texts: now,
            crashed,
        })
    }

    // The edit of a process that is asked for.
    fn edit(&self, process: usize) -> Option<&Asked>
        ensures { option_copied result ≡ edit_at self.now process }
    {
        match self.asked.get(process) {
            Some(Some(asked)) => Some(asked),
            _ => None,
        }
    }

    // Whether a call was overtaken by an edit that is not done. A crash may have taken that one back.
    fn is_overtaken_by_none(&self, ending: &OutcomeEnding, answer: Option<Answer>) -> bool
        ensures { result ≡ is_overtaken_by_none self.now ending.now answer }
    {
        match answer {
            Some(Answer::Edit(EditEnd::Overtaken(_, by))) => {
                !ending.crashed
                    && is_undone(
                        self.edit(by.process),
                        by.number,
                        recovery_at(ending, by.process),
                    )
            }
            _ => false,
        }
    }

    // What is wrong with the answer and the report that a process got.
    fn process_flaw(&self, ending: &OutcomeEnding, process: usize) -> Option<Flaw>
        ensures { result ≡ process_flaw self.now ending.now process }
    {
        let resolved = recovery_at(ending, process);
        let answer = answer_at(ending, process);
        if is_refused(resolved) {
            return Some(Flaw::Refused(process));
        }
        if is_reported_twice(answer, resolved) {
            return Some(Flaw::ToldTwice(process));
        }
        if self.is_overtaken_by_none(ending, answer) {
            return Some(Flaw::OvertakenByNone(process));
        }
        if is_reported_otherwise(self.edit(process), resolved, answer) {
            return Some(Flaw::ToldOtherwise(process));
        }
        None
    }

    // What is wrong with the answers and the reports that processes got.
    fn process_flaws(&self, alloc: Global, ending: &OutcomeEnding) -> Result<Vec<Flaw>, AllocError>
        ensures { IfOk result (λ flaws. flaws.items ≡ flaws_below (process_flaw self.now ending.now) (length ending.now.answers.items)) }
    {
        let mut flaws = Vec::new(alloc);
        for process in 0..ending.answers.len() {
            add(&mut flaws, self.process_flaw(ending, process))?;
        }
        Ok(flaws)
    }

    // Whether an edit of the cell is done.
    fn is_any_done(&self, ending: &OutcomeEnding, cell: usize) -> bool
        ensures { result ≡ any_below (is_done_at self.now ending.now cell) (length self.now.asked.items) }
    {
        let mut any = false;
        for process in 0..self.asked.len() {
            any |= is_done_in(self.edit(process), cell, recovery_at(ending, process));
        }
        any
    }

    // Whether the edit of a process is one of the cell, done, and has this text.
    fn is_done_with(&self, ending: &OutcomeEnding, cell: usize, text: &[u8], process: usize) -> bool
        ensures { result ≡ is_done_with self.now ending.now cell text.now process }
    {
        is_done_in(self.edit(process), cell, recovery_at(ending, process))
            && has_text(self.edit(process), text)
    }

    // Whether an edit of the cell is done that has this text.
    fn is_any_done_with(&self, ending: &OutcomeEnding, cell: usize, text: &[u8]) -> bool
        ensures { result ≡ any_below (is_done_with self.now ending.now cell text.now) (length self.now.asked.items) }
    {
        let mut any = false;
        for process in 0..self.asked.len() {
            any |= self.is_done_with(ending, cell, text, process);
        }
        any
    }

    // Whether the cell may hold this text.
    fn may_hold(&self, ending: &OutcomeEnding, cell: usize, text: &[u8]) -> bool
        ensures { result ≡ may_hold self.now ending.now cell text.now }
    {
        if self.is_any_done(ending, cell) {
            self.is_any_done_with(ending, cell, text)
        } else {
            is_text(self.texts.get(cell), text) || is_text(self.crashed.get(cell), text)
        }
    }

    // What is wrong with the text of a cell.
    fn text_flaw(&self, ending: &OutcomeEnding, texts: &[Vec<u8>], cell: usize) -> Option<Flaw>
        ensures { result ≡ text_flaw self.now ending.now texts.now cell }
    {
        match texts.get(cell) {
            Some(text) => {
                if self.may_hold(ending, cell, text) {
                    None
                } else {
                    Some(Flaw::TextOfNone(cell))
                }
            }
            None => None,
        }
    }

    // What is wrong with the texts.
    fn text_flaws(
        &self,
        ending: &OutcomeEnding,
        texts: &[Vec<u8>],
        flaws: &mut Vec<Flaw>,
    ) -> Result<(), AllocError>
        ensures { OnOk result (flaws.new.items ≡ flaws.old.items ++ flaws_below (text_flaw self.now ending.now texts.now) (length texts.now)) }
    {
        for cell in 0..texts.len() {
            add(flaws, self.text_flaw(ending, texts, cell))?;
        }
        Ok(())
    }

    /// What is wrong with an order that left the calls so, after which this was answered, and that left this world. An error
    /// means that an allocation failed.
    pub(crate) fn flaws(
        &self,
        alloc: Global,
        world: &World,
        ending: &OutcomeEnding,
    ) -> Result<Vec<Flaw>, AllocError>
        ensures { IfOk result (λ flaws. IsJudged self.now world.now ending.now flaws.items) }
    {
        let mut flaws = self.process_flaws(alloc, ending)?;
        let texts = texts(alloc, world)?;
        self.text_flaws(ending, &texts, &mut flaws)?;
        add(&mut flaws, settle_flaw(ending.left))?;
        all_report_flaws(alloc, world, &texts, ending.reported, &mut flaws)?;
        Ok(flaws)
    }
}

// Whether there are two values that are the same, or none.
fn same_value(one: Option<&Value>, other: Option<&Value>) -> bool
    ensures same { IsTrue result → option_copied one.entry ≡ option_copied other.entry }
    ensures differ { IsFalse result → option_copied one.entry ≢ option_copied other.entry }
{
    match one {
        None => other.is_none(),
        Some(one) => match other {
            None => false,
            Some(other) => *one == *other,
        },
    }
}

// What is wrong with the value of a cell that is reported.
fn value_flaw(expected: &[Value], reported: &[Value], cell: usize) -> Option<Flaw>
    ensures { FitsValue expected.now reported.now cell result }
{
    if same_value(reported.get(cell), expected.get(cell)) {
        None
    } else {
        Some(Flaw::ValueOfNone(cell))
    }
}

// What is wrong with the values that are reported, where these are expected.
fn add_value_flaws(
    expected: &[Value],
    reported: &[Value],
    flaws: &mut Vec<Flaw>,
) -> Result<(), AllocError>
    ensures { OnOk result (AddsValueFlaws expected.now reported.now (length expected.now) flaws.old.items flaws.new.items) }
{
    for cell in 0..expected.len() {
        add(flaws, value_flaw(expected, reported, cell))?;
    }
    Ok(())
}

// The shape of the sheet.
fn shape_of(world: &World) -> Shape
    ensures { result ≡ world.now.sheet.layout.shape }
{
    world.words.layout().shape
}

// What is wrong with the values that process 0 has reported, where the cells have these texts.
fn value_flaws(
    alloc: Global,
    world: &World,
    texts: &[Vec<u8>],
    flaws: &mut Vec<Flaw>,
) -> Result<(), AllocError>
    ensures { OnOk result ((more : List Flaw) × JudgesValues world.now (texts_of texts.now) more × (flaws.new.items ≡ flaws.old.items ++ more)) }
{
    let expected = evaluated(alloc, shape_of(world), texts)?;
    add_value_flaws(&expected, values(world), flaws)
}

// What is wrong with a report that ended so.
#[tactic(auto, using(crate::proofs::Valued::unsettled_ok))]
fn all_report_flaws(
    alloc: Global,
    world: &World,
    texts: &[Vec<u8>],
    reported: Result<ShowEnd, Refusal>,
    flaws: &mut Vec<Flaw>,
) -> Result<(), AllocError>
    ensures { OnOk result ((more : List Flaw) × JudgesReport world.now (texts_of texts.now) reported more × (flaws.new.items ≡ flaws.old.items ++ more)) }
{
    match reported {
        Ok(ShowEnd::Settled) => value_flaws(alloc, world, texts, flaws),
        _ => add(flaws, Some(Flaw::NotSettled)),
    }
}
