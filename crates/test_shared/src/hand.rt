//! A process, which makes drawn calls and keeps what it was answered.

ghost use Rattle.std.specs.Prelude.{◌≡◌};
ghost use Rattle.ds_shared.specs.Answers.{IsOf};

use crate::account::Account;
use crate::draw::{Draw, DrawnCall, Limit};
use crate::grid::{Values, cell_of};
use ds_core::ends::CallEnd;
use ds_eval::value::Value;
use ds_formula::cells::Cell;
use ds_shared::ended::Ended;
use ds_shared::pass::Pass;
use ds_shared::sheet::SharedSheet;
use ds_state::answer::{Answer, EditEnd};
use ds_state::show::ShowEnd;
use ds_state::work::WorkEnd;
use pm_board::fuse::Whole;
use std::alloc::Global;

/// What a process draws, and what it was answered.
#[derive(Drop)]
pub struct Hand {
    /// What it draws.
    pub draw: Draw,
    /// What it was answered about its edits.
    pub account: Account,
    /// How many steps its calls took.
    pub steps: u64,
    /// The values of its first settled report that no sheet of these texts has.
    pub stray: Option<Values>,
}

/// A process that may act.
#[derive(Drop)]
pub struct Member {
    /// The pass of the process.
    pub pass: Pass,
    /// What it draws, and what it was answered.
    pub hand: Hand,
}

impl Hand {
    /// The hand of the process with this number, of this seed.
    pub fn new(alloc: Global, seed: u64, process: u64) -> Hand {
        Hand {
            draw: Draw::new(seed, process),
            account: Account::new(alloc),
            steps: 0,
            stray: None,
        }
    }

    // Settled values are those of a sheet that can be.
    fn look(&mut self, values: Option<Vec<Value>>, possible: &[Values]) {
        let Some(seen) = values.as_ref().and_then(|values| crate::grid::four(values)) else {
            return;
        };
        if self.stray.is_none() && !possible.contains(&seen) {
            self.stray = Some(seen);
        }
    }
}

// An end of a call of one kind, among those of calls of any kind.
fn among_all<E: CallEnd>(ended: Ended<E>) -> Ended<Answer> {
    match ended {
        Ended::Answered(end) => Ended::Answered(end.answer()),
        Ended::Refused(refusal) => Ended::Refused(refusal),
        Ended::Stopped => Ended::Stopped,
    }
}

// An edit of the cell with this number, under a limit.
fn edit(
    alloc: Global,
    sheet: &SharedSheet,
    pass: &mut Pass,
    cell: usize,
    text: &str,
    limit: &mut Limit,
) -> Option<Ended<EditEnd>>
    requires { IsOf sheet.now pass.old }
    ensures { IsOf sheet.now pass.new }
{
    let cell = cell_of(sheet.layout().shape, cell)?;
    Some(sheet.edit(alloc, pass, cell, text.as_bytes(), limit))
}

// Work on the cell with this number, under a limit.
fn work(
    alloc: Global,
    sheet: &SharedSheet,
    pass: &mut Pass,
    cell: usize,
    limit: &mut Limit,
) -> Option<Ended<WorkEnd>>
    requires { IsOf sheet.now pass.old }
    ensures { IsOf sheet.now pass.new }
{
    let cell = cell_of(sheet.layout().shape, cell)?;
    Some(sheet.work(alloc, pass, cell, limit))
}

/// A call by this pass under a limit: how it ended, and the values of a settled report. It is none where the cell is
/// none of the sheet's.
pub fn call(
    alloc: Global,
    sheet: &SharedSheet,
    pass: &mut Pass,
    call: DrawnCall,
    limit: &mut Limit,
) -> (Option<Ended<Answer>>, Option<Vec<Value>>)
    requires { IsOf sheet.now pass.old }
    ensures { IsOf sheet.now pass.new }
{
    match call {
        DrawnCall::Edit { cell, text } => (
            edit(alloc, sheet, pass, cell, text, limit).map(among_all),
            None,
        ),
        DrawnCall::Work(cell) => (work(alloc, sheet, pass, cell, limit).map(among_all), None),
        DrawnCall::Recover => (Some(among_all(sheet.recover(alloc, pass, limit))), None),
        DrawnCall::Show => {
            let (ended, values) = sheet.show(alloc, pass, limit);
            (Some(among_all(ended)), values)
        }
    }
}

impl Member {
    /// Makes a call under a limit, and notes how it ended.
    pub fn make(
        &mut self,
        alloc: Global,
        sheet: &SharedSheet,
        asked: DrawnCall,
        mut limit: Limit,
        possible: &[Values],
    )
        requires { IsOf sheet.now self.old.pass }
        ensures { IsOf sheet.now self.new.pass }
    {
        let (ended, values) = call(alloc, sheet, &mut self.pass, asked, &mut limit);
        self.hand.steps = self.hand.steps.wrapping_add(limit.taken);
        self.hand.look(values, possible);
        if let Some(ended) = ended {
            self.hand.account.note(asked, ended);
        }
    }
}

/// Drawn calls by a process, until they took n steps.
pub fn play(
    alloc: Global,
    sheet: &SharedSheet,
    mut member: Member,
    steps: u64,
    possible: &[Values],
) -> Member
    requires { IsOf sheet.now member.pass }
    ensures { IsOf sheet.now result.pass }
{
    let until = member.hand.steps.wrapping_add(steps);
    for _turn in 0..steps {
        if member.hand.steps < until {
            let is_stopped = member.hand.account.is_stopped;
            let asked = member.hand.draw.call(is_stopped);
            let limit = member.hand.draw.limit();
            member.make(alloc, sheet, asked, limit, possible);
        }
    }
    member
}

/// Recovers a process, with nothing that stops it.
pub fn recover(alloc: Global, sheet: &SharedSheet, member: &mut Member)
    requires { IsOf sheet.now member.old.pass }
    ensures { IsOf sheet.now member.new.pass }
{
    member.make(alloc, sheet, DrawnCall::Recover, Limit::none(), &[]);
}

/// Works on all cells until a report is settled, and answers its values. `None` where rounds are not enough.
pub fn settle(alloc: Global, sheet: &SharedSheet, member: &mut Member) -> Option<Vec<Value>>
    requires { IsOf sheet.now member.old.pass }
    ensures { IsOf sheet.now member.new.pass }
{
    for _round in 0..crate::grid::CELLS + 2 {
        for cell in 0..crate::grid::CELLS {
            member.make(alloc, sheet, DrawnCall::Work(cell), Limit::none(), &[]);
        }
    }
    match sheet.show(alloc, &mut member.pass, &mut Whole) {
        (Ended::Answered(ShowEnd::Settled), values) => values,
        _ => None,
    }
}
