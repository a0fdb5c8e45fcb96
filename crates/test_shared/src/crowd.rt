//! Four processes on one sheet, each in a thread of its own.

ghost use Rattle.std.specs.Prelude.{◌≡◌, All, IfSome};
ghost use Rattle.ds_shared.specs.Answers.{IsOf, IsPastOf, Rests};

use crate::draw::{DrawnCall, Limit};
use crate::gate::CrowdGate;
use crate::grid::Values;
use crate::hand::{Hand, Member, call, play, recover, settle};
use ds_eval::value::Value;
use ds_formula::cells::Shape;
use ds_layout::layout::Layout;
use ds_shared::ended::Ended;
use ds_shared::pass::{Pass, Past};
use ds_shared::sheet::{ClosedSheet, SharedSheet};
use ds_state::answer::Answer;
use std::alloc::Global;
use std::thread::{Threads, join};

/// How many processes there are.
pub const PROCESSES: usize = 4;

/// What four processes draw, and what they were answered.
#[derive(Drop)]
pub struct Hands {
    /// Process 0.
    pub first: Hand,
    /// Process 1.
    pub second: Hand,
    /// Process 2.
    pub third: Hand,
    /// Process 3.
    pub fourth: Hand,
}

/// Four processes that may act.
#[derive(Drop)]
pub struct Members {
    first: Member,
    second: Member,
    third: Member,
    fourth: Member,
}

/// A sheet, its past and its four processes.
#[derive(Drop)]
pub struct Crowd {
    sheet: SharedSheet,
    past: Past,
    members: Members,
    ghost past_fits: { IsPastOf sheet past },
    ghost first_fits: { IsOf sheet members.first.pass },
    ghost second_fits: { IsOf sheet members.second.pass },
    ghost third_fits: { IsOf sheet members.third.pass },
    ghost fourth_fits: { IsOf sheet members.fourth.pass },
}

/// How long threads play, and what they may see.
#[derive(Clone, Copy)]
pub struct Game<'a> {
    /// How many steps each makes.
    pub steps: u64,
    /// Where they wait for one another.
    pub gate: &'a CrowdGate,
    /// The values that a settled report may have.
    pub possible: &'a [Values],
}

impl Hands {
    /// The hands of four processes that have done nothing.
    pub fn new(alloc: Global, seed: u64) -> Hands {
        Hands {
            first: Hand::new(alloc, seed, 0),
            second: Hand::new(alloc, seed, 1),
            third: Hand::new(alloc, seed, 2),
            fourth: Hand::new(alloc, seed, 3),
        }
    }

    // Each process is stopped.
    fn stop(&mut self) {
        self.first.account.is_stopped = true;
        self.second.account.is_stopped = true;
        self.third.account.is_stopped = true;
        self.fourth.account.is_stopped = true;
    }
}

// The last one of a sheet's passes, which is taken out.
fn last(sheet: &SharedSheet, passes: &mut Vec<Pass, Global>) -> Option<Pass>
    requires { All (λ p. IsOf sheet.now p) passes.old.items }
    ensures left { All (λ p. IsOf sheet.now p) passes.new.items }
    ensures last { IfSome result (λ p. IsOf sheet.now p) }
{
    passes.pop()
}

// The four passes of a sheet, in the order of their processes.
fn seated(sheet: &SharedSheet, mut passes: Vec<Pass, Global>, hands: Hands) -> Option<Members>
    requires { All (λ p. IsOf sheet.now p) passes.items }
    ensures { IfSome result (λ m. IsOf sheet.now m.first.pass × IsOf sheet.now m.second.pass × IsOf sheet.now m.third.pass × IsOf sheet.now m.fourth.pass) }
{
    let fourth = last(sheet, &mut passes)?;
    let third = last(sheet, &mut passes)?;
    let second = last(sheet, &mut passes)?;
    let first = last(sheet, &mut passes)?;
    Some(Members {
        first: Member {
            pass: first,
            hand: hands.first,
        },
        second: Member {
            pass: second,
            hand: hands.second,
        },
        third: Member {
            pass: third,
            hand: hands.third,
        },
        fourth: Member {
            pass: fourth,
            hand: hands.fourth,
        },
    })
}

// Two threads, each with a process that makes drawn calls.
fn pair<R: Threads + Sync>(
    rt: &R,
    alloc: Global,
    sheet: &SharedSheet,
    one: Member,
    two: Member,
    game: Game,
) -> (Member, Member)
    requires { IsOf sheet.now one.pass × IsOf sheet.now two.pass }
    ensures { IsOf sheet.now result.0.pass × IsOf sheet.now result.1.pass }
{
    join(
        rt,
        || -> Member
            requires { IsOf sheet.now one.pass }
            ensures { IsOf sheet.entry.now result.pass }
        {
            game.gate.pass(4);
            play(alloc, sheet, one, game.steps, game.possible)
        },
        || -> Member
            requires { IsOf sheet.now two.pass }
            ensures { IsOf sheet.entry.now result.pass }
        {
            game.gate.pass(4);
            play(alloc, sheet, two, game.steps, game.possible)
        },
    )
}

// Three threads, each with a process that makes drawn calls.
fn trio<R: Threads + Sync>(
    rt: &R,
    alloc: Global,
    sheet: &SharedSheet,
    one: Member,
    two: Member,
    last: Member,
    game: Game,
) -> (Member, (Member, Member))
    requires { IsOf sheet.now one.pass × IsOf sheet.now two.pass × IsOf sheet.now last.pass }
    ensures { IsOf sheet.now result.0.pass × IsOf sheet.now result.1.0.pass × IsOf sheet.now result.1.1.pass }
{
    join(
        rt,
        || -> Member
            requires { IsOf sheet.now one.pass }
            ensures { IsOf sheet.entry.now result.pass }
        {
            game.gate.pass(4);
            play(alloc, sheet, one, game.steps, game.possible)
        },
        || -> (Member, Member)
            requires { IsOf sheet.now two.pass × IsOf sheet.now last.pass }
            ensures { IsOf sheet.entry.now result.0.pass × IsOf sheet.entry.now result.1.pass }
        { pair(rt, alloc, sheet, two, last, game) },
    )
}

// Four threads, each with a process that makes drawn calls.
fn four<R: Threads + Sync>(
    rt: &R,
    alloc: Global,
    sheet: &SharedSheet,
    members: Members,
    game: Game,
) -> Members
    requires { IsOf sheet.now members.first.pass × IsOf sheet.now members.second.pass × IsOf sheet.now members.third.pass × IsOf sheet.now members.fourth.pass }
    ensures { IsOf sheet.now result.first.pass × IsOf sheet.now result.second.pass × IsOf sheet.now result.third.pass × IsOf sheet.now result.fourth.pass }
{
    let Members {
        first,
        second,
        third,
        fourth,
    } = members;
    let (first, (second, (third, fourth))) = join(
        rt,
        || -> Member
            requires { IsOf sheet.now first.pass }
            ensures { IsOf sheet.entry.now result.pass }
        {
            game.gate.pass(4);
            play(alloc, sheet, first, game.steps, game.possible)
        },
        || -> (Member, (Member, Member))
            requires { IsOf sheet.now second.pass × IsOf sheet.now third.pass × IsOf sheet.now fourth.pass }
            ensures { IsOf sheet.entry.now result.0.pass × IsOf sheet.entry.now result.1.0.pass × IsOf sheet.entry.now result.1.1.pass }
        { trio(rt, alloc, sheet, second, third, fourth, game) },
    );
    Members {
        first,
        second,
        third,
        fourth,
    }
}

// The sheet is closed with these passes.
fn ended(sheet: SharedSheet, past: Past, passes: Vec<Pass, Global>) -> ClosedSheet
    requires past { IsPastOf sheet past }
    requires fit { All (λ p. IsOf sheet p) passes.items }
    ensures { Rests result }
{
    sheet.close(past, passes)
}

impl Crowd {
    /// Four processes on a new sheet of two columns and two rows. `None` where an allocation fails.
    pub fn new(alloc: Global, seed: u64) -> Option<Crowd> {
        let layout = Layout::new(Shape::new(2, 2)?, PROCESSES)?;
        let Ok((sheet, past, passes)) = SharedSheet::make(alloc, layout) else {
            return None;
        };
        let members = seated(&sheet, passes, Hands::new(alloc, seed))?;
        Some(Crowd {
            sheet,
            past,
            members,
        })
    }

    /// What a process draws, and what it was answered; for a number that no process has, that of the last one.
    pub fn hand(&self, process: usize) -> &Hand {
        let members = &self.members;
        match process {
            0 => &members.first.hand,
            1 => &members.second.hand,
            2 => &members.third.hand,
            _ => &members.fourth.hand,
        }
    }

    /// How many steps the calls of its threads took.
    pub fn steps(&self) -> u64 {
        let mut steps = 0u64;
        for process in 0..PROCESSES {
            steps = steps.wrapping_add(self.hand(process).steps);
        }
        steps
    }

    /// What fixes the words of its sheet.
    pub fn layout(&self) -> Layout {
        self.sheet.layout()
    }

    /// A call of a process under a limit: how it ended, and the values of a settled report. It is none where the process
    /// or the cell is none of the sheet's.
    pub fn call(
        &mut self,
        alloc: Global,
        process: usize,
        asked: DrawnCall,
        mut limit: Limit,
    ) -> (Option<Ended<Answer>>, Option<Vec<Value>>) {
        let sheet = &self.sheet;
        let members = &mut self.members;
        match process {
            0 => call(alloc, sheet, &mut members.first.pass, asked, &mut limit),
            1 => call(alloc, sheet, &mut members.second.pass, asked, &mut limit),
            2 => call(alloc, sheet, &mut members.third.pass, asked, &mut limit),
            3 => call(alloc, sheet, &mut members.fourth.pass, asked, &mut limit),
            _ => (None, None),
        }
    }

    /// The threads play.
    pub fn play<R: Threads + Sync>(self, rt: &R, alloc: Global, game: Game) -> Crowd {
        let Crowd {
            sheet,
            past,
            members,
        } = self;
        let members = four(rt, alloc, &sheet, members, game);
        Crowd {
            sheet,
            past,
            members,
        }
    }

    /// Each process recovers, and the first one works until a report is settled, whose values it answers.
    pub fn calm(self, alloc: Global) -> (Crowd, Option<Vec<Value>>) {
        let Crowd {
            sheet,
            past,
            members,
        } = self;
        let Members {
            mut first,
            mut second,
            mut third,
            mut fourth,
        } = members;
        recover(alloc, &sheet, &mut first);
        recover(alloc, &sheet, &mut second);
        recover(alloc, &sheet, &mut third);
        recover(alloc, &sheet, &mut fourth);
        let values = settle(alloc, &sheet, &mut first);
        let members = Members {
            first,
            second,
            third,
            fourth,
        };
        let crowd = Crowd {
            sheet,
            past,
            members,
        };
        (crowd, values)
    }

    /// The sheet is closed. `None` where an allocation fails.
    pub fn close(self, alloc: Global) -> Option<(ClosedSheet, Hands)>
        ensures { IfSome result (λ r. Rests r.0) }
    {
        let Crowd {
            sheet,
            past,
            members,
        } = self;
        let Members {
            first,
            second,
            third,
            fourth,
        } = members;
        let mut hands = Hands {
            first: first.hand,
            second: second.hand,
            third: third.hand,
            fourth: fourth.hand,
        };
        let mut passes: Vec<Pass, Global> = Vec::with_capacity(alloc, 4).ok()?;
        passes.push(first.pass).ok()?;
        passes.push(second.pass).ok()?;
        passes.push(third.pass).ok()?;
        passes.push(fourth.pass).ok()?;
        hands.stop();
        Some((ended(sheet, past, passes), hands))
    }
}

/// A closed sheet is opened again. `None` where an allocation fails.
pub fn reopened(alloc: Global, closed: ClosedSheet, hands: Hands) -> Option<Crowd>
    requires { Rests closed }
{
    match closed.reopen(alloc) {
        Ok((sheet, past, passes)) => {
            let members = seated(&sheet, passes, hands)?;
            Some(Crowd {
                sheet,
                past,
                members,
            })
        }
        Err(closed) => {
            closed.free();
            None
        }
    }
}
