//! A work that another process comes between at each of its steps: no value of an old text stays.

ghost use Rattle.std.specs.Prelude.{◌≡◌, All, IfSome};
ghost use Rattle.ds_formula.specs.Cells.{IsInside};
ghost use Rattle.ds_shared.specs.Answers.{IsOf, IsPastOf};

use ds_eval::value::Value;
use ds_formula::cells::{Cell, Shape};
use ds_layout::layout::Layout;
use ds_shared::ended::Ended;
use ds_shared::pass::Pass;
use ds_shared::sheet::SharedSheet;
use ds_state::answer::EditEnd;
use ds_state::work::WorkEnd;
use pm_board::fuse::{Fuse, Whole};
use std::alloc::Global;
use std::test::Fail;

// Another process, which edits the cell before the step with this number of the call that it is asked in.
#[derive(Drop)]
struct Meddler<'a> {
    alloc: Global,
    sheet: &'a SharedSheet,
    pass: Pass,
    cell: Cell,
    text: &'static str,
    before: u64,
    asked: u64,
    edited: Option<Ended<EditEnd>>,
    ghost pass_fits: { IsOf sheet.now pass },
    ghost inside: { IsInside sheet.now.board.layout.shape cell },
}

impl Fuse for Meddler<'_> {
    ghost said = { λ first now yeses noes. noes ≡ 0 };

    fn go(&mut self) -> bool {
        if self.asked == self.before {
            let ended = self.sheet.edit(
                self.alloc,
                &mut self.pass,
                self.cell,
                self.text.as_bytes(),
                &mut Whole,
            );
            self.edited = Some(ended);
        }
        self.asked = self.asked.wrapping_add(1);
        true
    }
}

// The passes of a sheet of two processes.
fn two(sheet: &SharedSheet, mut passes: Vec<Pass, Global>) -> Option<(Pass, Pass)>
    requires { All (λ p. IsOf sheet.now p) passes.items }
    ensures { IfSome result (λ r. IsOf sheet.now r.0 × IsOf sheet.now r.1) }
{
    let second = passes.pop()?;
    let first = passes.pop()?;
    Some((first, second))
}

/// What comes of a work that is met.
#[derive(Clone, Copy, Debug, PartialEq, Eq)]
struct Outcome {
    /// How the edit that came between ended; none where the work was over.
    edited: Option<Ended<EditEnd>>,
    /// How the work ended.
    worked: Ended<WorkEnd>,
    /// The cell's value in a report then, where that is settled.
    first: Option<Value>,
    /// The cell's value in a report after one more work.
    last: Option<Value>,
}

// The value of the one cell in a report, where that is settled.
fn reported(alloc: Global, sheet: &SharedSheet, pass: &mut Pass) -> Option<Value>
    requires { IsOf sheet.now pass.old }
    ensures { IsOf sheet.now pass.new }
{
    let (_ended, values) = sheet.show(alloc, pass, &mut Whole);
    values?.first().copied()
}

// The one cell has the text 1, and a work on it is met before this step by an edit with the text 2.
fn met(alloc: Global, before: u64) -> Option<Outcome> {
    let shape = Shape::new(1, 1)?;
    let cell = Cell { column: 0, row: 0 };
    let (sheet, _past, passes) = SharedSheet::make(alloc, Layout::new(shape, 2)?).ok()?;
    let (mut first, second) = two(&sheet, passes)?;
    if !sheet.layout().shape.contains(cell) {
        return None;
    }
    let _old = sheet.edit(alloc, &mut first, cell, b"1", &mut Whole);
    let mut meddler = Meddler {
        alloc,
        sheet: &sheet,
        pass: second,
        cell,
        text: "2",
        before,
        asked: 0,
        edited: None,
    };
    let worked = sheet.work(alloc, &mut first, cell, &mut meddler);
    let then = reported(alloc, &sheet, &mut first);
    let _again = sheet.work(alloc, &mut first, cell, &mut Whole);
    let last = reported(alloc, &sheet, &mut first);
    Some(Outcome {
        edited: meddler.edited,
        worked,
        first: then,
        last,
    })
}

// How many steps a work on a number takes that nobody meets: one for its mark, three for the claim, three for the head,
// the header and the text, two for its own value and kind, six to store, flush and write back these, one for the index row,
// and three to let the mark go.
const STEPS: u64 = 19;

// The step that lets the mark go: an edit before it finds the cell held.
const CLEARS: u64 = 16;

// What comes of a work on a cell with the text 1 that is met before this step by an edit with the text 2.
fn wanted(before: u64) -> Outcome {
    let meets = before < STEPS;
    let (worked, settles) = match before {
        0 | 1 => (WorkEnd::Published(true), true),
        2..=CLEARS => (WorkEnd::Again, false),
        _ => (WorkEnd::Published(true), !meets),
    };
    Outcome {
        edited: if meets {
            Some(Ended::Answered(EditEnd::Done(0)))
        } else {
            None
        },
        worked: Ended::Answered(worked),
        first: if settles { Some(shown(meets)) } else { None },
        last: Some(shown(meets)),
    }
}

// The value of the text that the cell has.
fn shown(is_edited: bool) -> Value {
    Value::Number(if is_edited { 2 } else { 1 })
}

#[test]
fn stale_tree(rt: HostRuntime) -> Result<(), Fail> {
    for before in 0..STEPS + 2 {
        assert_eq!(rt; met(rt.alloc(), before), Some(wanted(before)));
    }
    Ok(())
}
