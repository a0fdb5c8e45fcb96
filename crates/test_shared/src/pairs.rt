// Two passes of a small sheet, in threads and one after the other: edits, works, reports, crashes and what is reported.

ghost use Rattle.std.specs.Prelude.{◌≡◌, ◌+◌, ◌<◌, All, IfSome};
ghost use Rattle.ds_formula.specs.Cells.{IsInside};
ghost use Rattle.ds_shared.specs.Answers.{IsOf, IsPastOf, Rests};

use ds_eval::value::Value;
use ds_formula::cells::{Cell, Shape};
use ds_formula::fault::{FaultKind, TextFault};
use ds_layout::layout::Layout;
use ds_layout::place::Place;
use ds_shared::ended::Ended;
use ds_shared::pass::{Pass, Past};
use ds_shared::sheet::{ClosedSheet, SharedSheet};
use ds_state::answer::{EditEnd, Other};
use ds_state::recovery::{LastEdit, RecoveryEnd};
use ds_state::refusal::Refusal;
use ds_state::show::ShowEnd;
use ds_state::shown::SheetReader;
use pm_board::fuse::{Fuse, Whole};
use std::alloc::{AllocError, Global};
use std::test::Fail;
use std::thread::{Threads, join};

#[derive(Drop)]
struct Times {
    left: u64,
}

impl Fuse for Times {
    ghost said = { λ first now yeses noes. first.left ≡ now.left + yeses };

    fn go(&mut self) -> bool {
        if self.left == 0 {
            return false;
        }
        self.left -= 1;
        true
    }
}

// The passes of a sheet of two processes.
fn two(sheet: &SharedSheet, mut passes: Vec<Pass, Global>) -> Option<(Pass, Pass)>
    requires { All (λ p. IsOf sheet.now p) passes.items }
    ensures { IfSome result (λ r. IsOf sheet.now r.0 × IsOf sheet.now r.1) }
{
    let second = passes.pop()?;
    let first = passes.pop()?;
    Some((first, second))
}

// A sheet of two columns, two rows and two processes.
fn opened(alloc: Global) -> Option<(SharedSheet, Past, Pass, Pass, Cell, Cell)>
    ensures passes { IfSome result (λ r. IsPastOf r.0 r.1 × IsOf r.0 r.2 × IsOf r.0 r.3) }
    ensures cells { IfSome result (λ r. IsInside r.0.board.layout.shape r.4 × IsInside r.0.board.layout.shape r.5) }
{
    let shape = Shape::new(2, 2)?;
    let layout = Layout::new(shape, 2)?;
    let (a, b) = (Cell { column: 0, row: 0 }, Cell { column: 1, row: 1 });
    if !layout.shape.contains(a) || !layout.shape.contains(b) {
        return None;
    }
    match SharedSheet::make(alloc, layout) {
        Ok((sheet, past, passes)) => {
            let (first, second) = two(&sheet, passes)?;
            Some((sheet, past, first, second, a, b))
        }
        Err(_) => None,
    }
}

// The sheet is closed with both passes.
fn ended(
    alloc: Global,
    sheet: SharedSheet,
    past: Past,
    first: Pass,
    second: Pass,
) -> Option<ClosedSheet>
    requires past { IsPastOf sheet past }
    requires first { IsOf sheet first }
    requires second { IsOf sheet second }
    ensures { IfSome result (λ c. (c.layout ≡ sheet.board.layout) × Rests c) }
{
    let mut passes: Vec<Pass, Global> = match Vec::with_capacity(alloc, 2) {
        Ok(passes) => passes,
        Err(_) => return None,
    };
    if passes.push(first).is_err() || passes.push(second).is_err() {
        return None;
    }
    Some(sheet.close(past, passes))
}

// What the edits of a pass were answered: the numbers that are done, and the edits that overtook the others.
#[derive(Drop)]
struct PairTally {
    done: Vec<usize, Global>,
    late: Vec<Other, Global>,
}

// Notes an answer. Where an allocation fails it is left out, and the sums are wrong.
fn note(tally: &mut PairTally, ended: Ended<EditEnd>) {
    match ended {
        Ended::Answered(EditEnd::Done(number)) => {
            let _left = tally.done.push(number);
        }
        Ended::Answered(EditEnd::Overtaken(_, other)) => {
            let _left = tally.late.push(other);
        }
        _ => (),
    }
}

// Whether each edit that overtook another is one of this process that was done.
fn are_of(late: &[Other], process: usize, done: &[usize]) -> bool {
    for other in late {
        if other.process != process || !done.contains(&other.number) {
            return false;
        }
    }
    true
}

// Edits a cell so often, and notes the answers.
fn many(
    alloc: Global,
    sheet: &SharedSheet,
    mut pass: Pass,
    cell: Cell,
    times: u64,
) -> (Pass, PairTally)
    requires { IsOf sheet.now pass × IsInside sheet.now.board.layout.shape cell }
    ensures { IsOf sheet.now result.0 }
{
    let mut tally = PairTally {
        done: Vec::new(alloc),
        late: Vec::new(alloc),
    };
    for _round in 0..times {
        let ended = sheet.edit(alloc, &mut pass, cell, b"=1+2", &mut Whole);
        note(&mut tally, ended);
    }
    (pass, tally)
}

// Two threads, each with that number of edits of a cell. Both passes come back.
fn race<R: Threads + Sync>(
    rt: &R,
    alloc: Global,
    sheet: &SharedSheet,
    first: Pass,
    second: Pass,
    a: Cell,
    b: Cell,
    times: u64,
) -> ((Pass, PairTally), (Pass, PairTally))
    requires passes { IsOf sheet.now first × IsOf sheet.now second }
    requires cells { IsInside sheet.now.board.layout.shape a × IsInside sheet.now.board.layout.shape b }
    ensures { IsOf sheet.now result.0.0 × IsOf sheet.now result.1.0 }
{
    join(
        rt,
        || -> (Pass, PairTally)
            requires { IsOf sheet.now first × IsInside sheet.now.board.layout.shape a }
            ensures { IsOf sheet.entry.now result.0 }
        { many(alloc, sheet, first, a, times) },
        || -> (Pass, PairTally)
            requires { IsOf sheet.now second × IsInside sheet.now.board.layout.shape b }
            ensures { IsOf sheet.entry.now result.0 }
        { many(alloc, sheet, second, b, times) },
    )
}

// The texts of all cells.
fn texts(alloc: Global, closed: &ClosedSheet) -> Result<Vec<Vec<u8>>, AllocError> {
    let mut texts = Vec::new(alloc);
    for row in 0..2 {
        for column in 0..2 {
            let cell = Cell { column, row };
            if closed.layout().shape.contains(cell) {
                texts.push(closed.text_of(alloc, cell)?)?;
            }
        }
    }
    Ok(texts)
}

#[test]
fn threads_edit_cells_of_their_own(rt: HostRuntime) -> Result<(), Fail> {
    let Some((sheet, past, first, second, a, b)) = opened(rt.alloc()) else {
        return Err(Fail::new("memory is wanting"));
    };
    let (x, y) = race(&rt, rt.alloc(), &sheet, first, second, a, b, 100);
    let Some(closed) = ended(rt.alloc(), sheet, past, x.0, y.0) else {
        return Err(Fail::new("memory is wanting"));
    };
    let head = closed.cached(Place::Head(0));
    let texts = texts(rt.alloc(), &closed);
    closed.free();
    assert_eq!(rt; x.1.done.len(), 100);
    assert_eq!(rt; y.1.done.len(), 100);
    assert_eq!(rt; head / 65536, 100);
    let texts = texts?;
    assert_eq!(rt; texts.len(), 4);
    assert_eq!(rt; texts[0].as_slice(), b"=1+2".as_slice());
    assert_eq!(rt; texts[1].len(), 0);
    assert_eq!(rt; texts[2].len(), 0);
    assert_eq!(rt; texts[3].as_slice(), b"=1+2".as_slice());
    Ok(())
}

#[test]
fn threads_edit_one_cell(rt: HostRuntime) -> Result<(), Fail> {
    let Some((sheet, past, first, second, a, _b)) = opened(rt.alloc()) else {
        return Err(Fail::new("memory is wanting"));
    };
    let (x, y) = race(&rt, rt.alloc(), &sheet, first, second, a, a, 100);
    let Some(closed) = ended(rt.alloc(), sheet, past, x.0, y.0) else {
        return Err(Fail::new("memory is wanting"));
    };
    let head = closed.cached(Place::Head(0));
    closed.free();
    let (one, two) = (&x.1, &y.1);
    assert_eq!(rt; one.done.len().wrapping_add(one.late.len()), 100);
    assert_eq!(rt; two.done.len().wrapping_add(two.late.len()), 100);
    assert_eq!(rt;
        head / 65536,
        one.done.len().wrapping_add(two.done.len()) as u64
    );
    assert!(rt; are_of(one.late.as_slice(), 1, two.done.as_slice()));
    assert!(rt; are_of(two.late.as_slice(), 0, one.done.as_slice()));
    Ok(())
}

// Works on both cells once.
fn work_all(alloc: Global, sheet: &SharedSheet, pass: &mut Pass, a: Cell, b: Cell)
    requires pass { IsOf sheet.now pass.old }
    requires cells { IsInside sheet.now.board.layout.shape a × IsInside sheet.now.board.layout.shape b }
    ensures { IsOf sheet.now pass.new }
{
    let _first = sheet.work(alloc, pass, a, &mut Whole);
    let _last = sheet.work(alloc, pass, b, &mut Whole);
}

fn shows(value: i64) -> [Value; 4] {
    [
        Value::Number(value),
        Value::Blank,
        Value::Blank,
        Value::Blank,
    ]
}

#[test]
fn a_write_is_read_back(rt: HostRuntime) -> Result<(), Fail> {
    let Some((sheet, past, first, mut second, a, b)) = opened(rt.alloc()) else {
        return Err(Fail::new("memory is wanting"));
    };
    let (first, done) = join(
        &rt,
        || -> (Pass, PairTally)
            requires { IsOf sheet first × IsInside sheet.board.layout.shape a }
            ensures { IsOf sheet result.0 }
        { many(rt.alloc(), &sheet, first, a, 1) },
        || true,
    );
    work_all(rt.alloc(), &sheet, &mut second, a, b);
    let (said, values) = sheet.show(rt.alloc(), &mut second, &mut Whole);
    let Some(closed) = ended(rt.alloc(), sheet, past, first.0, second) else {
        return Err(Fail::new("memory is wanting"));
    };
    let value = closed.value_of(a);
    closed.free();
    assert_eq!(rt; done, true);
    assert_eq!(rt; said, Ended::Answered(ShowEnd::Settled));
    assert_eq!(rt; value, Value::Number(3));
    let Some(values) = values else {
        return Err(Fail::new("a settled show without values"));
    };
    assert_eq!(rt; values.as_slice(), shows(3).as_slice());
    Ok(())
}

// Two texts that are long enough to be kept, of 2 and of 4.
const OLD: &[u8] = b"=1+1+0+0+0+0+0+0+0+0+0+0+0+0+0+0";

const NEW: &[u8] = b"=2+2+0+0+0+0+0+0+0+0+0+0+0+0+0+0";

// A record that was never announced is written again: a work has the content of the text that stands there now, and not the
// one that is kept, of the text before.
#[test]
fn stale_tree(rt: HostRuntime) -> Result<(), Fail> {
    let Some((sheet, _past, mut first, mut second, a, b)) = opened(rt.alloc()) else {
        return Err(Fail::new("memory is wanting"));
    };
    let broken = sheet.edit(rt.alloc(), &mut first, a, OLD, &mut Times { left: 6 });
    let nothing = sheet.recover(rt.alloc(), &mut first, &mut Whole);
    let done = sheet.edit(rt.alloc(), &mut first, a, NEW, &mut Whole);
    work_all(rt.alloc(), &sheet, &mut second, a, b);
    let (said, values) = sheet.show(rt.alloc(), &mut second, &mut Whole);
    assert_eq!(rt; broken, Ended::Stopped);
    assert_eq!(rt; nothing, Ended::Answered(RecoveryEnd::Nothing));
    assert_eq!(rt; done, Ended::Answered(EditEnd::Done(0)));
    assert_eq!(rt; said, Ended::Answered(ShowEnd::Settled));
    let Some(values) = values else {
        return Err(Fail::new("a settled show without values"));
    };
    assert_eq!(rt; values.as_slice(), shows(4).as_slice());
    Ok(())
}

// An edit under a fuse of n steps, a crash that leaves one side of every word, and what both
// recoveries report.
fn broken_off(
    alloc: Global,
    steps: u64,
    cached: bool,
) -> Option<(Ended<EditEnd>, Ended<RecoveryEnd>, Ended<RecoveryEnd>)> {
    let (sheet, past, mut first, second, a, _b) = opened(alloc)?;
    let edited = sheet.edit(alloc, &mut first, a, b"7", &mut Times { left: steps });
    let count = sheet.layout().words();
    let choice: Vec<bool, Global> = match vec![in alloc; cached; count] {
        Ok(choice) => choice,
        Err(_) => return None,
    };
    let mut closed = ended(alloc, sheet, past, first, second)?;
    closed.crash_with(choice.as_slice());
    match closed.reopen(alloc) {
        Ok((sheet, _past, passes)) => {
            let (mut first, mut second) = two(&sheet, passes)?;
            let one = sheet.recover(alloc, &mut first, &mut Whole);
            let two = sheet.recover(alloc, &mut second, &mut Whole);
            Some((edited, one, two))
        }
        Err(closed) => {
            closed.free();
            None
        }
    }
}

fn resolved(steps: u64, unannounced: u64, undone: u64) -> Ended<RecoveryEnd> {
    if steps <= unannounced {
        return Ended::Answered(RecoveryEnd::Nothing);
    }
    Ended::Answered(RecoveryEnd::Last(LastEdit {
        number: 0,
        cell: 0,
        counts: steps > undone,
    }))
}

#[test]
fn edits_are_resolved(rt: HostRuntime) -> Result<(), Fail> {
    for steps in 0..20u64 {
        let Some((edited, one, two)) = broken_off(rt.alloc(), steps, false) else {
            return Err(Fail::new("memory is wanting"));
        };
        assert_eq!(rt; edited == Ended::Answered(EditEnd::Done(0)), steps == 19);
        assert_eq!(rt; one, resolved(steps, 8, 12));
        assert_eq!(rt; two, Ended::Answered(RecoveryEnd::Nothing));
        let Some((_edited, one, two)) = broken_off(rt.alloc(), steps, true) else {
            return Err(Fail::new("memory is wanting"));
        };
        assert_eq!(rt; one, resolved(steps, 6, 10));
        assert_eq!(rt; two, Ended::Answered(RecoveryEnd::Nothing));
    }
    Ok(())
}

// A text of 240 bytes, which are all that the second layout has room for.
const LONGEST: &str =
    "=SUM(1000000000;1000000;1000000;1000000;1000000;1000000;1000000;1000000;1000000;1000000;1000000;1000000;1000000;1000000;1000000;1000000;1000000;1000000;1000000;1000000;1000000;1000000;1000000;1000000;1000000;1000000;1000000;1000000;1000000)";

// What was answered about an edit, and what its sheet shows after a crash that leaves persisted sides.
#[derive(Drop)]
struct Outcome {
    edited: Ended<EditEnd>,
    text: Vec<u8>,
    value: Value,
    version: (u64, u64),
}

// The first cell is given a text and worked on; then the sheet is closed and crashes.
fn kept(alloc: Global, text: &[u8]) -> Option<Outcome> {
    let (sheet, past, mut first, second, a, _b) = opened(alloc)?;
    let edited = sheet.edit(alloc, &mut first, a, text, &mut Whole);
    let _worked = sheet.work(alloc, &mut first, a, &mut Whole);
    let count = sheet.layout().words();
    let choice: Vec<bool, Global> = match vec![in alloc; false; count] {
        Ok(choice) => choice,
        Err(_) => return None,
    };
    let mut closed = ended(alloc, sheet, past, first, second)?;
    closed.crash_with(choice.as_slice());
    let version = (
        closed.cached(Place::Version),
        closed.persisted(Place::Version),
    );
    let value = closed.value_of(a);
    let text = closed.text_of(alloc, a);
    closed.free();
    Some(Outcome {
        edited,
        text: text.ok()?,
        value,
        version,
    })
}

#[test]
fn texts_have_up_to_240_bytes(rt: HostRuntime) -> Result<(), Fail> {
    let Some(whole) = kept(rt.alloc(), LONGEST.as_bytes()) else {
        return Err(Fail::new("memory is wanting"));
    };
    assert_eq!(rt; whole.edited, Ended::Answered(EditEnd::Done(0)));
    assert_eq!(rt; whole.text.len(), 240);
    assert_eq!(rt; whole.text.as_slice(), LONGEST.as_bytes());
    assert_eq!(rt; whole.value, Value::Number(1_028_000_000));
    assert_eq!(rt; whole.version, (1, 1));
    let Some(long) = kept(rt.alloc(), [b'1'; 241].as_slice()) else {
        return Err(Fail::new("memory is wanting"));
    };
    let fault = TextFault {
        kind: FaultKind::TooLong,
        offset: 240,
    };
    assert_eq!(rt; long.edited, Ended::Refused(Refusal::Text(fault)));
    assert_eq!(rt; long.text.len(), 0);
    assert_eq!(rt; long.version, (1, 1));
    Ok(())
}
