//! The edit's machine: the access of each stage, and the stage that follows it.

ghost use Rattle.std.specs.Prelude.{◌≡◌, ℕ, ◌+◌, ◌*◌, ◌<◌, ◌≤◌, length};
ghost use Rattle.ds_state.specs.Edits.{PlainEditCall, IsEdit, text_parts};
ghost use Rattle.ds_state.specs.Known.{phase_of};
ghost use Rattle.ds_layout.specs.Head.{head_of};
ghost use Rattle.ds_layout.specs.Header.{header_word};
ghost use Rattle.ds_layout.specs.declared.layout.Layout.{Layout};
ghost use Rattle.ds_layout.specs.SheetMemory.{NamesPlace};
ghost use Rattle.ds_state.specs.CallsFit.{IsSheetOf};
ghost use Rattle.ds_state.specs.World.{done_place};
ghost use Rattle.ds_edit.specs.EditSteps.{access_at, next_at, got_at, head_after, announced, reference_place, header_place, text_place, store_from, flush_from, back_from, index_from, help_from, wins, swung_from, rank, Falls};
ghost use Rattle.ds_edit.specs.EditTakes.{effect_at};

use ds_layout::announcement::{Announcement, Phase};
use ds_layout::bits;
use ds_layout::head::Head;
use ds_layout::header::Header;
use ds_layout::mark::DIRTY;
use ds_layout::place::Place;
use ds_layout::text::{part_word, text_parts};
use ds_state::edit::EditCall;
use ds_state::stage::{Outcome, Stage};
use ds_words::access::Access;

/// What a step does to its edit and to the ledger.
#[derive(Clone, Copy, Debug, PartialEq, Eq)]
pub enum Effect {
    /// The edit goes on.
    GoesOn,
    /// The edit is linearized from now on, and goes on.
    Counts,
    /// The edit has ended so: its process answers that, and is idle.
    Answers(Outcome),
}

fn parts(call: &EditCall) -> usize
    ensures { result ≡ text_parts call.now.text }
{
    text_parts(call.text.len())
}

fn header(call: &EditCall) -> Place
    ensures { result ≡ header_place call.now }
{
    Place::Header {
        process: call.process,
        number: call.number,
    }
}

fn text(call: &EditCall, part: usize) -> Place
    ensures { result ≡ text_place call.now part }
{
    Place::Text {
        edition: call.edition,
        process: call.process,
        number: call.number,
        part,
    }
}

fn index(call: &EditCall, i: usize) -> Place
    requires { i < length call.now.refs }
    ensures { result ≡ reference_place call.now i }
{
    Place::Index {
        row: call.refs[i],
        part: bits::part(call.cell),
    }
}

fn done(head: Head) -> Place
    ensures { result ≡ done_place head.process head.number }
{
    Place::Done {
        process: head.process,
        part: bits::part(head.number),
    }
}

fn header_word(call: &EditCall) -> u64
    ensures { result ≡ header_word (record { cell = call.now.cell; length = length call.now.text }) }
{
    let header = Header {
        cell: call.cell,
        length: call.text.len(),
    };
    header.word()
}

fn head_after(call: &EditCall, noted: u64) -> u64
    ensures { result ≡ head_after call.now noted }
{
    Head::next(noted, call.process, call.number).word()
}

fn phase_of(outcome: Outcome) -> Phase
    ensures { result ≡ phase_of outcome }
{
    match outcome {
        Outcome::Done => Phase::Done,
        Outcome::Overtaken { noted: _, seen: _ } => Phase::NotDone,
    }
}

fn announced(call: &EditCall, phase: Phase) -> u64
    ensures { result ≡ announced call.now phase }
{
    let number = call.number;
    let announcement = Announcement { number, phase };
    announcement.word()
}

/// What the edit does next.
#[inline(always)]
pub fn want(call: &EditCall) -> Access<Place>
    ensures { result ≡ access_at call.now call.now.stage }
{
    let head = Place::Head(call.cell);
    let mark = Place::Mark(call.cell);
    let announce = Place::Announce(call.process);
    match call.stage {
        Stage::StoreHeader => Access::Store(header(call), header_word(call)),
        Stage::StoreText(part) => Access::Store(
            text(call, part),
            part_word(call.text.as_slice(), part),
        ),
        Stage::FlushHeader => Access::Flush(header(call)),
        Stage::FlushText(part) => Access::Flush(text(call, part)),
        Stage::StorePending => Access::Store(announce, announced(call, Phase::Pending)),
        Stage::StoreOutcome(how) => Access::Store(announce, announced(call, phase_of(how))),
        Stage::FlushPending | Stage::FlushOutcome(_) => Access::Flush(announce),
        Stage::OrIndex(i) => Access::Or(index(call, i), bits::bit(call.cell)),
        Stage::FlushIndex(i) => Access::Flush(index(call, i)),
        Stage::LoadHead => Access::Load(head),
        Stage::FlushNoted(_) | Stage::FlushOwn(_) => Access::Flush(head),
        Stage::OrDone(noted) => Access::Or(done(noted), bits::bit(noted.number)),
        Stage::FlushDone(noted) => Access::Flush(done(noted)),
        Stage::Swap(noted) => Access::SwapIf {
            place: head,
            expected: noted,
            value: head_after(call, noted),
        },
        Stage::OrMark(_) => Access::Or(mark, DIRTY),
        Stage::FlushMark(_) => Access::Flush(mark),
        Stage::BackRecord(_) | Stage::BackPending | Stage::BackIndex(_) => Access::Back,
        Stage::BackNoted(_) | Stage::BackDone(_) | Stage::BackOwn(_) => Access::Back,
        Stage::BackMark(_) | Stage::BackOutcome(_) => Access::Back,
        Stage::Answer(_) => Access::Nothing,
    }
}

fn store_from(call: &EditCall, part: usize) -> Stage
    ensures { result ≡ store_from call.now part }
{
    if part < parts(call) {
        Stage::StoreText(part)
    } else {
        Stage::FlushHeader
    }
}

fn flush_from(call: &EditCall, part: usize) -> Stage
    ensures { result ≡ flush_from call.now part }
{
    if part < parts(call) {
        Stage::FlushText(part)
    } else {
        Stage::BackRecord(parts(call))
    }
}

fn back_from(left: usize) -> Stage
    ensures { result ≡ back_from left }
{
    if left == 0 {
        Stage::StorePending
    } else {
        Stage::BackRecord(left - 1)
    }
}

fn index_from(call: &EditCall, i: usize) -> Stage
    ensures { result ≡ index_from call.now i }
{
    if i < call.refs.len() {
        Stage::OrIndex(i)
    } else {
        Stage::LoadHead
    }
}

fn help_from(call: &EditCall, noted: u64) -> Stage
    ensures { result ≡ help_from noted (head_of call.now.processes noted) }
{
    match Head::read(noted, call.processes) {
        Some(head) => Stage::FlushNoted(head),
        None => Stage::Swap(noted),
    }
}

// Whether a swap that expects this head and sees that one linearizes its edit.
#[inline(always)]
fn wins(noted: u64, seen: u64) -> bool
    ensures { result ≡ wins noted seen }
{
    seen == noted
}

fn swung_from(call: &EditCall, noted: u64, seen: u64) -> Stage
    ensures { result ≡ swung_from call.now noted seen }
{
    if wins(noted, seen) {
        Stage::FlushOwn(head_after(call, noted))
    } else {
        Stage::StoreOutcome(Outcome::Overtaken { noted, seen })
    }
}

#[inline(always)]
fn next(call: &EditCall, word: u64) -> Stage
    ensures { result ≡ next_at call.now call.now.stage word }
{
    match call.stage {
        Stage::StoreHeader => store_from(call, 0),
        Stage::StoreText(part) => store_from(call, part + 1),
        Stage::FlushHeader => flush_from(call, 0),
        Stage::FlushText(part) => flush_from(call, part + 1),
        Stage::BackRecord(left) => back_from(left),
        Stage::StorePending => Stage::FlushPending,
        Stage::FlushPending => Stage::BackPending,
        Stage::BackPending => index_from(call, 0),
        Stage::OrIndex(i) => Stage::FlushIndex(i),
        Stage::FlushIndex(i) => Stage::BackIndex(i),
        Stage::BackIndex(i) => index_from(call, i + 1),
        Stage::LoadHead => help_from(call, word),
        Stage::FlushNoted(head) => Stage::BackNoted(head),
        Stage::BackNoted(head) => Stage::OrDone(head),
        Stage::OrDone(head) => Stage::FlushDone(head),
        Stage::FlushDone(head) => Stage::BackDone(head),
        Stage::BackDone(head) => Stage::Swap(head.word()),
        Stage::Swap(noted) => swung_from(call, noted, word),
        Stage::FlushOwn(own) => Stage::BackOwn(own),
        Stage::BackOwn(own) => Stage::OrMark(own),
        Stage::OrMark(own) => Stage::FlushMark(own),
        Stage::FlushMark(own) => Stage::BackMark(own),
        Stage::BackMark(_) => Stage::StoreOutcome(Outcome::Done),
        Stage::StoreOutcome(outcome) => Stage::FlushOutcome(outcome),
        Stage::FlushOutcome(outcome) => Stage::BackOutcome(outcome),
        Stage::BackOutcome(outcome) => Stage::Answer(outcome),
        Stage::Answer(outcome) => Stage::Answer(outcome),
    }
}

/// What the step at this stage does, whose access answered the word.
#[inline(always)]
pub fn effect_of(stage: Stage, word: u64) -> Effect
    ensures { result ≡ effect_at stage word }
{
    match stage {
        Stage::Swap(noted) => {
            if wins(noted, word) {
                Effect::Counts
            } else {
                Effect::GoesOn
            }
        }
        Stage::Answer(how) => Effect::Answers(how),
        _ => Effect::GoesOn,
    }
}

/// The edit goes on with the word that its access answered, whatever that is. At its answer it
/// stays.
#[tactic(auto, using(crate::proofs::Stays::got_stays))]
#[inline(always)]
pub fn got(call: &mut EditCall, word: u64)
    ensures { call.new ≡ got_at call.old word }
{
    call.stage = next(call, word);
}

/// Each step of an edit leaves fewer steps, until the answer's, which is the last; and an edit with r
/// references has at most 3r + 112 of them.
#[tactic(auto, using(crate::proofs::Stays::each_falls, crate::proofs::Stays::each_few))]
pub fn steps_are_few()
    ensures falls { (e : PlainEditCall) (word : ℕ) → IsEdit e
        → Falls e e.stage (next_at e e.stage word) }
    ensures few { (e : PlainEditCall) → IsEdit e → rank e e.stage ≤ 112 + 3 * length e.refs }
{}

/// Each access of an edit names a place of its sheet.
pub fn accesses_are_of_the_sheet()
    ensures { (layout : Layout) (e : PlainEditCall) → IsSheetOf layout e → IsEdit e
        → NamesPlace layout (access_at e e.stage) }
{}
