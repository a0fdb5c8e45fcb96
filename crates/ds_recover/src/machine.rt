//! The machine of a recovery: the access of each stage, and what follows it.

ghost use Rattle.std.specs.Prelude.{◌≡◌, ◌<◌, ◌≤◌, ◌+◌, ◌-◌, ◌/◌, ℕ, length};
ghost use Rattle.ds_formula.specs.Limits.{EDITS_MOST};
ghost use Rattle.ds_layout.specs.Head.{head_of};
ghost use Rattle.ds_layout.specs.Bits.{parts_for};
ghost use Rattle.ds_layout.specs.Mark.{generation_of, freed_after, marked, dirtied};
ghost use Rattle.ds_state.specs.World.{announcement};
ghost use Rattle.ds_state.specs.Works.{HELD_MOST};
ghost use Rattle.ds_state.specs.RecoverStages.{IsStage, IsAnnounced, IsResolving};
ghost use Rattle.ds_state.specs.KnownRecovery.{phase_for};
ghost use Rattle.ds_state.specs.declared.spread.Spread.TheVariants.{LoadRow, BackTold};
ghost use Rattle.ds_state.specs.declared.recovery.RecoverStage.TheVariants.{LoadVersion, BackVersion, LoadMark, Telling, Give, BackGiven, LoadAnnounce, LoadHeader, LoadHead, LoadDone, StoreOutcome};
ghost use Rattle.ds_recover.specs.RecoverySteps.{access_at, next_at, got_at, effect_at, number_of, reads_held, looks_from, told, tell_from, row_from, is_shown, phase_from, at};

use ds_layout::announcement::{Announcement, Phase};
use ds_layout::bits;
use ds_layout::head::Head;
use ds_layout::header::Header;
use ds_layout::mark::{DIRTY, Mark, State};
use ds_layout::place::{Edition, Place};
use ds_state::recovery::{LastEdit, RecoverCall, RecoverStage, RecoveryEnd};
use ds_state::spread::{Spread, told_from};
use ds_state::turn::Turn;
use ds_words::access::Access;

/// The greatest generation of a mark that a process holds: one more than the greatest one that a
/// claim takes.
pub const HELD_GENERATION_MOST: u64 = (1 << 58) + 1;

// The number of the edit that it saw announced.
pub(crate) fn number(call: &RecoverCall) -> usize
    requires { IsAnnounced call.now.announcement }
    ensures value { result ≡ number_of call.now }
    ensures few { result < EDITS_MOST }
{
    Announcement::read(call.announcement).unwrap().number
}

fn phase_for(counts: bool) -> Phase
    ensures { result ≡ phase_for counts }
{
    if counts { Phase::Done } else { Phase::NotDone }
}

// The announcement of how the edit ended.
fn outcome(call: &RecoverCall, counts: bool) -> u64
    requires { IsAnnounced call.now.announcement }
    ensures { result ≡ announcement (number_of call.now) (phase_for counts) }
{
    let outcome = Announcement {
        number: number(call),
        phase: phase_for(counts),
    };
    outcome.word()
}

// The mark that gives a held cell back, dirty: of the next generation, held by nobody.
fn given(mark: u64, processes: usize) -> u64
    requires { generation_of mark ≤ HELD_MOST }
    ensures { result ≡ dirtied (freed_after mark) }
{
    let held = Mark::read(mark, processes);
    let given = Mark {
        generation: held.generation + 1,
        holder: None,
        dirty: true,
    };
    given.word()
}

// The mark, dirty.
#[tactic(auto, using(crate::proofs::RecoveryReads::dirty))]
fn dirtied(mark: u64) -> u64
    ensures { result ≡ marked mark }
{
    mark | DIRTY
}

/// What the recovery does next.
pub fn want(call: &RecoverCall) -> Access<Place>
    ensures { result ≡ access_at call.now call.now.stage }
{
    let announce = Place::Announce(call.process);
    match call.stage {
        RecoverStage::LoadVersion => Access::Load(Place::Version),
        RecoverStage::FlushVersion => Access::Flush(Place::Version),
        RecoverStage::BackVersion => Access::Back,
        RecoverStage::LoadMark(cell) => Access::Load(Place::Mark(cell)),
        RecoverStage::FlushValue(cell) => Access::Flush(Place::Value(cell)),
        RecoverStage::FlushKind(cell) => Access::Flush(Place::Kind(cell)),
        RecoverStage::BackValue(_) | RecoverStage::BackKind(_) => Access::Back,
        RecoverStage::Telling(cell, spread) => spread.access(cell),
        RecoverStage::Give(cell) => Access::SwapIf {
            place: Place::Mark(cell),
            expected: call.mark,
            value: given(call.mark, call.processes),
        },
        RecoverStage::GiveDirty(cell) => Access::SwapIf {
            place: Place::Mark(cell),
            expected: dirtied(call.mark),
            value: given(call.mark, call.processes),
        },
        RecoverStage::FlushGiven(cell) => Access::Flush(Place::Mark(cell)),
        RecoverStage::BackGiven(_) | RecoverStage::BackHead => Access::Back,
        RecoverStage::LoadAnnounce => Access::Load(announce),
        RecoverStage::LoadHeader => Access::Load(Place::Header {
            process: call.process,
            number: number(call),
        }),
        RecoverStage::LoadHead => Access::Load(Place::Head(call.cell)),
        RecoverStage::FlushHead => Access::Flush(Place::Head(call.cell)),
        RecoverStage::LoadDone => Access::Load(Place::Done {
            process: call.process,
            part: bits::part(number(call)),
        }),
        RecoverStage::OrMark(_) => Access::Or(Place::Mark(call.cell), DIRTY),
        RecoverStage::FlushMark(_) => Access::Flush(Place::Mark(call.cell)),
        RecoverStage::BackMark(_) | RecoverStage::BackOutcome(_) => Access::Back,
        RecoverStage::StoreOutcome(how) => Access::Store(announce, outcome(call, how)),
        RecoverStage::FlushOutcome(_) => Access::Flush(announce),
        RecoverStage::Answer(_) => Access::Nothing,
    }
}

/// What the next step does to the recovery.
pub fn effect_of(call: &RecoverCall) -> Turn<RecoveryEnd>
    ensures { result ≡ effect_at call.now call.now.stage }
{
    match call.stage {
        RecoverStage::Answer(None) => Turn::Answers(RecoveryEnd::Nothing),
        RecoverStage::Answer(Some(how)) => Turn::Answers(RecoveryEnd::Last(LastEdit {
            number: number(call),
            cell: call.cell,
            counts: how,
        })),
        _ => Turn::GoesOn,
    }
}

// Whether the mark says that the process holds the cell.
fn is_held(word: u64, process: usize, processes: usize) -> bool
    requires { process < processes }
    ensures { result ≡ reads_held process word }
{
    let mark = Mark::read(word, processes);
    mark.state() == State::Held(process) && mark.generation <= HELD_GENERATION_MOST
}

fn looks_from(cells: usize, cell: usize) -> RecoverStage
    ensures { result ≡ looks_from cells cell }
{
    if cell < cells {
        RecoverStage::LoadMark(cell)
    } else {
        RecoverStage::LoadAnnounce
    }
}

fn tell_from(row: &[u64], cells: usize, cell: usize, from: usize) -> RecoverStage
    requires { length row.now ≡ parts_for cells }
    ensures { result ≡ tell_from row.now cells cell from }
{
    match told_from(row, cells, from) {
        Some(told) => RecoverStage::Telling(cell, Spread::OrTold(told)),
        None => RecoverStage::Give(cell),
    }
}

fn row_from(row: &[u64], cells: usize, cell: usize, part: usize) -> RecoverStage
    requires { parts_for cells ≤ part → length row.now ≡ parts_for cells }
    ensures { result ≡ row_from row.now cells cell part }
{
    if part < bits::parts(cells) {
        RecoverStage::Telling(cell, Spread::LoadRow(part))
    } else {
        tell_from(row, cells, cell, 0)
    }
}

// Whether the head is of the process's edit of this number.
fn is_shown(head: Option<Head>, process: usize, number: usize) -> bool
    ensures { result ≡ is_shown process number head }
{
    match head {
        None => false,
        Some(head) => head.process == process && head.number == number,
    }
}

fn phase_from(phase: Phase) -> RecoverStage
    ensures { result ≡ phase_from phase }
{
    match phase {
        Phase::Pending => RecoverStage::LoadHead,
        Phase::Done => RecoverStage::FlushOutcome(true),
        Phase::NotDone => RecoverStage::FlushOutcome(false),
    }
}

// It goes on at this stage, with what it noted.
fn go_to(call: &mut RecoverCall, stage: RecoverStage)
    requires { IsStage call.old stage }
    ensures { call.new ≡ at call.old stage }
{
    call.stage = stage;
}

// The layout that the version's word says is noted.
fn see_version(call: &mut RecoverCall, word: u64)
    requires { call.old.stage ≡ LoadVersion }
    ensures { call.new ≡ next_at call.old LoadVersion word }
{
    call.edition = Edition::read(word);
    call.stage = RecoverStage::FlushVersion;
}

// The version's word is persisted: the first cell is looked at. A sheet has one.
fn look_first(call: &mut RecoverCall)
    requires { call.old.stage ≡ BackVersion }
    ensures { call.new ≡ at call.old (LoadMark 0) }
{
    // For the proof: reading the field gives its invariant.
    let _cells = call.cells;
    call.stage = RecoverStage::LoadMark(0);
}

// A cell is let be, or given back.
fn look(call: &mut RecoverCall, cell: usize, word: u64)
    requires { call.old.stage ≡ LoadMark cell }
    ensures { call.new ≡ next_at call.old (LoadMark cell) word }
{
    if is_held(word, call.process, call.processes) {
        call.mark = word;
        call.row.clear();
        call.stage = RecoverStage::FlushValue(cell);
    } else {
        call.stage = looks_from(call.cells, cell + 1);
    }
}

// The cell has been given back.
fn look_further(call: &mut RecoverCall, cell: usize)
    requires { call.old.stage ≡ BackGiven cell }
    ensures { call.new ≡ at call.old (looks_from call.old.cells (cell + 1)) }
{
    call.stage = looks_from(call.cells, cell + 1);
}

// A part of the row is noted.
fn note_row(call: &mut RecoverCall, cell: usize, part: usize, word: u64)
    requires { call.old.stage ≡ Telling cell (LoadRow part) }
    ensures { call.new ≡ next_at call.old (Telling cell (LoadRow part)) word }
{
    call.row.push(word);
    call.stage = row_from(call.row.as_slice(), call.cells, cell, part + 1);
}

// A cell has been marked: the next one, or the cell is given back.
fn tell_next(call: &mut RecoverCall, cell: usize, told: usize, word: u64)
    requires { call.old.stage ≡ Telling cell (BackTold told) }
    ensures { call.new ≡ next_at call.old (Telling cell (BackTold told)) word }
{
    call.stage = tell_from(call.row.as_slice(), call.cells, cell, told + 1);
}

fn tell(call: &mut RecoverCall, cell: usize, spread: Spread, word: u64)
    requires { call.old.stage ≡ Telling cell spread }
    ensures { call.new ≡ next_at call.old (Telling cell spread) word }
{
    // For the proof: reading the field gives its invariant.
    let _cells = call.cells;
    match spread {
        Spread::LoadRow(part) => note_row(call, cell, part, word),
        Spread::OrTold(told) => go_to(call, RecoverStage::Telling(cell, Spread::FlushTold(told))),
        Spread::FlushTold(told) => go_to(call, RecoverStage::Telling(cell, Spread::BackTold(told))),
        Spread::BackTold(told) => tell_next(call, cell, told, word),
    }
}

// The cell is given back, or was marked since it was looked at.
fn give(call: &mut RecoverCall, cell: usize, word: u64)
    requires { call.old.stage ≡ Give cell }
    ensures { call.new ≡ next_at call.old (Give cell) word }
{
    call.stage = if word == call.mark {
        RecoverStage::FlushGiven(cell)
    } else {
        RecoverStage::GiveDirty(cell)
    };
}

fn note_announcement(call: &mut RecoverCall, word: u64)
    requires { call.old.stage ≡ LoadAnnounce }
    ensures { call.new ≡ next_at call.old LoadAnnounce word }
{
    call.announcement = word;
    call.stage = match Announcement::read(word) {
        None => RecoverStage::Answer(None),
        Some(_) => RecoverStage::LoadHeader,
    };
}

fn note_header(call: &mut RecoverCall, word: u64)
    requires { call.old.stage ≡ LoadHeader }
    ensures { call.new ≡ next_at call.old LoadHeader word }
{
    call.cell = match Header::read(word, call.cells) {
        None => 0,
        Some(header) => header.cell,
    };
    call.stage = match Announcement::read(call.announcement) {
        None => RecoverStage::Answer(None),
        Some(announcement) => phase_from(announcement.phase),
    };
}

fn see_head(call: &mut RecoverCall, word: u64)
    requires { call.old.stage ≡ LoadHead }
    ensures { call.new ≡ next_at call.old LoadHead word }
{
    let head = Head::read(word, call.processes);
    let stage = if is_shown(head, call.process, number(call)) {
        RecoverStage::FlushHead
    } else {
        RecoverStage::LoadDone
    };
    go_to(call, stage);
}

fn see_done(call: &mut RecoverCall, word: u64)
    requires { call.old.stage ≡ LoadDone }
    ensures { call.new ≡ next_at call.old LoadDone word }
{
    // For the proof: reading the field gives its invariant.
    let _cell = call.cell;
    let counts = bits::has_bit(word, number(call));
    go_to(call, RecoverStage::OrMark(counts));
}

fn say(call: &mut RecoverCall, counts: bool, word: u64)
    requires { call.old.stage ≡ StoreOutcome counts }
    ensures { call.new ≡ next_at call.old (StoreOutcome counts) word }
{
    call.announcement = outcome(call, counts);
    call.stage = RecoverStage::FlushOutcome(counts);
}

/// The recovery goes on with the word that its access answered, whatever that is. It takes no memory.
/// At its answer it stays.
pub fn got(call: &mut RecoverCall, word: u64)
    ensures { call.new ≡ got_at call.old word }
{
    match call.stage {
        RecoverStage::LoadVersion => see_version(call, word),
        RecoverStage::FlushVersion => go_to(call, RecoverStage::BackVersion),
        RecoverStage::BackVersion => look_first(call),
        RecoverStage::LoadMark(cell) => look(call, cell, word),
        RecoverStage::FlushValue(cell) => go_to(call, RecoverStage::FlushKind(cell)),
        RecoverStage::FlushKind(cell) => go_to(call, RecoverStage::BackValue(cell)),
        RecoverStage::BackValue(cell) => go_to(call, RecoverStage::BackKind(cell)),
        RecoverStage::BackKind(cell) => go_to(
            call,
            RecoverStage::Telling(cell, Spread::LoadRow(0)),
        ),
        RecoverStage::Telling(cell, spread) => tell(call, cell, spread, word),
        RecoverStage::Give(cell) => give(call, cell, word),
        RecoverStage::GiveDirty(cell) => go_to(call, RecoverStage::FlushGiven(cell)),
        RecoverStage::FlushGiven(cell) => go_to(call, RecoverStage::BackGiven(cell)),
        RecoverStage::BackGiven(cell) => look_further(call, cell),
        RecoverStage::LoadAnnounce => note_announcement(call, word),
        RecoverStage::LoadHeader => note_header(call, word),
        RecoverStage::LoadHead => see_head(call, word),
        RecoverStage::FlushHead => go_to(call, RecoverStage::BackHead),
        RecoverStage::BackHead => go_to(call, RecoverStage::OrMark(true)),
        RecoverStage::LoadDone => see_done(call, word),
        RecoverStage::OrMark(how) => go_to(call, RecoverStage::FlushMark(how)),
        RecoverStage::FlushMark(how) => go_to(call, RecoverStage::BackMark(how)),
        RecoverStage::BackMark(how) => go_to(call, RecoverStage::StoreOutcome(how)),
        RecoverStage::StoreOutcome(how) => say(call, how, word),
        RecoverStage::FlushOutcome(how) => go_to(call, RecoverStage::BackOutcome(how)),
        RecoverStage::BackOutcome(how) => go_to(call, RecoverStage::Answer(Some(how))),
        RecoverStage::Answer(_) => (),
    }
}
