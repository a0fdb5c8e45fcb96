//! The machine of a show: the access of each stage, and what follows it.

ghost use Rattle.std.specs.Prelude.{◌≡◌, ◌<◌, ◌+◌, ℕ};
ghost use Rattle.ds_state.specs.KnownShow.{reads_pending, reads_clean};
ghost use Rattle.ds_state.specs.declared.show.ShowStage.TheVariants.{LoadAnnounce, LoadMark, LoadValue, LoadKind, AgainMark, AgainAnnounce};
ghost use Rattle.ds_show.specs.ShowSteps.{access_at, next_at, got_at, effect_at, announce_stage, mark_stage, value_stage, again_mark_stage, again_announce_stage};

use ds_layout::announcement::{Announcement, Phase};
use ds_layout::mark::{Mark, State};
use ds_layout::place::Place;
use ds_state::show::{ShowCall, ShowEnd, ShowStage};
use ds_state::turn::Turn;
use ds_words::access::Access;

/// What the show does next.
#[inline(always)]
pub fn want(call: &ShowCall) -> Access<Place>
    ensures { result ≡ access_at call.now.stage }
{
    match call.stage {
        ShowStage::LoadAnnounce(i) | ShowStage::AgainAnnounce(i) => Access::Load(Place::Announce(
            i,
        )),
        ShowStage::LoadMark(i) | ShowStage::AgainMark(i) => Access::Load(Place::Mark(i)),
        ShowStage::LoadValue(i) => Access::Load(Place::Value(i)),
        ShowStage::LoadKind(i) => Access::Load(Place::Kind(i)),
        ShowStage::Answer(_) => Access::Nothing,
    }
}

/// What the next step does to the show.
#[inline(always)]
pub fn effect_of(call: &ShowCall) -> Turn<ShowEnd>
    ensures { result ≡ effect_at call.now.stage }
{
    match call.stage {
        ShowStage::Answer(end) => Turn::Answers(end),
        _ => Turn::GoesOn,
    }
}

#[inline(always)]
fn is_pending(word: u64) -> bool
    ensures { result ≡ reads_pending word }
{
    match Announcement::read(word) {
        None => false,
        Some(announcement) => match announcement.phase {
            Phase::Pending => true,
            Phase::Done | Phase::NotDone => false,
        },
    }
}

#[inline(always)]
fn is_clean(word: u64, processes: usize) -> bool
    ensures { result ≡ reads_clean processes word }
{
    match Mark::read(word, processes).state() {
        State::Clean => true,
        State::Marked | State::Held(_) => false,
    }
}

#[inline(always)]
fn announce_stage(processes: usize, i: usize) -> ShowStage
    ensures { result ≡ announce_stage processes i }
{
    if i < processes {
        ShowStage::LoadAnnounce(i)
    } else {
        ShowStage::LoadMark(0)
    }
}

#[inline(always)]
fn mark_stage(cells: usize, i: usize) -> ShowStage
    ensures { result ≡ mark_stage cells i }
{
    if i < cells {
        ShowStage::LoadMark(i)
    } else {
        ShowStage::LoadValue(0)
    }
}

#[inline(always)]
fn value_stage(cells: usize, i: usize) -> ShowStage
    ensures { result ≡ value_stage cells i }
{
    if i < cells {
        ShowStage::LoadValue(i)
    } else {
        ShowStage::AgainMark(0)
    }
}

#[inline(always)]
fn again_mark_stage(cells: usize, i: usize) -> ShowStage
    ensures { result ≡ again_mark_stage cells i }
{
    if i < cells {
        ShowStage::AgainMark(i)
    } else {
        ShowStage::AgainAnnounce(0)
    }
}

#[inline(always)]
fn again_announce_stage(processes: usize, i: usize) -> ShowStage
    ensures { result ≡ again_announce_stage processes i }
{
    if i < processes {
        ShowStage::AgainAnnounce(i)
    } else {
        ShowStage::Answer(ShowEnd::Settled)
    }
}

#[inline(always)]
fn note_announcement(call: &mut ShowCall, i: usize, word: u64)
    requires { call.old.stage ≡ LoadAnnounce i }
    ensures { call.new ≡ next_at call.old (LoadAnnounce i) word }
{
    if is_pending(word) {
        call.stage = ShowStage::Answer(ShowEnd::Unsettled(Place::Announce(i), word));
    } else {
        call.announcements.push_reserved(word);
        call.stage = announce_stage(call.processes, i + 1);
    }
}

#[inline(always)]
fn note_mark(call: &mut ShowCall, i: usize, word: u64)
    requires { call.old.stage ≡ LoadMark i }
    ensures { call.new ≡ next_at call.old (LoadMark i) word }
{
    if is_clean(word, call.processes) {
        call.marks.push_reserved(word);
        call.stage = mark_stage(call.cells, i + 1);
    } else {
        call.stage = ShowStage::Answer(ShowEnd::Unsettled(Place::Mark(i), word));
    }
}

#[inline(always)]
fn note_value(call: &mut ShowCall, i: usize, word: u64)
    requires { call.old.stage ≡ LoadValue i }
    ensures { call.new ≡ next_at call.old (LoadValue i) word }
{
    call.values.push_reserved(word);
    call.stage = ShowStage::LoadKind(i);
}

#[inline(always)]
fn note_kind(call: &mut ShowCall, i: usize, word: u64)
    requires { call.old.stage ≡ LoadKind i }
    ensures { call.new ≡ next_at call.old (LoadKind i) word }
{
    call.kinds.push_reserved(word);
    call.stage = value_stage(call.cells, i + 1);
}

#[inline(always)]
fn see_mark(call: &mut ShowCall, i: usize, word: u64)
    requires { call.old.stage ≡ AgainMark i }
    ensures { call.new ≡ next_at call.old (AgainMark i) word }
{
    call.stage = if word == call.marks[i] {
        again_mark_stage(call.cells, i + 1)
    } else {
        ShowStage::Answer(ShowEnd::Unsettled(Place::Mark(i), word))
    };
}

#[inline(always)]
fn see_announcement(call: &mut ShowCall, i: usize, word: u64)
    requires { call.old.stage ≡ AgainAnnounce i }
    ensures { call.new ≡ next_at call.old (AgainAnnounce i) word }
{
    call.stage = if word == call.announcements[i] {
        again_announce_stage(call.processes, i + 1)
    } else {
        ShowStage::Answer(ShowEnd::Unsettled(Place::Announce(i), word))
    };
}

/// The show goes on with the word that its access answered, whatever that is. It takes no memory:
/// room for all that it notes was taken at its beginning. At its answer it stays.
#[inline(always)]
pub fn got(call: &mut ShowCall, word: u64)
    ensures { call.new ≡ got_at call.old word }
{
    match call.stage {
        ShowStage::LoadAnnounce(i) => note_announcement(call, i, word),
        ShowStage::LoadMark(i) => note_mark(call, i, word),
        ShowStage::LoadValue(i) => note_value(call, i, word),
        ShowStage::LoadKind(i) => note_kind(call, i, word),
        ShowStage::AgainMark(i) => see_mark(call, i, word),
        ShowStage::AgainAnnounce(i) => see_announcement(call, i, word),
        ShowStage::Answer(_) => (),
    }
}
