//! Whether two calls are at the same stage. A function looks at some of the stages: a derived comparison of all has no
//! proof.

ghost use Rattle.std.specs.Prelude.{◌≡◌, IsTrue};

use ds_state::recovery::RecoverStage;
use ds_state::stage::Stage;
use ds_state::work::WorkStage;

/// Whether two edits are at the same stage.
pub(crate) fn same_stages(a: Stage, b: Stage) -> bool
    ensures { IsTrue result → a ≡ b }
{
    match (a, b) {
        (Stage::StoreHeader, Stage::StoreHeader) => true,
        (Stage::StoreText(a), Stage::StoreText(b)) => a == b,
        (Stage::FlushHeader, Stage::FlushHeader) => true,
        (Stage::FlushText(a), Stage::FlushText(b)) => a == b,
        (Stage::BackRecord(a), Stage::BackRecord(b)) => a == b,
        (Stage::StorePending, Stage::StorePending) => true,
        (Stage::FlushPending, Stage::FlushPending) => true,
        (Stage::BackPending, Stage::BackPending) => true,
        _ => same_middles(a, b),
    }
}

// The same, after the announcement.
fn same_middles(a: Stage, b: Stage) -> bool
    ensures { IsTrue result → a ≡ b }
{
    match (a, b) {
        (Stage::OrIndex(a), Stage::OrIndex(b)) => a == b,
        (Stage::FlushIndex(a), Stage::FlushIndex(b)) => a == b,
        (Stage::BackIndex(a), Stage::BackIndex(b)) => a == b,
        (Stage::LoadHead, Stage::LoadHead) => true,
        (Stage::FlushNoted(a), Stage::FlushNoted(b)) => a == b,
        (Stage::BackNoted(a), Stage::BackNoted(b)) => a == b,
        (Stage::OrDone(a), Stage::OrDone(b)) => a == b,
        (Stage::FlushDone(a), Stage::FlushDone(b)) => a == b,
        (Stage::BackDone(a), Stage::BackDone(b)) => a == b,
        _ => same_ends(a, b),
    }
}

// The same, from the swap on.
fn same_ends(a: Stage, b: Stage) -> bool
    ensures { IsTrue result → a ≡ b }
{
    match (a, b) {
        (Stage::Swap(a), Stage::Swap(b)) => a == b,
        (Stage::FlushOwn(a), Stage::FlushOwn(b)) => a == b,
        (Stage::BackOwn(a), Stage::BackOwn(b)) => a == b,
        (Stage::OrMark(a), Stage::OrMark(b)) => a == b,
        (Stage::FlushMark(a), Stage::FlushMark(b)) => a == b,
        (Stage::BackMark(a), Stage::BackMark(b)) => a == b,
        (Stage::StoreOutcome(a), Stage::StoreOutcome(b)) => a == b,
        (Stage::FlushOutcome(a), Stage::FlushOutcome(b)) => a == b,
        (Stage::BackOutcome(a), Stage::BackOutcome(b)) => a == b,
        (Stage::Answer(a), Stage::Answer(b)) => a == b,
        _ => false,
    }
}

/// Whether two works are at the same stage.
pub(crate) fn same_work_stages(a: WorkStage, b: WorkStage) -> bool
    ensures { IsTrue result → a ≡ b }
{
    match (a, b) {
        (WorkStage::LoadMark, WorkStage::LoadMark) => true,
        (WorkStage::Claim, WorkStage::Claim) => true,
        (WorkStage::FlushClaim, WorkStage::FlushClaim) => true,
        (WorkStage::BackClaim, WorkStage::BackClaim) => true,
        (WorkStage::LoadHead, WorkStage::LoadHead) => true,
        (WorkStage::LoadHeader, WorkStage::LoadHeader) => true,
        (WorkStage::LoadText(a), WorkStage::LoadText(b)) => a == b,
        (WorkStage::Read, WorkStage::Read) => true,
        _ => same_work_middles(a, b),
    }
}

// The same, after the content was read.
fn same_work_middles(a: WorkStage, b: WorkStage) -> bool
    ensures { IsTrue result → a ≡ b }
{
    match (a, b) {
        (WorkStage::LoadValue(a), WorkStage::LoadValue(b)) => a == b,
        (WorkStage::LoadKind { input: a, value: c }, WorkStage::LoadKind { input: b, value: d }) =>
            a == b && c == d,
        (WorkStage::LoadOwnValue, WorkStage::LoadOwnValue) => true,
        (WorkStage::LoadOwnKind, WorkStage::LoadOwnKind) => true,
        (WorkStage::Wait, WorkStage::Wait) => true,
        (WorkStage::StoreValue, WorkStage::StoreValue) => true,
        (WorkStage::StoreKind, WorkStage::StoreKind) => true,
        (WorkStage::FlushValue, WorkStage::FlushValue) => true,
        (WorkStage::FlushKind, WorkStage::FlushKind) => true,
        _ => same_work_ends(a, b),
    }
}

// The same, after the flushes.
fn same_work_ends(a: WorkStage, b: WorkStage) -> bool
    ensures { IsTrue result → a ≡ b }
{
    match (a, b) {
        (WorkStage::BackValue, WorkStage::BackValue) => true,
        (WorkStage::BackKind, WorkStage::BackKind) => true,
        (WorkStage::Telling(a), WorkStage::Telling(b)) => a == b,
        (WorkStage::Clear(a), WorkStage::Clear(b)) => a == b,
        (WorkStage::ClearDirty, WorkStage::ClearDirty) => true,
        (WorkStage::Give, WorkStage::Give) => true,
        (WorkStage::GiveDirty, WorkStage::GiveDirty) => true,
        (WorkStage::FlushCleared(a), WorkStage::FlushCleared(b)) => a == b,
        (WorkStage::BackCleared(a), WorkStage::BackCleared(b)) => a == b,
        (WorkStage::Answer(a), WorkStage::Answer(b)) => a == b,
        _ => false,
    }
}

/// Whether two recoveries are at the same stage.
pub(crate) fn same_recover_stages(a: RecoverStage, b: RecoverStage) -> bool
    ensures { IsTrue result → a ≡ b }
{
    match (a, b) {
        (RecoverStage::LoadVersion, RecoverStage::LoadVersion) => true,
        (RecoverStage::FlushVersion, RecoverStage::FlushVersion) => true,
        (RecoverStage::BackVersion, RecoverStage::BackVersion) => true,
        (RecoverStage::LoadMark(a), RecoverStage::LoadMark(b)) => a == b,
        (RecoverStage::FlushValue(a), RecoverStage::FlushValue(b)) => a == b,
        (RecoverStage::FlushKind(a), RecoverStage::FlushKind(b)) => a == b,
        (RecoverStage::BackValue(a), RecoverStage::BackValue(b)) => a == b,
        (RecoverStage::BackKind(a), RecoverStage::BackKind(b)) => a == b,
        (RecoverStage::Telling(a, c), RecoverStage::Telling(b, d)) => a == b && c == d,
        _ => same_recover_middles(a, b),
    }
}

// The same, after the references were spread.
fn same_recover_middles(a: RecoverStage, b: RecoverStage) -> bool
    ensures { IsTrue result → a ≡ b }
{
    match (a, b) {
        (RecoverStage::Give(a), RecoverStage::Give(b)) => a == b,
        (RecoverStage::GiveDirty(a), RecoverStage::GiveDirty(b)) => a == b,
        (RecoverStage::FlushGiven(a), RecoverStage::FlushGiven(b)) => a == b,
        (RecoverStage::BackGiven(a), RecoverStage::BackGiven(b)) => a == b,
        (RecoverStage::LoadAnnounce, RecoverStage::LoadAnnounce) => true,
        (RecoverStage::LoadHeader, RecoverStage::LoadHeader) => true,
        (RecoverStage::LoadHead, RecoverStage::LoadHead) => true,
        (RecoverStage::FlushHead, RecoverStage::FlushHead) => true,
        (RecoverStage::BackHead, RecoverStage::BackHead) => true,
        _ => same_recover_ends(a, b),
    }
}

// The same, from the look at done bits on.
fn same_recover_ends(a: RecoverStage, b: RecoverStage) -> bool
    ensures { IsTrue result → a ≡ b }
{
    match (a, b) {
        (RecoverStage::LoadDone, RecoverStage::LoadDone) => true,
        (RecoverStage::OrMark(a), RecoverStage::OrMark(b)) => a == b,
        (RecoverStage::FlushMark(a), RecoverStage::FlushMark(b)) => a == b,
        (RecoverStage::BackMark(a), RecoverStage::BackMark(b)) => a == b,
        (RecoverStage::StoreOutcome(a), RecoverStage::StoreOutcome(b)) => a == b,
        (RecoverStage::FlushOutcome(a), RecoverStage::FlushOutcome(b)) => a == b,
        (RecoverStage::BackOutcome(a), RecoverStage::BackOutcome(b)) => a == b,
        (RecoverStage::Answer(a), RecoverStage::Answer(b)) => a == b,
        _ => false,
    }
}
