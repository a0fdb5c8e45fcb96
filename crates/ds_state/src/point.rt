//! The points of calls: what a call has passed, in the order of its steps.

ghost use Rattle.std.specs.Prelude.{◌≡◌};
ghost use Rattle.ds_state.specs.Points.{edit_place, work_place, recovery_place, migration_place, has_reached, edit_point, end_point, answer_point, work_point, recovery_point, migration_point, point_of};

use crate::migration::{MigrateEnd, MigrateStage};
use crate::recovery::RecoverStage;
use crate::situation::Situation;
use crate::stage::Stage;
use crate::work::{WorkEnd, WorkStage};

/// What an edit has passed, in this order.
#[derive(Clone, Copy, Debug, PartialEq, Eq)]
pub enum EditPoint {
    /// Its record stands on both sides.
    Written,
    /// It is announced on both sides.
    Announced,
    /// Its cell stands in the index row of each of its references on both sides.
    Indexed,
    /// The edit whose head it noted is persisted as a linearized one.
    Helped,
    /// It has taken the place of the head that it noted, or has found another one there.
    Swung,
    /// Its head, or a later one, is persisted.
    Kept,
    /// Its cell is marked on both sides.
    Marked,
    /// How it ended is announced on both sides.
    Answered,
}

/// What a work has passed, in this order.
#[derive(Clone, Copy, Debug, PartialEq, Eq)]
pub enum WorkPoint {
    /// Its claim stands on both sides.
    Held,
    /// Its value is stored, on the cached side.
    Stored,
    /// Its value stands on both sides.
    Valued,
    /// The cells that refer to its cell are marked, where its value has changed.
    Spread,
    /// Its mark is let go, and persisted so.
    Cleared,
}

/// What a recovery has passed, in this order.
#[derive(Clone, Copy, Debug, PartialEq, Eq)]
pub enum RecoveryPoint {
    /// Its process holds no cell.
    Freed,
    /// The head that decides of the edit in doubt is persisted.
    Kept,
    /// The cell of that edit is marked on both sides, if the edit was pending.
    Marked,
    /// How that edit ended is announced on both sides.
    Answered,
}

/// What a migration has passed, in this order.
#[derive(Clone, Copy, Debug, PartialEq, Eq)]
pub enum MigrationPoint {
    /// All words of the texts are copied, and persisted.
    Copied,
    /// The sheet has the second layout, and no crash takes that away.
    Switched,
}

/// A point of a call, by the call's kind. A show has none.
#[derive(Clone, Copy, Debug, PartialEq, Eq)]
pub enum Point {
    /// Of an edit.
    Edit(EditPoint),
    /// Of a work.
    Work(WorkPoint),
    /// Of a recovery.
    Recovery(RecoveryPoint),
    /// Of a migration.
    Migration(MigrationPoint),
}

impl EditPoint {
    // Its place in the order, from 1.
    fn place(self) -> u8
        ensures { result ≡ edit_place self }
    {
        match self {
            EditPoint::Written => 1,
            EditPoint::Announced => 2,
            EditPoint::Indexed => 3,
            EditPoint::Helped => 4,
            EditPoint::Swung => 5,
            EditPoint::Kept => 6,
            EditPoint::Marked => 7,
            EditPoint::Answered => 8,
        }
    }

    /// The last one that an edit at this stage has passed: none while it writes its record.
    pub fn at(stage: Stage) -> Option<EditPoint>
        ensures { result ≡ edit_point stage }
    {
        match stage {
            Stage::StoreHeader | Stage::StoreText(_) => None,
            Stage::FlushHeader | Stage::FlushText(_) | Stage::BackRecord(_) => None,
            Stage::StorePending => Some(EditPoint::Written),
            Stage::FlushPending | Stage::BackPending => Some(EditPoint::Written),
            Stage::OrIndex(_) => Some(EditPoint::Announced),
            Stage::FlushIndex(_) | Stage::BackIndex(_) => Some(EditPoint::Announced),
            Stage::LoadHead | Stage::FlushNoted(_) => Some(EditPoint::Indexed),
            Stage::BackNoted(_) | Stage::OrDone(_) => Some(EditPoint::Indexed),
            Stage::FlushDone(_) | Stage::BackDone(_) => Some(EditPoint::Indexed),
            Stage::Swap(_) => Some(EditPoint::Helped),
            Stage::FlushOwn(_) | Stage::BackOwn(_) => Some(EditPoint::Swung),
            Stage::OrMark(_) | Stage::FlushMark(_) | Stage::BackMark(_) => Some(EditPoint::Kept),
            Stage::StoreOutcome(_) => Some(EditPoint::Marked),
            Stage::FlushOutcome(_) | Stage::BackOutcome(_) => Some(EditPoint::Marked),
            Stage::Answer(_) => Some(EditPoint::Answered),
        }
    }
}

impl WorkPoint {
    // Its place in the order, from 1.
    fn place(self) -> u8
        ensures { result ≡ work_place self }
    {
        match self {
            WorkPoint::Held => 1,
            WorkPoint::Stored => 2,
            WorkPoint::Valued => 3,
            WorkPoint::Spread => 4,
            WorkPoint::Cleared => 5,
        }
    }

    // The last one of a work that lets its cell go, with this end.
    fn before(end: WorkEnd) -> Option<WorkPoint>
        ensures { result ≡ end_point end }
    {
        match end {
            WorkEnd::Published(_) | WorkEnd::Again => Some(WorkPoint::Spread),
            WorkEnd::NoMemory => Some(WorkPoint::Held),
            WorkEnd::NotDirty | WorkEnd::Missed | WorkEnd::Worn => None,
        }
    }

    // The last one of a work that answers this.
    fn answered(end: WorkEnd) -> Option<WorkPoint>
        ensures { result ≡ answer_point end }
    {
        match end {
            WorkEnd::Published(_) | WorkEnd::Again => Some(WorkPoint::Cleared),
            WorkEnd::NoMemory => Some(WorkPoint::Held),
            WorkEnd::NotDirty | WorkEnd::Missed | WorkEnd::Worn => None,
        }
    }

    /// The last one that a work at this stage has passed: none before its claim is persisted.
    pub fn at(stage: WorkStage) -> Option<WorkPoint>
        ensures { result ≡ work_point stage }
    {
        match stage {
            WorkStage::LoadMark | WorkStage::Claim => None,
            WorkStage::FlushClaim | WorkStage::BackClaim => None,
            WorkStage::LoadHead | WorkStage::LoadHeader => Some(WorkPoint::Held),
            WorkStage::LoadText(_) | WorkStage::Read => Some(WorkPoint::Held),
            WorkStage::LoadValue(_) => Some(WorkPoint::Held),
            WorkStage::LoadKind { input: _, value: _ } => Some(WorkPoint::Held),
            WorkStage::LoadOwnValue | WorkStage::LoadOwnKind => Some(WorkPoint::Held),
            WorkStage::Wait => Some(WorkPoint::Held),
            WorkStage::StoreValue | WorkStage::StoreKind => Some(WorkPoint::Held),
            WorkStage::FlushValue | WorkStage::FlushKind => Some(WorkPoint::Stored),
            WorkStage::BackValue | WorkStage::BackKind => Some(WorkPoint::Stored),
            WorkStage::Telling(_) => Some(WorkPoint::Valued),
            WorkStage::Clear(_) | WorkStage::ClearDirty => Some(WorkPoint::Spread),
            WorkStage::Give | WorkStage::GiveDirty => Some(WorkPoint::Held),
            WorkStage::FlushCleared(end) | WorkStage::BackCleared(end) => WorkPoint::before(end),
            WorkStage::Answer(end) => WorkPoint::answered(end),
        }
    }
}

impl RecoveryPoint {
    // Its place in the order, from 1.
    fn place(self) -> u8
        ensures { result ≡ recovery_place self }
    {
        match self {
            RecoveryPoint::Freed => 1,
            RecoveryPoint::Kept => 2,
            RecoveryPoint::Marked => 3,
            RecoveryPoint::Answered => 4,
        }
    }

    /// The last one that a recovery at this stage has passed: none while its process may hold a cell.
    pub fn at(stage: RecoverStage) -> Option<RecoveryPoint>
        ensures { result ≡ recovery_point stage }
    {
        match stage {
            RecoverStage::LoadVersion | RecoverStage::FlushVersion => None,
            RecoverStage::BackVersion | RecoverStage::LoadMark(_) => None,
            RecoverStage::FlushValue(_) | RecoverStage::FlushKind(_) => None,
            RecoverStage::BackValue(_) | RecoverStage::BackKind(_) => None,
            RecoverStage::Telling(_, _) => None,
            RecoverStage::Give(_) | RecoverStage::GiveDirty(_) => None,
            RecoverStage::FlushGiven(_) | RecoverStage::BackGiven(_) => None,
            RecoverStage::LoadAnnounce => Some(RecoveryPoint::Freed),
            RecoverStage::LoadHeader | RecoverStage::LoadHead => Some(RecoveryPoint::Freed),
            RecoverStage::FlushHead | RecoverStage::BackHead => Some(RecoveryPoint::Freed),
            RecoverStage::LoadDone => Some(RecoveryPoint::Freed),
            RecoverStage::OrMark(_) => Some(RecoveryPoint::Kept),
            RecoverStage::FlushMark(_) | RecoverStage::BackMark(_) => Some(RecoveryPoint::Kept),
            RecoverStage::StoreOutcome(_) => Some(RecoveryPoint::Marked),
            RecoverStage::FlushOutcome(_) => Some(RecoveryPoint::Marked),
            RecoverStage::BackOutcome(_) => Some(RecoveryPoint::Marked),
            RecoverStage::Answer(None) => Some(RecoveryPoint::Freed),
            RecoverStage::Answer(Some(_)) => Some(RecoveryPoint::Answered),
        }
    }
}

impl MigrationPoint {
    // Its place in the order, from 1.
    fn place(self) -> u8
        ensures { result ≡ migration_place self }
    {
        match self {
            MigrationPoint::Copied => 1,
            MigrationPoint::Switched => 2,
        }
    }

    /// The last one that a migration at this stage has passed: none while it copies, and none of a sheet that had the
    /// second layout already.
    pub fn at(stage: MigrateStage) -> Option<MigrationPoint>
        ensures { result ≡ migration_point stage }
    {
        match stage {
            MigrateStage::LoadVersion | MigrateStage::LoadOld(_) => None,
            MigrateStage::StoreNew(_) => None,
            MigrateStage::FlushNew(_) | MigrateStage::BackNew(_) => None,
            MigrateStage::Swap => Some(MigrationPoint::Copied),
            MigrateStage::FlushVersion(MigrateEnd::Migrated) => Some(MigrationPoint::Copied),
            MigrateStage::BackVersion(MigrateEnd::Migrated) => Some(MigrationPoint::Copied),
            MigrateStage::Answer(MigrateEnd::Migrated) => Some(MigrationPoint::Switched),
            MigrateStage::FlushVersion(MigrateEnd::Already) => None,
            MigrateStage::BackVersion(MigrateEnd::Already) => None,
            MigrateStage::Answer(MigrateEnd::Already) => None,
        }
    }
}

impl Point {
    /// The last one that the call of a process in this situation has passed: none where it is in no call, or has
    /// passed none yet.
    pub fn of(situation: &Situation) -> Option<Point>
        ensures { result ≡ point_of situation.now }
    {
        match situation {
            Situation::Idle(_) | Situation::Stopped | Situation::Showing(_) => None,
            Situation::Editing(call) => EditPoint::at(call.stage).map(Point::Edit),
            Situation::Working(call) => WorkPoint::at(call.stage).map(Point::Work),
            Situation::Recovering(call) => RecoveryPoint::at(call.stage).map(Point::Recovery),
            Situation::Migrating(call) => MigrationPoint::at(call.stage).map(Point::Migration),
        }
    }

    /// Whether a call whose last point is this one has passed the wanted one: a point of its kind, this one or an
    /// earlier one.
    pub fn has_reached(self, wanted: Point) -> bool
        ensures { result ≡ has_reached self wanted }
    {
        match (self, wanted) {
            (Point::Edit(last), Point::Edit(wanted)) => wanted.place() <= last.place(),
            (Point::Work(last), Point::Work(wanted)) => wanted.place() <= last.place(),
            (Point::Recovery(last), Point::Recovery(wanted)) => wanted.place() <= last.place(),
            (Point::Migration(last), Point::Migration(wanted)) => wanted.place() <= last.place(),
            _ => false,
        }
    }
}
