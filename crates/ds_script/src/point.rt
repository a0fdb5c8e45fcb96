//! The points of calls, by their names.

ghost use Rattle.std.specs.Prelude.{◌≡◌};
ghost use Rattle.ds_script.specs.Points.{name_of_point, name_of, edit_named, work_named, recovery_named, migration_named, point_named_in, is_in_call, lacks, has_passed};

use ds_state::point::{EditPoint, MigrationPoint, Point, RecoveryPoint, WorkPoint};
use ds_state::situation::Situation;

/// The name of a point, of whichever call.
#[derive(Clone, Copy, Debug, PartialEq, Eq)]
pub enum PointName {
    /// Of an edit.
    Written,
    /// Of an edit.
    Announced,
    /// Of an edit.
    Indexed,
    /// Of an edit.
    Helped,
    /// Of an edit.
    Swung,
    /// Of an edit, and of a recovery.
    Kept,
    /// Of an edit, and of a recovery.
    Marked,
    /// Of an edit, and of a recovery.
    Answered,
    /// Of work.
    Held,
    /// Of work.
    Stored,
    /// Of work.
    Valued,
    /// Of work.
    Spread,
    /// Of work.
    Cleared,
    /// Of a recovery.
    Freed,
    /// Of a migration: all words of the texts are copied, and persisted.
    Copied,
    /// Of a migration: the sheet has the second layout, and no crash takes that away.
    Switched,
}

impl PointName {
    /// As scripts write it.
    pub fn name(self) -> &'static str
        ensures { result.now ≡ name_of_point self }
    {
        match self {
            PointName::Written => "written",
            PointName::Announced => "announced",
            PointName::Indexed => "indexed",
            PointName::Helped => "helped",
            PointName::Swung => "swung",
            PointName::Kept => "kept",
            PointName::Marked => "marked",
            PointName::Answered => "answered",
            PointName::Held => "held",
            PointName::Stored => "stored",
            PointName::Valued => "valued",
            PointName::Spread => "spread",
            PointName::Cleared => "cleared",
            PointName::Freed => "freed",
            PointName::Copied => "copied",
            PointName::Switched => "switched",
        }
    }

    /// The name of a point.
    pub fn of(point: Point) -> PointName
        ensures { result ≡ name_of point }
    {
        match point {
            Point::Edit(EditPoint::Written) => PointName::Written,
            Point::Edit(EditPoint::Announced) => PointName::Announced,
            Point::Edit(EditPoint::Indexed) => PointName::Indexed,
            Point::Edit(EditPoint::Helped) => PointName::Helped,
            Point::Edit(EditPoint::Swung) => PointName::Swung,
            Point::Edit(EditPoint::Kept) => PointName::Kept,
            Point::Edit(EditPoint::Marked) => PointName::Marked,
            Point::Edit(EditPoint::Answered) => PointName::Answered,
            Point::Work(WorkPoint::Held) => PointName::Held,
            Point::Work(WorkPoint::Stored) => PointName::Stored,
            Point::Work(WorkPoint::Valued) => PointName::Valued,
            Point::Work(WorkPoint::Spread) => PointName::Spread,
            Point::Work(WorkPoint::Cleared) => PointName::Cleared,
            Point::Recovery(RecoveryPoint::Freed) => PointName::Freed,
            Point::Recovery(RecoveryPoint::Kept) => PointName::Kept,
            Point::Recovery(RecoveryPoint::Marked) => PointName::Marked,
            Point::Recovery(RecoveryPoint::Answered) => PointName::Answered,
            Point::Migration(MigrationPoint::Copied) => PointName::Copied,
            Point::Migration(MigrationPoint::Switched) => PointName::Switched,
        }
    }

    // The point of an edit that has this name.
    fn of_edit(self) -> Option<EditPoint>
        ensures { result ≡ edit_named self }
    {
        match self {
            PointName::Written => Some(EditPoint::Written),
            PointName::Announced => Some(EditPoint::Announced),
            PointName::Indexed => Some(EditPoint::Indexed),
            PointName::Helped => Some(EditPoint::Helped),
            PointName::Swung => Some(EditPoint::Swung),
            PointName::Kept => Some(EditPoint::Kept),
            PointName::Marked => Some(EditPoint::Marked),
            PointName::Answered => Some(EditPoint::Answered),
            _ => None,
        }
    }

    // The point of a work that has this name.
    fn of_work(self) -> Option<WorkPoint>
        ensures { result ≡ work_named self }
    {
        match self {
            PointName::Held => Some(WorkPoint::Held),
            PointName::Stored => Some(WorkPoint::Stored),
            PointName::Valued => Some(WorkPoint::Valued),
            PointName::Spread => Some(WorkPoint::Spread),
            PointName::Cleared => Some(WorkPoint::Cleared),
            _ => None,
        }
    }

    // The point of a recovery that has this name.
    fn of_recovery(self) -> Option<RecoveryPoint>
        ensures { result ≡ recovery_named self }
    {
        match self {
            PointName::Freed => Some(RecoveryPoint::Freed),
            PointName::Kept => Some(RecoveryPoint::Kept),
            PointName::Marked => Some(RecoveryPoint::Marked),
            PointName::Answered => Some(RecoveryPoint::Answered),
            _ => None,
        }
    }

    // The point of a migration that has this name.
    fn of_migration(self) -> Option<MigrationPoint>
        ensures { result ≡ migration_named self }
    {
        match self {
            PointName::Copied => Some(MigrationPoint::Copied),
            PointName::Switched => Some(MigrationPoint::Switched),
            _ => None,
        }
    }

    // The point of the process's call that has this name.
    fn in_call(self, situation: &Situation) -> Option<Point>
        ensures { result ≡ point_named_in situation.now self }
    {
        match situation {
            Situation::Editing(_) => self.of_edit().map(Point::Edit),
            Situation::Working(_) => self.of_work().map(Point::Work),
            Situation::Recovering(_) => self.of_recovery().map(Point::Recovery),
            Situation::Migrating(_) => self.of_migration().map(Point::Migration),
            Situation::Idle(_) | Situation::Stopped | Situation::Showing(_) => None,
        }
    }
}

fn is_in_call(situation: &Situation) -> bool
    ensures { result ≡ is_in_call situation.now }
{
    !matches!(situation, Situation::Idle(_) | Situation::Stopped)
}

/// Whether the process is in a call that has no such point.
pub fn is_lacking(situation: &Situation, name: PointName) -> bool
    ensures { result ≡ lacks situation.now name }
{
    is_in_call(situation) && name.in_call(situation).is_none()
}

/// Whether its call has passed the point, or a later one.
pub fn is_past(situation: &Situation, name: PointName) -> bool
    ensures { result ≡ has_passed situation.now name }
{
    match (Point::of(situation), name.in_call(situation)) {
        (Some(last), Some(wanted)) => last.has_reached(wanted),
        _ => false,
    }
}
