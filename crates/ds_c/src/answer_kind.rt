//! Which answer a row is.

ghost use Rattle.std.specs.Prelude.{◌≡◌};
ghost use Rattle.ds_c.specs.AnswerKinds.{kind_number};

/// Which reply to an event, answer of a call or end of a settle a row is. C has it as a number.
#[derive(Clone, Copy, Debug, PartialEq, Eq)]
pub enum AnswerKind {
    /// The edit has begun, with a number.
    Begun,
    /// The work, the report, the recovery or the migration has begun.
    Entered,
    /// The call has not begun, for a cause.
    Refused,
    /// The process has made a step.
    Stepped,
    /// The work waits for another task.
    WrongTask,
    /// The word is evicted.
    Evicted,
    /// The process is stopped.
    Stopped,
    /// All that was not persisted is lost, and each process is stopped.
    Crashed,
    /// The event cannot happen now.
    NotEnabled,
    /// The edit of this number counts.
    Done,
    /// It does not: another edit stood in its place.
    Overtaken,
    /// Work: the cell's mark was clean.
    NotDirty,
    /// Work: another process has the cell.
    Missed,
    /// Work: the cell's mark has no generation left.
    Worn,
    /// Work: the cell is clean.
    Published,
    /// Work: the cell was marked meanwhile, and is left dirty.
    Again,
    /// Work: an allocation failed, and the cell is given back dirty.
    NoMemory,
    /// Recovery: how the process's last edit that was announced ended.
    Last,
    /// Recovery: the process has announced no edit.
    Nothing,
    /// A report: its values are the process's last ones.
    Settled,
    /// A report: the mark of a cell was not at rest.
    UnsettledMark,
    /// A report: the announcement of a process was not at rest.
    UnsettledAnnouncement,
    /// A report: another word was not at rest. No report answers it.
    UnsettledWord,
    /// A settle: the number of cells that are marked or held.
    Left,
    /// A migration: the sheet has come to the second layout.
    Migrated,
    /// A migration: the sheet had the second layout already.
    Already,
}

impl AnswerKind {
    /// Its number, as C has it, from 1.
    pub fn number(self) -> u32
        ensures { result ≡ kind_number self }
    {
        match self {
            AnswerKind::Begun => 1,
            AnswerKind::Entered => 2,
            AnswerKind::Refused => 3,
            AnswerKind::Stepped => 4,
            AnswerKind::WrongTask => 5,
            AnswerKind::Evicted => 6,
            AnswerKind::Stopped => 7,
            AnswerKind::Crashed => 8,
            AnswerKind::NotEnabled => 9,
            AnswerKind::Done => 10,
            AnswerKind::Overtaken => 11,
            AnswerKind::NotDirty => 12,
            AnswerKind::Missed => 13,
            AnswerKind::Worn => 14,
            AnswerKind::Published => 15,
            AnswerKind::Again => 16,
            AnswerKind::NoMemory => 17,
            AnswerKind::Last => 18,
            AnswerKind::Nothing => 19,
            AnswerKind::Settled => 20,
            AnswerKind::UnsettledMark => 21,
            AnswerKind::UnsettledAnnouncement => 22,
            AnswerKind::UnsettledWord => 23,
            AnswerKind::Left => 24,
            AnswerKind::Migrated => 25,
            AnswerKind::Already => 26,
        }
    }
}
