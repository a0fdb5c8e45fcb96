//! What a call answers.

ghost use Rattle.std.specs.Prelude.{◌≡◌};
ghost use Rattle.ds_layout.specs.Head.{head_of};
ghost use Rattle.ds_state.specs.EditEndings.{other_of, end_of};

use crate::migration::MigrateEnd;
use crate::recovery::RecoveryEnd;
use crate::show::ShowEnd;
use crate::stage::Outcome;
use crate::work::WorkEnd;
use ds_layout::head::Head;

/// An edit of another process.
#[derive(Clone, Copy, Debug, PartialEq, Eq)]
pub struct Other {
    /// The process.
    pub process: usize,
    /// Which of its edits, from 0.
    pub number: usize,
}

/// How an edit ended. Its number says which of its process's edits it is, from 0.
#[derive(Clone, Copy, Debug, PartialEq, Eq)]
pub enum EditEnd {
    /// The edit of this number is linearized.
    Done(usize),
    /// The edit of this number does not: the other edit stood in its place when it tried to take it. The number is spent.
    Overtaken(usize, Other),
}

/// How a call ended: each kind of call has ends of its own.
#[derive(Clone, Copy, Debug, PartialEq, Eq)]
pub enum Answer {
    /// An edit.
    Edit(EditEnd),
    /// Work on a cell.
    Work(WorkEnd),
    /// A show.
    Show(ShowEnd),
    /// A recovery.
    Recovery(RecoveryEnd),
    /// A migration.
    Migration(MigrateEnd),
}

impl Other {
    /// The edit of the head that the word says. A word that is no head has none.
    pub fn of(seen: u64, processes: usize) -> Other
        ensures { result ≡ other_of (head_of processes seen) }
    {
        match Head::read(seen, processes) {
            Some(head) => Other {
                process: head.process,
                number: head.number,
            },
            None => Other {
                process: 0,
                number: 0,
            },
        }
    }
}

impl EditEnd {
    /// The end of the edit with this number, which ended so.
    pub fn of(processes: usize, number: usize, how: Outcome) -> EditEnd
        ensures { result ≡ end_of processes number how }
    {
        match how {
            Outcome::Done => EditEnd::Done(number),
            Outcome::Overtaken { noted: _, seen } => {
                EditEnd::Overtaken(number, Other::of(seen, processes))
            }
        }
    }
}
