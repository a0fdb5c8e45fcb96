//! What a process was answered about its edits.

use crate::draw::DrawnCall;
use ds_layout::place::RECORDS;
use ds_shared::ended::Ended;
use ds_state::answer::{Answer, EditEnd};
use ds_state::recovery::{LastEdit, RecoveryEnd};
use ds_state::refusal::Refusal;
use ds_state::work::WorkEnd;
use std::alloc::Global;

/// What became of an edit, as far as its process was answered.
#[derive(Clone, Copy, Debug, PartialEq, Eq)]
pub enum Fate {
    /// It is in doubt.
    Open,
    /// It is linearized.
    Counts,
    /// It never does.
    Never,
}

/// An edit.
#[derive(Clone, Copy, Debug, PartialEq, Eq)]
pub struct Edit {
    /// The number of the edit among those of its process.
    pub number: usize,
    /// The number of its cell.
    pub cell: usize,
    /// The text that it gives the cell.
    pub text: &'static str,
    /// What became of it.
    pub fate: Fate,
}

/// The first call of a process whose end was none that fits what it was answered before.
#[derive(Clone, Copy, Debug, PartialEq, Eq)]
pub struct Surprise {
    /// The call.
    pub call: DrawnCall,
    /// The number that its next edit was to have.
    pub next: usize,
    /// How it ended.
    pub ended: Ended<Answer>,
}

/// What a process was answered: its edits, in the order of their numbers. At most the last one is in doubt.
#[derive(Drop)]
pub struct Account {
    /// The edits of the process.
    pub edits: Vec<Edit>,
    /// Whether it is stopped.
    pub is_stopped: bool,
    /// What did not fit.
    pub surprise: Option<Surprise>,
}

impl Account {
    /// The account of a process that runs, and has made no edit.
    pub fn new(alloc: Global) -> Account {
        Account {
            edits: Vec::new(alloc),
            is_stopped: false,
            surprise: None,
        }
    }

    /// The number of its next edit, where none is in doubt.
    pub fn next(&self) -> usize {
        match self.edits.last() {
            Some(edit) => edit.number.wrapping_add(1),
            None => 0,
        }
    }

    /// The cell's last linearized edit.
    pub fn last_of(&self, cell: usize) -> Option<Edit> {
        let mut last = None;
        for edit in &self.edits {
            if edit.cell == cell && edit.fate == Fate::Counts {
                last = Some(*edit);
            }
        }
        last
    }

    /// How many edits of the cell are linearized.
    pub fn count_of(&self, cell: usize) -> u64 {
        let mut count = 0u64;
        for edit in &self.edits {
            if edit.cell == cell && edit.fate == Fate::Counts {
                count = count.wrapping_add(1);
            }
        }
        count
    }

    /// A call has ended so.
    pub fn note(&mut self, call: DrawnCall, ended: Ended<Answer>) {
        let next = self.next();
        if !self.fits(call, ended) && self.surprise.is_none() {
            self.surprise = Some(Surprise { call, next, ended });
        }
        match ended {
            Ended::Stopped => self.is_stopped = true,
            Ended::Answered(_) => self.is_stopped = false,
            Ended::Refused(_) => {}
        }
    }

    // Takes the end of the call in, and says whether it fits.
    fn fits(&mut self, call: DrawnCall, ended: Ended<Answer>) -> bool {
        match call {
            DrawnCall::Recover => self.recovered(ended),
            _ if self.is_stopped => ended == Ended::Refused(Refusal::Stopped),
            DrawnCall::Edit { cell, text } => self.edited(cell, text, ended),
            DrawnCall::Work(_) => is_of_work(ended),
            DrawnCall::Show => is_of_show(ended),
        }
    }

    fn edited(&mut self, cell: usize, text: &'static str, ended: Ended<Answer>) -> bool {
        let next = self.next();
        let (number, fate) = match ended {
            Ended::Answered(Answer::Edit(EditEnd::Done(number))) => (number, Fate::Counts),
            Ended::Answered(Answer::Edit(EditEnd::Overtaken(number, _))) => (number, Fate::Never),
            Ended::Stopped => (next, Fate::Open),
            Ended::Refused(Refusal::Text(_)) => return text == crate::grid::FAULTY,
            Ended::Refused(Refusal::RecordsFull) => return next == RECORDS,
            _ => return false,
        };
        let edit = Edit {
            number,
            cell,
            text,
            fate,
        };
        number == next && next < RECORDS && self.edits.push(edit).is_ok()
    }

    fn recovered(&mut self, ended: Ended<Answer>) -> bool {
        match ended {
            Ended::Answered(Answer::Recovery(RecoveryEnd::Nothing)) => {
                self.forget();
                self.edits.is_empty()
            }
            Ended::Answered(Answer::Recovery(RecoveryEnd::Last(resolved))) => self.resolve(
                resolved,
            ),
            Ended::Stopped => true,
            _ => false,
        }
    }

    // The edit in doubt was never announced.
    fn forget(&mut self) {
        match self.edits.last().copied() {
            Some(edit) if edit.fate == Fate::Open => {
                let _edit = self.edits.pop();
            }
            _ => {}
        }
    }

    // The last edit that was announced ended so.
    fn resolve(&mut self, resolved: LastEdit) -> bool {
        let fate = if resolved.counts {
            Fate::Counts
        } else {
            Fate::Never
        };
        match self.edits.last().copied() {
            Some(edit) if edit.number != resolved.number => self.forget(),
            _ => {}
        }
        match self.edits.last_mut() {
            Some(edit) if edit.fate == Fate::Open => edit.fate = fate,
            _ => {}
        }
        match self.edits.last() {
            Some(edit) => {
                edit.number == resolved.number && edit.cell == resolved.cell && edit.fate == fate
            }
            None => false,
        }
    }
}

// Whether a work of a process that runs ends so.
fn is_of_work(ended: Ended<Answer>) -> bool {
    match ended {
        Ended::Answered(Answer::Work(WorkEnd::NotDirty | WorkEnd::Missed | WorkEnd::Again)) => true,
        Ended::Answered(Answer::Work(WorkEnd::Published(_))) => true,
        Ended::Stopped => true,
        _ => false,
    }
}

// Whether a report of a process that runs ends so.
fn is_of_show(ended: Ended<Answer>) -> bool {
    match ended {
        Ended::Answered(Answer::Show(_)) | Ended::Stopped => true,
        _ => false,
    }
}
