//! What a process announces of its last edit.

ghost use Rattle.std.specs.Prelude.{◌≡◌, IfSome};
ghost use Rattle.ds_layout.specs.Announcement.{IsAnnouncement, announcement_word, announcement_of, phase_code};

use crate::place::RECORDS;

/// How far an announced edit is.
#[derive(Clone, Copy, Debug, PartialEq, Eq)]
pub enum Phase {
    /// It may still be linearized or not.
    Pending,
    /// It is linearized.
    Done,
    /// It is not linearized.
    NotDone,
}

/// An edit of a process, by its number, and how far it is.
#[derive(Clone, Copy, Debug, PartialEq, Eq)]
pub struct Announcement {
    /// The edit's number among those of its process, from 0 to 255.
    pub number: usize,
    /// How far the edit is.
    pub phase: Phase,
}

impl Phase {
    fn code(self) -> u64
        ensures { result ≡ phase_code self }
    {
        match self {
            Phase::Pending => 1,
            Phase::Done => 2,
            Phase::NotDone => 3,
        }
    }
}

impl Announcement {
    /// The announcement's word, `(number + 1) * 4 + phase`, with the phases 1 pending, 2 done and 3
    /// not done (our own rule). The number is below 256.
    pub fn word(self) -> u64
        requires { IsAnnouncement self }
        ensures value { result ≡ announcement_word self }
        ensures reads_back { announcement_of result ≡ Some self }
    {
        (self.number as u64 + 1) * 4 + self.phase.code()
    }

    /// What an announcement's word says: `None` where the phase is 0 or the number is no record's.
    pub fn read(word: u64) -> Option<Announcement>
        ensures value { result ≡ announcement_of word }
        ensures announcement { IfSome result IsAnnouncement }
        ensures word { IfSome result (λ a. announcement_word a ≡ word) }
    {
        let first = word / 4;
        if first == 0 || first > RECORDS as u64 {
            return None;
        }
        let phase = match word % 4 {
            1 => Phase::Pending,
            2 => Phase::Done,
            3 => Phase::NotDone,
            _ => return None,
        };
        Some(Announcement {
            number: first as usize - 1,
            phase,
        })
    }
}
