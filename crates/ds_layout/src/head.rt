//! The head of a cell: its last linearized edit.

ghost use Rattle.std.specs.Prelude.{◌≡◌, ℕ, ◌<◌, IfSome};
ghost use Rattle.ds_layout.specs.Head.{CanPack, IsHead, parts_of, next_head, head_word, head_of, names_edit};

/// The greatest stamp of a head. The heads of a sheet stay far below it: each process edits at most
/// 256 times.
pub const LAST_STAMP: u64 = (1 << 48) - 1;

/// An edit of a cell, by its process and its number there. The stamp counts the edits of the cell,
/// from 1.
#[derive(Clone, Copy, Debug, PartialEq, Eq)]
pub struct Head {
    /// How many edits of the cell there are up to this one, itself included: from 1.
    pub stamp: u64,
    /// The process that made the edit, from 0.
    pub process: usize,
    /// The edit's number among those of its process, from 0 to 255.
    pub number: usize,
}

impl Head {
    ghost use Rattle.ds_layout.specs.declared.head.Head.{Head};

    /// The head's word, `stamp * 65536 + process * 256 + number` (our own rule): a greater stamp
    /// gives a greater word. The stamp is below 2^48, the process and the number are below 256.
    pub fn word(self) -> u64
        requires { CanPack self }
        ensures value { result ≡ head_word self }
        ensures grows { (other : Head) → CanPack other → other.stamp < self.stamp
            → head_word other < result }
        ensures reads_back { (processes : ℕ) → IsHead processes self
            → head_of processes result ≡ Some self }
    {
        self.stamp * 65536 + self.process as u64 * 256 + self.number as u64
    }

    /// The parts of a word, whatever they are: `read` says whether they are a head's.
    pub fn parts(word: u64) -> Head
        ensures { result ≡ parts_of word }
    {
        Head {
            stamp: word / 65536,
            process: (word / 256 % 256) as usize,
            number: (word % 256) as usize,
        }
    }

    /// The head of an edit of a process, below 256, by its number there, below 256, which follows the
    /// head in a word: its stamp is one greater, up to the greatest that there is.
    pub fn next(word: u64, process: usize, number: usize) -> Head
        ensures { result ≡ next_head word process number }
    {
        Head {
            stamp: (word / 65536 + 1).min(LAST_STAMP),
            process,
            number,
        }
    }

    /// What a head's word says in a sheet with that number of processes: `None` where the stamp is 0, as
    /// in a cell without edits, or the process is not one of the sheet.
    pub fn read(word: u64, processes: usize) -> Option<Head>
        ensures value { result ≡ head_of processes word }
        ensures head { IfSome result (IsHead processes) }
        ensures word { IfSome result (λ h. head_word h ≡ word) }
    {
        let head = Head::parts(word);
        if head.stamp != 0 && head.process < processes {
            Some(head)
        } else {
            None
        }
    }

    /// Whether a head's word names this edit of this process, whatever its stamp. Both are below 256.
    pub fn names(word: u64, process: usize, number: usize) -> bool
        requires process { process < 256 }
        requires number { number < 256 }
        ensures { result ≡ names_edit word process number }
    {
        word % 65536 == process as u64 * 256 + number as u64
    }
}
