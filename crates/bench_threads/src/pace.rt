//! What is measured.

ghost use Rattle.std.specs.Prelude.{◌<◌};

use crate::tally::PaceTally;

/// What the calls stand on.
#[derive(Clone, Copy)]
pub enum Beneath {
    /// A shared sheet.
    Shared,
    /// A sheet behind a lock.
    Locked,
}

/// Which calls are made.
#[derive(Clone, Copy)]
pub enum PaceKind {
    /// Each process edits a cell of its own.
    Own,
    /// All processes edit one cell.
    One,
    /// Each process edits a cell of its own, and works on it.
    Work,
    /// All processes edit but the first one, which reports.
    Report,
}

/// Which texts the edits give.
#[derive(Clone, Copy)]
pub enum Texts {
    /// A number.
    Number,
    /// A sum of two references.
    Two,
    /// The sum of a range.
    Range,
    /// A sum of sixteen references.
    Sixteen,
    /// The greatest of 37 numbers.
    Greatest,
}

/// What is measured: n threads, at least one, make 256 calls each on each of m sheets.
#[derive(Clone, Copy)]
pub struct Pace {
    /// What the calls stand on.
    pub beneath: Beneath,
    /// Which calls are made.
    pub kind: PaceKind,
    /// Which texts the edits give.
    pub texts: Texts,
    /// How many threads there are, from 1 to 8.
    pub threads: usize,
    /// How many sheets there are.
    pub sheets: usize,
    ghost some: { 0 < threads },
}

/// What a call of a process is.
#[derive(Clone, Copy)]
pub enum PaceTask {
    /// An edit of the cell in this column.
    Edit(usize),
    /// An edit, and a work on its cell.
    EditAndWork(usize),
    /// A report.
    Report,
}

/// How many processes a sheet has, and how many cells in each row.
pub const PROCESSES: usize = 8;

/// How many calls a process makes on a sheet.
pub const CALLS: usize = 256;

impl Texts {
    /// The texts that the edits give by turns. Where they refer to cells, these are of the second row.
    pub fn pair(self) -> [&'static str; 2] {
        match self {
            Texts::Number => ["1234", "5678"],
            Texts::Two => ["=[.A2]+[.B2]", "=[.A2]+[.C2]"],
            Texts::Range => ["=SUM([.A2:.H2])", "=SUM([.A2:.G2])"],
            Texts::Sixteen => [
                "=[.A2]+[.B2]+[.C2]+[.D2]+[.E2]+[.F2]+[.G2]+[.H2]+[.A2]+[.B2]+[.C2]+[.D2]+[.E2]+[.F2]+[.G2]+[.H2]",
                "=[.A2]+[.B2]+[.C2]+[.D2]+[.E2]+[.F2]+[.G2]+[.H2]+[.A2]+[.B2]+[.C2]+[.D2]+[.E2]+[.F2]+[.G2]+[.A2]",
            ],
            Texts::Greatest => [
                "=MAX(1;2;3;4;5;6;7;8;9;10;11;12;13;14;15;16;17;18;19;20;21;22;23;24;25;26;27;28;29;30;31;32;33;34;35;36;37)",
                "=MAX(1;2;3;4;5;6;7;8;9;10;11;12;13;14;15;16;17;18;19;20;21;22;23;24;25;26;27;28;29;30;31;32;33;34;35;36;38)",
            ],
        }
    }

    /// How many rows a sheet has, whose edits give these.
    pub fn rows(self) -> usize {
        match self {
            Texts::Number => 1,
            _ => 2,
        }
    }
}

impl Pace {
    /// What the threads that report have counted, the first one or none, and the others.
    pub fn split(self, tallies: &[PaceTally]) -> (PaceTally, PaceTally) {
        let reporters = match self.kind {
            PaceKind::Report => tallies.len().min(1),
            _ => 0,
        };
        let (reports, edits) = tallies.split_at(reporters);
        (PaceTally::of(reports), PaceTally::of(edits))
    }

    /// What the process with this number does.
    pub fn task(self, process: usize) -> PaceTask {
        match self.kind {
            PaceKind::Own => PaceTask::Edit(process),
            PaceKind::One => PaceTask::Edit(0),
            PaceKind::Report if process == 0 => PaceTask::Report,
            PaceKind::Work | PaceKind::Report => PaceTask::EditAndWork(process),
        }
    }
}

fn beneath_of(word: &str) -> Option<Beneath> {
    match word {
        "shared" => Some(Beneath::Shared),
        "locked" => Some(Beneath::Locked),
        _ => None,
    }
}

fn kind_of(word: &str) -> Option<PaceKind> {
    match word {
        "own" => Some(PaceKind::Own),
        "one" => Some(PaceKind::One),
        "work" => Some(PaceKind::Work),
        "report" => Some(PaceKind::Report),
        _ => None,
    }
}

fn texts_of(word: &str) -> Option<Texts> {
    match word {
        "number" => Some(Texts::Number),
        "two" => Some(Texts::Two),
        "range" => Some(Texts::Range),
        "sixteen" => Some(Texts::Sixteen),
        "greatest" => Some(Texts::Greatest),
        _ => None,
    }
}

/// What the words of a command line ask for, after the name of the program.
pub fn pace_of(words: &[String]) -> Option<Pace> {
    let [_program, beneath, kind, texts, threads, sheets] = words else {
        return None;
    };
    let threads = threads.parse::<usize>().ok()?;
    if threads < 1 || threads > PROCESSES {
        return None;
    }
    Some(Pace {
        beneath: beneath_of(beneath)?,
        kind: kind_of(kind)?,
        texts: texts_of(texts)?,
        threads,
        sheets: sheets.parse::<usize>().ok()?,
    })
}
