//! What sessions act on.

ghost use Rattle.std.specs.Prelude.{◌≡◌, ◌<◌, option_map, true};
ghost use Rattle.ds_formula.specs.Cells.{IsInside};
ghost use Rattle.ds_key.specs.Keys.{is_key};
ghost use Rattle.ds_server.specs.DeskCalls.{Join, JoinAny, Set, SetOnce, Undo, Report, View, Get, Listing, Resolve, Last, Leave};
ghost use Rattle.ds_server.specs.Replies.{Left, joined_view, joined_any_view, set_view, report_view, got_view, history_view, resolved_view, last_view};
ghost use Rattle.ds_server.specs.Desks.{Seated, SitsAfter, SitsAfterAny, KeepsSeats};

use ds_eval::value::Value;
use ds_formula::cells::{Cell, Shape};
use ds_formula::fault::TextFault;
use ds_layout::place::Place;
use ds_state::answer::EditEnd;
use ds_state::recovery::LastEdit;
use std::alloc::Global;

/// Why a desk refuses a call. Its codes are apart from those of a line that is no call
/// (`LineFault`), so that no desk can answer one of these.
#[derive(Clone, Copy, Debug, PartialEq, Eq)]
pub enum CallRefusal {
    /// A join: the process is another session's or a worker's, or it is in a call. Code 4.
    ProcessTaken,
    /// An edit: the text has no content, but this fault. Code 11.
    Text(TextFault),
    /// The process is stopped. Code 13.
    Stopped,
    /// An edit: the process has spent its records. A report: no more settled ones can be counted.
    /// Code 14.
    RecordsFull,
    /// An allocation failed. Code 15.
    NoMemory,
    /// An edit with a key: the key is that of an edit of another cell or to another text, or of none, for good. Code 21.
    KeyReused,
    /// An undo: no edit of the cell counts. Code 22.
    NoEdit,
    /// A list of edits, what a cell is, an undo, or a key: the desk keeps no list of its edits. Code 23.
    NoHistory,
}

/// How a report ended.
#[derive(Debug, Drop)]
pub enum Reported {
    /// The values of the cells, row by row from the left.
    Settled(Vec<Value>),
    /// This mark or announcement, whose word the report saw, was not at rest.
    Unsettled(Place, u64),
}

/// An edit that counts.
#[derive(Debug, Drop)]
pub struct ListedEdit {
    /// The process that made it.
    pub process: usize,
    /// Which edit of the process it is, from 0.
    pub number: usize,
    /// The cell that it edited.
    pub cell: Cell,
    /// The text that it gave the cell.
    pub text: Vec<u8>,
}

/// A part of the edits that count, in the order in which they count.
#[derive(Debug, Drop)]
pub struct History {
    /// The edits from the place that was asked for.
    pub edits: Vec<ListedEdit>,
    /// How many edits count in all.
    pub of: usize,
}

/// What a cell is.
#[derive(Debug, Drop)]
pub enum Got {
    /// Its value, and its last edit that counts, if any, of one moment.
    Settled {
        /// The value of the cell in a settled report.
        value: Value,
        /// The last edit of the cell that counts at that moment, if any.
        edit: Option<ListedEdit>,
    },
    /// This mark or announcement, whose word the report saw, was not at rest.
    Unsettled(Place, u64),
}

/// A sheet that sessions act on, one call after another. A session has at most one of its processes
/// at a time.
pub trait Desk {
    ghost use Rattle.ds_server.specs.Desks.{Rules};

    /// What the desk says of itself: its shape, its processes, its token, which process the session has, and
    /// what each call may do and answer.
    ghost rules: { Rules Self };

    /// The shape of its sheet.
    fn shape(&self) -> Shape
        ensures { result ≡ rules.shape self.now };

    /// How many processes it has.
    fn processes(&self) -> usize
        ensures { result ≡ rules.processes self.now };

    /// The token that a join has to have, if any.
    fn token(&self) -> Option<&[u8]>
        ensures { option_map (λ t. t.now) result ≡ rules.token self.now };

    /// The session takes a process, whose recovery reports its last edit that was announced, if any.
    /// What the desk is after an error, its rules say.
    fn join(&mut self, alloc: Global, process: usize) -> Result<Option<LastEdit>, CallRefusal>
        requires { process < rules.processes self.old }
        ensures does { rules.does self.old (Join process) (joined_view process result) self.new }
        ensures sits { SitsAfter rules process result self.new };

    /// The session takes any process that nobody has, as by `join`: the last one of these. The answer tells which
    /// it is. `ProcessTaken` where there is none.
    fn join_any(&mut self, alloc: Global) -> Result<(usize, Option<LastEdit>), CallRefusal>
        ensures does { rules.does self.old JoinAny (joined_any_view result) self.new }
        ensures sits { SitsAfterAny rules result self.new };

    /// A whole edit of the cell to the text.
    fn set(
        &mut self,
        alloc: Global,
        process: usize,
        cell: Cell,
        text: &[u8],
    ) -> Result<EditEnd, CallRefusal>
        requires sits { rules.sits self.old process }
        requires inside { IsInside (rules.shape self.old) cell }
        ensures does { rules.does self.old (Set process cell text.now) (set_view result) self.new }
        ensures sits { rules.sits self.new process };

    /// The same, but that an edit which counts and has this key is not made again: it is answered as the first was.
    /// `KeyReused` where the key is that of an edit of another cell or to another text, or of none, for good; then nothing
    /// is edited.
    fn set_once(
        &mut self,
        alloc: Global,
        process: usize,
        cell: Cell,
        text: &[u8],
        key: &[u8],
    ) -> Result<EditEnd, CallRefusal>
        requires sits { rules.sits self.old process }
        requires inside { IsInside (rules.shape self.old) cell }
        requires key { is_key key.now ≡ true }
        ensures does { rules.does self.old (SetOnce process cell text.now key.now) (set_view result) self.new }
        ensures sits { rules.sits self.new process };

    /// A whole edit of the cell to the text that it had before its last edit that counts: the empty one where that is
    /// its first. `NoEdit` where no edit of the cell counts, and then nothing is edited.
    fn undo(&mut self, alloc: Global, process: usize, cell: Cell) -> Result<EditEnd, CallRefusal>
        requires sits { rules.sits self.old process }
        requires inside { IsInside (rules.shape self.old) cell }
        ensures does { rules.does self.old (Undo process cell) (set_view result) self.new }
        ensures sits { rules.sits self.new process };

    /// A settle, and a whole report.
    fn report(&mut self, alloc: Global, process: usize) -> Result<Reported, CallRefusal>
        requires { rules.sits self.old process }
        ensures does { rules.does self.old (Report process) (report_view result) self.new }
        ensures sits { rules.sits self.new process };

    /// A settle and a whole report by the process that the session has joined, else by any that nobody has, which is
    /// taken for that alone: `ProcessTaken` where there is none.
    fn view(&mut self, alloc: Global, joined: Option<usize>) -> Result<Reported, CallRefusal>
        requires { Seated rules joined self.old }
        ensures does { rules.does self.old (View joined) (report_view result) self.new }
        ensures seated { Seated rules joined self.new };

    /// The value of the cell as `view` reports it, and its last edit that counts at the moment of that report, if any.
    fn get(&mut self, alloc: Global, joined: Option<usize>, cell: Cell) -> Result<Got, CallRefusal>
        requires seated { Seated rules joined self.old }
        requires inside { IsInside (rules.shape self.old) cell }
        ensures does { rules.does self.old (Get joined cell) (got_view cell result) self.new }
        ensures seated { Seated rules joined self.new };

    /// The edits that count, in the order in which they count, from this place on, where the first has place 0; at most
    /// this many.
    fn history(&mut self, alloc: Global, from: usize, most: usize) -> Result<History, CallRefusal>
        ensures does { rules.does self.old (Listing from most) (history_view from result) self.new }
        ensures sits { KeepsSeats rules self.old self.new };

    /// The edit with this key, which counts. None where no edit has it, and from then on none ever will.
    fn resolve(&mut self, alloc: Global, key: &[u8]) -> Result<Option<ListedEdit>, CallRefusal>
        requires { is_key key.now ≡ true }
        ensures does { rules.does self.old (Resolve key.now) (resolved_view result) self.new }
        ensures sits { KeepsSeats rules self.old self.new };

    /// A whole recovery, which reports the process's last edit that was announced, if any.
    fn last(&mut self, alloc: Global, process: usize) -> Result<Option<LastEdit>, CallRefusal>
        requires { rules.sits self.old process }
        ensures does { rules.does self.old (Last process) (last_view result) self.new }
        ensures sits { rules.sits self.new process };

    /// The session gives its process back, idle or stopped.
    fn leave(&mut self, process: usize)
        requires { rules.sits self.old process }
        ensures { rules.does self.old (Leave process) Left self.new };
}
