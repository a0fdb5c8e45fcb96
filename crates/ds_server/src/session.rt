//! A session.

ghost use Rattle.std.specs.Prelude.{◌≡◌, ◌≢◌, ◌≤◌, ◌<◌, ◌+◌, ◌^◌, List, ℕ, Option, true, Some, None, OnOk, IfErr, length};
ghost use Rattle.std.specs.Io.KnownBytes.{Consumes, Appends, IsAtEnd};
ghost use Rattle.serde_json.specs.View.{view};
ghost use Rattle.ds_formula.specs.Cells.{IsInside};
ghost use Rattle.ds_key.specs.Keys.{is_key};
ghost use Rattle.ds_script_io.specs.Streams.{reader_of, writer_of, is_flushed, bytes_given, has_ended, read_failed, write_failed};
ghost use Rattle.ds_server.specs.SessionLimits.{SESSION_LINE_MOST, SESSION_MOST, HISTORY_MOST};
ghost use Rattle.ds_server.specs.DeskCalls.{Join, JoinAny, Set, SetOnce, Undo, Report, View, Get, Listing, Resolve, Last};
ghost use Rattle.ds_server.specs.Replies.{has_lost, said_to, set_view, report_view};
ghost use Rattle.ds_server.specs.Desks.{Seated, Leaves, joined_after};
ghost use Rattle.ds_server.specs.LineRequests.{IsCallOf};
ghost use Rattle.ds_server.specs.Asked.{request_view};
ghost use Rattle.ds_server.specs.Session.{Obeys, Answers, Ran, Outcome};
ghost use Rattle.ds_server.specs.LineAnswers.{response_view, Writes, Says, Turned, end_of};
ghost use Rattle.ds_server.specs.declared.session.TheConstants as constants;

use crate::answer::{Response, response_line};
use crate::desk::{CallRefusal, Desk, Got, Reported};
use crate::line::{LineEnd, read_line};
use crate::request::{LineFault, Request, done_of, read_json, read_request};
use ds_formula::cells::{Cell, Shape};
use ds_script_io::streams::{Reading, Writing};
use ds_state::answer::EditEnd;
use ds_state::recovery::LastEdit;
use serde_json::Value;
use std::alloc::Global;
use std::fmt;
use std::io::{Read, Write};

/// The most bytes of a line, without its line feed.
pub const LINE_LIMIT: usize = 4096;

/// The most bytes of a session.
pub const SESSION_LIMIT: usize = 1_048_576;

/// The most edits that an answer lists.
pub const HISTORY_LIMIT: usize = 100;

/// How a session ended. What was written before stays written, and what was done before stays done.
#[derive(Clone, Copy, Debug, PartialEq, Eq)]
pub enum SessionEnd {
    /// The reader has ended, and every line is answered. What stands after the last line feed is no
    /// line.
    Ended,
    /// The session is longer than 1,048,576 bytes; the lines whole within them are answered.
    TooLong,
    /// A read failed; the lines whole before that are answered.
    ReadFailed,
    /// A write failed. The line that it was to answer is carried out.
    WriteFailed,
    /// An allocation failed, of the session's buffer or of the text of an answer. The line that it
    /// was to answer is carried out.
    NoMemory,
}

impl fmt::Display for SessionEnd {
    ghost use Rattle.ds_server.specs.SessionEndings.{end_text};

    ghost output = { λ end. Some (end_text end) };

    fn fmt<W: fmt::Write>(&self, f: &mut fmt::Formatter<W>) -> fmt::Result {
        f.write_str(match self {
            SessionEnd::Ended => "ended",
            SessionEnd::TooLong => "session too long: more than 1048576 bytes",
            SessionEnd::ReadFailed => "a line could not be read",
            SessionEnd::WriteFailed => "an answer could not be written",
            SessionEnd::NoMemory => "out of memory",
        })
    }
}

// The process is taken.
fn join<B: Desk>(alloc: Global, desk: &mut B, process: usize) -> Response
    requires { process < B.rules.processes desk.old }
    ensures does { B.rules.does desk.old (Join process) (response_view result) desk.new }
    ensures seated { Seated B.rules (joined_after None (response_view result)) desk.new }
{
    match desk.join(alloc, process) {
        Ok(last) => Response::Joined(process, last),
        Err(refusal) => Response::Refused(refusal),
    }
}

// Any process that nobody has is taken.
fn join_any<B: Desk>(alloc: Global, desk: &mut B) -> Response
    ensures does { B.rules.does desk.old JoinAny (response_view result) desk.new }
    ensures seated { Seated B.rules (joined_after None (response_view result)) desk.new }
{
    match desk.join_any(alloc) {
        Ok((process, last)) => Response::Joined(process, last),
        Err(refusal) => Response::Refused(refusal),
    }
}

// What is said to an edit that ended so.
fn edit_response(end: Result<EditEnd, CallRefusal>) -> Response
    ensures said { response_view result ≡ set_view end }
    ensures same { (joined : Option ℕ) → joined_after joined (response_view result) ≡ joined }
{
    match end {
        Ok(EditEnd::Done(number)) => Response::Done(number),
        Ok(EditEnd::Overtaken(number, by)) => Response::Overtaken(number, by),
        Err(refusal) => Response::Refused(refusal),
    }
}

// What is said to a report that ended so.
fn report_response(end: Result<Reported, CallRefusal>) -> Response
    ensures said { response_view result ≡ report_view end }
    ensures same { (joined : Option ℕ) → joined_after joined (response_view result) ≡ joined }
{
    match end {
        Ok(Reported::Settled(values)) => Response::Settled(values),
        Ok(Reported::Unsettled(place, word)) => Response::Unsettled(place, word),
        Err(refusal) => Response::Refused(refusal),
    }
}

// A whole edit.
fn set<B: Desk>(alloc: Global, desk: &mut B, process: usize, cell: Cell, text: &[u8]) -> Response
    requires sits { B.rules.sits desk.old process }
    requires inside { IsInside (B.rules.shape desk.old) cell }
    ensures does { B.rules.does desk.old (Set process cell text.now) (response_view result) desk.new }
    ensures seated { Seated B.rules (joined_after (Some process) (response_view result)) desk.new }
{
    edit_response(desk.set(alloc, process, cell, text))
}

// A whole edit with a key.
fn set_once<B: Desk>(
    alloc: Global,
    desk: &mut B,
    process: usize,
    cell: Cell,
    text: &[u8],
    key: &[u8],
) -> Response
    requires sits { B.rules.sits desk.old process }
    requires inside { IsInside (B.rules.shape desk.old) cell }
    requires key { is_key key.now ≡ true }
    ensures does { B.rules.does desk.old (SetOnce process cell text.now key.now) (response_view result) desk.new }
    ensures seated { Seated B.rules (joined_after (Some process) (response_view result)) desk.new }
{
    edit_response(desk.set_once(alloc, process, cell, text, key))
}

// A whole edit to the text before.
fn undo<B: Desk>(alloc: Global, desk: &mut B, process: usize, cell: Cell) -> Response
    requires sits { B.rules.sits desk.old process }
    requires inside { IsInside (B.rules.shape desk.old) cell }
    ensures does { B.rules.does desk.old (Undo process cell) (response_view result) desk.new }
    ensures seated { Seated B.rules (joined_after (Some process) (response_view result)) desk.new }
{
    edit_response(desk.undo(alloc, process, cell))
}

// A settle and a whole report.
fn report<B: Desk>(alloc: Global, desk: &mut B, process: usize) -> Response
    requires { B.rules.sits desk.old process }
    ensures does { B.rules.does desk.old (Report process) (response_view result) desk.new }
    ensures seated { Seated B.rules (joined_after (Some process) (response_view result)) desk.new }
{
    report_response(desk.report(alloc, process))
}

/// A settle and a whole report, by the joined process; without one by any that nobody has.
pub fn view<B: Desk>(alloc: Global, desk: &mut B, joined: Option<usize>) -> Response
    requires { Seated B.rules joined desk.old }
    ensures does { B.rules.does desk.old (View joined) (response_view result) desk.new }
    ensures seated { Seated B.rules (joined_after joined (response_view result)) desk.new }
{
    report_response(desk.view(alloc, joined))
}

/// What the cell is: its value, and the last edit of it that counts.
pub fn get<B: Desk>(alloc: Global, desk: &mut B, joined: Option<usize>, cell: Cell) -> Response
    requires seated { Seated B.rules joined desk.old }
    requires inside { IsInside (B.rules.shape desk.old) cell }
    ensures does { B.rules.does desk.old (Get joined cell) (response_view result) desk.new }
    ensures seated { Seated B.rules (joined_after joined (response_view result)) desk.new }
{
    match desk.get(alloc, joined, cell) {
        Ok(Got::Settled { value, edit }) => Response::GotCell(cell, value, edit),
        Ok(Got::Unsettled(place, word)) => Response::Unsettled(place, word),
        Err(refusal) => Response::Refused(refusal),
    }
}

/// The edits that count, from this place on, at most `HISTORY_LIMIT` of them.
pub fn history<B: Desk>(alloc: Global, desk: &mut B, joined: Option<usize>, from: usize) -> Response
    requires { Seated B.rules joined desk.old }
    ensures does { B.rules.does desk.old (Listing from HISTORY_MOST) (response_view result) desk.new }
    ensures seated { Seated B.rules (joined_after joined (response_view result)) desk.new }
{
    // The body does not use it: a clause names it.
    let _joined = joined;
    match desk.history(alloc, from, HISTORY_LIMIT) {
        Ok(history) => Response::Listed(from, history),
        Err(refusal) => Response::Refused(refusal),
    }
}

/// What became of the edit with a key.
pub fn resolve<B: Desk>(alloc: Global, desk: &mut B, joined: Option<usize>, key: &[u8]) -> Response
    requires seated { Seated B.rules joined desk.old }
    requires key { is_key key.now ≡ true }
    ensures does { B.rules.does desk.old (Resolve key.now) (response_view result) desk.new }
    ensures seated { Seated B.rules (joined_after joined (response_view result)) desk.new }
{
    // The body does not use it: a clause names it.
    let _joined = joined;
    match desk.resolve(alloc, key) {
        Ok(edit) => Response::Resolved(edit),
        Err(refusal) => Response::Refused(refusal),
    }
}

// A whole recovery.
fn last<B: Desk>(alloc: Global, desk: &mut B, process: usize) -> Response
    requires { B.rules.sits desk.old process }
    ensures does { B.rules.does desk.old (Last process) (response_view result) desk.new }
    ensures seated { Seated B.rules (joined_after (Some process) (response_view result)) desk.new }
{
    match desk.last(alloc, process) {
        Ok(last) => Response::Tells(last),
        Err(refusal) => Response::Refused(refusal),
    }
}

// Carries out what a request asks for.
fn carry_out<B: Desk>(
    alloc: Global,
    desk: &mut B,
    joined: Option<usize>,
    request: Request<'_>,
) -> Response
    requires call { IsCallOf (B.rules.shape desk.old) (B.rules.processes desk.old) joined (request_view request) }
    requires seated { Seated B.rules joined desk.old }
    ensures does { B.rules.does desk.old (request_view request.entry) (response_view result) desk.new }
    ensures seated { Seated B.rules (joined_after joined (response_view result)) desk.new }
{
    match request {
        Request::Join(process) => join(alloc, desk, process),
        Request::JoinAny => join_any(alloc, desk),
        Request::Set(process, cell, text) => set(alloc, desk, process, cell, text),
        Request::SetOnce(process, cell, text, key) => {
            set_once(alloc, desk, process, cell, text, key)
        }
        Request::Undo(process, cell) => undo(alloc, desk, process, cell),
        Request::Report(process) => report(alloc, desk, process),
        Request::View(joined) => view(alloc, desk, joined),
        Request::Get(joined, cell) => get(alloc, desk, joined, cell),
        Request::History(from) => history(alloc, desk, joined, from),
        Request::Resolve(key) => resolve(alloc, desk, joined, key),
        Request::Last(process) => last(alloc, desk, process),
    }
}

// Whether the desk has lost an edit: the client was answered that the one of this number is done, and the last one that its
// process is known to have announced is none, or an earlier one.
fn has_lost(done: u64, last: Option<LastEdit>) -> bool
    ensures { result ≡ has_lost done last }
{
    match last {
        Some(edit) => (edit.number as u64) < done,
        None => true,
    }
}

// What is said to a client that was answered that its edit of this number is done, if it says so.
fn said_to(done: Option<u64>, response: Response) -> Response
    ensures { response_view result ≡ said_to done (response_view response) }
{
    match (done, response) {
        (Some(done), Response::Joined(process, last)) => {
            if has_lost(done, last) {
                Response::JoinedLost(process, last)
            } else {
                Response::Joined(process, last)
            }
        }
        (_, response) => response,
    }
}

// Answers the value of a line.
fn obey_value<B: Desk>(
    alloc: Global,
    desk: &mut B,
    joined: Option<usize>,
    value: &Value,
) -> Response
    requires { Seated B.rules joined desk.old }
    ensures obeys { Obeys B.rules desk.old joined (view value.now) (response_view result) desk.new }
    ensures seated { Seated B.rules (joined_after joined (response_view result)) desk.new }
{
    let shape = desk.shape();
    let processes = desk.processes();
    let token = desk.token();
    match read_request(value, &shape, processes, token, joined) {
        Ok(request) => {
            let response = carry_out(alloc, desk, joined, request);
            said_to(done_of(value), response)
        }
        Err(fault) => Response::Faulted(fault),
    }
}

// Answers a line.
fn obey<B: Desk>(alloc: Global, desk: &mut B, joined: Option<usize>, line: &[u8]) -> Response
    requires { Seated B.rules joined desk.old }
    ensures answers { Answers B.rules desk.old joined line.now (response_view result) desk.new }
    ensures seated { Seated B.rules (joined_after joined (response_view result)) desk.new }
{
    match read_json(alloc, line) {
        Ok(value) => obey_value(alloc, desk, joined, &value),
        Err(fault) => Response::Faulted(fault),
    }
}

// The process that the session has joined, if any, once it is answered so.
fn joined_with(joined: Option<usize>, response: &Response) -> Option<usize>
    ensures { result ≡ joined_after joined (response_view response.now) }
{
    match response {
        Response::Joined(process, _) | Response::JoinedLost(process, _) => Some(*process),
        Response::Done(_) | Response::Overtaken(_, _) => joined,
        Response::Settled(_) | Response::Unsettled(_, _) | Response::Tells(_) => joined,
        Response::GotCell(_, _, _) | Response::Listed(_, _) | Response::Resolved(_) => joined,
        Response::Refused(_) | Response::Faulted(_) => joined,
    }
}

// Gives the process back that the session has joined, if any.
fn leave<B: Desk>(desk: &mut B, joined: Option<usize>)
    requires { Seated B.rules joined desk.old }
    ensures { Leaves B.rules joined desk.old desk.new }
{
    if let Some(process) = joined {
        desk.leave(process);
    }
}

// Why a session goes no further after a line.
#[derive(Clone, Copy, Debug)]
enum Hindrance {
    NoMemory,
    WriteFailed,
}

// Makes the text of a response and writes it.
fn tell<W: Write>(
    alloc: Global,
    writer: &mut Writing<W>,
    shape: &Shape,
    response: &Response,
) -> Result<(), Hindrance>
    ensures writes { Writes shape.now (response_view response.now) (W.contents (writer_of writer.old)) (W.contents (writer_of writer.new)) (write_failed writer.old) (write_failed writer.new) result }
    ensures flushed { is_flushed writer.old ≡ true → OnOk result (is_flushed writer.new ≡ true) }
    ensures none_left { is_flushed writer.old ≡ true → IfErr result (λ why. why ≢ Hindrance.WriteFailed → is_flushed writer.new ≡ true) }
{
    let Ok(text) = response_line(alloc, shape, response) else {
        return Err(Hindrance::NoMemory);
    };
    match writer.write_all(&text) {
        Ok(()) => {}
        Err(_) => return Err(Hindrance::WriteFailed),
    }
    match writer.flush() {
        Ok(()) => Ok(()),
        Err(_) => Err(Hindrance::WriteFailed),
    }
}

// How a session ends that a line stops.
fn end_at(hindrance: Hindrance) -> SessionEnd
    ensures { result ≡ end_of hindrance }
{
    match hindrance {
        Hindrance::NoMemory => SessionEnd::NoMemory,
        Hindrance::WriteFailed => SessionEnd::WriteFailed,
    }
}

// What a line is answered; one that is too long is refused unread.
fn response_to<B: Desk>(
    alloc: Global,
    desk: &mut B,
    joined: Option<usize>,
    line: &[u8],
    long: bool,
) -> Response
    requires { Seated B.rules joined desk.old }
    ensures says { Says B.rules long desk.old joined line.now (response_view result) desk.new }
    ensures seated { Seated B.rules (joined_after joined (response_view result)) desk.new }
{
    if long {
        Response::Faulted(LineFault::LineTooLong)
    } else {
        obey(alloc, desk, joined, line)
    }
}

// Answers a line, and writes the answer.
fn turn<W: Write, B: Desk>(
    alloc: Global,
    writer: &mut Writing<W>,
    desk: &mut B,
    joined: &mut Option<usize>,
    line: &[u8],
    long: bool,
) -> Result<(), Hindrance>
    requires { Seated B.rules joined.old desk.old }
    ensures turned { Turned B.rules long desk.old joined.old line.now (W.contents (writer_of writer.old)) (W.contents (writer_of writer.new)) (write_failed writer.old) (write_failed writer.new) result desk.new joined.new }
    ensures flushed { is_flushed writer.old ≡ true → OnOk result (is_flushed writer.new ≡ true) }
    ensures none_left { is_flushed writer.old ≡ true → IfErr result (λ why. why ≢ Hindrance.WriteFailed → is_flushed writer.new ≡ true) }
{
    let shape = desk.shape();
    let response = response_to(alloc, desk, *joined, line, long);
    *joined = joined_with(*joined, &response);
    tell(alloc, writer, &shape, &response)
}

// Reads lines and answers them, each before the next is read, to an end.
fn run_lines<R: Read, W: Write, B: Desk>(
    alloc: Global,
    most: usize,
    limit: usize,
    reader: &mut Reading<R>,
    writer: &mut Writing<W>,
    desk: &mut B,
    joined: &mut Option<usize>,
) -> SessionEnd
    requires small { (most < 2 ^ 62) × (limit < 2 ^ 62) }
    requires none { joined.old ≡ None }
    ensures seated { Seated B.rules joined.new desk.new }
    ensures ended { result ≡ SessionEnd.Ended → has_ended reader.new ≡ true }
    ensures at_end { result ≡ SessionEnd.Ended → IsAtEnd (R.remaining (reader_of reader.new)) }
    ensures read_failed { result ≡ SessionEnd.ReadFailed → read_failed reader.new ≡ true }
    ensures write_failed { result ≡ SessionEnd.WriteFailed → write_failed writer.new ≡ true }
    ensures flushed { is_flushed writer.old ≡ true → result ≢ SessionEnd.WriteFailed → is_flushed writer.new ≡ true }
    ensures no_failure { result ≢ SessionEnd.WriteFailed → write_failed writer.new ≡ write_failed writer.old }
    ensures outcome { (bytes : List ℕ) × (out : List ℕ) × Consumes (R.remaining (reader_of reader.old)) (R.remaining (reader_of reader.new)) bytes
        × (result ≢ SessionEnd.WriteFailed → Appends (W.contents (writer_of writer.old)) (W.contents (writer_of writer.new)) out)
        × Ran B.rules most limit desk.old bytes out desk.new joined.new result
        × (bytes_given reader.new ≤ bytes_given reader.old + length bytes) × (length bytes ≤ limit + 1) }
{
    let Ok(mut line) = Vec::with_capacity(alloc, most + 1) else {
        return SessionEnd::NoMemory;
    };
    let mut left = limit;
    'lines: loop {
        match read_line(reader, &mut line, most, &mut left) {
            LineEnd::Ended => return SessionEnd::Ended,
            LineEnd::Failed => return SessionEnd::ReadFailed,
            LineEnd::Over => return SessionEnd::TooLong,
            LineEnd::Line => match turn(alloc, writer, desk, joined, &line, false) {
                Ok(()) => {}
                Err(stop) => return end_at(stop),
            },
            LineEnd::Long => match turn(alloc, writer, desk, joined, &line, true) {
                Ok(()) => {}
                Err(stop) => return end_at(stop),
            },
        }
    }
}

/// A session over a desk: reads lines of JSON, answers each with a line before the next one is read,
/// and gives the process back that it has joined, if any.
///
/// At most 1,048,577 bytes are read. What a call does and is answered is what the desk says of
/// itself; every other answer is a fault of its line, which leaves the desk as it is.
pub fn session<R: Read, W: Write, B: Desk>(
    alloc: Global,
    reader: &mut Reading<R>,
    writer: &mut Writing<W>,
    desk: &mut B,
) -> SessionEnd
    ensures ended { result ≡ SessionEnd.Ended → has_ended reader.new ≡ true }
    ensures at_end { result ≡ SessionEnd.Ended → IsAtEnd (R.remaining (reader_of reader.new)) }
    ensures read_failed { result ≡ SessionEnd.ReadFailed → read_failed reader.new ≡ true }
    ensures write_failed { result ≡ SessionEnd.WriteFailed → write_failed writer.new ≡ true }
    ensures flushed { is_flushed writer.old ≡ true → result ≢ SessionEnd.WriteFailed → is_flushed writer.new ≡ true }
    ensures no_failure { result ≢ SessionEnd.WriteFailed → write_failed writer.new ≡ write_failed writer.old }
    ensures outcome { (bytes : List ℕ) × (out : List ℕ) × Consumes (R.remaining (reader_of reader.old)) (R.remaining (reader_of reader.new)) bytes
        × (result ≢ SessionEnd.WriteFailed → Appends (W.contents (writer_of writer.old)) (W.contents (writer_of writer.new)) out)
        × Outcome B.rules LINE_LIMIT SESSION_LIMIT desk.old bytes out desk.new result
        × (bytes_given reader.new ≤ bytes_given reader.old + length bytes) × (length bytes ≤ SESSION_LIMIT + 1) }
{
    let mut joined = None;
    let end = run_lines(
        alloc,
        LINE_LIMIT,
        SESSION_LIMIT,
        reader,
        writer,
        desk,
        &mut joined,
    );
    leave(desk, joined);
    end
}

/// The constants of this crate are the limits of the definitions.
pub fn constants_are_limits()
    ensures line { constants.LINE_LIMIT ≡ SESSION_LINE_MOST }
    ensures session { constants.SESSION_LIMIT ≡ SESSION_MOST }
    ensures history { constants.HISTORY_LIMIT ≡ HISTORY_MOST }
{}
