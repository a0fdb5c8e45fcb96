//! `dsheet connect`.

use crate::notes::show_note;
use crate::screen::{HELP, Screen, Typed, table_of};
use ds_a1::notation::Notation;
use ds_a1_script::lines::Commands;
use ds_batch::closing::is_closed;
use ds_batch::lines::opened_line;
use ds_batch::run::no_memory;
use ds_batch::status::{CLOSED, NO_MEMORY, STREAM_FAILED};
use ds_batch::token::{read_token, text_of};
use ds_cli::connecting::Connecting;
use ds_client::answer::{answer_lines, is_lost};
use ds_client::ask::{Ask, read_ask};
use ds_client::keys::drawn_key;
use ds_client::request::request_line;
use ds_script_io::fields::is_skipped;
use serde_json::Value as Json;
use std::alloc::{AllocError, Global};
use std::fs::Files;
use std::io::{self, ErrorKind, Read, Write};
use std::net::{Net, TcpStream};
use std::time::{Clock, Duration};
use std::{str, thread};

// How often a process is tried to be joined anew, and the rest between two tries, in milliseconds.
const TRIES: u32 = 100;

const REST: u64 = 100;

// How many bytes an answer has at most, about, and how many are read at once.
const ANSWER_MOST: usize = 1_048_576;

const CHUNK: usize = 1024;

// A line of the script language has a fault, or a join was refused.
const REFUSED: u8 = 1;

// A connection, and what the server has said to the join of the client's process, if it has one.
#[derive(Drop)]
struct Joined {
    stream: TcpStream,
    said: Option<Json>,
}

// How often a call that may be made again is begun anew, each on a new connection.
const AGAIN: u32 = 10;

// A client at work: what it was asked for, the server's token, if it has one, the process that it joins or has joined, if any,
// the number of the last edit of the process of which it was answered that it is done, if any, and how many sets it has read.
#[derive(Clone, Copy)]
struct Client<'a> {
    connecting: Connecting<'a>,
    screen: Screen,
    token: Option<&'a str>,
    process: Option<usize>,
    done: Option<u64>,
    sets: u64,
}

impl Client<'_> {
    // What it asks a server for first, where it has a process.
    fn join(&self) -> Option<Ask<'_>> {
        Some(Ask::Join(self.process?, self.done, self.token))
    }

    // What it asked is answered so: keeps the number of an edit that is done, but not of one with a key, which another process
    // may have made.
    fn note(&mut self, ask: Ask<'_>, said: &Json) {
        if has_key(ask) {
            return;
        }
        let edit = match said.get("last") {
            Some(last) => last,
            None => said,
        };
        let outcome = edit.get("outcome").or(edit.get("ok"));
        if outcome.and_then(Json::as_str) == Some("done") {
            self.done = edit.get("number").and_then(Json::as_u64).or(self.done);
        }
    }

    // The key of this, where it is a set and sets get keys: that of the next number.
    fn draw_key(&mut self, alloc: Global, ask: Ask<'_>) -> Result<Option<String>, AllocError> {
        match (ask, self.connecting.prefix) {
            (
                Ask::Set {
                    cell: _,
                    text: _,
                    key: _,
                },
                Some(prefix),
            ) => {
                let key = drawn_key(alloc, prefix, self.sets)?;
                self.sets = self.sets.saturating_add(1);
                Ok(Some(key))
            }
            _ => Ok(None),
        }
    }

    // A join of any process is answered so: keeps the process.
    fn note_process(&mut self, said: &Json) {
        let process = said.get("process").and_then(Json::as_u64);
        self.process = process.and_then(|process| usize::try_from(process).ok());
    }
}

// A line of standard input, without its end, and its number.
#[derive(Clone, Copy)]
struct Line<'a> {
    number: u64,
    text: &'a str,
}

// Adds what stands before the first line feed to what was said: whether there is one.
fn add_line(said: &mut Vec<u8>, part: &[u8]) -> Result<bool, AllocError> {
    match part.iter().position(|byte| *byte == b'\n') {
        Some(end) => {
            said.extend_from_slice(part.get(..end).unwrap_or(part))?;
            Ok(true)
        }
        None => {
            said.extend_from_slice(part)?;
            Ok(false)
        }
    }
}

// The first line of what the server says, in as many pieces as it comes.
fn read_answer(alloc: Global, stream: &mut TcpStream) -> io::Result<Vec<u8>> {
    let mut chunk = [0u8; CHUNK];
    let mut said = Vec::new(alloc);
    for _ in 0..ANSWER_MOST {
        let count = stream.read(&mut chunk)?;
        let part = chunk.get(..count).unwrap_or(b"");
        if part.is_empty() || said.len() >= ANSWER_MOST {
            break;
        }
        if add_line(&mut said, part)? {
            return Ok(said);
        }
    }
    Err(io::Error::from(ErrorKind::UnexpectedEof))
}

// What the server said, as JSON.
fn understood(alloc: Global, said: &[u8]) -> io::Result<Json> {
    match Json::from_slice(alloc, said) {
        Ok(said) => Ok(said),
        Err(error) if error.is_memory() => Err(io::Error::from(ErrorKind::OutOfMemory)),
        Err(_) => Err(io::Error::from(ErrorKind::InvalidData)),
    }
}

// Asks the server.
fn send(alloc: Global, stream: &mut TcpStream, ask: Ask<'_>) -> io::Result<()> {
    let request = request_line(alloc, ask)?;
    stream.write_all(&request)
}

// Whether this is an answer to what was asked: a refusal, or one of its kind.
fn fits(ask: Ask<'_>, said: &Json) -> bool {
    let Some(name) = said.get("ok").and_then(Json::as_str) else {
        return said.get("error").is_some();
    };
    match ask {
        Ask::Join(_, _, _) | Ask::JoinAny(_) => name == "join",
        Ask::Set {
            cell: _,
            text: _,
            key: _,
        }
        | Ask::Undo(_) => name == "done" || name == "overtaken",
        Ask::Report | Ask::View(_) => name == "settled" || name == "unsettled",
        Ask::Get(_, _) => name == "got" || name == "unsettled",
        Ask::History(_, _) => name == "history",
        Ask::Outcome(_, _) => name == "outcome",
        Ask::Last => name == "last",
    }
}

// Whether this is asked by a process.
fn wants_process(ask: Ask<'_>) -> bool {
    match ask {
        Ask::Set {
            cell: _,
            text: _,
            key: _,
        }
        | Ask::Undo(_)
        | Ask::Report
        | Ask::Last => true,
        Ask::Join(_, _, _)
        | Ask::JoinAny(_)
        | Ask::View(_)
        | Ask::Get(_, _)
        | Ask::History(_, _)
        | Ask::Outcome(_, _) => false,
    }
}

// Whether this is an edit with a key, which counts once at most.
fn has_key(ask: Ask<'_>) -> bool {
    match ask {
        Ask::Set {
            cell: _,
            text: _,
            key,
        } => key.is_some(),
        _ => false,
    }
}

// Whether this may be asked again: it only reads, it asks what became of an edit, or it is an edit that counts once at most.
fn may_repeat(ask: Ask<'_>) -> bool {
    has_key(ask)
        || matches!(
            ask,
            Ask::Report | Ask::View(_) | Ask::Get(_, _) | Ask::History(_, _) | Ask::Outcome(_, _)
        )
}

// The key of whose edit it is asked; empty where it is asked for something else.
fn asked_key(ask: Ask<'_>) -> &str {
    match ask {
        Ask::Outcome(key, _) => key,
        _ => "",
    }
}

// Asks the server, and reads what it says.
fn exchange(alloc: Global, stream: &mut TcpStream, ask: Ask<'_>) -> io::Result<Json> {
    send(alloc, stream, ask)?;
    let said = read_answer(alloc, stream)?;
    let said = understood(alloc, &said)?;
    if fits(ask, &said) {
        Ok(said)
    } else {
        Err(io::Error::from(ErrorKind::InvalidData))
    }
}

// For how long an answer is waited for. None: for ever.
fn patience(connecting: Connecting<'_>) -> Option<Duration> {
    match connecting.timeout {
        0 => None,
        seconds => Some(Duration::from_secs(seconds as u64)),
    }
}

// Whether the server is to be taken as one that answers no more, or gives answers that no server gives.
fn is_final(error: &io::Error) -> bool {
    matches!(
        error.kind(),
        ErrorKind::OutOfMemory
            | ErrorKind::InvalidData
            | ErrorKind::WouldBlock
            | ErrorKind::TimedOut
    )
}

// Connects, and joins the process, where the client has one.
fn join<R: AllocGlobal + Net<Stream = TcpStream>>(
    rt: &R,
    client: &Client<'_>,
) -> io::Result<Joined> {
    let mut stream = TcpStream::connect(rt, client.connecting.server)?;
    stream.set_read_timeout(patience(client.connecting))?;
    stream.set_write_timeout(patience(client.connecting))?;
    let said = match client.join() {
        Some(ask) => Some(exchange(rt.alloc(), &mut stream, ask)?),
        None => None,
    };
    Ok(Joined { stream, said })
}

// Whether the server says that a call is refused.
fn is_refusal(said: &Json) -> bool {
    said.get("ok").is_none()
}

// Whether the server refuses the join of the client's process.
fn is_refused(joined: &Joined) -> bool {
    match &joined.said {
        Some(said) => is_refusal(said),
        None => false,
    }
}

// Connects again and again after a broken connection, until the process is free.
fn join_anew<R: AllocGlobal + Clock + Net<Stream = TcpStream>>(
    rt: &R,
    client: &Client<'_>,
) -> io::Result<Joined> {
    for _ in 0..TRIES {
        thread::sleep(rt, Duration::from_millis(REST));
        match join(rt, client) {
            Ok(joined) if is_refused(&joined) => {}
            Ok(joined) => return Ok(joined),
            Err(error) if is_final(&error) => return Err(error),
            Err(_) => {}
        }
    }
    Err(io::Error::from(ErrorKind::ConnectionRefused))
}

// Joins at first: a server that does not listen yet is waited for, as long as one whose connection has broken.
fn join_first<R: AllocGlobal + Clock + Net<Stream = TcpStream>>(
    rt: &R,
    client: &Client<'_>,
) -> io::Result<Joined> {
    for _ in 0..TRIES {
        match join(rt, client) {
            Err(error) if error.kind() == ErrorKind::ConnectionRefused => {}
            joined => return joined,
        }
        thread::sleep(rt, Duration::from_millis(REST));
    }
    join(rt, client)
}

// Whether lines are shown as they are: none has a control character, and an answer without values is one line, and one more
// for each edit of a list.
fn is_plain(lines: &str, said: &Json) -> bool {
    let edits = said.get("edits").and_then(Json::as_array);
    let count = edits.map_or(0, |edits| edits.len());
    let (mut ends, mut plain) = (0usize, true);
    for letter in lines.chars() {
        if letter == '\n' {
            ends = ends.saturating_add(1);
        } else if letter.is_control() {
            plain = false;
        }
    }
    plain && (ends == count.saturating_add(1) || said.get("rows").is_some())
}

// The server says what none says: what is shown of it, and the status.
fn unknown<R: Eprint>(rt: &R) -> u8 {
    let _reported = eprintln!(rt; "dsheet: the server says what no client knows");
    STREAM_FAILED
}

// Prints an answer, whose lines these are; on a terminal values stand in a table. An error is the status.
fn print_answer<R: AllocGlobal + Print + Eprint>(
    rt: &R,
    screen: Screen,
    lines: &str,
    said: &Json,
) -> Result<(), u8> {
    let is_settled = said.get("ok").and_then(Json::as_str) == Some("settled");
    let printed = match said.get("rows").and_then(Json::as_array) {
        Some(rows) if is_settled && screen.input && screen.output => {
            let Ok(table) = table_of(rt.alloc(), rows) else {
                return Err(no_memory(rt));
            };
            print!(rt; "settled\n{table}")
        }
        _ => print!(rt; "{lines}"),
    };
    match printed {
        Ok(()) => Ok(()),
        Err(error) if is_closed(&error) => Err(CLOSED),
        Err(_) => Err(STREAM_FAILED),
    }
}

// The lines that show what the server says; a client without a process is refused by the name alone.
fn lines_of(
    alloc: Global,
    client: &Client<'_>,
    ask: Ask<'_>,
    said: &Json,
) -> Result<Option<Vec<u8>>, AllocError> {
    let key = asked_key(ask);
    match (client.process, said.get("error").and_then(Json::as_str)) {
        (Some(process), _) => answer_lines(alloc, process, key, said),
        (None, Some(name)) => Ok(Some(format!(in alloc; "refused {name}\n")?.into_bytes())),
        (None, None) => answer_lines(alloc, 0, key, said),
    }
}

// Shows what the server says to this. An error is the status.
fn show<R: AllocGlobal + Print + Eprint>(
    rt: &R,
    client: &Client<'_>,
    ask: Ask<'_>,
    said: &Json,
) -> Result<(), u8> {
    let Ok(lines) = lines_of(rt.alloc(), client, ask, said) else {
        return Err(no_memory(rt));
    };
    let Some(lines) = lines else {
        return Err(unknown(rt));
    };
    let Ok(lines) = str::from_utf8(lines.as_slice()) else {
        return Err(unknown(rt));
    };
    if !is_plain(lines, said) {
        return Err(unknown(rt));
    }
    print_answer(rt, client.screen, lines, said)
}

// What is wrong with the connection, and the status.
fn tell_error(rt: &impl Eprint, connecting: Connecting<'_>, error: &io::Error) -> u8 {
    let server = connecting.server;
    let _reported = match error.kind() {
        ErrorKind::WouldBlock | ErrorKind::TimedOut => {
            let seconds = connecting.timeout;
            eprintln!(rt; "dsheet: {server}: no answer within {seconds} seconds")
        }
        ErrorKind::InvalidData => eprintln!(rt; "dsheet: {server}: that is no answer of dsheet"),
        _ => eprintln!(rt; "dsheet: {server}: {error}"),
    };
    if error.kind() == ErrorKind::OutOfMemory {
        NO_MEMORY
    } else {
        STREAM_FAILED
    }
}

// Shows what the server says to a join. Where it has lost an edit that it had answered done, the client says so, and ends. An
// error is the status.
fn show_joined<R: AllocGlobal + Print + Eprint>(
    rt: &R,
    client: &mut Client<'_>,
    said: &Json,
) -> Result<(), u8> {
    show(rt, client, Ask::JoinAny(None), said)?;
    match client.done {
        Some(number) if is_lost(said) => {
            let _reported = eprintln!(rt;
                "dsheet: the server has lost edits: it had answered that edit {number} is done"
            );
            Err(STREAM_FAILED)
        }
        _ => {
            client.note(Ask::JoinAny(None), said);
            Ok(())
        }
    }
}

// A new connection in the place of a broken one: what the server says to the join is shown. An error is the status.
fn reconnect<R: AllocGlobal + Print + Eprint + Clock + Net<Stream = TcpStream>>(
    rt: &R,
    client: &mut Client<'_>,
    stream: &mut TcpStream,
) -> Result<(), u8> {
    match join_anew(rt, client) {
        Ok(joined) => {
            *stream = joined.stream;
            match &joined.said {
                Some(said) => show_joined(rt, client, said),
                None => Ok(()),
            }
        }
        Err(error) => Err(tell_error(rt, client.connecting, &error)),
    }
}

// A call whose connection is broken: what the join of a new one says is shown, and what may be asked again is asked until it is
// answered: the answer. None where it may not. An error is the status.
fn call_anew<R: AllocGlobal + Print + Eprint + Clock + Net<Stream = TcpStream>>(
    rt: &R,
    client: &mut Client<'_>,
    stream: &mut TcpStream,
    ask: Ask<'_>,
) -> Result<Option<Json>, u8> {
    for _ in 0..AGAIN {
        let _reported = eprintln!(rt; "dsheet: the connection is broken; joining anew");
        reconnect(rt, client, stream)?;
        if !may_repeat(ask) {
            return Ok(None);
        }
        match exchange(rt.alloc(), stream, ask) {
            Ok(said) => return Ok(Some(said)),
            Err(error) if is_final(&error) => {
                return Err(tell_error(rt, client.connecting, &error));
            }
            Err(_) => {}
        }
    }
    let error = io::Error::from(ErrorKind::UnexpectedEof);
    Err(tell_error(rt, client.connecting, &error))
}

// A client without a process joins any; what the server says is shown. An error is the status.
fn join_any<R: AllocGlobal + Print + Eprint + Clock + Net<Stream = TcpStream>>(
    rt: &R,
    client: &mut Client<'_>,
    stream: &mut TcpStream,
) -> Result<(), u8> {
    let said = match exchange(rt.alloc(), stream, Ask::JoinAny(client.token)) {
        Ok(said) => said,
        Err(error) => return Err(tell_error(rt, client.connecting, &error)),
    };
    if is_refusal(&said) {
        show(rt, client, Ask::JoinAny(None), &said)?;
        return Err(REFUSED);
    }
    client.note_process(&said);
    show_joined(rt, client, &said)
}

// One call, that of a line in this notation, on this connection, or on a new one where it is broken: what the new join says
// is shown then, and an edit without a key is not sent again. An error is the status.
fn call<R: AllocGlobal + Print + Eprint + Clock + Net<Stream = TcpStream>>(
    rt: &R,
    client: &mut Client<'_>,
    notation: Notation,
    stream: &mut TcpStream,
    line: &str,
    ask: Ask<'_>,
) -> Result<(), u8> {
    if client.process.is_none() && wants_process(ask) {
        join_any(rt, client, stream)?;
    }
    let said = match exchange(rt.alloc(), stream, ask) {
        Ok(said) => said,
        Err(error) if is_final(&error) => {
            return Err(tell_error(rt, client.connecting, &error));
        }
        Err(_) => match call_anew(rt, client, stream, ask)? {
            Some(said) => said,
            None => return Ok(()),
        },
    };
    show(rt, client, ask, &said)?;
    client.note(ask, &said);
    show_note(rt, notation, line, &said);
    Ok(())
}

// A line without its end.
fn without_end(line: &str) -> &str {
    let line = line.strip_suffix('\n').unwrap_or(line);
    line.strip_suffix('\r').unwrap_or(line)
}

// The call that a line asks for, whose text is in this notation; a line with a fault is reported. An error is the status.
fn obey<R: AllocGlobal + Print + Eprint + Clock + Net<Stream = TcpStream>>(
    rt: &R,
    client: &mut Client<'_>,
    notation: Notation,
    stream: &mut TcpStream,
    line: Line<'_>,
) -> Result<(), u8> {
    let open = opened_line(rt, notation, Commands::OfClient, line.number, line.text)?;
    match read_ask(open.as_bytes()) {
        Ok(ask) => {
            let Ok(key) = client.draw_key(rt.alloc(), ask) else {
                return Err(no_memory(rt));
            };
            let key = match &key {
                Some(key) => Some(key.as_str()),
                None => None,
            };
            let ask = ask.bearing(client.token).keyed(key);
            call(rt, client, notation, stream, line.text, ask)
        }
        Err(fault) => {
            let _reported = if client.screen.input {
                eprintln!(rt; "{fault}; help shows what each line does")
            } else {
                eprintln!(rt; "line {}: {fault}", line.number)
            };
            Err(REFUSED)
        }
    }
}

// Shows the process, and that a line may be typed.
fn prompt(rt: &impl Eprint, client: &Client<'_>) {
    let _prompted = match client.process {
        Some(process) => eprint!(rt; "{process}> "),
        None => eprint!(rt; "> "),
    };
}

// Reads the next line of standard input, after a prompt where lines are typed: whether there is one. An error is the status.
fn read_typed<R: Input + Eprint>(
    rt: &R,
    client: &Client<'_>,
    text: &mut String,
) -> Result<bool, u8> {
    if client.screen.input {
        prompt(rt, client);
    }
    text.clear();
    match rt.read_line(text) {
        Ok(0) => {
            if client.screen.input {
                let _ended = eprintln!(rt; "");
            }
            Ok(false)
        }
        Ok(_) => Ok(true),
        Err(_) => Err(STREAM_FAILED),
    }
}

// What is done of a line before it is a call: whether the lines go on. An error is the status.
fn take_typed<R: AllocGlobal + Print + Eprint + Clock + Net<Stream = TcpStream>>(
    rt: &R,
    client: &mut Client<'_>,
    notation: Notation,
    stream: &mut TcpStream,
    line: Line<'_>,
) -> Result<bool, u8> {
    let typed = if client.screen.input {
        Typed::of(line.text)
    } else {
        Typed::Call
    };
    match typed {
        Typed::Quit => return Ok(false),
        Typed::Help if print!(rt; "{HELP}").is_err() => return Err(STREAM_FAILED),
        Typed::Help => {}
        Typed::Call => match obey(rt, client, notation, stream, line) {
            Err(REFUSED) if client.screen.input => {}
            Err(status) => return Err(status),
            Ok(()) => {}
        },
    }
    Ok(true)
}

// The calls of the lines of standard input, up to its end; one with a fault ends nothing where they are typed. An error is
// the status.
fn talk<R: AllocGlobal + Input + Print + Eprint + Clock + Net<Stream = TcpStream>>(
    rt: &R,
    client: &mut Client<'_>,
    notation: Notation,
    stream: &mut TcpStream,
) -> Result<(), u8> {
    let mut text = String::new(rt.alloc());
    for number in 1..u64::MAX {
        if !read_typed(rt, client, &mut text)? {
            return Ok(());
        }
        let line = Line {
            number,
            text: without_end(&text),
        };
        if is_skipped(line.text.as_bytes()) {
            continue;
        }
        if !take_typed(rt, client, notation, stream, line)? {
            return Ok(());
        }
    }
    Ok(())
}

// Joins, where the client has a process, and makes the calls of standard input. An error is the status.
fn converse<R: AllocGlobal + Input + Print + Eprint + Clock + Net<Stream = TcpStream>>(
    rt: &R,
    client: &mut Client<'_>,
    notation: Notation,
) -> Result<(), u8> {
    let Joined { mut stream, said } = match join_first(rt, client) {
        Ok(joined) => joined,
        Err(error) => return Err(tell_error(rt, client.connecting, &error)),
    };
    if let Some(said) = &said {
        show_joined(rt, client, said)?;
        if is_refusal(said) {
            return Err(REFUSED);
        }
    }
    talk(rt, client, notation, &mut stream)
}

/// `dsheet connect`: joins a process of a server, any where it is asked for none, and then by the first line that needs one,
/// and makes a call for each line of standard input, with formulas in this notation; what the server says goes to standard
/// output as the lines of a script's answers. Where the edits get keys, each counts once at most, and is sent again after a
/// broken connection. Where lines are typed, there are prompts on standard error, and a line with a fault ends nothing. Gives the
/// status.
pub fn connect<R: AllocGlobal + Input + Print + Eprint + Clock + Files + Net<Stream = TcpStream>>(
    rt: &R,
    connecting: Connecting<'_>,
    notation: Notation,
    screen: Screen,
) -> u8 {
    let token = match read_token(rt, connecting.token_file) {
        Ok(token) => token,
        Err(status) => return status,
    };
    let mut client = Client {
        connecting,
        screen,
        token: text_of(&token),
        process: connecting.process,
        done: None,
        sets: 0,
    };
    match converse(rt, &mut client, notation) {
        Ok(()) => 0,
        Err(status) => status,
    }
}
