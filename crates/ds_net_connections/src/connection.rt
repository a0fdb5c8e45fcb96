//! One connection: its session, its end and what the log says of it.

use crate::durable_writer::DurableWriter;
use crate::entrance::Protocol;
use crate::farewell::{Farewell, drain, is_foreign, part};
use crate::http_door::{HttpEnd, serve_http};
use crate::wire::{Wire, prepare};
use ds_net_floor::door::Door;
use ds_net_floor::floor::Floor;
use ds_net_floor::visit::Visit;
use ds_script_io::streams::{Reading, Writing};
use ds_server::session::SessionEnd;
use httpdate::HttpDate;
use log::{Log, warn};
use std::alloc::Global;
use std::io::{self, BufReader};
use std::net::{Shutdown, SocketAddr, TcpStream};
use std::sync::Wait;
use std::thread;
use std::time::{Clock, Duration, SystemTime};

// How many bytes of what a client says first are looked at.
const FIRST: usize = 8;

// How often a line of the log is tried to be written while another one is, and how long it is rested between, in
// milliseconds. A log that nobody reads holds one thread by that, and the lines of the others are lost.
const TRIES: u32 = 20;

const REST: u64 = 5;

// How a session over a connection ended, and what its client is answered at the end, if anything.
#[derive(Clone, Copy)]
enum Parting {
    // The client has ended it, or the server was asked to stop.
    Ended,
    // The same, where the client may still be reading what it was answered last.
    Closed,
    // The client is answered why.
    Answered(Farewell),
    // The session ended so, and nothing can be answered.
    Broken(&'static str),
}

impl Parting {
    // The parting where the client was silent for too long, and this one where it was not.
    fn unless_idle(self, visit: &Visit<'_>) -> Parting {
        if visit.was_idle() {
            Parting::Answered(Farewell::Idle)
        } else {
            self
        }
    }
}

// How it ended, as the session says it.
fn parting_of(end: SessionEnd, visit: &Visit<'_>) -> Parting {
    match end {
        SessionEnd::Ended => Parting::Ended,
        SessionEnd::TooLong => Parting::Answered(Farewell::TooLong),
        SessionEnd::ReadFailed => Parting::Broken("read failed").unless_idle(visit),
        SessionEnd::WriteFailed if visit.was_idle() => Parting::Broken("idle, and reads nothing"),
        SessionEnd::WriteFailed if visit.is_lost() => Parting::Broken("the store has failed"),
        SessionEnd::WriteFailed => Parting::Broken("write failed"),
        SessionEnd::NoMemory => Parting::Broken("no memory"),
    }
}

// Whether these bytes, this number of them, are HTTP or TLS.
fn says_foreign(first: &[u8], count: usize) -> bool {
    match first.get(..count) {
        Some(said) => is_foreign(said),
        None => false,
    }
}

// How a connection ended that speaks HTTP. Its client is answered nothing more: it was, as HTTP or WebSocket has it.
fn http_parting(end: HttpEnd, visit: &Visit<'_>) -> Parting {
    match end {
        HttpEnd::Closed => Parting::Closed,
        HttpEnd::Failed if visit.is_lost() => Parting::Broken("the store has failed"),
        HttpEnd::Failed if visit.was_idle() => Parting::Closed,
        HttpEnd::Failed => Parting::Broken("a request failed"),
        HttpEnd::NoMemory => Parting::Broken("no memory"),
        HttpEnd::Session(end) => match parting_of(end, visit) {
            Parting::Ended => Parting::Closed,
            Parting::Answered(farewell) => Parting::Broken(farewell.name()),
            parting => parting,
        },
    }
}

// One session over a connection, unless it speaks something else.
fn one<F: Floor, R: Wait + Clock>(
    rt: &R,
    alloc: Global,
    floor: &F,
    stream: &TcpStream,
    visit: &Visit<'_>,
    ticks: u64,
) -> Parting {
    let mut first = [0u8; FIRST];
    match Wire::new(stream, visit, ticks).first(&mut first) {
        Ok(count) if says_foreign(&first, count) => {
            return Parting::Answered(Farewell::Foreign);
        }
        Ok(_) => {}
        Err(_) => return Parting::Broken("read failed").unless_idle(visit),
    }
    let Ok(buffered) = BufReader::new(alloc, Wire::new(stream, visit, ticks)) else {
        return Parting::Broken("no memory");
    };
    let mut reader = Reading::new(buffered);
    let mut writer = Writing::new(DurableWriter::new(rt, floor, stream, visit, ticks));
    parting_of(floor.sit(rt, alloc, &mut reader, &mut writer, visit), visit)
}

// One connection that speaks so.
fn one_by<F: Floor, R: Wait + Clock>(
    rt: &R,
    alloc: Global,
    floor: &F,
    stream: &TcpStream,
    visit: &Visit<'_>,
    ticks: u64,
    protocol: Protocol,
) -> Parting {
    if prepare(stream).is_err() {
        return Parting::Broken("no time-outs");
    }
    match protocol {
        Protocol::Lines => one(rt, alloc, floor, stream, visit, ticks),
        Protocol::Http(keys) => {
            let end = serve_http(rt, alloc, floor, stream, visit, ticks, keys);
            http_parting(end, visit)
        }
    }
}

// The time, where the clock can be read.
fn date<R: Clock>(rt: &R) -> Option<HttpDate> {
    let now = SystemTime::now(rt).ok()?;
    HttpDate::try_from(now).ok()
}

// The line of a session that has joined a process.
fn write_joined<R: Log>(rt: &R, date: HttpDate, peer: &SocketAddr, process: u64, how: &str) {
    warn!(rt; "{date}: {peer}, process {process}: {how}")
}

// The line of a session that has joined none.
fn write_unjoined<R: Log>(rt: &R, date: HttpDate, peer: &SocketAddr, how: &str) {
    warn!(rt; "{date}: {peer}, no process: {how}")
}

// A line in the log: when, which session, of which client, which process, and how it ended.
fn write_line<R: Clock + Log>(
    rt: &R,
    number: u64,
    peer: &io::Result<SocketAddr>,
    process: Option<u64>,
    how: &str,
) {
    let rt = rt.span("session").with("number", number);
    match (date(&rt), peer, process) {
        (Some(date), Ok(peer), Some(process)) => write_joined(&rt, date, peer, process, how),
        (Some(date), Ok(peer), None) => write_unjoined(&rt, date, peer, how),
        _ => warn!(rt; "{how}"),
    }
}

// The same, where nobody else writes one in time.
fn log_line<R: Clock + Log>(
    rt: &R,
    door: &Door,
    number: u64,
    peer: &io::Result<SocketAddr>,
    process: Option<u64>,
    how: &str,
) {
    for _ in 0..TRIES {
        if door.take_log() {
            write_line(rt, number, peer, process, how);
            door.give_log();
            return;
        }
        thread::sleep(rt, Duration::from_millis(REST));
    }
}

/// Serves one connection. When it is closed and counts no longer among those at once, one that its client has not ended
/// is a line in the log.
pub fn served<F: Floor, R: Wait + Clock + Log>(
    rt: &R,
    alloc: Global,
    floor: &F,
    door: &Door,
    stream: TcpStream,
    protocol: Protocol,
) {
    let number = door.draw_number();
    let peer = stream.peer_addr();
    let visit = Visit::new(door);
    let ticks = door.patience();
    let parting = one_by(rt, alloc, floor, &stream, &visit, ticks, protocol);
    // Its place is free before it is listened to for the last time.
    door.leave();
    match parting {
        Parting::Answered(farewell) => part(rt, &stream, farewell),
        Parting::Closed => {
            let _shut = stream.shutdown(Shutdown::Write);
            drain(rt, &stream);
        }
        Parting::Ended | Parting::Broken(_) => {}
    }
    drop(stream);
    match parting {
        Parting::Ended | Parting::Closed => {}
        Parting::Answered(farewell) => {
            log_line(rt, door, number, &peer, visit.process(), farewell.name())
        }
        Parting::Broken(how) => log_line(rt, door, number, &peer, visit.process(), how),
    }
}
