//! A connection that speaks HTTP, and a session over a WebSocket where one is asked for.

use crate::durable_writer::DurableWriter;
use crate::wire::Wire;
use ds_http::messages::{Closing, LineReader, LineWriter};
use ds_net_floor::floor::Floor;
use ds_net_floor::visit::Visit;
use ds_script_io::streams::{Reading, Writing};
use ds_server::session::SessionEnd;
use http_server::{Config, Connection, State};
use http1::Limits;
use std::alloc::Global;
use std::hash::RandomState;
use std::io::{self, ErrorKind, Read, Write};
use std::net::TcpStream;
use std::sync::Wait;
use std::sync::atomic::{AtomicU64, Ordering};
use std::time::{Clock, Duration, Instant};

// For how many seconds a request may be on its way.
const REQUEST_SECONDS: u64 = 10;

// What a connection holds at most: a head of 8,192 bytes, and a body as long as a session.
const CONFIG: Config = Config {
    limits: Limits {
        max_head_len: 8192,
        max_extensions_len: 1024,
        max_trailers_len: 1024,
    },
    max_body_len: 1_048_576,
    max_pending: 65_536,
    read_size: 4096,
};

/// How a connection that speaks HTTP ended.
#[derive(Clone, Copy, Debug, PartialEq, Eq)]
pub enum HttpEnd {
    /// It was closed by the client or by the server, as HTTP has it.
    Closed,
    /// It was a session then, which ended so.
    Session(SessionEnd),
    /// A read or a write failed.
    Failed,
    /// An allocation failed.
    NoMemory,
}

// Reads requests, each of which has to come whole in ten seconds from its first byte on. How many times something was
// answered says when the next one begins.
#[derive(Drop)]
struct RequestReader<'a, R: Clock> {
    rt: &'a R,
    wire: Wire<'a>,
    answered: &'a AtomicU64,
    seen: u64,
    begun: Option<Instant>,
}

impl<R: Clock> RequestReader<'_, R> {
    // Whether the request that is on its way has taken too long.
    fn is_late(&mut self) -> bool {
        let answered = self.answered.load(Ordering::SeqCst);
        if answered != self.seen {
            self.seen = answered;
            self.begun = None;
        }
        match self.begun {
            Some(begun) => {
                begun.elapsed(self.rt).unwrap_or(Duration::MAX)
                    >= Duration::from_secs(REQUEST_SECONDS)
            }
            None => false,
        }
    }
}

impl<R: Clock> Read for RequestReader<'_, R> {
    fn read(&mut self, buf: &mut [u8]) -> io::Result<usize> {
        if self.is_late() {
            return Err(io::Error::from(ErrorKind::TimedOut));
        }
        let count = self.wire.read(buf)?;
        if self.begun.is_none() {
            self.begun = Instant::now(self.rt).ok();
        }
        Ok(count)
    }
}

// Writes answers, each time by a permit, and counts them.
#[derive(Drop)]
struct AnswerWriter<'a, F: Floor, R: Wait> {
    writer: DurableWriter<'a, F, R>,
    answered: &'a AtomicU64,
}

impl<F: Floor, R: Wait> Write for AnswerWriter<'_, F, R> {
    fn write(&mut self, buf: &[u8]) -> io::Result<usize> {
        self.answered.fetch_add(1, Ordering::SeqCst);
        self.writer.write(buf)
    }

    fn flush(&mut self) -> io::Result<()> {
        self.writer.flush()
    }
}

// What a WebSocket is read by. What it says of itself, pongs and closes, shows no edit and needs no permit.
#[derive(Drop)]
struct Inward<'a> {
    wire: Wire<'a>,
    stream: &'a TcpStream,
}

impl Read for Inward<'_> {
    fn read(&mut self, buf: &mut [u8]) -> io::Result<usize> {
        self.wire.read(buf)
    }
}

impl Write for Inward<'_> {
    fn write(&mut self, buf: &[u8]) -> io::Result<usize> {
        let mut stream = self.stream;
        stream.write(buf)
    }

    fn flush(&mut self) -> io::Result<()> {
        Ok(())
    }
}

// What the answers of a WebSocket's session go out by, each time by a permit. It is never read.
#[derive(Drop)]
struct Outward<'a, F: Floor, R: Wait> {
    writer: DurableWriter<'a, F, R>,
}

impl<F: Floor, R: Wait> Read for Outward<'_, F, R> {
    fn read(&mut self, _buf: &mut [u8]) -> io::Result<usize> {
        Ok(0)
    }
}

impl<F: Floor, R: Wait> Write for Outward<'_, F, R> {
    fn write(&mut self, buf: &[u8]) -> io::Result<usize> {
        self.writer.write(buf)
    }

    fn flush(&mut self) -> io::Result<()> {
        self.writer.flush()
    }
}

// Why a WebSocket is closed by the server whose session has ended so, where it is.
fn closing(end: SessionEnd, visit: &Visit<'_>) -> Option<Closing> {
    match end {
        SessionEnd::Ended if visit.is_over() => Some(Closing::Stopping),
        SessionEnd::Ended | SessionEnd::WriteFailed => None,
        SessionEnd::TooLong => Some(Closing::TooLong),
        SessionEnd::ReadFailed if visit.was_idle() => Some(Closing::Idle),
        SessionEnd::ReadFailed => Some(Closing::NoLine),
        SessionEnd::NoMemory => Some(Closing::NoMemory),
    }
}

// A session over a WebSocket, of which these bytes were read already.
fn talk<F: Floor, R: Wait + Clock>(
    rt: &R,
    alloc: Global,
    floor: &F,
    stream: &TcpStream,
    visit: &Visit<'_>,
    ticks: u64,
    unread: Vec<u8>,
) -> SessionEnd {
    let inward = Inward {
        wire: Wire::new(stream, visit, ticks),
        stream,
    };
    let outward = Outward {
        writer: DurableWriter::new(rt, floor, stream, visit, ticks),
    };
    let mut reader = Reading::new(LineReader::new(alloc, inward, unread));
    let mut writer = Writing::new(LineWriter::new(alloc, outward));
    let end = floor.sit(rt, alloc, &mut reader, &mut writer, visit);
    if let Some(why) = closing(end, visit) {
        let mut last = writer.into_inner();
        let _closes = last.close(why);
    }
    end
}

// Answers requests until the connection is done or is a WebSocket. Whether nothing failed.
fn answer_all<F: Floor, R: Wait + Clock>(
    rt: &R,
    alloc: Global,
    floor: &F,
    stream: &TcpStream,
    visit: &Visit<'_>,
    ticks: u64,
    connection: &mut Connection,
) -> bool {
    let Ok(served) = stream.local_addr() else {
        return false;
    };
    let Ok(address) = served.to_string(alloc) else {
        return false;
    };
    let answered = AtomicU64::new(0);
    let mut reader = RequestReader {
        rt,
        wire: Wire::new(stream, visit, ticks),
        answered: &answered,
        seen: 0,
        begun: None,
    };
    let mut writer = AnswerWriter {
        writer: DurableWriter::new(rt, floor, stream, visit, ticks),
        answered: &answered,
    };
    floor
        .answer(
            rt,
            alloc,
            address.as_str(),
            connection,
            &mut reader,
            &mut writer,
            visit,
        )
        .is_ok()
}

/// Serves a connection that speaks HTTP to its end. The keys are those of the map of fields.
pub fn serve_http<F: Floor, R: Wait + Clock>(
    rt: &R,
    alloc: Global,
    floor: &F,
    stream: &TcpStream,
    visit: &Visit<'_>,
    ticks: u64,
    keys: RandomState,
) -> HttpEnd {
    let mut connection = Connection::new(alloc, keys, CONFIG);
    if !answer_all(rt, alloc, floor, stream, visit, ticks, &mut connection) {
        return HttpEnd::Failed;
    }
    match connection.state() {
        State::Upgraded => {
            let (unread, _pending) = connection.into_buffers();
            match unread.into_vec() {
                Ok(unread) => {
                    HttpEnd::Session(talk(rt, alloc, floor, stream, visit, ticks, unread))
                }
                Err(_) => HttpEnd::NoMemory,
            }
        }
        State::Aborted => HttpEnd::NoMemory,
        State::Open | State::Closing(_) => HttpEnd::Closed,
    }
}
