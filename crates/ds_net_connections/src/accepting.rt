//! The connections that a server takes, and when it takes no more.

ghost use Rattle.std.specs.Prelude.{◌≡◌, ℕ, IfSome, None};
ghost use Rattle.ds_net_connections.specs.Accepting.{HasEnded, IsStep, MayGoOn, Waits, passes};

use crate::counts::{Counts, Ending, Taken};
use crate::entrance::{Entrance, Protocol};
use crate::farewell::refuse;
use crate::serving::ServeError;
use crate::wire::TICK;
use ds_net_floor::door::Door;
use log::{Log, warn};
use std::alloc::Global;
use std::io::{self, ErrorKind};
use std::net::{TcpListener, TcpStream};
use std::os::fd::OwnedFd;
use std::sync::Wait;
use std::thread;
use std::time::{Clock, Duration, Instant};

// How many failures that do not pass are overlooked, one after another.
const OVERLOOKED: u32 = 100;

// How long it is rested after a failure, in milliseconds.
const REST: u64 = 100;

// For how many seconds it is not logged again that descriptors or memory are short.
const QUIET: u64 = 60;

// How many descriptors are left free beside those of sessions: one for a connection that is refused, and one more.
const SPARE: u64 = 2;

/// What the wait for a connection came to.
#[derive(Drop)]
pub enum Waited {
    /// A connection.
    Connected(TcpStream),
    /// No more are taken.
    Over(Ending),
    /// The listener has failed for good.
    Failed(io::Error),
}

/// The next of a server's connections that becomes a session.
#[derive(Drop)]
pub enum Step {
    /// It is counted as one.
    Session(TcpStream),
    /// There is none: the server has ended, well or ill.
    Ended(Result<Taken, ServeError>),
}

// Whether a failure of this kind passes: no connection came in time, it is of one connection alone or of the way to its
// client, or descriptors or memory are wanting, which a session that ends gives back.
fn passes(kind: ErrorKind) -> bool
    ensures { result ≡ passes kind }
{
    match kind {
        ErrorKind::WouldBlock
        | ErrorKind::ConnectionAborted
        | ErrorKind::ConnectionReset
        | ErrorKind::TimedOut
        | ErrorKind::NetworkDown
        | ErrorKind::NetworkUnreachable
        | ErrorKind::HostUnreachable
        | ErrorKind::OutOfMemory
        | ErrorKind::Uncategorized => true,
        _ => false,
    }
}

// Whether it is rested after a failure of this kind, since descriptors or memory are short.
fn is_want(kind: ErrorKind) -> bool {
    kind == ErrorKind::OutOfMemory || kind == ErrorKind::Uncategorized
}

/// Has an accept of the listener wait for a tick, and fail then.
pub fn prepare(listener: &TcpListener) -> io::Result<()> {
    let socket = TcpStream::from(OwnedFd::from(listener.try_clone()?));
    socket.set_read_timeout(Some(Duration::from_millis(TICK)))
}

/// How many sessions there may be at once: this many, or as many as descriptors are left for, where these are fewer;
/// one at least.
pub fn room(alloc: Global, listener: &TcpListener, at_once: u64) -> u64 {
    let mut held = Vec::new(alloc);
    for _ in 0..at_once.saturating_add(SPARE) {
        let Ok(copy) = listener.try_clone() else {
            break;
        };
        if held.push(copy).is_err() {
            break;
        }
    }
    let left = (held.len() as u64).saturating_sub(SPARE);
    left.max(1).min(at_once)
}

// Why no more connections are taken, where that is so: of a server that has had this number of sessions, and is to serve
// `most` (0: for ever).
fn ending(door: &Door, sessions: u64, most: u64) -> Option<Ending>
    ensures some { IfSome result (HasEnded most sessions) }
    ensures none { result ≡ None → MayGoOn most sessions }
{
    if door.is_stopping() {
        return Some(Ending::Asked);
    }
    if most > 0 && sessions >= most {
        Some(Ending::Served)
    } else {
        None
    }
}

// A failure of an accept in the log.
fn say<R: Log>(rt: &R, error: &io::Error) {
    warn!(rt; "accept: {error}");
}

/// When the log last had that descriptors or memory are short.
#[derive(Clone, Copy)]
pub struct Shortage {
    logged: Option<Instant>,
}

impl Shortage {
    /// Before it had.
    pub fn new() -> Shortage {
        Shortage { logged: None }
    }

    // Whether it is to be logged now: it was not within the last minute.
    fn is_news<R: Clock>(&mut self, rt: &R) -> bool {
        if let Some(logged) = self.logged {
            let since = logged.elapsed(rt).unwrap_or(Duration::ZERO);
            if since < Duration::from_secs(QUIET) {
                return false;
            }
        }
        self.logged = Instant::now(rt).ok();
        true
    }
}

// Rests after a failure that passes, where descriptors or memory are short, which is logged once a minute.
fn wait_out<R: Wait + Clock + Log>(rt: &R, error: &io::Error, shortage: &mut Shortage) {
    if !is_want(error.kind()) {
        return;
    }
    if shortage.is_news(rt) {
        say(rt, error);
    }
    thread::sleep(rt, Duration::from_millis(REST));
}

// Waits for a connection, until no more are taken. A failure that passes is waited out. Any other failure is a line in the
// log and a rest; after 100 of them one after another the listener has failed for good.
fn wait<R: Wait + Clock + Log>(
    rt: &R,
    listener: &TcpListener,
    door: &Door,
    shortage: &mut Shortage,
    sessions: u64,
    most: u64,
) -> Waited
    ensures { Waits most sessions result }
{
    let mut left = OVERLOOKED;
    for _ in rt.forever() {
        if let Some(ending) = ending(door, sessions, most) {
            return Waited::Over(ending);
        }
        let error = match listener.accept() {
            Ok((stream, _)) => return Waited::Connected(stream),
            Err(error) => error,
        };
        if passes(error.kind()) {
            wait_out(rt, &error, shortage);
            continue;
        }
        say(rt, &error);
        if left == 0 {
            return Waited::Failed(error);
        }
        left -= 1;
        thread::sleep(rt, Duration::from_millis(REST));
    }
    // `forever` has no end; where it had one, no more connections would be taken.
    Waited::Over(Ending::Asked)
}

// A connection as the next session, where fewer than `at_once` are there. Else it is refused, and there is none yet; the
// client is answered that the server is busy.
fn received(
    door: &Door,
    counts: &mut Counts,
    stream: TcpStream,
    at_once: u64,
    protocol: Protocol,
) -> Option<Step>
    requires { counts.old.pending ≡ 0 }
    ensures pending { counts.new.pending ≡ 0 }
    ensures step { IfSome result (λ step. (most : ℕ) → MayGoOn most counts.old.sessions → IsStep most counts.old.sessions counts.new.sessions step) }
    ensures none { result ≡ None → counts.new.sessions ≡ counts.old.sessions }
{
    let Some(arrival) = counts.arrive(stream) else {
        let error = io::Error::from(ErrorKind::QuotaExceeded);
        return Some(Step::Ended(Err(ServeError::Listener(error))));
    };
    if door.running() < at_once {
        door.enter();
        return Some(Step::Session(counts.begin(arrival)));
    }
    refuse(&counts.refuse(arrival), protocol.busy());
    None
}

/// The next connection that becomes a session, where fewer than `at_once` are there. Those before it are refused: they
/// are answered that the server is busy, and closed. Or how the server has ended.
pub fn next_session<R: Wait + Clock + Log>(
    rt: &R,
    entrance: &Entrance,
    door: &Door,
    counts: &mut Counts,
    shortage: &mut Shortage,
    most: u64,
    at_once: u64,
) -> Step
    requires { counts.old.pending ≡ 0 }
    ensures pending { counts.new.pending ≡ 0 }
    ensures step { IsStep most counts.old.sessions counts.new.sessions result }
{
    for _ in rt.forever() {
        match wait(
            rt,
            &entrance.listener,
            door,
            shortage,
            counts.sessions(),
            most,
        ) {
            Waited::Connected(stream) => {
                if let Some(step) = received(door, counts, stream, at_once, entrance.protocol) {
                    return step;
                }
            }
            Waited::Over(ending) => return Step::Ended(Ok(counts.taken(ending))),
            Waited::Failed(error) => return Step::Ended(Err(ServeError::Listener(error))),
        }
    }
    // As in `wait`.
    Step::Ended(Ok(counts.taken(Ending::Asked)))
}
