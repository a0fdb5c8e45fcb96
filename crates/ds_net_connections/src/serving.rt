//! Serves connections over TCP, each in its thread, over what is served.

ghost use Rattle.std.specs.Prelude.{◌≡◌, IfErr, IfOk};
ghost use Rattle.ds_net_connections.specs.Accepting.{IsLasting, IsServed};

use crate::accepting::{Shortage, Step, next_session, prepare, room};
use crate::connection::served;
use crate::counts::{Counts, Taken};
use crate::entrance::{Entrance, Entrances, Protocol};
use crate::wire::ticks_of;
use ds_net_floor::door::Door;
use ds_net_floor::floor::Floor;
use ds_store::fault::StoreFault;
use log::{Log, error, warn};
use std::alloc::{AllocError, Global};
use std::io::{self, ErrorKind};
use std::net::{TcpListener, TcpStream};
use std::sync::{Mutex, Wait};
use std::thread;
use std::thread::{Scope, Threads};
use std::time::Clock;

/// What a server is to be beside its sheet.
#[derive(Clone, Copy, Debug, PartialEq, Eq)]
pub struct Service {
    /// How many processes, the last ones, work on marked cells.
    pub workers: usize,
    /// How many connections are to become sessions before no more are taken, joined or not. 0: as many as come, until
    /// the server is asked to stop.
    pub sessions: u64,
    /// How many sessions there may be at once, 1 or more. A connection beyond them is refused.
    pub at_once: u64,
    /// For how many seconds a client may say nothing, or take nothing. 0: for ever.
    pub idle: u64,
}

/// Why a server has ended ill.
#[derive(Debug, Drop)]
pub enum ServeError {
    /// Its listener has failed for good: 101 times one after another, with a rest of a tenth of a second after each,
    /// and never for one connection alone, nor for want of descriptors or memory.
    Listener(io::Error),
    /// An allocation failed before the first connection, or the system has no thread for the server.
    NoMemory,
    /// The store could not keep an edit, and the server was stopped: no answer has left after it.
    Store(StoreFault),
}

impl From<AllocError> for ServeError {
    ghost from_gives = { λ _ error. IsLasting error };

    fn from(_error: AllocError) -> ServeError {
        ServeError::NoMemory
    }
}

// Starts a session in a thread of its own. One that no thread can be started for ends at once, with a line in the log.
fn start<'s, E, F: Floor + Sync, R: Threads + Wait + Clock + Log + Sync>(
    scope: &'s Scope<'s, E>,
    rt: &'s R,
    alloc: Global,
    floor: &'s F,
    door: &'s Door,
    stream: TcpStream,
    protocol: Protocol,
) {
    if scope
        .spawn(move || served(rt, alloc, floor, door, stream, protocol))
        .is_err()
    {
        door.leave();
        warn!(rt; "a session has no thread");
    }
}

// Takes connections, each of which is a session or is refused, until no more are taken.
fn take_all<'s, E, F: Floor + Sync, R: Threads + Wait + Clock + Log + Sync>(
    scope: &'s Scope<'s, E>,
    rt: &'s R,
    alloc: Global,
    entrance: &Entrance,
    floor: &'s F,
    door: &'s Door,
    service: Service,
) -> Result<Taken, ServeError>
    ensures served { IfOk result (IsServed service.sessions) }
    ensures lasting { IfErr result IsLasting }
{
    let Service {
        workers: _,
        sessions,
        at_once,
        idle,
    } = service;
    door.set_patience(ticks_of(idle));
    let mut counts = Counts::new();
    let mut shortage = Shortage::new();
    for session in 0..u64::MAX {
        let stream = match next_session(
            rt,
            entrance,
            door,
            &mut counts,
            &mut shortage,
            sessions,
            at_once,
        ) {
            Step::Session(stream) => stream,
            Step::Ended(result) => return result,
        };
        start(scope, rt, alloc, floor, door, stream, entrance.protocol);
    }
    Err(ServeError::Listener(io::Error::from(ErrorKind::QuotaExceeded)))
}

// The same, and returns when all sessions have ended, too.
fn accept<F: Floor + Sync, R: Threads + Wait + Clock + Log + Sync>(
    rt: &R,
    alloc: Global,
    entrance: &Entrance,
    floor: &F,
    door: &Door,
    service: Service,
) -> Result<Taken, ServeError>
    ensures served { IfOk result (IsServed service.sessions) }
    ensures lasting { IfErr result IsLasting }
{
    thread::scope(
        thread::scope_env(),
        rt,
        |scope| -> Result<Taken, ServeError>
            ensures served { IfOk result (IsServed service.sessions) }
            ensures lasting { IfErr result IsLasting }
        { take_all(scope, rt, alloc, entrance, floor, door, service) },
    )
}

// The same by the entrance beside the first one: as many as come, until the server is asked to stop. Where its listener fails
// for good, the log says so, and the sessions of the first one go on.
fn accept_beside<F: Floor + Sync, R: Threads + Wait + Clock + Log + Sync>(
    rt: &R,
    alloc: Global,
    entrances: &Entrances,
    floor: &F,
    door: &Door,
    at_once: u64,
    idle: u64,
) {
    let Some(entrance) = &entrances.beside else {
        return;
    };
    let service = Service {
        workers: 0,
        sessions: 0,
        at_once,
        idle,
    };
    match accept(rt, alloc, entrance, floor, door, service) {
        Err(ServeError::Listener(error)) => error!(rt; "HTTP: {error}"),
        Ok(_) | Err(_) => {}
    }
}

// The same, while a worker acts for each process from this one on.
fn serve_beside<F: Floor + Sync, R: Threads + Wait + Clock + Log + Sync>(
    rt: &R,
    alloc: Global,
    entrances: &Entrances,
    floor: &F,
    first: usize,
    door: &Door,
    service: Service,
) -> Result<Taken, ServeError>
    ensures served { IfOk result (IsServed service.sessions) }
    ensures lasting { IfErr result IsLasting }
{
    let stop = Mutex::new(false);
    let stops = &stop;
    thread::scope(
        thread::scope_env(),
        rt,
        |scope| -> Result<Taken, ServeError>
            ensures served { IfOk result (IsServed service.sessions) }
            ensures lasting { IfErr result IsLasting }
        {
            for process in first..floor.processes() {
                let _ = scope.spawn(move || floor.work(rt, alloc, process, stops));
            }
            let (at_once, idle) = (service.at_once, service.idle);
            if entrances.beside.is_some() {
                let beside = scope.spawn(move || {
                    accept_beside(rt, alloc, entrances, floor, door, at_once, idle)
                });
                if beside.is_err() {
                    error!(rt; "HTTP: no thread");
                }
            }
            let result = accept(rt, alloc, &entrances.first, floor, door, service);
            *stops.lock(rt) = true;
            if entrances.beside.is_some() {
                door.tell();
            }
            result
        },
    )
}

// The service, with as many sessions at once as descriptors are left for; the log says where these are fewer.
fn fitted<R: Log>(rt: &R, alloc: Global, listener: &TcpListener, service: Service) -> Service
    ensures { result.sessions ≡ service.sessions }
{
    let at_once = room(alloc, listener, service.at_once);
    if at_once < service.at_once {
        warn!(rt; "descriptors for {at_once} sessions at once");
    }
    Service { at_once, ..service }
}

// Has the accepts of a listener wait for a tick each.
fn make_ready<R: Log>(rt: &R, entrance: &Entrance) {
    if prepare(&entrance.listener).is_err() {
        warn!(rt; "no time-out of accepts: what tells the server to stop is seen at the next connection");
    }
}

/// Serves connections, each in its thread, while a worker acts for each of the last processes, this number of them; returns when the
/// service is over and all sessions have ended.
///
/// It ends well only when the door tells it to stop, or when as many connections have become sessions as it was to serve.
/// Each connection that it took is then a session, or was refused since there were as many sessions as there may be at
/// once. A connection that breaks off before it is taken, and want of descriptors, end nothing. An error is that of the
/// listener, which has failed for good; the connections that were taken before it are served to their ends.
pub fn serve_floor<F: Floor + Sync, R: Threads + Wait + Clock + Log + Sync>(
    rt: &R,
    alloc: Global,
    entrances: &Entrances,
    floor: &F,
    door: &Door,
    service: Service,
) -> Result<Taken, ServeError>
    ensures served { IfOk result (IsServed service.sessions) }
    ensures lasting { IfErr result IsLasting }
{
    make_ready(rt, &entrances.first);
    if let Some(beside) = &entrances.beside {
        make_ready(rt, beside);
    }
    let service = fitted(rt, alloc, &entrances.first.listener, service);
    let first = floor.processes().saturating_sub(service.workers);
    serve_beside(rt, alloc, entrances, floor, first, door, service)
}
