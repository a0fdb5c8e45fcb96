//! A server with its clients.

use ds_analyst::question::{Analysis, Analyst, Question};
use ds_layout::layout::Layout;
use ds_net::keeper::Attendant;
use ds_net::stored;
use ds_net_connections::entrance::{Entrance, Entrances, Protocol};
use ds_net_connections::serving::Service;
use ds_net_floor::door::Door;
use ds_store::store::{Opened, Store};
use log::Log;
use sqlite::{Connection, MemStore};
use std::alloc::{AllocError, Global};
use std::io::{self, Read, Write};
use std::net::{Net, Shutdown, SocketAddr, TcpListener, TcpStream};
use std::sync::Wait;
use std::test::Fail;
use std::thread;
use std::thread::Threads;
use std::time::Clock;

// How many bytes of an answer are read at most.
const LINE_MOST: usize = 4096;

// How often a client tries to join a process.
const TRIES: usize = 100_000;

// What a client is answered whose process is another session's.
const PROCESS_TAKEN: &[u8] = b"{\"code\":4,\"error\":\"process-taken\"}\n";

/// What clients say, and when.
#[derive(Clone, Copy)]
pub enum Clients {
    /// One client after another says all of its lines, and then reads what it is answered.
    Each(&'static [&'static [u8]]),
    /// A slow client says its first line and reads the answer; then a fast one says all of its lines, reads, and ends;
    /// then the slow one says the rest.
    Beside {
        first: &'static [u8],
        fast: &'static [u8],
        rest: &'static [u8],
    },
    /// A client joins, says its lines and reads nothing more. Another one joins until the process is free, and says
    /// the rest.
    Unread {
        lines: &'static [u8],
        join: &'static [u8],
        rest: &'static [u8],
    },
}

/// What a server and its clients came to.
#[derive(Drop)]
pub struct Served {
    /// What the clients were answered, one after the other.
    pub answers: Vec<u8>,
    /// Whether the sheet was closed with the seats of all its processes.
    pub is_closed: bool,
}

// What one client is answered, which says all of its lines and then reads.
fn talk<R: Net<Stream = TcpStream>>(
    rt: &R,
    at: SocketAddr,
    lines: &[u8],
    answers: &mut Vec<u8>,
) -> io::Result<()> {
    let mut stream = TcpStream::connect(rt, at)?;
    stream.write_all(lines)?;
    stream.shutdown(Shutdown::Write)?;
    stream.read_to_end(answers)?;
    Ok(())
}

// The next line that a client is answered, with its end.
fn next_line(stream: &mut TcpStream, answers: &mut Vec<u8>) -> io::Result<()> {
    let mut byte = [0u8];
    for _ in 0..LINE_MOST {
        if stream.read(&mut byte)? == 0 {
            break;
        }
        answers.push(byte[0])?;
        if byte[0] == b'\n' {
            break;
        }
    }
    Ok(())
}

// One client after another.
fn talk_each<R: Net<Stream = TcpStream>>(
    rt: &R,
    at: SocketAddr,
    clients: &[&[u8]],
    answers: &mut Vec<u8>,
) -> io::Result<()> {
    for lines in clients {
        talk(rt, at, lines, answers)?;
    }
    Ok(())
}

// A client says its first line and is answered; another one says all of its lines and is answered; then the first says
// the rest.
fn talk_beside<R: Net<Stream = TcpStream>>(
    rt: &R,
    at: SocketAddr,
    first: &[u8],
    fast: &[u8],
    rest: &[u8],
    answers: &mut Vec<u8>,
) -> io::Result<()> {
    let mut stream = TcpStream::connect(rt, at)?;
    stream.write_all(first)?;
    next_line(&mut stream, answers)?;
    talk(rt, at, fast, answers)?;
    stream.write_all(rest)?;
    stream.shutdown(Shutdown::Write)?;
    stream.read_to_end(answers)?;
    Ok(())
}

// What a client is answered that joins again and again until its process is free, and then says the rest.
fn talk_at_last<R: Net<Stream = TcpStream>>(
    rt: &R,
    alloc: Global,
    at: SocketAddr,
    join: &[u8],
    rest: &[u8],
) -> io::Result<Vec<u8>> {
    let mut stream = TcpStream::connect(rt, at)?;
    let mut answers = Vec::new(alloc);
    for _ in 0..TRIES {
        answers.clear();
        stream.write_all(join)?;
        next_line(&mut stream, &mut answers)?;
        if answers.as_slice() != PROCESS_TAKEN {
            break;
        }
    }
    stream.write_all(rest)?;
    stream.shutdown(Shutdown::Write)?;
    stream.read_to_end(&mut answers)?;
    Ok(answers)
}

// A client joins, says its lines and reads nothing more; another one takes its process when it is free, and says the
// rest.
fn talk_unread<R: Net<Stream = TcpStream>>(
    rt: &R,
    alloc: Global,
    at: SocketAddr,
    lines: &[u8],
    join: &[u8],
    rest: &[u8],
) -> io::Result<Vec<u8>> {
    let mut stream = TcpStream::connect(rt, at)?;
    let mut joined = Vec::new(alloc);
    stream.write_all(join)?;
    next_line(&mut stream, &mut joined)?;
    stream.write_all(lines)?;
    stream.shutdown(Shutdown::Write)?;
    talk_at_last(rt, alloc, at, join, rest)
}

// What the clients are answered.
fn talk_all<R: Net<Stream = TcpStream>>(
    rt: &R,
    alloc: Global,
    at: SocketAddr,
    clients: Clients,
) -> io::Result<Vec<u8>> {
    let mut answers = Vec::new(alloc);
    match clients {
        Clients::Each(clients) => talk_each(rt, at, clients, &mut answers)?,
        Clients::Beside { first, fast, rest } => {
            talk_beside(rt, at, first, fast, rest, &mut answers)?
        }
        Clients::Unread { lines, join, rest } => {
            return talk_unread(rt, alloc, at, lines, join, rest);
        }
    }
    Ok(answers)
}

// Nothing is found about scripts.
#[derive(Debug)]
struct Silent;

impl Analyst for Silent {
    ghost finds = { λ analyst question script analysis. Unit {0} };

    fn analyze(
        &self,
        alloc: Global,
        _question: Question,
        _script: &[u8],
    ) -> Result<Analysis, AllocError> {
        Ok(Analysis::Unfit(Vec::new(alloc)))
    }
}

// Nothing is looked after beside the store.
#[derive(Drop)]
struct Nothing;

impl Attendant for Nothing {
    fn attend(&mut self) {}
}

/// A server of a new sheet, whose store is in memory: the server runs in a thread, the clients in another.
pub fn serve_clients<
    R: Threads + Wait + Clock + Log + Net<Stream = TcpStream, Listener = TcpListener> + Sync,
>(rt: &R, alloc: Global, layout: Layout, workers: usize, clients: Clients) -> Result<Served, Fail> {
    let listener = TcpListener::bind(rt, "127.0.0.1:0")?;
    let at = listener.local_addr()?;
    let entrances = Entrances {
        first: Entrance {
            listener,
            protocol: Protocol::Lines,
        },
        beside: None,
    };
    let service = Service {
        workers,
        sessions: 0,
        at_once: 64,
        idle: 60,
    };
    let opened = opened(alloc, layout)?;
    let door = Door::new();
    let (answers, (ended, _store)) = thread::join(
        rt,
        || {
            let answers = talk_all(rt, alloc, at, clients);
            door.tell();
            answers
        },
        || {
            stored::serve(
                rt,
                alloc,
                &entrances,
                opened,
                &door,
                service,
                None,
                &Silent,
                &mut Nothing,
            )
        },
    );
    match ended {
        Ok(end) => Ok(Served {
            answers: answers?,
            is_closed: end.is_closed,
        }),
        Err(_) => Err(Fail::from("the server ended ill")),
    }
}

// A new store in memory.
fn opened(alloc: Global, layout: Layout) -> Result<Opened<MemStore>, Fail> {
    let conn = Connection::open_in_memory(alloc)?;
    match Store::make(alloc, conn, layout) {
        Ok(opened) => Ok(opened),
        Err(_) => Err(Fail::from("the store could not be made")),
    }
}
