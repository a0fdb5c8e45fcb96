//! `dsheet serve`.

ghost use Rattle.ds_cli.specs.Servings.{IsWithinLimits};

use crate::control::{Control, Listening};
use crate::watching::Watching;
use ds_analyst::question::Analyst;
use ds_batch::run::no_memory;
use ds_batch::status::STREAM_FAILED;
use ds_batch::token::{bytes_of, read_token};
use ds_cli::addresses::Addresses;
use ds_cli::serving::Serving;
use ds_formula::cells::Shape;
use ds_layout::layout::Layout;
use ds_net::keeper::Attendant;
use ds_net::stored::{self, StoredEnd};
use ds_net_connections::counts::Taken;
use ds_net_connections::entrance::{Entrance, Entrances, Protocol};
use ds_net_connections::serving::{ServeError, Service};
use ds_net_floor::door::Door;
use ds_store::fault::StoreFault;
use ds_store::open::Databases;
use ds_store::store::{Opened, Store, open_or_make};
use ds_store_commands::stores::{Disk, close, tell_fault};
use log::{Log, Logged};
use sqlite::{Alter, Connection, MemStore};
use std::fs::Files;
use std::hash::RandomState;
use std::net::{Net, SocketAddr, TcpListener, TcpStream};
use std::sync::Wait;
use std::thread::Threads;
use std::time::Clock;

// What standard error calls the store of a server that was given no file.
const IN_MEMORY: &str = "the store in memory";

// Reports on standard error where the server listens: with its port, where the system has given it one.
fn say_where(rt: &impl Eprint, entrance: &Entrance, asked: SocketAddr) {
    let at = entrance.listener.local_addr().unwrap_or(asked);
    let _reported = match entrance.protocol {
        Protocol::Lines => eprintln!(rt; "dsheet: listening on {at}"),
        Protocol::Http(_) => eprintln!(rt; "dsheet: HTTP on {at}"),
    };
}

// What a server that ended so reports on standard error, and its status. The name is that of its store.
fn ended(
    rt: &impl Eprint,
    listen: SocketAddr,
    store: &str,
    served: &Result<Taken, ServeError>,
) -> u8 {
    match served {
        Ok(_) => 0,
        Err(ServeError::NoMemory) => no_memory(rt),
        Err(ServeError::Listener(error)) => {
            let _reported = eprintln!(rt; "dsheet: {listen}: {error}");
            STREAM_FAILED
        }
        Err(ServeError::Store(fault)) => tell_fault(rt, store, fault),
    }
}

// Where the server listens for clients that speak so. An error is the status, when standard error has the reason.
fn bound<R: Eprint + Net<Stream = TcpStream, Listener = TcpListener>>(
    rt: &R,
    listen: SocketAddr,
    protocol: Protocol,
) -> Result<Entrance, u8> {
    match TcpListener::bind(rt, listen) {
        Ok(listener) => {
            let entrance = Entrance { listener, protocol };
            say_where(rt, &entrance, listen);
            Ok(entrance)
        }
        Err(error) => {
            let _reported = eprintln!(rt; "dsheet: {listen}: {error}");
            Err(STREAM_FAILED)
        }
    }
}

// Where it listens. An error is as above.
fn entrances<R: Eprint + Net<Stream = TcpStream, Listener = TcpListener>>(
    rt: &R,
    serving: Serving<'_>,
    keys: RandomState,
) -> Result<Entrances, u8> {
    let (first, beside) = match serving.addresses {
        Addresses::Lines(lines) => (bound(rt, lines, Protocol::Lines)?, None),
        Addresses::Http(http) => (bound(rt, http, Protocol::Http(keys))?, None),
        Addresses::Both { lines, http } => {
            let first = bound(rt, lines, Protocol::Lines)?;
            (first, Some(bound(rt, http, Protocol::Http(keys))?))
        }
    };
    Ok(Entrances { first, beside })
}

// What the server is to be beside its sheet.
fn service_of(serving: Serving<'_>) -> Service {
    Service {
        workers: serving.workers,
        sessions: serving.sessions.unwrap_or(0) as u64,
        at_once: serving.at_once as u64,
        idle: serving.idle as u64,
    }
}

// What the sheet of the server is to be.
fn layout_of(serving: Serving<'_>) -> Layout
    requires { IsWithinLimits serving }
{
    Layout {
        shape: serving.shape,
        processes: serving.processes,
    }
}

// Serves the sheet of an open store, which keeps the edits that are made.
fn serve_opened<
    S: Alter + Drop,
    T: Attendant,
    A: Analyst + Sync,
    R: AllocGlobal + Threads + Wait + Clock + Log + Sync,
>(
    rt: &R,
    entrances: &Entrances,
    opened: Opened<S>,
    door: &Door,
    serving: Serving<'_>,
    token: Option<&[u8]>,
    analyst: &A,
    attendant: &mut T,
) -> (Result<StoredEnd, ServeError>, Store<S>) {
    let logged = Logged::new(rt, serving.log, rt);
    stored::serve(
        &logged,
        rt.alloc(),
        entrances,
        opened,
        door,
        service_of(serving),
        token,
        analyst,
        attendant,
    )
}

// Makes the store of a new sheet in memory. An error is the status, when standard error has the reason.
fn opened_in_memory<R: AllocGlobal + Eprint>(
    rt: &R,
    serving: Serving<'_>,
) -> Result<Opened<MemStore>, u8>
    requires { IsWithinLimits serving }
{
    let layout = layout_of(serving);
    let Ok(conn) = Connection::open_in_memory(rt.alloc()) else {
        return Err(no_memory(rt));
    };
    match Store::make(rt.alloc(), conn, layout) {
        Ok(opened) => Ok(opened),
        Err(fault) => Err(tell_fault(rt, IN_MEMORY, &fault)),
    }
}

/// Serves a new sheet, whose store is in memory and goes with the server, until it is asked to stop, by a line `stop` on standard
/// input, or as many sessions have joined a process as are asked for, and all sessions have ended; and gives the status: 0, or
/// what an error says, which is reported on standard error. Once it listens it says so there. Questions about scripts go to the
/// analyst.
pub fn serve<
    A: Analyst + Sync,
    R: AllocGlobal
        + Eprint
        + Input
        + Threads
        + Wait
        + Clock
        + Log
        + Net<Stream = TcpStream, Listener = TcpListener>
        + Files
        + Sync,
>(rt: &R, serving: Serving<'_>, keys: RandomState, analyst: &A) -> u8
    requires { IsWithinLimits serving }
{
    let token = match read_token(rt, serving.token_file) {
        Ok(token) => token,
        Err(status) => return status,
    };
    let opened = match opened_in_memory(rt, serving) {
        Ok(opened) => opened,
        Err(status) => return status,
    };
    let entrances = match entrances(rt, serving, keys) {
        Ok(entrances) => entrances,
        Err(status) => return status,
    };
    let door = Door::new();
    let mut listening = Listening::new(Control::new(rt), rt.reader(), &door);
    let (served, _store) = serve_opened(
        rt,
        &entrances,
        opened,
        &door,
        serving,
        bytes_of(&token),
        analyst,
        &mut listening,
    );
    let taken = served.map(|end| end.taken);
    ended(rt, serving.addresses.first(), IN_MEMORY, &taken)
}

// How a server whose store lies in a file has ended, with its store.
#[derive(Drop)]
struct KeptEnd {
    served: Result<StoredEnd, ServeError>,
    store: Store<Disk>,
    // Whether the file of the store was removed or replaced meanwhile.
    is_lost: bool,
}

// Serves the sheet of the store at this path, which keeps the edits that are made; between two commits standard input is
// read, and the file is looked for.
fn serve_kept<
    A: Analyst + Sync,
    R: AllocGlobal
        + Input
        + Threads
        + Wait
        + Clock
        + Log
        + Net<Stream = TcpStream, Listener = TcpListener>
        + Files
        + Sync,
>(
    rt: &R,
    entrances: &Entrances,
    opened: Opened<Disk>,
    serving: Serving<'_>,
    token: Option<&[u8]>,
    path: &str,
    analyst: &A,
) -> KeptEnd {
    let door = Door::new();
    let listening = Listening::new(Control::new(rt), rt.reader(), &door);
    let mut watching = Watching::new(listening, rt, path, &door);
    let (served, store) = serve_opened(
        rt,
        entrances,
        opened,
        &door,
        serving,
        token,
        analyst,
        &mut watching,
    );
    KeptEnd {
        served,
        store,
        is_lost: watching.is_lost(),
    }
}

// The layout of the sheet that a store has, where no other one is asked for, and it has processes beside the workers'.
fn layout_in(
    serving: Serving<'_>,
    columns: usize,
    rows: usize,
    processes: usize,
) -> Option<Layout> {
    let asked = serving.asked;
    let pairs = [
        (asked.columns, columns),
        (asked.rows, rows),
        (asked.processes, processes),
    ];
    let fits = pairs.iter().all(|(asked, has)| *asked == 0 || asked == has);
    if !fits || serving.workers >= processes {
        return None;
    }
    Layout::new(Shape::new(columns, rows)?, processes)
}

// Opens the store at this path, whose sheet has this layout, or makes it so.
fn opened_as<R: AllocGlobal + Databases>(
    rt: &R,
    path: &str,
    layout: Layout,
) -> Result<Opened<Disk>, StoreFault> {
    open_or_make(rt.alloc(), rt.open_database(path)?, layout)
}

// The same with the layout of its sheet, where it has another one that was not asked for.
fn opened_for<R: AllocGlobal + Databases>(
    rt: &R,
    serving: Serving<'_>,
    path: &str,
) -> Result<Opened<Disk>, StoreFault>
    requires { IsWithinLimits serving }
{
    match opened_as(rt, path, layout_of(serving)) {
        Err(
            StoreFault::OtherSheet {
                columns,
                rows,
                processes,
            },
        ) => match layout_in(serving, columns, rows, processes) {
            Some(layout) => opened_as(rt, path, layout),
            None => Err(StoreFault::OtherSheet {
                columns,
                rows,
                processes,
            }),
        },
        opened => opened,
    }
}

// Opens the store at this path, or makes it. An error is the status, when standard error has the reason.
fn opened<R: AllocGlobal + Eprint + Databases>(
    rt: &R,
    serving: Serving<'_>,
    path: &str,
) -> Result<Opened<Disk>, u8>
    requires { IsWithinLimits serving }
{
    match opened_for(rt, serving, path) {
        Ok(opened) => Ok(opened),
        Err(fault) => Err(tell_fault(rt, path, &fault)),
    }
}

/// Serves so the sheet of the store at this path; the store is made where there is none. Each answer waits until the edits
/// are committed that it could tell of. Where they cannot be, or where the file is removed or replaced, the server stops, and
/// its status says why.
pub fn serve_store<
    A: Analyst + Sync,
    R: AllocGlobal
        + Eprint
        + Input
        + Threads
        + Wait
        + Clock
        + Log
        + Net<Stream = TcpStream, Listener = TcpListener>
        + Databases
        + Files
        + Sync,
>(rt: &R, serving: Serving<'_>, path: &str, keys: RandomState, analyst: &A) -> u8
    requires { IsWithinLimits serving }
{
    let token = match read_token(rt, serving.token_file) {
        Ok(token) => token,
        Err(status) => return status,
    };
    let opened = match opened(rt, serving, path) {
        Ok(opened) => opened,
        Err(status) => return status,
    };
    let entrances = match entrances(rt, serving, keys) {
        Ok(entrances) => entrances,
        Err(status) => return status,
    };
    let KeptEnd {
        served,
        store,
        is_lost,
    } = serve_kept(
        rt,
        &entrances,
        opened,
        serving,
        bytes_of(&token),
        path,
        analyst,
    );
    let taken = served.map(|end| end.taken);
    match ended(rt, serving.addresses.first(), path, &taken) {
        0 if is_lost => {
            let _reported = eprintln!(rt;
                "dsheet: {path}: it was removed or replaced while it was served"
            );
            STREAM_FAILED
        }
        0 => close(rt, path, store),
        status => status,
    }
}
