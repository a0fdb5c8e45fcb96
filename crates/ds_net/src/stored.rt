//! A server of an open store: sessions in threads beside the keeper, which keeps what they have done.

ghost use Rattle.std.specs.Prelude.{◌≡◌, IfErr, IfOk, IfSome, map};
ghost use Rattle.std.specs.String.{string_bytes};
ghost use Rattle.ds_net_floor.specs.Listings.{IsListOf};
ghost use Rattle.ds_net_connections.specs.Accepting.{IsLasting, IsServed, IsStoredLasting};

use crate::going_over::ServedSheet;
use crate::keeper::{Attendant, keep};
use ds_analyst::question::Analyst;
use ds_net_connections::counts::Taken;
use ds_net_connections::entrance::Entrances;
use ds_net_connections::serving::{ServeError, Service, serve_floor};
use ds_net_desks::numbered_seat::seats_of;
use ds_net_desks::seat_pool::SeatPool;
use ds_net_desks::stored_floor::StoredFloor;
use ds_net_floor::door::Door;
use ds_net_floor::edit_list::EditList;
use ds_net_floor::floor::Floor;
use ds_net_floor::keeping::{Drained, Keeping};
use ds_net_floor::listing::list_of;
use ds_order::known::KnownReferences;
use ds_shared_seats::sheet::OpenSheet;
use ds_store::seated::SeatedSheet;
use ds_store::store::{Opened, Store};
use ds_store_journal::journal::read_edit;
use log::{Log, error, info};
use sqlite::Alter;
use std::alloc::Global;
use std::sync::Wait;
use std::thread;
use std::thread::{Promise, PromisedHandle, Scope, Threads};
use std::time::Clock;

/// The promise of a thread that serves this number of sessions: it ends as a server does.
#[derive(Clone, Copy)]
pub struct Serves {
    /// How many connections are to become sessions. 0: as many as come.
    pub sessions: u64,
}

impl Promise<Result<Taken, ServeError>> for Serves {
    ghost use Rattle.std.specs.Prelude.{IfErr, IfOk};
    ghost use Rattle.ds_net_connections.specs.Accepting.{IsLasting, IsServed};

    ghost kept_by = { λ serves ended. IfOk ended (IsServed serves.sessions) × IfErr ended IsLasting };
}

/// How a server has ended well: with these connections, and with all kept that its sessions have done.
#[derive(Drop)]
pub struct StoredEnd {
    /// The connections that it took.
    pub taken: Taken,
    /// That every edit is committed which was done.
    pub drained: Drained,
    /// Whether the sheet was closed with the seats of all its processes.
    pub is_closed: bool,
}

// Serves a sheet, and tells the keeper then that no more edits come.
fn served<F: Floor + Sync, R: Threads + Wait + Clock + Log + Sync>(
    rt: &R,
    alloc: Global,
    entrances: &Entrances,
    floor: &F,
    keeping: &Keeping,
    door: &Door,
    service: Service,
) -> Result<Taken, ServeError>
    ensures served { IfOk result (IsServed service.sessions) }
    ensures lasting { IfErr result IsLasting }
{
    let served = serve_floor(rt, alloc, entrances, floor, door, service);
    keeping.end(rt);
    served
}

// Serves a sheet in a thread of its own, and tells the keeper when no more edits come. None where the system has no
// thread for it.
fn start<'s, E, F: Floor + Sync, R: Threads + Wait + Clock + Log + Sync>(
    scope: &'s Scope<'s, E>,
    rt: &'s R,
    alloc: Global,
    entrances: &'s Entrances,
    floor: &'s F,
    keeping: &'s Keeping,
    door: &'s Door,
    service: Service,
) -> Option<PromisedHandle<Result<Taken, ServeError>, Serves>>
    ensures { IfSome result (λ handle. handle.promise.sessions ≡ service.sessions) }
{
    let promise = Serves {
        sessions: service.sessions,
    };
    scope
        .spawn_with(promise, move || {
            served(rt, alloc, entrances, floor, keeping, door, service)
        })
        .ok()
}

// The last line of the log.
fn sum_up<R: Log>(rt: &R, taken: &Taken, door: &Door) {
    let totals = door.totals();
    info!(rt; "served {} connections, {} of them refused as busy; {} sessions joined; edits: {} done, {} overtaken; {} calls refused; {} reports",
        taken.connections(), taken.refused(), totals.joined, totals.done, totals.overtaken, totals.refused, totals.reports);
}

// Closes the newest sheet with the seats of all its processes. Whether it could be closed; else the log says that one is lost.
fn close<R: Wait + Log>(rt: &R, alloc: Global, sheet: OpenSheet, pool: &SeatPool) -> bool {
    pool.give_back(rt);
    let is_closed = sheet.close(alloc).is_ok();
    if !is_closed {
        error!(rt; "a process was lost");
    }
    is_closed
}

// Serves a sheet, while this thread keeps what its sessions have done.
fn serve_beside<
    S: Alter + Drop,
    T: Attendant,
    F: Floor + Sync,
    R: Threads + Wait + Clock + Log + Sync,
>(
    rt: &R,
    alloc: Global,
    entrances: &Entrances,
    floor: &F,
    keeping: &Keeping,
    door: &Door,
    service: Service,
    store: &mut Store<S>,
    served_sheet: &mut ServedSheet<'_>,
    attendant: &mut T,
) -> Result<(Taken, Drained), ServeError>
    ensures served { IfOk result (λ end. IsServed service.sessions end.0) }
    ensures lasting { IfErr result IsStoredLasting }
{
    thread::scope(
        thread::scope_env(),
        rt,
        |scope| -> Result<(Taken, Drained), ServeError>
            ensures served { IfOk result (λ end. IsServed service.sessions end.0) }
            ensures lasting { IfErr result IsStoredLasting }
        {
            let Some(server) = start(scope, rt, alloc, entrances, floor, keeping, door, service)
            else {
                return Err(ServeError::NoMemory);
            };
            let kept = keep(rt, alloc, keeping, door, store, served_sheet, attendant);
            let taken = server.join(rt)?;
            // Where the store has failed, more was done than was answered.
            let drained = kept.map_err(ServeError::Store)?;
            sum_up(rt, &taken, door);
            Ok((taken, drained))
        },
    )
}

// The references of the texts that the lines of a journal set. None where an allocation fails.
fn references(alloc: Global, sheet: &SeatedSheet, lines: &[String]) -> Option<KnownReferences> {
    let layout = sheet.layout();
    let references = KnownReferences::new(alloc, layout.shape).ok()?;
    for line in lines {
        if let Ok(Some(edit)) = read_edit(&layout, line.as_bytes()) {
            references.note(alloc, edit.cell, edit.text);
        }
    }
    Some(references)
}

// The sheet of a store, the pool of its seats, what is known of its references, and the list of its edits that count.
#[derive(Drop)]
struct OpenedSheet {
    sheet: OpenSheet,
    pool: SeatPool,
    references: KnownReferences,
    list: EditList,
}

// So of the sheet that the store's edits have made. None where an allocation fails.
fn opened_with<S: Alter + Drop, R: Wait>(
    rt: &R,
    alloc: Global,
    store: &Store<S>,
    sheet: SeatedSheet,
    lines: &[String],
) -> Option<OpenedSheet>
    ensures list { IfSome result (λ opened. IsListOf store.now.layout store.now.joins (map string_bytes lines.now) opened.list) }
    ensures sheet { IfSome result (λ opened. opened.sheet ≡ sheet.sheet) }
{
    let references = references(alloc, &sheet, lines)?;
    let Ok(list) = list_of(alloc, store, lines) else {
        return None;
    };
    let (sheet, seats) = sheet.into_parts();
    let seats = seats_of(alloc, store, lines, seats, 0).ok()?;
    let pool = SeatPool::new(rt, alloc, seats).ok()?;
    Some(OpenedSheet {
        sheet,
        pool,
        references,
        list,
    })
}

/// Serves the sheet of an open store, which its threads share, as `serve_floor` says, while the calling thread
/// keeps in the store each edit that its sessions have done. A join has to have the token, if there is one. Edits take turns; nothing else takes a lock. No answer leaves
/// before the edits are committed that it could tell of. Where a process has few edits left in the sheet, the server goes
/// over to a new one, of which clients see nothing: numbers go on. Questions about scripts go to the analyst. The attendant has its turn between two commits, four times a
/// second at least. An error is that of `serve_floor`, or that an allocation failed; or the store has failed, and
/// the server was stopped: what was committed stands, and no answer has left after it. The store comes back.
pub fn serve<
    S: Alter + Drop,
    T: Attendant,
    A: Analyst + Sync,
    R: Threads + Wait + Clock + Log + Sync,
>(
    rt: &R,
    alloc: Global,
    entrances: &Entrances,
    opened: Opened<S>,
    door: &Door,
    service: Service,
    token: Option<&[u8]>,
    analyst: &A,
    attendant: &mut T,
) -> (Result<StoredEnd, ServeError>, Store<S>)
    ensures served { IfOk result.0 (λ end. IsServed service.sessions end.taken) }
    ensures lasting { IfErr result.0 IsStoredLasting }
{
    let Opened {
        mut store,
        sheet,
        lines,
    } = opened;
    let Some(
        OpenedSheet {
            sheet,
            pool,
            references,
            list,
        },
    ) = opened_with(rt, alloc, &store, sheet, &lines)
    else {
        return (Err(ServeError::NoMemory), store);
    };
    drop(lines);
    let mut served_sheet = ServedSheet::new(sheet, &pool);
    let keeping = Keeping::new(alloc, list);
    let floor = StoredFloor::new(
        &references,
        &pool,
        service.workers,
        token,
        &keeping,
        analyst,
    );
    let ended = serve_beside(
        rt,
        alloc,
        entrances,
        &floor,
        &keeping,
        door,
        service,
        &mut store,
        &mut served_sheet,
        attendant,
    );
    let ended = match ended {
        Ok((taken, drained)) => Ok(StoredEnd {
            taken,
            drained,
            is_closed: close(rt, alloc, served_sheet.into_sheet(), &pool),
        }),
        Err(error) => Err(error),
    };
    (ended, store)
}
