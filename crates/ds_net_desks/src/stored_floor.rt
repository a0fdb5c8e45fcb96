//! A sheet that threads share, with a store, as a server serves it.

use crate::counts::DoorCounts;
use crate::numbered_seat::NumberedSeat;
use crate::seat_pool::SeatPool;
use crate::shared_desk::SharedDesk;
use crate::shared_settle::{REST, Round, STEPS_MOST, shared_sweep};
use crate::stored_desk::StoredDesk;
use ds_analyst::question::Analyst;
use ds_formula::cells::Shape;
use ds_http::page::PAGE;
use ds_http::site::Site;
use ds_net_floor::floor::Floor;
use ds_net_floor::keeping::{AllKept, Keeping};
use ds_net_floor::visit::Visit;
use ds_order::course::Course;
use ds_order::known::KnownReferences;
use ds_script_io::streams::{Reading, Writing};
use ds_server::desk::CallRefusal;
use ds_server::session::{SessionEnd, session};
use ds_shared_seats::seat::Seat;
use http_server::{Connection, serve};
use std::alloc::Global;
use std::io::{self, Read, Write};
use std::sync::{Mutex, Wait};
use std::thread;
use std::time::{Clock, Duration};

/// A shared sheet, with the pool of its seats, what is known of its references, what its sessions share with the keeper of its
/// store, and who answers questions about scripts.
#[derive(Drop)]
pub struct StoredFloor<'a, A: Analyst> {
    shape: Shape,
    pool: &'a SeatPool,
    open: usize,
    token: Option<&'a [u8]>,
    references: &'a KnownReferences,
    keeping: &'a Keeping,
    analyst: &'a A,
}

impl<'a, A: Analyst> StoredFloor<'a, A> {
    /// A sheet with these references and this pool of seats, of which the last ones, this number of them, are for workers. A
    /// join has to have this token, if there is one. The keeper hears of each edit that is done. The analyst
    /// answers questions about scripts.
    pub fn new(
        references: &'a KnownReferences,
        pool: &'a SeatPool,
        workers: usize,
        token: Option<&'a [u8]>,
        keeping: &'a Keeping,
        analyst: &'a A,
    ) -> StoredFloor<'a, A> {
        StoredFloor {
            shape: references.shape(),
            pool,
            open: pool.len().saturating_sub(workers),
            token,
            references,
            keeping,
            analyst,
        }
    }
}

// One sweep over the cells, round from this place. Whether there was work.
fn round(alloc: Global, seat: &mut Seat, course: &Course, from: usize) -> bool {
    match shared_sweep(alloc, seat, course, from, None) {
        Ok(round) => round == Round::Worked,
        Err(why) => {
            if why == CallRefusal::Stopped {
                let _recovered = seat.recover(alloc, STEPS_MOST);
            }
            false
        }
    }
}

// Goes round the cells of the newest sheet, from this place of their order, until it is asked to stop, and rests where there
// was no work.
fn go_round<R: Wait + Clock>(
    rt: &R,
    alloc: Global,
    pool: &SeatPool,
    numbered: &mut NumberedSeat,
    references: &KnownReferences,
    from: usize,
    stop: &Mutex<bool>,
) {
    let mut course = Course::new(alloc);
    for _ in rt.forever() {
        if *stop.lock(rt) {
            break;
        }
        pool.catch_up(rt, numbered);
        course.renew(alloc, references);
        if !round(alloc, &mut numbered.seat, &course, from) {
            thread::sleep(rt, Duration::from_millis(REST));
        }
    }
}

impl<'a, A: Analyst> StoredFloor<'a, A> {
    // Where in the order the worker of this process begins: the workers are as far apart as may be, so that two rarely meet.
    fn place_of(&self, process: usize) -> usize {
        let workers = self.pool.len().saturating_sub(self.open).max(1);
        let worker = process.saturating_sub(self.open);
        self.shape.count().saturating_mul(worker) / workers
    }

    // A desk for one session over the sheet.
    fn desk<'b, R: Wait + Clock>(
        &'b self,
        rt: &'b R,
        alloc: Global,
        visit: &'b Visit<'b>,
    ) -> StoredDesk<'b, R> {
        let shared = SharedDesk::new(
            rt,
            alloc,
            self.shape,
            self.pool,
            self.open,
            self.token,
            visit,
            self.references,
        );
        StoredDesk::new(shared, self.keeping)
    }
}

impl<'a, A: Analyst> Floor for StoredFloor<'a, A> {
    fn processes(&self) -> usize {
        self.pool.len()
    }

    fn permit<R: Wait>(&self, rt: &R) -> Option<AllKept> {
        self.keeping.wait_for_all(rt)
    }

    fn sit<I: Read, O: Write, R: Wait + Clock>(
        &self,
        rt: &R,
        alloc: Global,
        reader: &mut Reading<I>,
        writer: &mut Writing<O>,
        visit: &Visit<'_>,
    ) -> SessionEnd {
        let mut desk = self.desk(rt, alloc, visit);
        session(alloc, reader, writer, &mut desk)
    }

    fn answer<I: Read, O: Write, R: Wait + Clock>(
        &self,
        rt: &R,
        alloc: Global,
        address: &str,
        connection: &mut Connection,
        reader: &mut I,
        writer: &mut O,
        visit: &Visit<'_>,
    ) -> io::Result<()> {
        let desk = self.desk(rt, alloc, visit);
        let counts = DoorCounts { door: visit.door() };
        let mut site = Site::new(alloc, address, PAGE, desk, counts, self.analyst);
        serve(connection, &mut site, reader, writer)
    }

    fn work<R: Wait + Clock>(&self, rt: &R, alloc: Global, process: usize, stop: &Mutex<bool>) {
        let Ok(mut numbered) = self.pool.take(rt, process) else {
            return;
        };
        let from = self.place_of(process);
        go_round(
            rt,
            alloc,
            self.pool,
            &mut numbered,
            self.references,
            from,
            stop,
        );
        self.pool.put_back(rt, numbered);
    }
}
