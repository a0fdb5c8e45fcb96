//! What a server serves.

ghost use Rattle.std.specs.Prelude.{◌≡◌, true};
ghost use Rattle.ds_script_io.specs.Streams.{has_ended};

use crate::keeping::AllKept;
use crate::visit::Visit;
use ds_script_io::streams::{Reading, Writing};
use ds_server::session::SessionEnd;
use http_server::Connection;
use std::alloc::Global;
use std::io::{self, Read, Write};
use std::sync::{Mutex, Wait};
use std::time::Clock;

/// A sheet with a numbered seat of each of its processes. Sessions may join the first processes; the others are for workers.
pub trait Floor {
    /// How many processes the sheet has.
    fn processes(&self) -> usize;

    /// Waits until what is to be said may leave: until all edits are kept that it could tell of. None where they cannot be.
    fn permit<R: Wait>(&self, rt: &R) -> Option<AllKept>;

    /// One session over these streams, which `ds_server` carries out over the sheet as a desk.
    fn sit<I: Read, O: Write, R: Wait + Clock>(
        &self,
        rt: &R,
        alloc: Global,
        reader: &mut Reading<I>,
        writer: &mut Writing<O>,
        visit: &Visit<'_>,
    ) -> SessionEnd
        ensures { result ≡ SessionEnd.Ended → has_ended reader.new ≡ true };

    /// Answers the requests of a connection over the sheet as a desk, at this address, until it is done or is a WebSocket.
    fn answer<I: Read, O: Write, R: Wait + Clock>(
        &self,
        rt: &R,
        alloc: Global,
        address: &str,
        connection: &mut Connection,
        reader: &mut I,
        writer: &mut O,
        visit: &Visit<'_>,
    ) -> io::Result<()>;

    /// Acts for the process, if nobody else does: goes round the cells, and works on those that are marked, until it is
    /// asked to stop. It rests after a round that found none.
    fn work<R: Wait + Clock>(&self, rt: &R, alloc: Global, process: usize, stop: &Mutex<bool>);
}
