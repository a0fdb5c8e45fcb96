//! Answers that wait until they may leave.

ghost use Rattle.std.specs.Prelude.{◌≤◌, IfOk, length};

use ds_net_floor::floor::Floor;
use ds_net_floor::keeping::AllKept;
use ds_net_floor::visit::Visit;
use std::io::{self, ErrorKind, Write};
use std::net::TcpStream;
use std::sync::Wait;

// For how many ticks in all a client that takes nothing is waited for when the server was asked to stop.
const LATE: u64 = 4;

/// Writes to a connection, each time by a permit of what the server serves: when all edits that the sessions have made so far
/// are kept. Where none is given, nothing is written any more. A write that waits for longer than
/// `ticks` fails, which the visit notes.
#[derive(Drop)]
pub struct DurableWriter<'a, F: Floor, R: Wait> {
    rt: &'a R,
    floor: &'a F,
    stream: &'a TcpStream,
    visit: &'a Visit<'a>,
    ticks: u64,
}

impl<'a, F: Floor, R: Wait> DurableWriter<'a, F, R> {
    /// What writes to this connection, for this session over the floor.
    pub fn new(
        rt: &'a R,
        floor: &'a F,
        stream: &'a TcpStream,
        visit: &'a Visit<'a>,
        ticks: u64,
    ) -> DurableWriter<'a, F, R> {
        DurableWriter {
            rt,
            floor,
            stream,
            visit,
            ticks,
        }
    }

    // Bytes of a session go out here alone, each time by a permit of what the server serves.
    fn send(&self, _permit: AllKept, buf: &[u8]) -> io::Result<usize>
        ensures { IfOk result (λ n. n ≤ length buf.now) }
    {
        let mut stream = self.stream;
        for _ in 0..self.ticks {
            match stream.write(buf) {
                Err(error) if error.kind() == ErrorKind::WouldBlock => {}
                written => return written,
            }
            if self.visit.is_over() && self.visit.counts_late() >= LATE {
                break;
            }
        }
        self.visit.waits_no_longer();
        Err(io::Error::from(ErrorKind::TimedOut))
    }
}

impl<F: Floor, R: Wait> Write for DurableWriter<'_, F, R> {
    fn write(&mut self, buf: &[u8]) -> io::Result<usize> {
        match self.floor.permit(self.rt) {
            Some(permit) => self.send(permit, buf),
            None => {
                self.visit.loses();
                Err(io::Error::from(ErrorKind::Other))
            }
        }
    }

    fn flush(&mut self) -> io::Result<()> {
        Ok(())
    }
}
