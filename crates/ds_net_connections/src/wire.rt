//! A connection that is read, and waited for so long, and no longer.

use ds_net_floor::visit::Visit;
use std::io::{self, ErrorKind, Read};
use std::net::TcpStream;
use std::time::Duration;

/// How long one read or write of a connection waits, in milliseconds; then it is asked whether the server is to stop.
pub const TICK: u64 = 250;

/// How many ticks are in a second.
const TICKS_A_SECOND: u64 = 4;

/// Reads a connection. A read that waits for longer than `ticks` fails, which the visit notes; a server that was asked to
/// stop reads no more, as if the client had ended.
#[derive(Drop)]
pub struct Wire<'a> {
    stream: &'a TcpStream,
    visit: &'a Visit<'a>,
    ticks: u64,
}

/// How many ticks are in this number of seconds. 0 seconds are for ever.
pub fn ticks_of(seconds: u64) -> u64 {
    if seconds == 0 {
        u64::MAX
    } else {
        seconds.saturating_mul(TICKS_A_SECOND)
    }
}

/// Has each read and write of a connection wait for a tick.
pub fn prepare(stream: &TcpStream) -> io::Result<()> {
    let tick = Some(Duration::from_millis(TICK));
    stream.set_read_timeout(tick)?;
    stream.set_write_timeout(tick)?;
    stream.set_nodelay(true)
}

impl<'a> Wire<'a> {
    /// A connection that waits for this number of ticks, of 250 milliseconds each.
    pub fn new(stream: &'a TcpStream, visit: &'a Visit<'a>, ticks: u64) -> Wire<'a> {
        Wire {
            stream,
            visit,
            ticks,
        }
    }

    // The failure of a client that was waited for too long.
    fn idle(&self) -> io::Error {
        self.visit.waits_no_longer();
        io::Error::from(ErrorKind::TimedOut)
    }

    /// The bytes that the client says first, as many as it has said; they stay for the first read.
    pub fn first(&self, buf: &mut [u8]) -> io::Result<usize> {
        for _ in 0..self.ticks {
            if self.visit.is_over() {
                return Ok(0);
            }
            match self.stream.peek(buf) {
                Err(error) if error.kind() == ErrorKind::WouldBlock => {}
                read => return read,
            }
        }
        Err(self.idle())
    }
}

impl Read for Wire<'_> {
    fn read(&mut self, buf: &mut [u8]) -> io::Result<usize> {
        let mut stream = self.stream;
        for _ in 0..self.ticks {
            if self.visit.is_over() {
                return Ok(0);
            }
            match stream.read(buf) {
                Err(error) if error.kind() == ErrorKind::WouldBlock => {}
                read => return read,
            }
        }
        Err(self.idle())
    }
}
