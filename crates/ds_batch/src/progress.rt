//! How far a long run is.

ghost use Rattle.std.specs.Prelude.{◌≡◌};

use std::io::{self, Write};

// After how many writes the count is shown anew.
const TURN: u64 = 64;

/// A writer that shows on standard error, where that is asked for, how many writes there were: one line, which is
/// overwritten, and taken back when all is passed on. It writes what it is given, and no failure of standard error
/// changes that.
#[derive(Drop)]
pub struct Progress<'a, W, R> {
    writer: W,
    rt: &'a R,
    shows: bool,
    writes: u64,
}

impl<'a, W, R> Progress<'a, W, R> {
    /// Before the first write.
    pub fn new(writer: W, rt: &'a R, shows: bool) -> Progress<'a, W, R>
        ensures { result.writer ≡ writer }
    {
        Progress {
            writer,
            rt,
            shows,
            writes: 0,
        }
    }
}

impl<'a, W: Write, R: Eprint> Write for Progress<'a, W, R> {
    ghost contents = { λ p. W.contents p.writer };

    fn write(&mut self, buf: &[u8]) -> io::Result<usize> {
        let written = self.writer.write(buf);
        self.writes = self.writes.wrapping_add(1);
        if self.shows && self.writes % TURN == 0 {
            let _shown = eprint!(self.rt; "\rdsheet: {} stops", self.writes);
        }
        written
    }

    fn flush(&mut self) -> io::Result<()> {
        if self.shows && self.writes >= TURN {
            let _taken_back = eprint!(self.rt; "\r                                  \r");
        }
        self.writer.flush()
    }
}
