//! A writer that nobody may read any more.

ghost use Rattle.std.specs.Prelude.{◌≡◌};

use std::io::{self, ErrorKind, Write};

/// A writer that takes note of it where what it writes to is closed, as a pipe whose reader has ended. It writes what it is
/// given.
#[derive(Drop)]
pub struct Closing<'a, W> {
    writer: W,
    closed: &'a mut bool,
}

impl<'a, W> Closing<'a, W> {
    /// Before the first write; `closed` becomes true where one finds it closed.
    pub fn new(writer: W, closed: &'a mut bool) -> Closing<'a, W>
        ensures { result.writer ≡ writer }
    {
        Closing { writer, closed }
    }
}

/// Whether an error says that nobody reads what is written any more.
pub fn is_closed(error: &io::Error) -> bool {
    error.kind() == ErrorKind::BrokenPipe
}

impl<'a, W: Write> Write for Closing<'a, W> {
    ghost contents = { λ w. W.contents w.writer };

    fn write(&mut self, buf: &[u8]) -> io::Result<usize> {
        let written = self.writer.write(buf);
        if let Err(error) = &written {
            if is_closed(error) {
                *self.closed = true;
            }
        }
        written
    }

    fn flush(&mut self) -> io::Result<()> {
        self.writer.flush()
    }
}
