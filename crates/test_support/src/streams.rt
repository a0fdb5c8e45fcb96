//! A reader and a writer that fail.

use std::io::{self, ErrorKind, Read, Write};

/// Gives one byte a call, and fails at a call.
#[derive(Drop)]
pub struct Failing<'a> {
    /// What is left to give.
    pub bytes: &'a [u8],
    /// How many calls succeed.
    pub calls: usize,
}

impl Read for Failing<'_> {
    fn read(&mut self, buffer: &mut [u8]) -> io::Result<usize> {
        if self.calls == 0 {
            return Err(io::Error::from(ErrorKind::Other));
        }
        self.calls -= 1;
        match (self.bytes, buffer) {
            ([first, rest @ ..], [place, ..]) => {
                *place = *first;
                self.bytes = rest;
                Ok(1)
            }
            _ => Ok(0),
        }
    }
}

/// Takes n bytes, one a call, and then fails.
#[derive(Drop)]
pub struct Full {
    /// How many calls succeed.
    pub room: usize,
}

impl Write for Full {
    fn write(&mut self, bytes: &[u8]) -> io::Result<usize> {
        if self.room == 0 {
            return Err(io::Error::from(ErrorKind::Other));
        }
        self.room -= 1;
        Ok(bytes.len().min(1))
    }

    fn flush(&mut self) -> io::Result<()> {
        if self.room == 0 {
            return Err(io::Error::from(ErrorKind::Other));
        }
        Ok(())
    }
}
