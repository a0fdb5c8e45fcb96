//! A reader that keeps what it has read.

use std::io::{self, Read};

/// Reads on, and keeps what has come, as far as memory is there for it.
#[derive(Drop)]
pub struct Copying<'a, R> {
    reader: R,
    kept: &'a mut Vec<u8>,
}

impl<'a, R> Copying<'a, R> {
    /// Keeps after what is kept already.
    pub fn new(reader: R, kept: &'a mut Vec<u8>) -> Copying<'a, R> {
        Copying { reader, kept }
    }
}

impl<R: Read> Read for Copying<'_, R> {
    fn read(&mut self, buf: &mut [u8]) -> io::Result<usize> {
        let count = self.reader.read(buf)?;
        if let Some(read) = buf.get(..count) {
            let _kept = self.kept.extend_from_slice(read);
        }
        Ok(count)
    }
}
