//! Readers and writers that remember whether a call of theirs failed.

ghost use Rattle.std.specs.Prelude.{◌≡◌, ◌+◌, ◌-◌, ◌==◌, ◌<◌, ◌≤◌, false, true, OnOk, OnErr, IfOk, min, ◌^◌, length};
ghost use Rattle.std.specs.Io.{ReadsAtMost};
ghost use Rattle.std.specs.Io.KnownBytes.{ReadConsumes, Appends, Keeps};

use std::io::{self, Read, Write};

/// A reader, how many bytes it gave, whether it has ended, and whether a call of its failed.
///
/// No contract of a reader says why a call failed: these flags, which its calls alone set, do.
#[derive(Drop)]
pub struct Reading<R> {
    reader: R,
    given: u64,
    ended: bool,
    failed: bool,
}

impl<R: Read> Reading<R> {
    ghost use Rattle.ds_script_io.specs.Streams.{reader_of, bytes_given, has_ended, read_failed};

    /// No call was made yet.
    pub fn new(reader: R) -> Reading<R>
        ensures reader { reader_of result ≡ reader }
        ensures given { bytes_given result ≡ 0 }
        ensures ended { has_ended result ≡ false }
        ensures failed { read_failed result ≡ false }
    {
        Reading {
            reader,
            given: 0,
            ended: false,
            failed: false,
        }
    }

    /// Reads into the buffer once, as the reader does; `Ok(0)` for a buffer with room says that it has ended.
    pub fn read(&mut self, buffer: &mut [u8]) -> io::Result<usize>
        ensures bound { ReadsAtMost result buffer.new }
        ensures bytes { ReadConsumes (R.remaining (reader_of self.old)) (R.remaining (reader_of self.new)) result buffer.new }
        ensures given { IfOk result (λ n. bytes_given self.new ≡ min (bytes_given self.old + n) (2 ^ 64 - 1)) }
        ensures none_given { OnErr result (bytes_given self.new ≡ bytes_given self.old) }
        ensures failed { OnErr result (read_failed self.new ≡ true) }
        ensures not_failed { OnOk result (read_failed self.new ≡ read_failed self.old) }
        ensures ended { 0 < length buffer.old → IfOk result (λ n. has_ended self.new ≡ (n == 0)) }
        ensures no_room { length buffer.old ≡ 0 → has_ended self.new ≡ has_ended self.old }
        ensures not_ended { OnErr result (has_ended self.new ≡ has_ended self.old) }
    {
        match self.reader.read(buffer) {
            Ok(count) => {
                self.given = self.given.saturating_add(count as u64);
                if !buffer.is_empty() {
                    self.ended = count == 0;
                }
                Ok(count)
            }
            Err(error) => {
                self.failed = true;
                Err(error)
            }
        }
    }
}

/// A writer, whether all that was written was flushed, and whether a call of its failed.
#[derive(Drop)]
pub struct Writing<W> {
    writer: W,
    flushed: bool,
    failed: bool,
}

impl<W: Write> Writing<W> {
    ghost use Rattle.ds_script_io.specs.Streams.{writer_of, is_flushed, write_failed};

    /// No call was made yet.
    pub fn new(writer: W) -> Writing<W>
        ensures writer { writer_of result ≡ writer }
        ensures flushed { is_flushed result ≡ true }
        ensures failed { write_failed result ≡ false }
    {
        Writing {
            writer,
            flushed: true,
            failed: false,
        }
    }

    /// Writes all of the bytes, which are not flushed then. After an error nothing is said of how many went out.
    pub fn write_all(&mut self, bytes: &[u8]) -> io::Result<()>
        ensures bytes { OnOk result (Appends (W.contents (writer_of self.old)) (W.contents (writer_of self.new)) bytes.now) }
        ensures flushed { is_flushed self.new ≡ false }
        ensures failed { OnErr result (write_failed self.new ≡ true) }
        ensures not_failed { OnOk result (write_failed self.new ≡ write_failed self.old) }
    {
        let result = self.writer.write_all(bytes);
        self.flushed = false;
        if result.is_err() {
            self.failed = true;
        }
        result
    }

    /// Passes on what the writer holds back. After an error it counts as not flushed.
    pub fn flush(&mut self) -> io::Result<()>
        ensures bytes { Keeps (W.contents (writer_of self.old)) (W.contents (writer_of self.new)) }
        ensures flushed { OnOk result (is_flushed self.new ≡ true) }
        ensures not_flushed { OnErr result (is_flushed self.new ≡ false) }
        ensures failed { OnErr result (write_failed self.new ≡ true) }
        ensures not_failed { OnOk result (write_failed self.new ≡ write_failed self.old) }
    {
        let result = self.writer.flush();
        self.flushed = result.is_ok();
        if result.is_err() {
            self.failed = true;
        }
        result
    }

    /// The writer.
    pub fn into_inner(self) -> W
        ensures { result ≡ writer_of self }
    {
        let Writing {
            writer,
            flushed: _,
            failed: _,
        } = self;
        writer
    }
}
