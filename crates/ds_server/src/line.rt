//! Reads a session line by line, one byte after another, so that nothing is read beyond the line that is answered next.

ghost use Rattle.std.specs.Prelude.{◌≡◌, ◌+◌, ◌<◌, ◌≤◌, ◌^◌, ◌∷◌, [], ◌++◌, ℕ, List, true, length, vec_capacity};
ghost use Rattle.std.specs.Io.KnownBytes.{Consumes, IsAtEnd};
ghost use Rattle.ds_script_io.specs.Streams.{reader_of, bytes_given, has_ended, read_failed};
ghost use Rattle.ds_server.specs.SessionLines.{Gives, Reads};
ghost use Rattle.ds_server.specs.declared.line.LineEnd.TheVariants as ends;

use ds_script_io::streams::Reading;
use std::io::Read;

// What a reader gave.
#[derive(Clone, Copy, Debug, PartialEq, Eq)]
enum NextByte {
    // One byte more.
    Byte(u8),
    // It has ended.
    Ended,
    // The read failed.
    Failed,
}

/// Where reading a line stopped.
#[derive(Clone, Copy, Debug, PartialEq, Eq)]
pub enum LineEnd {
    /// At its line feed.
    Line,
    /// At the line feed of a line that is too long.
    Long,
    /// The reader has ended.
    Ended,
    /// A read failed.
    Failed,
    /// One byte more than the limit was read.
    Over,
}

// Reads one byte.
fn read_byte<R: Read>(reader: &mut Reading<R>) -> NextByte
    ensures { Gives (R.remaining (reader_of reader.old)) (R.remaining (reader_of reader.new)) (bytes_given reader.old) (bytes_given reader.new) (has_ended reader.new) (read_failed reader.new) result }
{
    let mut buffer = [0u8; 1];
    match reader.read(&mut buffer) {
        Ok(0) => NextByte::Ended,
        Ok(_) => NextByte::Byte(buffer[0]),
        Err(_) => NextByte::Failed,
    }
}

/// Reads up to the next line feed, and keeps the line without it: at most `most` bytes of it, and one
/// more where it is longer. Of all lines `left` bytes may be read, and one more.
pub fn read_line<R: Read>(
    reader: &mut Reading<R>,
    line: &mut Vec<u8>,
    most: usize,
    left: &mut usize,
) -> LineEnd
    requires room { most < vec_capacity line.old }
    requires small { left.old < 2 ^ 62 }
    ensures room { vec_capacity line.new ≡ vec_capacity line.old }
    ensures line { (bytes : List ℕ) × Consumes (R.remaining (reader_of reader.old)) (R.remaining (reader_of reader.new)) bytes
        × Reads most left.old bytes line.new.items left.new result
        × (bytes_given reader.new ≤ bytes_given reader.old + length bytes) }
    ensures ended { result ≡ ends.Ended → has_ended reader.new ≡ true }
    ensures at_end { result ≡ ends.Ended → IsAtEnd (R.remaining (reader_of reader.new)) }
    ensures failed { result ≡ ends.Failed → read_failed reader.new ≡ true }
{
    line.clear();
    loop {
        match read_byte(reader) {
            NextByte::Ended => return LineEnd::Ended,
            NextByte::Failed => return LineEnd::Failed,
            NextByte::Byte(byte) => {
                if *left == 0 {
                    return LineEnd::Over;
                }
                *left -= 1;
                if byte == b'\n' {
                    return if line.len() > most {
                        LineEnd::Long
                    } else {
                        LineEnd::Line
                    };
                }
                if line.len() <= most {
                    line.push_reserved(byte);
                }
            }
        }
    }
}
