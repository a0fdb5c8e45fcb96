//! The messages of a WebSocket as lines, for what reads and writes lines.

ghost use Rattle.std.specs.Prelude.{◌<◌, ◌≤◌, length, IfSome};

use std::alloc::Global;
use std::io::{self, ErrorKind, Read, Write};
use tungstenite::protocol::WebSocketConfig;
use tungstenite::{CloseCode, CloseFrame, Error, Message, NoMask, Role, Utf8Bytes, WebSocket};
use websocket::error::ProtocolError;

/// The most bytes of a message. One of more than 4,096 bytes is answered as a line that is too long.
const MESSAGE_LIMIT: usize = 65_536;

/// The most bytes that wait to be sent.
const PENDING_LIMIT: usize = 1_048_576;

// How much is read at once.
const READ_SIZE: usize = 4096;

fn limits() -> WebSocketConfig {
    WebSocketConfig::default()
        .read_buffer_size(READ_SIZE)
        .max_message_size(Some(MESSAGE_LIMIT))
        .max_frame_size(Some(MESSAGE_LIMIT))
        .max_write_buffer_size(PENDING_LIMIT)
}

// The failure of a stream that stands for this one.
fn failure(error: Error) -> io::Error {
    match error {
        Error::Io(error) => error,
        Error::OutOfMemory => ErrorKind::OutOfMemory.into(),
        Error::WriteBufferFull => ErrorKind::QuotaExceeded.into(),
        _ => ErrorKind::InvalidData.into(),
    }
}

/// Gives each text message as a line: its text and then LF. A close is the end, and so is that of the stream; a text with
/// an LF, or a message that is no text, is a failure. Pings are answered, and a close is.
#[derive(Drop)]
pub struct LineReader<S: Read + Write + Drop> {
    socket: WebSocket<S, NoMask>,
    line: Option<Utf8Bytes>,
    given: usize,
}

impl<S: Read + Write + Drop> LineReader<S> {
    /// A socket that is a WebSocket's, of which these bytes were read already.
    pub fn new(alloc: Global, stream: S, unread: Vec<u8>) -> LineReader<S> {
        let socket = WebSocket::from_partially_read(
            alloc,
            stream,
            NoMask,
            unread,
            Role::Server,
            Some(limits()),
        );
        LineReader {
            socket,
            line: None,
            given: 0,
        }
    }

    // Reads on to the next text. Whether there is one: else the peer has closed.
    fn next_line(&mut self) -> io::Result<bool> {
        for _ in 0..u64::MAX {
            match self.socket.read() {
                Ok(Message::Text(text)) => {
                    if text.as_str().as_bytes().contains(&b'\n') {
                        return Err(ErrorKind::InvalidData.into());
                    }
                    self.line = Some(text);
                    self.given = 0;
                    return Ok(true);
                }
                Ok(Message::Binary(_)) => return Err(ErrorKind::InvalidData.into()),
                Ok(_) => {}
                Err(Error::ConnectionClosed | Error::AlreadyClosed) => return Ok(false),
                Err(Error::Protocol(ProtocolError::ResetWithoutClosingHandshake)) => {
                    return Ok(false);
                }
                Err(error) => return Err(failure(error)),
            }
        }
        Err(ErrorKind::TimedOut.into())
    }

    // Gives what is left of the line, and its LF at last. None if there is no line.
    fn give(&mut self, buf: &mut [u8]) -> Option<usize>
        requires { 0 < length buf.old }
        ensures { IfSome result (λ n. n ≤ length buf.new) }
    {
        let line = self.line.as_ref()?;
        let rest = line.as_str().as_bytes().get(self.given..).unwrap_or(&[]);
        let count = rest.len().min(buf.len());
        if count == 0 {
            buf[0] = b'\n';
            self.line = None;
            return Some(1);
        }
        buf[..count].copy_from_slice(&rest[..count]);
        self.given = self.given.saturating_add(count);
        Some(count)
    }
}

impl<S: Read + Write + Drop> Read for LineReader<S> {
    fn read(&mut self, buf: &mut [u8]) -> io::Result<usize> {
        if buf.is_empty() {
            return Ok(0);
        }
        if self.line.is_none() && !self.next_line()? {
            return Ok(0);
        }
        Ok(self.give(buf).unwrap_or(0))
    }
}

/// Sends each line as a text message, without its LF.
#[derive(Drop)]
pub struct LineWriter<S: Read + Write + Drop> {
    alloc: Global,
    socket: WebSocket<S, NoMask>,
    line: Vec<u8>,
}

/// Why a server closes a WebSocket (RFC 6455, section 7.4).
#[derive(Clone, Copy, Debug, PartialEq, Eq)]
pub enum Closing {
    /// The session was too long.
    TooLong,
    /// A message was no line.
    NoLine,
    /// The client neither said nor took anything for too long.
    Idle,
    /// Memory was short.
    NoMemory,
    /// The server stops.
    Stopping,
}

impl Closing {
    fn code(self) -> CloseCode {
        match self {
            Closing::TooLong | Closing::Idle => CloseCode::Policy,
            Closing::NoLine => CloseCode::Unsupported,
            Closing::NoMemory => CloseCode::Error,
            Closing::Stopping => CloseCode::Away,
        }
    }

    fn reason(self) -> &'static str {
        match self {
            Closing::TooLong => "too-long",
            Closing::Idle => "idle",
            Closing::NoLine => "no-line",
            Closing::NoMemory => "no-memory",
            Closing::Stopping => "stopping",
        }
    }
}

impl<S: Read + Write + Drop> LineWriter<S> {
    /// A socket that is a WebSocket's, to which nothing was sent yet.
    pub fn new(alloc: Global, stream: S) -> LineWriter<S> {
        LineWriter {
            alloc,
            socket: WebSocket::from_raw_socket(alloc, stream, NoMask, Role::Server, Some(limits())),
            line: Vec::new(alloc),
        }
    }

    // Sends the line.
    fn send(&mut self) -> io::Result<()> {
        let Ok(text) = str::from_utf8(self.line.as_slice()) else {
            return Err(ErrorKind::InvalidData.into());
        };
        let message = Message::text(self.alloc, text)?;
        self.line.clear();
        self.socket.send(message).map_err(failure)
    }

    /// Begins to close.
    pub fn close(&mut self, why: Closing) -> io::Result<()> {
        let reason = Utf8Bytes::from_static(why.reason());
        let code = why.code();
        self.socket
            .close(Some(CloseFrame { code, reason }))
            .map_err(failure)
    }
}

impl<S: Read + Write + Drop> Write for LineWriter<S> {
    fn write(&mut self, buf: &[u8]) -> io::Result<usize> {
        match buf.iter().position(|byte| *byte == b'\n') {
            Some(at) => {
                self.line.extend_from_slice(&buf[..at])?;
                self.send()?;
                Ok(at + 1)
            }
            None => {
                self.line.extend_from_slice(buf)?;
                Ok(buf.len())
            }
        }
    }

    fn flush(&mut self) -> io::Result<()> {
        self.socket.flush().map_err(failure)
    }
}
