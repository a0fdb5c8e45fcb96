//! The last line of a connection that ends otherwise than with its client, and its close.

use std::io::{ErrorKind, Read, Write};
use std::net::{Shutdown, TcpStream};
use std::time::{Clock, Duration, Instant};

// How many reads of a client that goes on are thrown away before its connection is closed.
const READS: u32 = 16_384;

// For how long a client that goes on is listened to before its connection is closed, in seconds.
const PATIENCE: u64 = 2;

// After how many ticks in which it says nothing its connection is closed.
const QUIET: u32 = 4;

/// Why a connection is closed by the server.
#[derive(Clone, Copy, Debug, PartialEq, Eq)]
pub enum Farewell {
    /// There are as many sessions as there may be at once.
    Busy,
    /// The session was too long.
    TooLong,
    /// The client neither said nor took anything for too long.
    Idle,
    /// It speaks HTTP or TLS.
    Foreign,
    /// There are as many sessions as there may be at once, and this one was to speak HTTP.
    BusyHttp,
}

impl Farewell {
    /// The line that the client is answered.
    pub fn line(self) -> &'static str {
        match self {
            Farewell::Busy => "{\"code\":16,\"error\":\"busy\"}\n",
            Farewell::BusyHttp => {
                "HTTP/1.1 503 Service Unavailable\r\ncontent-type: application/json\r\ncontent-length: 27\r\nconnection: close\r\n\r\n{\"code\":16,\"error\":\"busy\"}\n"
            }
            Farewell::TooLong => "{\"code\":17,\"error\":\"too-long\"}\n",
            Farewell::Idle => "{\"code\":18,\"error\":\"idle\"}\n",
            Farewell::Foreign => {
                "{\"code\":19,\"error\":\"this is dsheet, which speaks lines of JSON: dsheet serve --help\"}\n"
            }
        }
    }

    /// How the log says it.
    pub fn name(self) -> &'static str {
        match self {
            Farewell::Busy | Farewell::BusyHttp => "busy",
            Farewell::TooLong => "too long",
            Farewell::Idle => "idle",
            Farewell::Foreign => "HTTP or TLS",
        }
    }
}

/// Reads what the client still says, and throws it away: a connection that is closed before is reset, and the client
/// may lose what it was answered. It ends with the client, after a second in which it says nothing, after two seconds in
/// all, or after 64 MB.
pub fn drain<R: Clock>(rt: &R, mut stream: &TcpStream) {
    let mut room = [0u8; 4096];
    let mut quiet = 0u32;
    let Ok(begun) = Instant::now(rt) else {
        return;
    };
    for _ in 0..READS {
        if begun.elapsed(rt).unwrap_or(Duration::MAX) >= Duration::from_secs(PATIENCE) {
            return;
        }
        match stream.read(&mut room) {
            Ok(0) => return,
            Ok(_) => quiet = 0,
            Err(error) if error.kind() == ErrorKind::WouldBlock => {
                quiet = quiet.saturating_add(1);
                if quiet >= QUIET {
                    return;
                }
            }
            Err(_) => return,
        }
    }
}

/// Says the last line, ends writing, and reads on for two seconds at most. No failure of these changes anything.
pub fn part<R: Clock>(rt: &R, mut stream: &TcpStream, farewell: Farewell) {
    let _ = stream.write_all(farewell.line().as_bytes());
    let _ = stream.shutdown(Shutdown::Write);
    drain(rt, stream);
}

/// The same where nobody may wait: what the client has said so far is read, at most once.
pub fn refuse(mut stream: &TcpStream, farewell: Farewell) {
    let mut room = [0u8; 4096];
    let _ = stream.set_nonblocking(true);
    let _ = stream.write(farewell.line().as_bytes());
    let _ = stream.shutdown(Shutdown::Write);
    let _ = stream.read(&mut room);
}

// What requests of HTTP begin with.
const METHODS: [&[u8]; 8] = [
    b"GET ",
    b"POST ",
    b"PUT ",
    b"HEAD ",
    b"OPTIONS ",
    b"DELETE ",
    b"CONNECT ",
    b"PRI * ",
];

// What a handshake of TLS begins with.
const HANDSHAKE: u8 = 22;

/// Whether what a client says first is HTTP or TLS.
pub fn is_foreign(first: &[u8]) -> bool {
    if first.first() == Some(&HANDSHAKE) {
        return true;
    }
    for method in METHODS {
        if first.starts_with(method) {
            return true;
        }
    }
    false
}
