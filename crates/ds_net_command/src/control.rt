//! Standard input of a server: what asks it to stop.

use ds_net::keeper::Attendant;
use ds_net_floor::door::Door;
use mio::unix::SourceFd;
use mio::{Events, Interest, Poll, Token};
use std::io::BufRead;
use std::net::Net;
use std::time::Duration;

// The line that asks the server to stop.
const STOP: &[u8] = b"stop";

// The descriptor of standard input.
const INPUT: i32 = 0;

// How much of the line that is being read is that which asks the server to stop.
#[derive(Clone, Copy)]
enum Heard {
    // This number of its bytes, and nothing else.
    Part(usize),
    // Something else.
    Other,
}

impl Heard {
    // What is heard with one byte more of the line.
    fn and(self, byte: u8) -> Heard {
        match self {
            Heard::Part(count) if STOP.get(count) == Some(&byte) => Heard::Part(count + 1),
            _ => Heard::Other,
        }
    }

    // Whether the line is that which asks the server to stop.
    fn is_stop(self) -> bool {
        match self {
            Heard::Part(count) => count == STOP.len(),
            Heard::Other => false,
        }
    }
}

// Reads on with one read, and asks the door to stop where a line says so. False at the end, and where the read fails.
fn hears<B: BufRead>(reader: &mut B, heard: &mut Heard, door: &Door) -> bool {
    let Ok(bytes) = reader.fill_buf() else {
        return false;
    };
    let count = bytes.len();
    let mut line = *heard;
    for byte in bytes {
        if *byte == b'\n' {
            if line.is_stop() {
                door.tell();
            }
            line = Heard::Part(0);
        } else if *byte != b'\r' {
            line = line.and(*byte);
        }
    }
    *heard = line;
    reader.consume(count);
    count > 0
}

/// Standard input, which is asked whether it has something to read.
#[derive(Drop)]
pub struct Control {
    poll: Poll,
    events: Events,
    // Whether it can be waited for. Otherwise it is a file, or nothing, whose reads do not wait.
    waits: bool,
}

impl Control {
    /// None where the system has no room for it: the server is then asked nothing.
    pub fn new<R: AllocGlobal + Net>(rt: &R) -> Option<Control> {
        let poll = Poll::new(rt).ok()?;
        let events = Events::with_capacity(rt.alloc(), 1).ok()?;
        let waits = poll
            .registry()
            .register(&mut SourceFd(&INPUT), Token(0), Interest::READABLE)
            .is_ok();
        Some(Control {
            poll,
            events,
            waits,
        })
    }

    // Whether there is something to read now; none where the system does not say.
    fn is_ready(&mut self) -> Option<bool> {
        if !self.waits {
            return Some(true);
        }
        self.poll.poll(&mut self.events, Some(Duration::ZERO)).ok()?;
        if self.events.iter().next().is_none() {
            return Some(false);
        }
        let registry = self.poll.registry();
        registry
            .reregister(&mut SourceFd(&INPUT), Token(0), Interest::READABLE)
            .ok()?;
        Some(true)
    }
}

/// Standard input, which the thread of a keeper reads beside, without a wait.
#[derive(Drop)]
pub struct Listening<'a, B> {
    control: Option<Control>,
    reader: B,
    heard: Heard,
    door: &'a Door,
}

impl<'a, B> Listening<'a, B> {
    /// Before the first line. Without a control nothing is heard.
    pub fn new(control: Option<Control>, reader: B, door: &'a Door) -> Listening<'a, B> {
        Listening {
            control,
            reader,
            heard: Heard::Part(0),
            door,
        }
    }
}

impl<B: BufRead> Attendant for Listening<'_, B> {
    fn attend(&mut self) {
        let Some(control) = &mut self.control else {
            return;
        };
        let hears_on = match control.is_ready() {
            Some(true) => hears(&mut self.reader, &mut self.heard, self.door),
            Some(false) => true,
            None => false,
        };
        if !hears_on {
            self.control = None;
        }
    }
}
