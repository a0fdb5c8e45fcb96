//! What became of the connections that a server has taken.

ghost use Rattle.std.specs.Prelude.{◌≡◌, ◌+◌, ◌<◌, IfSome, None};

use std::net::TcpStream;

/// Why a server took no more connections.
#[derive(Clone, Copy, Debug, PartialEq, Eq)]
pub enum Ending {
    /// It was asked to stop.
    Asked,
    /// As many connections became sessions as it was to serve.
    Served,
}

/// The connections that a server has taken, when it takes no more.
#[derive(Clone, Copy)]
pub struct Taken {
    connections: u64,
    sessions: u64,
    refused: u64,
    ending: Ending,
}

impl Taken {
    /// How many connections were taken.
    pub fn connections(&self) -> u64
        ensures { result ≡ self.now.connections }
    {
        self.connections
    }

    /// How many of them became sessions.
    pub fn sessions(&self) -> u64
        ensures { result ≡ self.now.sessions }
    {
        self.sessions
    }

    /// How many of them were refused, since there were as many sessions as there may be at once.
    pub fn refused(&self) -> u64
        ensures { result ≡ self.now.refused }
    {
        self.refused
    }

    /// Why no more were taken.
    pub fn ending(&self) -> Ending
        ensures { result ≡ self.now.ending }
    {
        self.ending
    }
}

/// A connection that was counted, and is neither a session yet nor refused.
#[derive(Drop)]
pub struct Arrival {
    stream: TcpStream,
}

/// How many connections there were, and what became of them: each is a session, was refused, or is pending, which is
/// neither.
#[derive(Clone, Copy)]
pub struct Counts {
    connections: u64,
    sessions: u64,
    refused: u64,
    pending: u64,
    ghost counted: { connections ≡ sessions + refused + pending },
}

impl Counts {
    /// Before the first connection.
    pub fn new() -> Counts
        ensures pending { result.pending ≡ 0 }
        ensures sessions { result.sessions ≡ 0 }
    {
        Counts {
            connections: 0,
            sessions: 0,
            refused: 0,
            pending: 0,
        }
    }

    /// How many connections became sessions so far.
    pub fn sessions(&self) -> u64
        ensures { result ≡ self.now.sessions }
    {
        self.sessions
    }

    /// Counts a connection, which is pending then. None where 2^64 - 1 are counted.
    pub fn arrive(&mut self, stream: TcpStream) -> Option<Arrival>
        ensures sessions { self.new.sessions ≡ self.old.sessions }
        ensures some { IfSome result (λ _. (self.new.connections ≡ self.old.connections + 1) × (self.new.pending ≡ self.old.pending + 1)) }
        ensures none { result ≡ None → self.new ≡ self.old }
    {
        let Counts {
            connections,
            sessions,
            refused,
            pending,
        } = *self;
        if connections == u64::MAX {
            return None;
        }
        *self = Counts {
            connections: connections + 1,
            sessions,
            refused,
            pending: pending + 1,
        };
        Some(Arrival { stream })
    }

    /// The pending connection is a session from now on.
    pub fn begin(&mut self, arrival: Arrival) -> TcpStream
        requires { 0 < self.old.pending }
        ensures sessions { self.new.sessions ≡ self.old.sessions + 1 }
        ensures pending { self.new.pending + 1 ≡ self.old.pending }
    {
        let Counts {
            connections,
            sessions,
            refused,
            pending,
        } = *self;
        *self = Counts {
            connections,
            sessions: sessions + 1,
            refused,
            pending: pending - 1,
        };
        let Arrival { stream } = arrival;
        stream
    }

    /// The pending connection is refused.
    pub fn refuse(&mut self, arrival: Arrival) -> TcpStream
        requires { 0 < self.old.pending }
        ensures sessions { self.new.sessions ≡ self.old.sessions }
        ensures refused { self.new.refused ≡ self.old.refused + 1 }
        ensures pending { self.new.pending + 1 ≡ self.old.pending }
    {
        let Counts {
            connections,
            sessions,
            refused,
            pending,
        } = *self;
        *self = Counts {
            connections,
            sessions,
            refused: refused + 1,
            pending: pending - 1,
        };
        let Arrival { stream } = arrival;
        stream
    }

    /// What became of all connections, where none is pending.
    pub fn taken(&self, ending: Ending) -> Taken
        requires { self.now.pending ≡ 0 }
        ensures ending { result.ending ≡ ending }
        ensures all { result.connections ≡ result.sessions + result.refused }
        ensures connections { result.connections ≡ self.now.connections }
        ensures sessions { result.sessions ≡ self.now.sessions }
    {
        Taken {
            connections: self.connections,
            sessions: self.sessions,
            refused: self.refused,
            ending,
        }
    }
}
