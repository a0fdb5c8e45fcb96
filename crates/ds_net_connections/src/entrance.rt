//! Where connections come in, and what they speak.

use crate::farewell::Farewell;
use std::hash::RandomState;
use std::net::TcpListener;

/// What the clients of a listener speak.
#[derive(Clone, Copy)]
pub enum Protocol {
    /// Lines of JSON.
    Lines,
    /// HTTP, and lines of JSON over WebSocket. The keys are those of the maps of fields.
    Http(RandomState),
}

impl Protocol {
    /// How a client is answered where there are as many sessions as there may be at once.
    pub fn busy(self) -> Farewell {
        match self {
            Protocol::Lines => Farewell::Busy,
            Protocol::Http(_) => Farewell::BusyHttp,
        }
    }
}

/// A listener, and what its clients speak.
#[derive(Drop)]
pub struct Entrance {
    /// Where it listens.
    pub listener: TcpListener,
    /// What its clients speak.
    pub protocol: Protocol,
}

/// Where the connections of a server come in: by the first entrance as many as it serves, by the other one as many as come
/// meanwhile.
#[derive(Drop)]
pub struct Entrances {
    /// The first one.
    pub first: Entrance,
    /// The other one, if there is one.
    pub beside: Option<Entrance>,
}
