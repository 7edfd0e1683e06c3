ghost use Rattle.std.specs.Prelude.{◌≡◌};
ghost use Rattle.gp_events.specs.Spellings.{name_of};

use gp_plain::{Body, List};
use std::alloc::{AllocError, AllocFailed};

/// What an event tells.
#[derive(Clone, Copy, Drop, Debug, PartialEq)]
pub enum EventKind {
    /// `OPEN`: the connection was opened.
    Opens,
    /// `TEXT`: a text message.
    Text,
    /// `BINARY`: a binary message.
    Binary,
    /// `PING`: a ping.
    Ping,
    /// `PONG`: a pong.
    Pong,
    /// `CLOSE`: a close message. The content is a code of two bytes, the higher first, and a reason, or nothing.
    Close,
    /// `DISCONNECT`: the connection was lost without a close message.
    Disconnect,
}

impl EventKind {
    /// The name that begins an event of this kind.
    pub(crate) fn name(self) -> &'static [u8]
        ensures { result.now ≡ name_of self }
    {
        match self {
            EventKind::Opens => b"OPEN",
            EventKind::Text => b"TEXT",
            EventKind::Binary => b"BINARY",
            EventKind::Ping => b"PING",
            EventKind::Pong => b"PONG",
            EventKind::Close => b"CLOSE",
            EventKind::Disconnect => b"DISCONNECT",
        }
    }
}

/// An event of a WebSocket connection.
#[derive(Drop)]
pub struct WsEvent {
    /// What it tells.
    pub kind: EventKind,
    /// The payload of the message, where the event has one. No bytes are a content too.
    pub content: Option<Body>,
}

/// Events, in order.
pub type WsEvents = List<WsEvent>;

/// Why bytes are no events. A place is counted from 0 over all the bytes.
#[derive(Clone, Copy, Drop, Debug, PartialEq)]
pub enum EventFault {
    /// At this place, where an event begins, no name stands that CRLF or a space follows.
    Name(u32),
    /// At this place no size stands: 1 to 8 hexadecimal digits that CRLF follows.
    Size(u32),
    /// From this place on there are fewer bytes than the size says.
    Short(u32),
    /// At this place, behind a content, no CRLF stands.
    Tail(u32),
    /// Memory is wanting.
    NoMemory,
}

impl From<AllocError> for EventFault {
    ghost use Rattle.std.specs.Prelude.{◌≡◌};
    ghost use Rattle.gp_events.specs.declared.event.EventFault.TheVariants.{NoMemory};

    ghost from_gives = { λ _ fault. fault ≡ NoMemory };

    fn from(_: AllocError) -> EventFault {
        EventFault::NoMemory
    }
}

impl<T: Drop> From<AllocFailed<T>> for EventFault {
    ghost use Rattle.std.specs.Prelude.{◌≡◌};
    ghost use Rattle.gp_events.specs.declared.event.EventFault.TheVariants.{NoMemory};

    ghost from_gives = { λ _ fault. fault ≡ NoMemory };

    fn from(_: AllocFailed<T>) -> EventFault {
        EventFault::NoMemory
    }
}
