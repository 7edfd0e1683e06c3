use crate::body::Body;
use crate::item::{Item, Message, Names};
use crate::name::{ItemId, Name};

/// The kinds of holds.
#[derive(Clone, Copy, Drop, Debug, PartialEq)]
pub enum HoldKind {
    /// A reliable stream: one channel, and a position on it.
    Stream,
    /// A stream without a position.
    Plain,
    /// A long poll, which one item answers.
    Response,
    /// A WebSocket.
    Socket,
}

/// What a request is held open for.
#[derive(Drop)]
pub enum HoldSpec {
    /// A reliable stream. `link` says that missing items can be asked of the origin.
    Stream {
        opening: Body,
        channel: Name,
        prev: ItemId,
        link: bool,
    },
    /// A stream without a position.
    Plain {
        opening: Body,
        channels: Names,
    },
    /// A long poll up to a deadline in seconds. `again` says that the request was repeated.
    Response {
        channels: Names,
        prev: Option<ItemId>,
        deadline: u64,
        again: bool,
    },
    /// A WebSocket, at first on no channel.
    Socket,
}

/// What follows a page of a recovery: the stream goes on, there is a next page, or the stream ends.
#[derive(Clone, Copy, Drop, Debug, PartialEq)]
pub enum Then {
    /// The hold goes on with what follows the page.
    Hold,
    /// There is a further page to ask for.
    Next,
    /// The stream ends with the page.
    End,
}

/// What can happen to the holds. A `hold` is a number that an Attach was answered; `now` is a moment in seconds.
#[derive(Drop)]
pub enum Event {
    /// A request is held open.
    Attach {
        spec: HoldSpec,
    },
    /// An item is published on its channel.
    Publish {
        item: Item,
    },
    /// The owner of a hold takes what waits for it.
    Take {
        hold: u64,
        now: u64,
    },
    /// A page of a recovery, from one id to another.
    Page {
        hold: u64,
        from: ItemId,
        to: ItemId,
        bytes: Body,
        then: Then,
    },
    /// The page of a recovery can't be had.
    PageFailed {
        hold: u64,
    },
    /// A message to one socket.
    Push {
        hold: u64,
        message: Message,
    },
    /// A socket joins a channel.
    Join {
        hold: u64,
        channel: Name,
    },
    /// A socket leaves a channel.
    Leave {
        hold: u64,
        channel: Name,
    },
    /// The owner lets a hold go.
    Detach {
        hold: u64,
    },
}

/// An event, and the number of the one who did it.
#[derive(Drop)]
pub struct Entry {
    /// Who made the event: the number of a pass.
    pub who: u64,
    /// The event.
    pub event: Event,
}
