use crate::body::Body;
use crate::list::List;
use crate::name::{ItemId, Name};
use crate::queue::Queue;

/// Names of channels, in order.
pub type Names = List<Name>;

/// A field of a head: its name in lower case, and its value without spaces or tabs at its ends.
#[derive(Drop)]
pub struct Field {
    /// The name, in lower case.
    pub name: Body,
    /// The value, without blanks at its ends.
    pub value: Body,
}

/// The fields of a head, in order.
pub type Fields = List<Field>;

/// The part of an item that answers a response hold.
#[derive(Drop)]
pub struct ResponsePart {
    /// The status code, 200 to 599.
    pub code: u16,
    /// The reason phrase; it may be empty.
    pub reason: Body,
    /// The fields, in order.
    pub fields: Fields,
    /// The body, of at most 65,536 bytes.
    pub body: Body,
}

/// The part of an item that goes to stream holds.
#[derive(Drop)]
pub enum StreamPart {
    /// Bytes that are sent to streams, at most 65,536.
    Content(Body),
    /// Ends the stream.
    Close,
}

/// The part of an item that goes to sockets.
#[derive(Drop)]
pub enum MessagePart {
    /// A text message, in UTF-8, of at most 65,536 bytes.
    Text(Body),
    /// A binary message of at most 65,536 bytes.
    Binary(Body),
    /// Closes the socket.
    Close,
}

/// A WebSocket message, as it is pushed to one socket (RFC 6455, sections 5.5 and 5.6).
#[derive(Drop)]
pub enum Message {
    /// A text message, in UTF-8, of at most 1,048,576 bytes.
    Text(Body),
    /// A binary message of at most 1,048,576 bytes.
    Binary(Body),
    /// A ping with its payload, of at most 125 bytes.
    Ping(Body),
    /// A pong with its payload, of at most 125 bytes.
    Pong(Body),
    /// A close, with a code or without one. Without a code it has no reason.
    Close { code: Option<u16>, reason: Body },
}

/// What is published on a channel: an id and the id before it, where it has them, and a part for each kind
/// of hold that it is meant for.
#[derive(Drop)]
pub struct Item {
    /// The channel that it is published to.
    pub channel: Name,
    /// Its id on the channel.
    pub id: Option<ItemId>,
    /// The id of the item before it on the channel.
    pub prev: Option<ItemId>,
    /// What answers response holds.
    pub response: Option<ResponsePart>,
    /// What is sent to streams.
    pub stream: Option<StreamPart>,
    /// What is sent to sockets.
    pub message: Option<MessagePart>,
}

/// Items, oldest first.
pub type Items = Queue<Item>;
