//! What an item says to a stream at a position.
ghost use Rattle.std.specs.Prelude.{◌≡◌, IfOk, Some, option_map};
ghost use Rattle.gp_plain.specs.Follow.{is_heard};
ghost use Rattle.std.specs.Option.{option_to_list};
ghost use Rattle.gp_plain.specs.Holds.{answer_of, comes_next, ends_by, leaves_gap, message_piece, piece_by, piece_of};
ghost use Rattle.gp_plain.specs.Items.{closes, is_id, is_on};
ghost use Rattle.gp_plain.specs.Pieces.{closed_by_message, end_by, message_bytes, moves_to, piece_bytes};

use crate::body::Body;
use crate::event::HoldKind;
use crate::item::{Item, Message, MessagePart, Names, StreamPart};
use crate::name::{ItemId, Name, copy_id};
use crate::reply::{EndCause, Piece};
use std::alloc::{AllocError, Global};

impl Item {
    /// Whether it is on the channel.
    pub fn is_on(&self, channel: &Name) -> bool
        ensures { result ≡ is_on channel.now self.now }
    {
        self.channel.is(channel)
    }

    /// Whether it is on one of the channels.
    pub fn is_heard(&self, channels: &Names) -> bool
        ensures { result ≡ is_heard channels.now self.now }
    {
        channels
            .as_slice()
            .iter()
            .any(|channel| self.is_on(channel))
    }

    /// Whether it has this id.
    pub fn has_id(&self, id: &ItemId) -> bool
        ensures { result ≡ is_id self.now.id id.now }
    {
        match &self.id {
            Some(own) => own.is(id),
            None => false,
        }
    }

    /// Whether it has both ids, and its previous id is the position.
    pub fn comes_next(&self, position: &ItemId) -> bool
        ensures { result ≡ comes_next self.now (Some position.now) }
    {
        match (&self.id, &self.prev) {
            (Some(_), Some(prev)) => prev.is(position),
            _ => false,
        }
    }

    /// Whether it has both ids, doesn't come next, and its id isn't the position.
    pub fn leaves_gap(&self, position: &ItemId) -> bool
        ensures { result ≡ leaves_gap self.now (Some position.now) }
    {
        match (&self.id, &self.prev) {
            (Some(id), Some(prev)) => !prev.is(position) && !id.is(position),
            _ => false,
        }
    }

    /// What a stream's log has of it.
    pub fn stream_piece(&self, alloc: Global) -> Result<Piece, AllocError>
        ensures { IfOk result (λ piece. piece ≡ piece_of self.now) }
    {
        let to = copy_id(alloc, &self.id)?;
        match &self.stream {
            Some(StreamPart::Content(bytes)) => Ok(Piece::Item {
                to,
                bytes: bytes.copy(alloc)?,
                close: false,
            }),
            Some(StreamPart::Close) => Ok(Piece::Item {
                to,
                bytes: Body::empty(alloc),
                close: true,
            }),
            None => Ok(Piece::Item {
                to,
                bytes: Body::empty(alloc),
                close: false,
            }),
        }
    }
}

impl Item {
    /// What the log of a response hold has of it: an answer, or an item without bytes.
    pub fn answer_piece(&self, alloc: Global) -> Result<Piece, AllocError>
        ensures { IfOk result (λ piece. piece ≡ answer_of self.now) }
    {
        let to = copy_id(alloc, &self.id)?;
        match &self.response {
            Some(part) => Ok(Piece::Answer {
                to,
                part: part.copy(alloc)?,
            }),
            None => Ok(Piece::Item {
                to,
                bytes: Body::empty(alloc),
                close: false,
            }),
        }
    }

    /// What a socket is sent of it, where it has a part for sockets: a close has the code 1000 and no reason (RFC 6455, section
    /// 7.4.1).
    pub fn message_piece(&self, alloc: Global) -> Result<Option<Piece>, AllocError>
        ensures { IfOk result (λ piece. option_to_list piece ≡ message_piece self.now.message) }
    {
        let message = match &self.message {
            Some(MessagePart::Text(bytes)) => Message::Text(bytes.copy(alloc)?),
            Some(MessagePart::Binary(bytes)) => Message::Binary(bytes.copy(alloc)?),
            Some(MessagePart::Close) => Message::Close {
                code: Some(1000),
                reason: Body::empty(alloc),
            },
            None => return Ok(None),
        };
        Ok(Some(Piece::Message(message)))
    }

    /// What the log of a hold with a position has of it, by the kind of the hold.
    pub fn piece_for(&self, alloc: Global, kind: HoldKind) -> Result<Piece, AllocError>
        ensures { IfOk result (λ piece. piece ≡ piece_by kind self.now) }
    {
        match kind {
            HoldKind::Response => self.answer_piece(alloc),
            _ => self.stream_piece(alloc),
        }
    }

    /// Whether it ends a hold with a position: a close ends a stream, and a response part a response hold.
    pub fn ends(&self, kind: HoldKind) -> bool
        ensures { result ≡ ends_by kind self.now }
    {
        match kind {
            HoldKind::Stream | HoldKind::Plain => matches!(self.stream, Some(StreamPart::Close)),
            HoldKind::Response => self.response.is_some(),
            HoldKind::Socket => false,
        }
    }
}

impl Piece {
    /// The end that it brings.
    pub fn end(&self) -> Option<EndCause>
        ensures { result ≡ end_by self.now }
    {
        match self {
            Piece::Item { close: true, .. } => Some(EndCause::Closed),
            Piece::Message(message) => message.end(),
            Piece::Answer { .. } => Some(EndCause::Answered),
            _ => None,
        }
    }

    /// The bytes that it sends. A close message sends none.
    pub fn bytes(&self) -> &[u8]
        ensures { result.now ≡ piece_bytes self.now }
    {
        match self {
            Piece::Opening(bytes) => bytes.bytes(),
            Piece::Item { bytes, .. } => bytes.bytes(),
            Piece::Page { bytes, .. } => bytes.bytes(),
            Piece::Message(message) => message.payload(),
            Piece::Answer { part, .. } => part.body.bytes(),
        }
    }

    /// The id that it moves the position to, where it has one.
    pub fn moves_to(&self) -> Option<&ItemId>
        ensures { option_map (λ id. id.now) result ≡ moves_to self.now }
    {
        match self {
            Piece::Item { to: Some(id), .. } => Some(id),
            Piece::Page { to, .. } => Some(to),
            Piece::Answer { to: Some(id), .. } => Some(id),
            _ => None,
        }
    }
}

impl Message {
    /// The end that it brings: a close ends a socket.
    fn end(&self) -> Option<EndCause>
        ensures { result ≡ closed_by_message self.now }
    {
        match self {
            Message::Close { .. } => Some(EndCause::Closed),
            _ => None,
        }
    }

    /// Its payload. A close gives none.
    fn payload(&self) -> &[u8]
        ensures { result.now ≡ message_bytes self.now }
    {
        match self {
            Message::Text(bytes) => bytes.bytes(),
            Message::Binary(bytes) => bytes.bytes(),
            Message::Ping(bytes) => bytes.bytes(),
            Message::Pong(bytes) => bytes.bytes(),
            Message::Close { .. } => &[],
        }
    }
}
