//! Copies. Each is equal to its source.
ghost use Rattle.std.specs.Prelude.{◌≡◌, IfOk};

use crate::body::Body;
use crate::http::Address;
use crate::item::{Field, Fields, Item, Message, MessagePart, Names, ResponsePart, StreamPart};
use crate::list::List;
use crate::name::copy_id;
use crate::reply::Piece;
use std::alloc::{AllocError, Global};

/// Equal names, in the same order.
pub fn copy_names(alloc: Global, names: &Names) -> Result<Names, AllocError>
    ensures { IfOk result (λ copy. copy ≡ names.now) }
{
    let mut copy = Vec::new(alloc);
    for name in names.as_slice() {
        copy.push(name.copy(alloc)?)?;
    }
    Ok(List::from_vec(copy))
}

impl Field {
    /// An equal field.
    pub fn copy(&self, alloc: Global) -> Result<Field, AllocError>
        ensures { IfOk result (λ copy. copy ≡ self.now) }
    {
        let name = self.name.copy(alloc)?;
        let value = self.value.copy(alloc)?;
        Ok(Field { name, value })
    }
}

/// Equal fields, in the same order.
pub fn copy_fields(alloc: Global, fields: &Fields) -> Result<Fields, AllocError>
    ensures { IfOk result (λ copy. copy ≡ fields.now) }
{
    let mut copy = Vec::new(alloc);
    for field in fields.as_slice() {
        copy.push(field.copy(alloc)?)?;
    }
    Ok(List::from_vec(copy))
}

impl Address {
    /// An equal address.
    pub fn copy(&self, alloc: Global) -> Result<Address, AllocError>
        ensures { IfOk result (λ copy. copy ≡ self.now) }
    {
        let host = self.host.copy(alloc)?;
        Ok(Address {
            host,
            port: self.port,
        })
    }
}

impl ResponsePart {
    /// An equal part.
    pub fn copy(&self, alloc: Global) -> Result<ResponsePart, AllocError>
        ensures { IfOk result (λ copy. copy ≡ self.now) }
    {
        let reason = self.reason.copy(alloc)?;
        let fields = copy_fields(alloc, &self.fields)?;
        let body = self.body.copy(alloc)?;
        Ok(ResponsePart {
            code: self.code,
            reason,
            fields,
            body,
        })
    }
}

impl Message {
    /// An equal message.
    pub fn copy(&self, alloc: Global) -> Result<Message, AllocError>
        ensures { IfOk result (λ copy. copy ≡ self.now) }
    {
        match self {
            Message::Text(bytes) => Ok(Message::Text(bytes.copy(alloc)?)),
            Message::Binary(bytes) => Ok(Message::Binary(bytes.copy(alloc)?)),
            Message::Ping(bytes) => Ok(Message::Ping(bytes.copy(alloc)?)),
            Message::Pong(bytes) => Ok(Message::Pong(bytes.copy(alloc)?)),
            Message::Close { code, reason } => Ok(Message::Close {
                code: *code,
                reason: reason.copy(alloc)?,
            }),
        }
    }
}

fn copy_response(
    alloc: Global,
    part: &Option<ResponsePart>,
) -> Result<Option<ResponsePart>, AllocError>
    ensures { IfOk result (λ copy. copy ≡ part.now) }
{
    match part {
        Some(part) => Ok(Some(part.copy(alloc)?)),
        None => Ok(None),
    }
}

fn copy_stream(alloc: Global, part: &Option<StreamPart>) -> Result<Option<StreamPart>, AllocError>
    ensures { IfOk result (λ copy. copy ≡ part.now) }
{
    match part {
        Some(StreamPart::Content(bytes)) => Ok(Some(StreamPart::Content(bytes.copy(alloc)?))),
        Some(StreamPart::Close) => Ok(Some(StreamPart::Close)),
        None => Ok(None),
    }
}

fn copy_message(
    alloc: Global,
    part: &Option<MessagePart>,
) -> Result<Option<MessagePart>, AllocError>
    ensures { IfOk result (λ copy. copy ≡ part.now) }
{
    match part {
        Some(MessagePart::Text(bytes)) => Ok(Some(MessagePart::Text(bytes.copy(alloc)?))),
        Some(MessagePart::Binary(bytes)) => Ok(Some(MessagePart::Binary(bytes.copy(alloc)?))),
        Some(MessagePart::Close) => Ok(Some(MessagePart::Close)),
        None => Ok(None),
    }
}

impl Item {
    /// An equal item.
    pub fn copy(&self, alloc: Global) -> Result<Item, AllocError>
        ensures { IfOk result (λ copy. copy ≡ self.now) }
    {
        let channel = self.channel.copy(alloc)?;
        let id = copy_id(alloc, &self.id)?;
        let prev = copy_id(alloc, &self.prev)?;
        let response = copy_response(alloc, &self.response)?;
        let stream = copy_stream(alloc, &self.stream)?;
        let message = copy_message(alloc, &self.message)?;
        Ok(Item {
            channel,
            id,
            prev,
            response,
            stream,
            message,
        })
    }
}

impl Piece {
    /// An equal piece.
    pub fn copy(&self, alloc: Global) -> Result<Piece, AllocError>
        ensures { IfOk result (λ copy. copy ≡ self.now) }
    {
        match self {
            Piece::Opening(bytes) => Ok(Piece::Opening(bytes.copy(alloc)?)),
            Piece::Item { to, bytes, close } => Ok(Piece::Item {
                to: copy_id(alloc, to)?,
                bytes: bytes.copy(alloc)?,
                close: *close,
            }),
            Piece::Page { from, to, bytes } => Ok(Piece::Page {
                from: from.copy(alloc)?,
                to: to.copy(alloc)?,
                bytes: bytes.copy(alloc)?,
            }),
            Piece::Message(message) => Ok(Piece::Message(message.copy(alloc)?)),
            Piece::Answer { to, part } => Ok(Piece::Answer {
                to: copy_id(alloc, to)?,
                part: part.copy(alloc)?,
            }),
        }
    }
}
