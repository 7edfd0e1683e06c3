//! What a Take gave is put behind the bytes that wait for a client.
ghost use Rattle.std.specs.Prelude.{◌≡◌, ◌<◌, ◌++◌, Some, length};
ghost use Rattle.gp_answer.specs.Frames.{chunk, framed_by, last_chunk};
ghost use Rattle.gp_plain.specs.Pieces.{message_bytes};
ghost use Rattle.gp_session_hold.specs.Puts.{Counts, PutsAs, PutsNext, PutsOnce, Sends, framed, given_by, missing_by, payload_bytes};

use crate::hold::KeptHold;
use gp_answer::last_chunk;
use gp_body::chunk_head;
use gp_outside::Link;
use gp_plain::{Body, EndCause, ItemId, Message, Payload, Pieces, Taken};
use gp_session::Wire;
use std::alloc::Global;

/// What became of what a Take gave.
#[derive(Drop)]
pub(crate) enum Given {
    /// It gave pieces, which are put, and told nothing else.
    Pieces,
    /// It gave nothing.
    Nothing,
    /// It told that items are missing behind this id. Its pieces are put.
    Missing(ItemId),
    /// It told this end, which is put behind its pieces.
    End(EndCause),
    /// Memory is wanting, so that not all of it is put. It told this end, or none.
    Unput(Option<EndCause>),
}

/// The bytes of a message. A close has none.
fn bytes_of_message(alloc: Global, message: Message) -> Body
    ensures { result ≡ message_bytes message }
{
    match message {
        Message::Text(bytes) => bytes,
        Message::Binary(bytes) => bytes,
        Message::Ping(bytes) => bytes,
        Message::Pong(bytes) => bytes,
        Message::Close { .. } => Body::empty(alloc),
    }
}

/// The bytes of what a piece gives to send. They are moved.
fn bytes_of(alloc: Global, payload: Payload) -> Body
    ensures { result ≡ payload_bytes payload }
{
    match payload {
        Payload::Bytes(bytes) => bytes,
        Payload::Message(message) => bytes_of_message(alloc, message),
        Payload::Answer(part) => part.body,
    }
}

/// Puts bytes between two others, and answers whether there was memory for them.
fn put<L: Link>(wire: &mut Wire<L>, head: &[u8], bytes: Body, tail: &[u8]) -> bool
    ensures { PutsOnce wire.old wire.new (head.now ++ (bytes ++ tail.now)) result }
{
    match wire.put(head, bytes, tail) {
        Ok(()) => true,
        Err(_) => false,
    }
}

/// Puts bytes as a chunk.
fn put_chunk<L: Link>(wire: &mut Wire<L>, bytes: Body) -> bool
    requires { 0 < length bytes }
    ensures { PutsOnce wire.old wire.new (chunk bytes) result }
{
    let mut line = [0; 18];
    let end = chunk_head(bytes.len() as u64, &mut line);
    put(wire, &line[..end], bytes, b"\r\n")
}

/// Puts the bytes of a piece in their framing. Without bytes nothing is put.
fn put_bytes<L: Link>(wire: &mut Wire<L>, chunked: bool, bytes: Body) -> bool
    ensures { PutsOnce wire.old wire.new (framed_by chunked bytes) result }
{
    if bytes.len() == 0 {
        true
    } else if chunked {
        put_chunk(wire, bytes)
    } else {
        put(wire, b"", bytes, b"")
    }
}

/// Puts the bytes of one more piece, unless memory was wanting before.
fn put_next<L: Link>(wire: &mut Wire<L>, chunked: bool, room: bool, bytes: Body) -> bool
    ensures { PutsNext wire.old wire.new (framed_by chunked bytes) room result }
{
    if room {
        put_bytes(wire, chunked, bytes)
    } else {
        false
    }
}

/// Counts pieces, and puts their bytes as far as there is memory. It answers whether there was enough.
fn put_pieces<L: Link>(
    alloc: Global,
    wire: &mut Wire<L>,
    chunked: bool,
    hold: &mut KeptHold,
    pieces: Pieces,
) -> bool
    ensures counts { Counts hold.old hold.new pieces }
    ensures puts { PutsAs wire.old wire.new (framed chunked pieces) result }
{
    let mut left = pieces;
    let mut room = true;
    while let Some(piece) = left.take_first() {
        let bytes = bytes_of(alloc, hold.add(piece));
        room = put_next(wire, chunked, room, bytes);
    }
    room
}

/// Puts the last chunk of a stream that ended for this cause, where it has one, unless memory was wanting before.
fn put_end<L: Link>(
    alloc: Global,
    wire: &mut Wire<L>,
    chunked: bool,
    room: bool,
    cause: EndCause,
) -> bool
    ensures { PutsNext wire.old wire.new (last_chunk chunked (Some cause)) room result }
{
    if room {
        put(
            wire,
            last_chunk(chunked, Some(cause)),
            Body::empty(alloc),
            b"",
        )
    } else {
        false
    }
}

/// What became of pieces, where an id was told behind which items are missing.
fn missing_of(from: ItemId, room: bool) -> Given
    ensures { result ≡ missing_by room from }
{
    if room {
        Given::Missing(from)
    } else {
        Given::Unput(None)
    }
}

/// What became of pieces, where neither an end was told nor such an id.
fn given_of(none: bool, room: bool) -> Given
    ensures { result ≡ given_by none room }
{
    if none {
        Given::Nothing
    } else if room {
        Given::Pieces
    } else {
        Given::Unput(None)
    }
}

/// Counts what a Take gave, and puts it, with the last chunk where the stream is closed. All pieces are counted, also where
/// memory is wanting.
pub(crate) fn send<L: Link>(
    alloc: Global,
    wire: &mut Wire<L>,
    chunked: bool,
    hold: &mut KeptHold,
    taken: Taken,
) -> Given
    ensures { Sends wire.old wire.new chunked hold.old hold.new taken result }
{
    let Taken {
        pieces,
        recover,
        ended,
    } = taken;
    let none = pieces.is_empty();
    let room = put_pieces(alloc, wire, chunked, hold, pieces);
    match ended {
        None => match recover {
            None => given_of(none, room),
            Some(from) => missing_of(from, room),
        },
        Some(cause) => {
            if put_end(alloc, wire, chunked, room, cause) {
                Given::End(cause)
            } else {
                Given::Unput(Some(cause))
            }
        }
    }
}
