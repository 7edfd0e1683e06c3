ghost use Rattle.std.specs.Prelude.{◌≡◌, ◌⊎◌, IfOk, IfSome, Some, None, false, drop, option_map};
ghost use Rattle.websocket.specs.Connection.{read_step};
ghost use Rattle.websocket.specs.Content.{payload_bytes, received_content, IsPayloadInside, IsReceivedInside, IsWithinLimit};
ghost use Rattle.gp_ws.specs.Ends.{control_end as the_control_end, data_end as the_data_end, server as the_server};
ghost use Rattle.gp_ws.specs.Frames.{framed as the_framed, framed_by, count_of, is_control, is_refused, message_of, read_of, unread_of, FitsFrame, IsLeft, IsUsed};
ghost use Rattle.gp_ws.specs.declared.frame.Framed.TheVariants.{NoMemory};

use gp_plain::{Body, Message};
use std::alloc::{AllocError, Global};
use websocket::error::Error;
use websocket::protocol::{
    FrameStatus, NoMask, Payload, Received, Role, Step, WebSocketConfig, WebSocketContext,
};

/// How many bytes a message has at most, and the payload of a frame that is no control frame.
const MESSAGE: usize = 1048576;

/// How many bytes the payload of a control frame has at most (RFC 6455, section 5.5).
const CONTROL: usize = 125;

/// What the frame at the front of bytes is.
#[derive(Drop)]
pub(crate) enum Framed {
    /// A frame of so many bytes that ends no message.
    Part(usize),
    /// A frame of so many bytes that ends this message.
    Whole(usize, Message),
    /// It isn't whole, and its header isn't refused.
    NotWhole,
    /// It is refused.
    Bad,
    /// Memory is wanting.
    NoMemory,
}

impl Framed {
    /// How many bytes the frame took.
    pub(crate) fn count(&self) -> usize
        ensures { result ≡ count_of self.now }
    {
        match self {
            Framed::Part(count) => *count,
            Framed::Whole(count, _) => *count,
            Framed::NotWhole | Framed::Bad | Framed::NoMemory => 0,
        }
    }

    /// Whether nothing is read behind it.
    fn is_refused(&self) -> bool
        ensures { result ≡ is_refused self.now }
    {
        match self {
            Framed::Part(_) | Framed::Whole(_, _) | Framed::NotWhole => false,
            Framed::Bad | Framed::NoMemory => true,
        }
    }
}

/// Whether the frame at the front of bytes is a control frame: its opcode is 8 or more (RFC 6455, section 5.2).
fn is_control(bytes: &[u8]) -> bool
    ensures { result ≡ is_control bytes.now }
{
    match bytes {
        [first, ..] => first % 16 >= 8,
        [] => false,
    }
}

/// The server's end for all frames but control frames.
pub(crate) fn data_end(alloc: Global) -> WebSocketContext
    ensures { result ≡ the_data_end None }
{
    server(alloc, MESSAGE)
}

/// A server's end for one control frame.
fn control_end(alloc: Global) -> WebSocketContext
    ensures { result ≡ the_control_end }
{
    server(alloc, CONTROL)
}

fn server(alloc: Global, frame: usize) -> WebSocketContext
    ensures { result ≡ the_server frame None }
{
    WebSocketContext::new(
        alloc,
        Role::Server,
        WebSocketConfig {
            max_message_size: Some(MESSAGE),
            max_frame_size: Some(frame),
            accept_unmasked_frames: false,
        },
    )
}

/// Reads the frame at the front of bytes, and unmasks it there. The reply that the crate makes is dropped.
fn read_frame(alloc: Global, end: &mut WebSocketContext, bytes: &mut [u8]) -> Framed
    requires { end.old.config.max_message_size ≡ Some 1048576 }
    ensures read { (result ≡ the_framed (read_step end.old bytes.old)) ⊎ (result ≡ NoMemory) }
    ensures fits { FitsFrame result }
    ensures left { IsLeft end.old bytes.old result end.new bytes.new }
{
    let mut dropped = Vec::new(alloc);
    match end.read(bytes, &mut dropped, &mut NoMask) {
        Ok(FrameStatus::Complete(step)) => taken(alloc, step, bytes),
        Ok(FrameStatus::Partial(_)) => Framed::NotWhole,
        Err(Error::OutOfMemory) => Framed::NoMemory,
        Err(_) => Framed::Bad,
    }
}

/// Reads a frame that is no control frame. A connection that refused a frame is replaced: nothing is read of it any more.
fn read_data(alloc: Global, end: &mut WebSocketContext, bytes: &mut [u8]) -> Framed
    requires data { is_control bytes.old ≡ false }
    requires end { end.old ≡ the_data_end end.old.fragments }
    ensures read { (result ≡ the_framed (read_step end.old bytes.old)) ⊎ (result ≡ NoMemory) }
    ensures fits { FitsFrame result }
    ensures left { IsLeft end.old bytes.old result end.new bytes.new }
    ensures end { end.new ≡ the_data_end end.new.fragments }
{
    let framed = read_frame(alloc, end, bytes);
    if framed.is_refused() {
        *end = data_end(alloc);
    }
    framed
}

/// Reads the frame at the front of bytes by the end that is meant for it.
pub(crate) fn read_next(alloc: Global, end: &mut WebSocketContext, bytes: &mut [u8]) -> Framed
    requires { end.old ≡ the_data_end end.old.fragments }
    ensures read { (result ≡ the_framed (read_of (unread_of end.old bytes.old))) ⊎ (result ≡ NoMemory) }
    ensures fits { FitsFrame result }
    ensures used { IsUsed (unread_of end.old bytes.old) result (unread_of end.new (drop (count_of result) bytes.new)) }
    ensures end { end.new ≡ the_data_end end.new.fragments }
{
    if is_control(bytes) {
        read_frame(alloc, &mut control_end(alloc), bytes)
    } else {
        read_data(alloc, end, bytes)
    }
}

/// What a frame that was taken is.
fn taken(alloc: Global, step: Step, bytes: &[u8]) -> Framed
    requires inside { IfSome step.message (IsReceivedInside bytes.now) }
    requires limit { IfSome step.message (λ message. IsWithinLimit (Some 1048576) (received_content bytes.now message)) }
    ensures framed { (result ≡ framed_by step.consumed (option_map (received_content bytes.now) step.message)) ⊎ (result ≡ NoMemory) }
    ensures fits { FitsFrame result }
{
    let Step { consumed, message } = step;
    let Some(received) = message else {
        return Framed::Part(consumed);
    };
    match owned_message(alloc, received, bytes) {
        Ok(message) => Framed::Whole(consumed, message),
        Err(_) => Framed::NoMemory,
    }
}

/// A message that was received. One that came in fragments is moved, and another is copied out of the bytes.
fn owned_message(alloc: Global, received: Received, bytes: &[u8]) -> Result<Message, AllocError>
    requires { IsReceivedInside bytes.now received }
    ensures { IfOk result (λ message. message ≡ message_of (received_content bytes.now received)) }
{
    Ok(match received {
        Received::Text(payload) => Message::Text(owned_body(alloc, payload, bytes)?),
        Received::Binary(payload) => Message::Binary(owned_body(alloc, payload, bytes)?),
        Received::Ping(span) => Message::Ping(Body::new(alloc, span.of(bytes))?),
        Received::Pong(span) => Message::Pong(Body::new(alloc, span.of(bytes))?),
        Received::Close(None) => Message::Close {
            code: None,
            reason: Body::empty(alloc),
        },
        Received::Close(Some((code, span))) => Message::Close {
            code: Some(u16::from(code)),
            reason: Body::new(alloc, span.of(bytes))?,
        },
    })
}

fn owned_body(alloc: Global, payload: Payload, bytes: &[u8]) -> Result<Body, AllocError>
    requires { IsPayloadInside bytes.now payload }
    ensures { IfOk result (λ body. body ≡ payload_bytes bytes.now payload) }
{
    match payload {
        Payload::Input(span) => Body::new(alloc, span.of(bytes)),
        Payload::Assembled(assembled) => Ok(Body::from_vec(assembled)),
    }
}
