ghost use Rattle.std.specs.Prelude.{◌≡◌, IfOk, OnErr, OnOk, Some, None, []};
ghost use Rattle.gp_ws.specs.Cuts.{fed};
ghost use Rattle.gp_ws.specs.Frames.{end_by as the_end_by, IsNext, IsOpen, MayBePushed};

use crate::unread::Frames;
use gp_plain::Message;
use std::alloc::{AllocError, Global};
use std::marker::Model;

/// What comes next in the bytes of a client.
#[derive(Drop)]
pub enum WsNext {
    /// This message came.
    Message(Message),
    /// The next message isn't whole.
    NotWhole,
    /// A close message came before.
    Ended,
    /// The bytes break the rules of frames, or a limit.
    Bad,
    /// Memory was wanting.
    NoMemory,
}

/// How far the bytes of a client were read.
#[derive(Drop)]
pub(crate) enum WsReading {
    /// More messages may come.
    Open(Frames),
    /// A close message came.
    Ended,
    /// The bytes were refused.
    Bad,
    /// Memory was wanting.
    NoMemory,
}

/// The bytes of a client, which are read as messages. Contracts see how far they were read.
#[derive(Drop)]
pub struct WsIn {
    reading: WsReading,
}

impl Model for WsIn {
    ghost use Rattle.gp_ws.specs.declared.input.WsReading.{WsReading};

    ghost Value = { WsReading };

    ghost view = { λ input. input.reading };
}

impl WsIn {
    /// No byte came. It takes no memory, so it is always Ok.
    pub fn new(alloc: Global) -> Result<WsIn, AllocError>
        ensures { result ≡ Ok (WsReading.Open (record { fragments = None; waiting = [] })) }
    {
        Ok(WsIn {
            reading: WsReading::Open(Frames::new(alloc)),
        })
    }

    /// Adds bytes that came. It keeps those that `next` hasn't used, and no more. Where memory is wanting, nothing has changed. Once
    /// `next` has answered `Ended`, `Bad` or `NoMemory`, or has given a close, bytes are dropped and no memory is taken.
    pub fn feed(&mut self, bytes: &[u8]) -> Result<(), AllocError>
        ensures ok { OnOk result (self.new ≡ fed self.old bytes.now) }
        ensures err { OnErr result (IsOpen self.old × (self.new ≡ self.old)) }
    {
        match &mut self.reading {
            WsReading::Open(frames) => frames.feed(bytes),
            WsReading::Ended | WsReading::Bad | WsReading::NoMemory => Ok(()),
        }
    }

    /// The next message: the one whose last frame ends first among the bytes that came and weren't used. The bytes up to its end
    /// are then used. A message in fragments goes on behind a control message that stands between them.
    ///
    /// `Bad` comes as soon as the bytes can't be frames, or a header announces too much: more than 125 bytes in a control frame, or
    /// more than 1,048,576 in another (RFC 6455, sections 5.2 and 5.5). A message may have 1,048,576 bytes.
    pub fn next(&mut self) -> WsNext
        ensures next { IsNext self.old result self.new }
        ensures fits { MayBePushed result }
    {
        let next = match &mut self.reading {
            WsReading::Open(frames) => frames.next(),
            WsReading::Ended => return WsNext::Ended,
            WsReading::Bad => return WsNext::Bad,
            WsReading::NoMemory => return WsNext::NoMemory,
        };
        if let Some(end) = end_by(&next) {
            self.reading = end;
        }
        next
    }
}

/// How far the bytes were read where nothing is read behind an answer.
fn end_by(next: &WsNext) -> Option<WsReading>
    ensures { result ≡ the_end_by next.now }
{
    match next {
        WsNext::Message(Message::Close { .. }) => Some(WsReading::Ended),
        WsNext::Message(_) | WsNext::NotWhole => None,
        WsNext::Ended => Some(WsReading::Ended),
        WsNext::Bad => Some(WsReading::Bad),
        WsNext::NoMemory => Some(WsReading::NoMemory),
    }
}
