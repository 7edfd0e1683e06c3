ghost use Rattle.std.specs.Prelude.{◌≡◌, ◌⊎◌, ◌++◌, ◌==◌, [], None, MatchResult, length};
ghost use Rattle.gp_ws.specs.Frames.{found_in, framed, read_of, FitsFrame, IsFound, IsUsed, MayBePushed};
ghost use Rattle.gp_ws.specs.declared.frame.Framed.TheVariants.{NoMemory};

use crate::frame::{Framed, data_end, read_next};
use crate::input::WsNext;
use std::alloc::{AllocError, Global};
use std::marker::Model;
use websocket::protocol::WebSocketContext;

/// The frames of a client, as far as they came. Contracts see the fragments of a message that isn't whole, and the bytes that
/// weren't used.
#[derive(Drop)]
pub(crate) struct Frames {
    alloc: Global,
    /// The connection of all frames but control frames.
    end: WebSocketContext,
    /// The bytes that came. The first `used` were used.
    bytes: Vec<u8>,
    used: usize,
}

impl Model for Frames {
    ghost use Rattle.std.specs.Prelude.{◌≡◌, ◌≤◌, drop, length};
    ghost use Rattle.gp_ws.specs.Unread.{Unread};
    ghost use Rattle.gp_ws.specs.Ends.{data_end};

    ghost Value = { Unread };

    ghost view = { λ f. record { fragments = f.end.fragments; waiting = drop f.used f.bytes.items } };

    ghost invariant = { λ f. (f.used ≤ length f.bytes.items) × (f.end ≡ data_end f.end.fragments) };
}

impl Frames {
    /// No byte came. It takes no memory.
    pub(crate) fn new(alloc: Global) -> Frames
        ensures { result ≡ record { fragments = None; waiting = [] } }
    {
        Frames {
            alloc,
            end: data_end(alloc),
            bytes: Vec::new(alloc),
            used: 0,
        }
    }

    /// Adds bytes that came. Those that were used are given up. Where memory is wanting, nothing has changed.
    pub(crate) fn feed(&mut self, bytes: &[u8]) -> Result<(), AllocError>
        ensures { MatchResult result (λ _. self.new ≡ record self.old { waiting = self.old.waiting ++ bytes.now }) (λ _. self.new ≡ self.old) }
    {
        if self.used == 0 {
            return self.bytes.extend_from_slice(bytes);
        }
        let mut waiting = Vec::from_slice(self.alloc, &self.bytes[self.used..])?;
        waiting.extend_from_slice(bytes)?;
        self.bytes = waiting;
        self.used = 0;
        Ok(())
    }

    /// Whether no byte waits.
    fn is_empty(&self) -> bool
        ensures { result ≡ (length self.now.waiting == 0) }
    {
        self.used == self.bytes.len()
    }

    /// Reads the frame at the front.
    fn read(&mut self) -> Framed
        ensures read { (result ≡ framed (read_of self.old)) ⊎ (result ≡ NoMemory) }
        ensures used { IsUsed self.old result self.new }
        ensures fits { FitsFrame result }
    {
        let framed = read_next(self.alloc, &mut self.end, &mut self.bytes[self.used..]);
        self.used += framed.count();
        framed
    }

    /// The message of the first frame that ends one.
    pub(crate) fn next(&mut self) -> WsNext
        ensures next { IsFound (found_in self.old) result self.new }
        ensures fits { MayBePushed result }
    {
        while !self.is_empty() {
            match self.read() {
                Framed::Part(_) => {}
                Framed::Whole(_, message) => return WsNext::Message(message),
                Framed::NotWhole => return WsNext::NotWhole,
                Framed::Bad => return WsNext::Bad,
                Framed::NoMemory => return WsNext::NoMemory,
            }
        }
        WsNext::NotWhole
    }
}
