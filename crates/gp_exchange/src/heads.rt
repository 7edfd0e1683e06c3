ghost use Rattle.std.specs.Prelude.{◌≡◌, ◌≤◌, [], OnOk, drop, length};
ghost use Rattle.gp_head.specs.Heads.{IsRead, IsResponseText};
ghost use Rattle.gp_exchange.specs.Hearing.{HearsHead};
ghost use Rattle.gp_outside.specs.Dials.{DialLater};

use gp_head::{HeadRead, HeadScan};
use gp_outside::{Dial, Got};
use gp_plain::Response;
use std::alloc::{AllocError, Global};
use std::marker::Model;

/// The most bytes of one read.
pub(crate) const READ: usize = 8192;

/// What a read came to.
#[derive(Clone, Copy, Drop)]
pub(crate) enum Came {
    /// Bytes came.
    Bytes,
    /// The dialer isn't ready.
    NotReady,
    /// The input has ended.
    End,
    /// The dialer failed.
    Failed,
    /// There is no memory for the bytes that came.
    NoMemory,
}

/// Bytes of which heads are read, each byte looked at once. Contracts see the bytes.
#[derive(Drop)]
pub(crate) struct HeadBytes {
    scan: HeadScan,
    bytes: Vec<u8>,
}

impl Model for HeadBytes {
    ghost use Rattle.std.specs.Prelude.{List, ℕ};
    ghost use Rattle.gp_head.specs.Scans.{HasSeen};

    ghost Value = { List ℕ };

    ghost view = { λ h. h.bytes.items };

    ghost invariant = { λ h. HasSeen h.scan h.bytes.items };
}

impl HeadBytes {
    pub(crate) fn new(alloc: Global) -> HeadBytes
        ensures { result ≡ [] }
    {
        HeadBytes {
            scan: HeadScan::new(),
            bytes: Vec::new(alloc),
        }
    }

    /// Reads once, and adds what came. The array of a read stands in this frame alone.
    #[inline(never)]
    pub(crate) fn receive<D: Dial>(&mut self, dial: &mut D) -> Came
        ensures later { DialLater (D.tells dial.old) (D.tells dial.new) }
        ensures heard { HearsHead (D.tells dial.old) (D.tells dial.new) self.old self.new result }
    {
        let mut buffer = [0; READ];
        match dial.read(&mut buffer) {
            Got::Took(count) => match self.bytes.extend_from_slice(&buffer[..count]) {
                Ok(()) => Came::Bytes,
                Err(_) => Came::NoMemory,
            },
            Got::NotReady => Came::NotReady,
            Got::End => Came::End,
            Got::Failed => Came::Failed,
        }
    }

    /// Reads the head at the front.
    pub(crate) fn read(&mut self, alloc: Global) -> HeadRead<Response>
        ensures read { IsRead IsResponseText self.old result }
        ensures same { self.new ≡ self.old }
    {
        self.scan.read_response(alloc, self.bytes.as_slice())
    }

    /// Drops the first bytes.
    pub(crate) fn cut(&mut self, alloc: Global, count: usize) -> Result<(), AllocError>
        requires { count ≤ length self.old }
        ensures { OnOk result (self.new ≡ drop count self.old) }
    {
        self.bytes = Vec::from_slice(alloc, &self.bytes[count..])?;
        self.scan = HeadScan::new();
        Ok(())
    }

    /// The bytes from a place on.
    pub(crate) fn from(&self, count: usize) -> &[u8]
        requires { count ≤ length self.now }
        ensures { result.now ≡ drop count self.now }
    {
        &self.bytes[count..]
    }
}
