ghost use Rattle.std.specs.Prelude.{◌<◌, length};

/// What a read gave.
#[derive(Clone, Copy, Drop, Debug, PartialEq)]
pub enum Got {
    /// So many bytes stand first in the slice that was handed in.
    Took(usize),
    /// The other side sends no more.
    End,
    /// Nothing is there yet.
    NotReady,
    /// A fault came, and nothing was read.
    Failed,
}

/// What a write did.
#[derive(Clone, Copy, Drop, Debug, PartialEq)]
pub enum Put {
    /// So many bytes were sent, the first of those that were handed in.
    Took(usize),
    /// No byte can be sent yet.
    NotReady,
    /// A fault came, and no byte was sent.
    Failed,
}

/// A client's connection. It counts its faults, the waits of each direction, and the ends of its input. No count
/// falls, and each stands still at 2^64 - 1.
pub trait Link: Drop {
    ghost use Rattle.gp_outside.specs.Links.{IsLinkRead, IsLinkWrite, LinkTells};

    ghost tells: { Self → LinkTells };

    /// Reads into the front of a slice that isn't empty.
    fn read(&mut self, into: &mut [u8]) -> Got
        requires { 0 < length into.old }
        ensures { IsLinkRead (tells self.old) (tells self.new) into.new result };

    /// Writes the first of some bytes, at least one.
    fn write(&mut self, from: &[u8]) -> Put
        requires { 0 < length from.now }
        ensures { IsLinkWrite (tells self.old) (tells self.new) from.now result };
}
