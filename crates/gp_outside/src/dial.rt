ghost use Rattle.std.specs.Prelude.{◌≡◌, ◌<◌, length};

use crate::link::{Got, Put};
use gp_plain::Address;

/// What a connect did.
#[derive(Clone, Copy, Drop, Debug, PartialEq)]
pub enum Connected {
    /// The talk can go on.
    Done,
    /// The other side hasn't answered yet.
    NotReady,
    /// A fault came, and the talk is over.
    Failed,
}

/// What calls origins, in one talk after another. A talk begins at its first `connect`, and at the first one after a
/// `hang_up` or a failed connect. It counts its faults, the waits of each kind of call, and the ends of its input. No
/// count falls, and each stands still at 2^64 - 1.
pub trait Dial: Drop {
    ghost use Rattle.gp_outside.specs.Dials.{DialTells, IsConnect, IsDialRead, IsDialWrite, after_hang_up};

    ghost tells: { Self → DialTells };

    /// Begins the next talk, or goes on with the present one.
    fn connect(&mut self, to: &Address) -> Connected
        ensures { IsConnect (tells self.old) (tells self.new) to.now result };

    /// Reads into the front of a slice that isn't empty.
    fn read(&mut self, into: &mut [u8]) -> Got
        requires { 0 < length into.old }
        ensures { IsDialRead (tells self.old) (tells self.new) into.new result };

    /// Writes the first of some bytes, at least one.
    fn write(&mut self, from: &[u8]) -> Put
        requires { 0 < length from.now }
        ensures { IsDialWrite (tells self.old) (tells self.new) from.now result };

    /// Ends the present talk.
    fn hang_up(&mut self)
        ensures { tells self.new ≡ after_hang_up (tells self.old) };
}
