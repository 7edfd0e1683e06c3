//! What a client sends while its answer is held open.
ghost use Rattle.std.specs.Prelude.{◌<◌};
ghost use Rattle.gp_session.specs.Hearing.{HearsOnce, HearsTo, Listens};

use crate::wire::Wire;
use gp_outside::{Got, Link};

/// How many bytes are read at once.
const READ: usize = 8192;

/// How many bytes are read in one poll at most.
const MOST: usize = 1_048_576;

/// Why no more was read.
#[derive(Clone, Copy, Drop, Debug, PartialEq)]
pub enum Heard {
    /// The client has sent no more.
    NotReady,
    /// 1,048,576 bytes were read, which is as much as is read in one poll.
    Much,
    /// The client's input ended, or the link failed.
    Gone,
}

/// What one read gave.
#[derive(Clone, Copy, Drop)]
pub(crate) enum Once {
    /// So many bytes.
    Bytes(usize),
    /// Nothing yet.
    NotReady,
    /// The end of the input, or a fault.
    Gone,
}

/// Reads so many bytes at most, and drops them.
fn hear_once<L: Link>(link: &mut L, most: usize) -> Once
    requires { 0 < most }
    ensures { HearsOnce (L.tells link.old) (L.tells link.new) most result }
{
    let mut buffer = [0; READ];
    let room = if most < READ { most } else { READ };
    match link.read(&mut buffer[..room]) {
        Got::Took(count) => Once::Bytes(count),
        Got::NotReady => Once::NotReady,
        Got::End => Once::Gone,
        Got::Failed => Once::Gone,
    }
}

/// Reads what has come, and drops it.
fn hear<L: Link>(link: &mut L) -> Heard
    ensures { HearsTo (L.tells link.old) (L.tells link.new) result }
{
    let mut left = MOST;
    while left > 0 {
        match hear_once(link, left) {
            Once::Bytes(count) => left -= count,
            Once::NotReady => return Heard::NotReady,
            Once::Gone => return Heard::Gone,
        }
    }
    Heard::Much
}

impl<L: Link> Wire<L> {
    /// Reads what the client sends, and drops it: 1,048,576 bytes at most. It takes no memory.
    pub fn hear(&mut self) -> Heard
        ensures { Listens self.old self.new result }
    {
        hear(&mut self.link)
    }
}
