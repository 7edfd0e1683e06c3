//! One read of a link.
ghost use Rattle.std.specs.Prelude.{◌≡◌};
ghost use Rattle.gp_intake.specs.Polls.{ReadsMore};

use gp_outside::{Got, Link};

/// How many bytes are read at once.
pub(crate) const READ: usize = 8192;

/// What one read of a link came to.
#[derive(Clone, Copy, Drop)]
pub(crate) enum Came {
    /// Bytes, which were added.
    Bytes,
    /// Nothing yet.
    NotReady,
    /// The end of the input, or a fault.
    Gone,
    /// Bytes for which there is no memory.
    NoMemory,
}

/// Reads once, and adds what came.
pub(crate) fn read_more<L: Link>(bytes: &mut Vec<u8>, link: &mut L) -> Came
    ensures { ReadsMore (L.tells link.old) (L.tells link.new) bytes.old.items bytes.new.items result }
{
    let mut buffer = [0; READ];
    match link.read(&mut buffer) {
        Got::Took(count) => match bytes.extend_from_slice(&buffer[..count]) {
            Ok(()) => Came::Bytes,
            Err(_) => Came::NoMemory,
        },
        Got::NotReady => Came::NotReady,
        Got::End => Came::Gone,
        Got::Failed => Came::Gone,
    }
}
