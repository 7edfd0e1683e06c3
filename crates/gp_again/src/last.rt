//! The text by which an origin is told the last item that a client has.
ghost use Rattle.std.specs.Prelude.{◌≡◌, IfOk};
ghost use Rattle.gp_head.specs.Writable.{IsFieldValue};
ghost use Rattle.gp_again.specs.Texts.{last_text};

use gp_exchange::forward_law;
use gp_instruct::write_last;
use gp_plain::{Body, ItemId, Name};
use std::alloc::{AllocError, Global};

/// How an origin is told of the last item that a client has: the value of `grip-last` (GRIP), `CHANNEL; last-id=ID`. It can stand in a field
/// (RFC 9110, section 5.5), and has at most 520 bytes. The only error is want of memory.
pub fn last_text(alloc: Global, channel: &Name, id: &ItemId) -> Result<Body, AllocError>
    ensures is { IfOk result (λ text. text ≡ last_text channel.now id.now) }
    ensures value { IfOk result IsFieldValue }
{
    forward_law();
    let _channel = channel.bytes();
    let _id = id.bytes();
    write_last(alloc, channel, id)
}
