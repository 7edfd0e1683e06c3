ghost use Rattle.std.specs.Prelude.{◌≡◌, ◌++◌, IfOk, codes};

use gp_plain::{Body, ItemId, Name};
use std::alloc::{AllocError, Global};

/// The value of a `grip-last` field: the last item of a channel that was sent, as `CHANNEL; last-id=ID`.
pub fn write_last(alloc: Global, channel: &Name, id: &ItemId) -> Result<Body, AllocError>
    ensures { IfOk result (λ text. text ≡ channel.now ++ codes "; last-id=" ++ id.now) }
{
    let mut text = Vec::from_slice(alloc, channel.bytes())?;
    text.extend_from_slice(b"; last-id=")?;
    text.extend_from_slice(id.bytes())?;
    Ok(Body::from_vec(text))
}
