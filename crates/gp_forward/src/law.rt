//! What meets the condition of forwarding, the contract of a call.
ghost use Rattle.gp_forward.specs.Conditions.{ForwardLaw};

use gp_head::head_law;

/// A request that was read, and whose target was split, can be forwarded. So it can with another method, without some of its fields and with
/// fields that can be written, as those of posts of events, or with the path and query of a link. The host of a route, a token, and the last
/// item of a channel are values of fields.
pub fn forward_law()
    ensures { ForwardLaw }
{
    head_law();
}
