ghost use Rattle.std.specs.Prelude.{◌≡◌, MatchResult};
ghost use Rattle.gp_instruct.specs.Texts.{told};
ghost use Rattle.gp_instruct.specs.Taken.{IsLinkOf, IsLinkFault};

use crate::fault::InstructFault;
use crate::scan::find_next;
use crate::target::is_target;
use gp_plain::Body;
use std::alloc::Global;

/// A place as 32 bits tell it.
fn place_told(place: usize) -> u32
    ensures { result ≡ told place }
{
    place.min(u32::MAX as usize) as u32
}

/// The first URI of a list of links whose `rel` is `next`, as it stands between the angle brackets, or nothing where
/// no link has this. The form of the list is `<URI>`, then parameters behind semicolons, then the next link behind a
/// comma (RFC 8288, section 3). `Link` tells the place at which the form can't go on, or the length where the value
/// ends too soon; else, where the URI is neither a path that begins with `/` nor an absolute URI, its own place.
pub fn read_link(alloc: Global, value: &[u8]) -> Result<Option<Body>, InstructFault>
    ensures { MatchResult result (IsLinkOf value.now) (IsLinkFault value.now) }
{
    let span = match find_next(value) {
        Ok(Some(span)) => span,
        Ok(None) => return Ok(None),
        Err(place) => return Err(InstructFault::Link(place_told(place))),
    };
    let uri = span.of(value);
    if !is_target(alloc, uri)? {
        return Err(InstructFault::Link(place_told(span.from)));
    }
    Ok(Some(Body::new(alloc, uri)?))
}
