ghost use Rattle.std.specs.Prelude.{◌≡◌, MatchResult, option_map};
ghost use Rattle.gp_instruct.specs.Asked.{first_prev, part_subs, prev_value, subs_in};
ghost use Rattle.gp_instruct.specs.Channels.{AreAdded, IsChannelsFault};
ghost use Rattle.gp_instruct.specs.Texts.{parts_in};

use crate::channels::Channels;
use crate::fault::InstructFault;
use crate::text::{cut, trimmed};
use std::alloc::Global;

/// The previous id that a parameter gives, if it is `prev-id=ID`.
fn prev_value(parameter: &[u8]) -> Option<&[u8]>
    ensures { option_map (λ prev. prev.now) result ≡ prev_value parameter.now }
{
    let (name, value) = cut(parameter, b'=');
    match value {
        Some(value) if trimmed(name) == b"prev-id".as_slice() => Some(trimmed(value)),
        _ => None,
    }
}

/// The first previous id among parameters, which semicolons part.
fn first_prev(parameters: Option<&[u8]>) -> Option<&[u8]>
    ensures { option_map (λ prev. prev.now) result ≡ first_prev (parts_in 59 (option_map (λ text. text.now) parameters.entry)) }
{
    let mut rest = parameters;
    while let Some(text) = rest {
        let (parameter, more) = cut(text, b';');
        if let Some(prev) = prev_value(parameter) {
            return Some(prev);
        }
        rest = more;
    }
    None
}

/// Adds the channel that a part asks for: a name, then parameters behind semicolons. A part without a byte but blanks
/// asks for none.
fn add_part<'a>(
    alloc: Global,
    channels: Channels<'a>,
    part: &'a [u8],
) -> Result<Channels<'a>, InstructFault>
    ensures { MatchResult result (AreAdded channels.entry (part_subs part.now)) (IsChannelsFault (part_subs part.now)) }
{
    if trimmed(part).is_empty() {
        return Ok(channels);
    }
    let (name, parameters) = cut(part, b';');
    channels.with(alloc, trimmed(name), first_prev(parameters))
}

/// Adds the channels that the value of a field asks for. Commas part them.
pub(crate) fn add_parts<'a>(
    alloc: Global,
    channels: Channels<'a>,
    value: &'a [u8],
) -> Result<Channels<'a>, InstructFault>
    ensures { MatchResult result (AreAdded channels.entry (subs_in value.now)) (IsChannelsFault (subs_in value.now)) }
{
    let mut channels = channels;
    let mut rest = Some(value);
    while let Some(text) = rest {
        let (part, more) = cut(text, b',');
        channels = add_part(alloc, channels, part)?;
        rest = more;
    }
    Ok(channels)
}
