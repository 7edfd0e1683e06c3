ghost use Rattle.std.specs.Prelude.{◌≡◌, [], MatchResult, codes};
ghost use Rattle.gp_instruct.specs.Asked.{asked};
ghost use Rattle.gp_instruct.specs.Channels.{AreAdded, IsChannelsFault};
ghost use Rattle.gp_instruct.specs.Fields.{values};
ghost use Rattle.gp_instruct.specs.Texts.{told};
ghost use Rattle.gp_instruct.specs.Holds.{count_read, has_prev, mode_named, mode_read, status_read, timeout_read};

use crate::channels::Channels;
use crate::fault::InstructFault;
use crate::field::next_value;
use crate::instruct::{Mode, Sub, Subs};
use crate::number::{seconds, status};
use crate::part::add_parts;
use gp_plain::Field;
use std::alloc::Global;

/// How many channels a response may name.
const MAX_CHANNELS: usize = 8;

/// How long a response hold waits for its item, in seconds, where the origin doesn't say.
pub const DEFAULT_TIMEOUT: u32 = 55;

impl Mode {
    /// The mode of a name, `response` or `stream`.
    pub fn named(name: &[u8]) -> Option<Mode>
        ensures { result ≡ mode_named name.now }
    {
        if name == b"response".as_slice() {
            Some(Mode::Response)
        } else if name == b"stream".as_slice() {
            Some(Mode::Stream)
        } else {
            None
        }
    }
}

/// The hold, where there is one: its field stands once.
pub(crate) fn read_mode(fields: &[Field]) -> Result<Option<Mode>, InstructFault>
    ensures { result ≡ mode_read (values (codes "grip-hold") fields.now) }
{
    let Some((name, rest)) = next_value(fields, b"grip-hold") else {
        return Ok(None);
    };
    if next_value(rest, b"grip-hold").is_some() {
        return Err(InstructFault::Mode);
    }
    match Mode::named(name) {
        Some(mode) => Ok(Some(mode)),
        None => Err(InstructFault::Mode),
    }
}

/// The channels that all fields ask for.
pub(crate) fn read_channels(alloc: Global, fields: &[Field]) -> Result<Subs, InstructFault>
    ensures { MatchResult result (AreAdded [] (asked fields.now)) (IsChannelsFault (asked fields.now)) }
{
    let mut channels = Channels::new(alloc);
    let mut rest = fields;
    while let Some((value, more)) = next_value(rest, b"grip-channel") {
        channels = add_parts(alloc, channels, value)?;
        rest = more;
    }
    Ok(channels.into_subs())
}

fn has_prev(subs: &[Sub]) -> bool
    ensures { result ≡ has_prev subs.now }
{
    subs.iter().any(|sub| sub.prev.is_some())
}

/// A count as 32 bits tell it.
fn count_told(count: usize) -> u32
    ensures { result ≡ told count }
{
    count.min(u32::MAX as usize) as u32
}

/// Refuses a hold without a channel, more than 8 channels, and a hold with several channels one of which has a
/// previous id, in this order.
pub fn check_channels(mode: Option<Mode>, subs: &Subs) -> Result<(), InstructFault>
    ensures { result ≡ count_read mode subs.now }
{
    let count = subs.len();
    if mode.is_some() && count == 0 {
        return Err(InstructFault::NoChannel);
    }
    if count > MAX_CHANNELS {
        return Err(InstructFault::TooMany(count_told(count)));
    }
    if mode.is_some() && count > 1 && has_prev(subs.as_slice()) {
        return Err(InstructFault::Reliable(count_told(count)));
    }
    Ok(())
}

/// The timeout of the first field that gives one.
pub(crate) fn read_timeout(fields: &[Field]) -> Result<u32, InstructFault>
    ensures { result ≡ timeout_read (values (codes "grip-timeout") fields.now) }
{
    match next_value(fields, b"grip-timeout") {
        Some((text, _)) => seconds(text).ok_or(InstructFault::Timeout),
        None => Ok(DEFAULT_TIMEOUT),
    }
}

/// The status of the first field that gives one.
pub(crate) fn read_status(fields: &[Field]) -> Result<Option<u16>, InstructFault>
    ensures { result ≡ status_read (values (codes "grip-status") fields.now) }
{
    let Some((text, _)) = next_value(fields, b"grip-status") else {
        return Ok(None);
    };
    match status(text) {
        Some(code) => Ok(Some(code)),
        None => Err(InstructFault::Status),
    }
}
