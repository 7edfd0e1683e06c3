ghost use Rattle.std.specs.Prelude.{◌≡◌, [], MatchResult, map, option_map};
ghost use Rattle.serde_json.specs.View.{view};
ghost use Rattle.gp_instruct.specs.Channels.{AreAdded, IsChannelsFault};
ghost use Rattle.gp_instruct_json.specs.Members.{held_by, sub_in};
ghost use Rattle.gp_instruct_json.specs.Bodies.{AreParts, IsFirstFault, asked_of, mode_of, seconds_of, timeout_of};

use crate::members::{Held, name_in, prev_in};
use gp_instruct::{
    Channels, DEFAULT_TIMEOUT, Instruct, InstructFault, Mode, Subs, check_channels, read_next,
};
use gp_json::Whole;
use gp_plain::{List, Response};
use serde_json::Value;
use std::alloc::Global;

/// The greatest timeout of a hold, in seconds.
const MAX_TIMEOUT: u64 = 999999999;

fn read_mode(held: &Option<Held>) -> Result<Option<Mode>, InstructFault>
    ensures { result ≡ mode_of (option_map held_by held.now) }
{
    let Some(held) = held else {
        return Ok(None);
    };
    match Mode::named(held.mode.as_bytes()) {
        Some(mode) => Ok(Some(mode)),
        None => Err(InstructFault::Mode),
    }
}

/// The channels that objects ask for, each name once.
fn read_channels(alloc: Global, channels: &[Value]) -> Result<Subs, InstructFault>
    ensures { MatchResult result
        (AreAdded [] (map sub_in (map view channels.now)))
        (IsChannelsFault (map sub_in (map view channels.now))) }
{
    let mut added = Channels::new(alloc);
    for channel in channels {
        added = added.with(alloc, name_in(channel), prev_in(channel))?;
    }
    Ok(added.into_subs())
}

fn read_subs(alloc: Global, held: &Option<Held>) -> Result<Subs, InstructFault>
    ensures { MatchResult result
        (AreAdded [] (asked_of (option_map held_by held.now)))
        (IsChannelsFault (asked_of (option_map held_by held.now))) }
{
    match held {
        Some(held) => read_channels(alloc, held.channels),
        None => Ok(List::new(alloc)),
    }
}

fn seconds(timeout: Option<Whole>) -> Result<u32, InstructFault>
    ensures { result ≡ seconds_of timeout }
{
    match timeout {
        None => Ok(DEFAULT_TIMEOUT),
        Some(Whole::Unsigned(seconds)) => if seconds <= MAX_TIMEOUT {
            Ok(seconds as u32)
        } else {
            Err(InstructFault::Timeout)
        },
        Some(Whole::Negative(_)) => Err(InstructFault::Timeout),
    }
}

fn read_timeout(held: &Option<Held>) -> Result<u32, InstructFault>
    ensures { result ≡ timeout_of (option_map held_by held.now) }
{
    match held {
        Some(held) => seconds(held.timeout),
        None => Ok(DEFAULT_TIMEOUT),
    }
}

/// The instruction of a hold's members, with the next link of the head. Without a hold it has no mode and no channel.
pub(crate) fn read_instruct(
    alloc: Global,
    head: &Response,
    held: &Option<Held>,
) -> Result<Instruct, InstructFault>
    ensures { MatchResult result
        (AreParts (option_map held_by held.now) head.now.fields)
        (IsFirstFault (option_map held_by held.now) head.now.fields) }
{
    let mode = read_mode(held)?;
    let subs = read_subs(alloc, held)?;
    check_channels(mode, &subs)?;
    let timeout = read_timeout(held)?;
    let link = read_next(alloc, head)?;
    Ok(Instruct {
        mode,
        subs,
        timeout,
        status: None,
        link,
    })
}
