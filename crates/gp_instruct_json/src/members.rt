ghost use Rattle.std.specs.Prelude.{◌≡◌, MatchResult, Ok, map, option_map};
ghost use Rattle.std.specs.List.{list_all};
ghost use Rattle.serde_json.specs.View.{view};
ghost use Rattle.gp_json.specs.Members.{IsFaultOf};
ghost use Rattle.gp_instruct_json.specs.Members.{entries_read, has_name, has_prev_form, held_by, hold_if, hold_read, is_entry, members_read, name_in, part_if, prev_in, text_in};

use gp_json::{
    MemberFault, Whole, array_member, member, needed_text, object_member, read_response,
    whole_member, wrong_form,
};
use gp_plain::ResponsePart;
use serde_json::Value;
use std::alloc::Global;

/// The members of a hold, each in its form.
#[derive(Drop)]
pub(crate) struct Held<'v> {
    pub mode: &'v str,
    /// The channels, each an object with a `name` and maybe a `prev-id`.
    pub channels: &'v [Value],
    pub timeout: Option<Whole>,
}

fn text_of<'v>(value: &'v Value, name: &str) -> Option<&'v str>
    ensures { option_map (λ text. text.now) result ≡ text_in name.now (view value.now) }
{
    member(value, name)?.as_str()
}

/// The name of a channel, empty where it has none.
pub(crate) fn name_in(channel: &Value) -> &[u8]
    ensures { result.now ≡ name_in (view channel.now) }
{
    match text_of(channel, "name") {
        Some(name) => name.as_bytes(),
        None => b"",
    }
}

/// The previous id on a channel.
pub(crate) fn prev_in(channel: &Value) -> Option<&[u8]>
    ensures { option_map (λ prev. prev.now) result ≡ prev_in (view channel.now) }
{
    match text_of(channel, "prev-id") {
        Some(prev) => Some(prev.as_bytes()),
        None => None,
    }
}

fn has_name(channel: &Value) -> bool
    ensures { result ≡ has_name (view channel.now) }
{
    text_of(channel, "name").is_some()
}

fn has_prev_form(channel: &Value) -> bool
    ensures { result ≡ has_prev_form (view channel.now) }
{
    match member(channel, "prev-id") {
        Some(prev) => prev.as_str().is_some(),
        None => true,
    }
}

fn are_entries(channels: &[Value]) -> bool
    ensures { result ≡ list_all (λ channel. is_entry (view channel)) channels.now }
{
    channels.iter().all(|channel| channel.is_object())
}

fn have_names(channels: &[Value]) -> bool
    ensures { result ≡ list_all (λ channel. has_name (view channel)) channels.now }
{
    channels.iter().all(|channel| has_name(channel))
}

fn have_prev_forms(channels: &[Value]) -> bool
    ensures { result ≡ list_all (λ channel. has_prev_form (view channel)) channels.now }
{
    channels.iter().all(|channel| has_prev_form(channel))
}

/// The channels of a hold, none where the member is absent.
#[tactic(auto, using(crate::proofs::MemberLemmas::all_view), unfolding(crate::specs::Members::entries_read))]
fn read_channels(alloc: Global, hold: &Value) -> Result<&[Value], MemberFault>
    ensures { MatchResult result
        (λ channels. entries_read (view hold.now) ≡ Ok (map view channels.now))
        (IsFaultOf (entries_read (view hold.now))) }
{
    let Some(channels) = array_member(alloc, hold, "channels")? else {
        return Ok(&[]);
    };
    if !are_entries(channels) {
        return Err(wrong_form(alloc, "channels"));
    }
    if !have_names(channels) {
        return Err(wrong_form(alloc, "name"));
    }
    if !have_prev_forms(channels) {
        return Err(wrong_form(alloc, "prev-id"));
    }
    Ok(channels)
}

#[tactic(auto, unfolding(crate::specs::Members::hold_read))]
fn read_hold(alloc: Global, hold: &Value) -> Result<Held, MemberFault>
    ensures { MatchResult result
        (λ held. hold_read (view hold.now) ≡ Ok (held_by held))
        (IsFaultOf (hold_read (view hold.now))) }
{
    let mode = needed_text(alloc, hold, "mode")?;
    let channels = read_channels(alloc, hold)?;
    let timeout = whole_member(alloc, hold, "timeout")?;
    Ok(Held {
        mode,
        channels,
        timeout,
    })
}

fn read_hold_if(alloc: Global, hold: Option<&Value>) -> Result<Option<Held>, MemberFault>
    ensures { MatchResult result
        (λ held. hold_if (option_map (λ v. view v.now) hold.entry) ≡ Ok (option_map held_by held))
        (IsFaultOf (hold_if (option_map (λ v. view v.now) hold.entry))) }
{
    match hold {
        Some(hold) => Ok(Some(read_hold(alloc, hold)?)),
        None => Ok(None),
    }
}

fn read_part(alloc: Global, response: Option<&Value>) -> Result<ResponsePart, MemberFault>
    ensures { MatchResult result
        (λ part. part_if (option_map (λ v. view v.now) response.entry) ≡ Ok part)
        (IsFaultOf (part_if (option_map (λ v. view v.now) response.entry))) }
{
    match response {
        Some(response) => read_response(alloc, response),
        None => read_response(alloc, &Value::Null),
    }
}

/// The hold and the response of a body. The first member of wrong form is refused, in this order: `hold`, `response`,
/// `mode`, `channels`, `name`, `prev-id`, `timeout`, and then those of the response.
#[tactic(auto, unfolding(crate::specs::Members::members_read))]
pub(crate) fn read_members(
    alloc: Global,
    object: &Value,
) -> Result<(Option<Held>, ResponsePart), MemberFault>
    ensures { MatchResult result
        (λ found. members_read (view object.now) ≡ Ok (option_map held_by found.0, found.1))
        (IsFaultOf (members_read (view object.now))) }
{
    let hold = object_member(alloc, object, "hold")?;
    let response = object_member(alloc, object, "response")?;
    let held = read_hold_if(alloc, hold)?;
    let part = read_part(alloc, response)?;
    Ok((held, part))
}
