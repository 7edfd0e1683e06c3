ghost use Rattle.std.specs.Prelude.{◌≡◌, ◌≤◌, ◌<◌, MatchResult, Ok, option_map, length};
ghost use Rattle.serde_json.specs.View.{view};
ghost use Rattle.gp_items.specs.Faults.{IsItemFaultOf};
ghost use Rattle.gp_items.specs.Formats.{formats_of, format_in as the_format_in, response_in, action_from as the_action_from, content_in, sending_in, stream_in, message_in};

use crate::fault::ItemFault;
use gp_json::{Payload, object_member, payload_member, read_response, text_member, wrong_form};
use gp_plain::{MessagePart, ResponsePart, StreamPart};
use serde_json::Value;
use std::alloc::Global;

/// A content of one format has at most so many bytes.
const MAX_CONTENT: usize = 65_536;

/// What a format is to do.
pub(crate) enum Action {
    Send,
    End,
    /// An action that is not known: the format counts for nothing.
    Other,
}

/// What a format gives.
#[derive(Drop)]
pub(crate) enum Sending {
    Content(Payload),
    Close,
}

/// The object of all formats of an item, where it has one.
#[tactic(auto, unfolding(crate::specs::Formats::formats_of))]
pub(crate) fn read_formats(alloc: Global, item: &Value) -> Result<Option<&Value>, ItemFault>
    ensures { MatchResult result
        (λ formats. formats_of (view item.now) ≡ Ok (option_map (λ v. view v.now) formats))
        (IsItemFaultOf (formats_of (view item.now))) }
{
    Ok(object_member(alloc, item, "formats")?)
}

/// The object of one format, where it is there.
fn format_in<'v>(
    alloc: Global,
    formats: Option<&'v Value>,
    name: &str,
) -> Result<Option<&'v Value>, ItemFault>
    ensures { MatchResult result
        (λ format. the_format_in name.now (option_map (λ v. view v.now) formats.entry) ≡ Ok (option_map (λ v. view v.now) format))
        (IsItemFaultOf (the_format_in name.now (option_map (λ v. view v.now) formats.entry))) }
{
    match formats {
        Some(formats) => Ok(object_member(alloc, formats, name)?),
        None => Ok(None),
    }
}

/// Refuses what has too many bytes.
fn limit(bytes: usize) -> Result<(), ItemFault>
    ensures { MatchResult result
        (λ _. bytes ≤ MAX_CONTENT)
        (λ fault. (MAX_CONTENT < bytes) × (fault ≡ ItemFault.Long bytes)) }
{
    if bytes > MAX_CONTENT {
        return Err(ItemFault::Long(bytes as u64));
    }
    Ok(())
}

/// The format `http-response`.
#[tactic(auto, unfolding(crate::specs::Formats::response_in))]
pub(crate) fn read_response_part(
    alloc: Global,
    formats: Option<&Value>,
) -> Result<Option<ResponsePart>, ItemFault>
    ensures { MatchResult result
        (λ part. response_in (option_map (λ v. view v.now) formats.entry) ≡ Ok part)
        (IsItemFaultOf (response_in (option_map (λ v. view v.now) formats.entry))) }
{
    match format_in(alloc, formats, "http-response")? {
        Some(form) => {
            let part = read_response(alloc, form)?;
            limit(part.body.len())?;
            Ok(Some(part))
        }
        None => Ok(None),
    }
}

/// The format `http-stream`.
#[tactic(auto, unfolding(crate::specs::Formats::stream_in))]
pub(crate) fn read_stream_part(
    alloc: Global,
    formats: Option<&Value>,
) -> Result<Option<StreamPart>, ItemFault>
    ensures { MatchResult result
        (λ part. stream_in (option_map (λ v. view v.now) formats.entry) ≡ Ok part)
        (IsItemFaultOf (stream_in (option_map (λ v. view v.now) formats.entry))) }
{
    match read_sending(alloc, formats, "http-stream")? {
        Some(Sending::Content(content)) => Ok(Some(StreamPart::Content(content.into_body()))),
        Some(Sending::Close) => Ok(Some(StreamPart::Close)),
        None => Ok(None),
    }
}

/// The format `ws-message`.
#[tactic(auto, unfolding(crate::specs::Formats::message_in))]
pub(crate) fn read_message_part(
    alloc: Global,
    formats: Option<&Value>,
) -> Result<Option<MessagePart>, ItemFault>
    ensures { MatchResult result
        (λ part. message_in (option_map (λ v. view v.now) formats.entry) ≡ Ok part)
        (IsItemFaultOf (message_in (option_map (λ v. view v.now) formats.entry))) }
{
    match read_sending(alloc, formats, "ws-message")? {
        Some(Sending::Content(Payload::Text(bytes))) => Ok(Some(MessagePart::Text(bytes))),
        Some(Sending::Content(Payload::Binary(bytes))) => Ok(Some(MessagePart::Binary(bytes))),
        Some(Sending::Close) => Ok(Some(MessagePart::Close)),
        None => Ok(None),
    }
}

/// What a format with an action gives.
#[tactic(auto, unfolding(crate::specs::Formats::sending_in))]
fn read_sending(
    alloc: Global,
    formats: Option<&Value>,
    name: &str,
) -> Result<Option<Sending>, ItemFault>
    ensures { MatchResult result
        (λ sending. sending_in name.now (option_map (λ v. view v.now) formats.entry) ≡ Ok sending)
        (IsItemFaultOf (sending_in name.now (option_map (λ v. view v.now) formats.entry))) }
{
    match format_in(alloc, formats, name)? {
        Some(form) => {
            let action = text_member(alloc, form, "action")?;
            match action_from(action) {
                Action::Send => Ok(Some(Sending::Content(read_content(alloc, form)?))),
                Action::End => Ok(Some(Sending::Close)),
                Action::Other => Ok(None),
            }
        }
        None => Ok(None),
    }
}

/// The action that a text names; none is `send`.
fn action_from(text: Option<&str>) -> Action
    ensures { result ≡ the_action_from (option_map (λ s. s.now) text.entry) }
{
    match text {
        Some(text) => if text == "send" {
            Action::Send
        } else if text == "close" {
            Action::End
        } else {
            Action::Other
        },
        None => Action::Send,
    }
}

/// The content of a format, which must be there and within the limit.
#[tactic(auto, unfolding(crate::specs::Formats::content_in))]
fn read_content(alloc: Global, form: &Value) -> Result<Payload, ItemFault>
    ensures { MatchResult result
        (λ content. content_in (view form.now) ≡ Ok content)
        (IsItemFaultOf (content_in (view form.now))) }
{
    match payload_member(alloc, form, "content", "content-bin")? {
        Some(content) => {
            limit(content.len())?;
            Ok(content)
        }
        None => Err(ItemFault::from(wrong_form(alloc, "content"))),
    }
}
