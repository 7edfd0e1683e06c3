ghost use Rattle.std.specs.Prelude.{◌≡◌, ◌∷◌, [], IfOk, codes, option_map};
ghost use Rattle.std.specs.Fmt.{decimal};
ghost use Rattle.gp_script.specs.Spelling.{joined, word};
ghost use Rattle.gp_script.specs.Lines.{answer_words, again_word, hangup_words, item_line, item_words, line_of, link_word, push_words, spec_words, then_word, words_of};

use crate::line::Line;
use gp_plain::{
    Body, Event, HoldSpec, Item, ItemId, Message, MessagePart, Name, ResponsePart, StreamPart, Then,
};
use std::alloc::{AllocError, Global};

fn link_word(link: bool) -> &'static str
    ensures { result.now ≡ link_word link }
{
    if link { "link" } else { "nolink" }
}

fn again_word(again: bool) -> &'static str
    ensures { result.now ≡ again_word again }
{
    if again { "again" } else { "first" }
}

fn then_word(then: Then) -> &'static str
    ensures { result.now ≡ then_word then }
{
    match then {
        Then::Hold => "hold",
        Then::Next => "next",
        Then::End => "end",
    }
}

fn spec_line(alloc: Global, spec: &HoldSpec) -> Result<Line, AllocError>
    ensures { IfOk result (λ line. line ≡ joined (spec_words spec.now)) }
{
    let line = Line::new(alloc, "attach")?;
    match spec {
        HoldSpec::Stream {
            opening,
            channel,
            prev,
            link,
        } => line
            .word("stream")?
            .bytes(channel.bytes())?
            .bytes(prev.bytes())?
            .word(link_word(*link))?
            .bytes(opening.bytes()),
        HoldSpec::Plain { opening, channels } => line
            .word("plain")?
            .names(channels.as_slice())?
            .bytes(opening.bytes()),
        HoldSpec::Response {
            channels,
            prev,
            deadline,
            again,
        } => line
            .word("response")?
            .names(channels.as_slice())?
            .id(prev.as_ref())?
            .number(*deadline)?
            .word(again_word(*again)),
        HoldSpec::Socket => line.word("socket"),
    }
}

/// The line of what is published, up to the previous id.
fn item_line(alloc: Global, lead: &str, item: &Item) -> Result<Line, AllocError>
    ensures { IfOk result (λ line. line ≡ joined (item_line lead.now item.now [])) }
{
    Line::new(alloc, lead)?
        .bytes(item.channel.bytes())?
        .id(item.id.as_ref())?
        .id(item.prev.as_ref())
}

/// Where an answer has no reason and no fields.
fn answer_line(alloc: Global, item: &Item, part: &ResponsePart) -> Result<Option<Line>, AllocError>
    ensures { IfOk result (λ line. line ≡ option_map joined (answer_words item.now part.now)) }
{
    if part.reason.len() > 0 || part.fields.len() > 0 {
        return Ok(None);
    }
    let line = item_line(alloc, "answer", item)?
        .number(part.code as u64)?
        .bytes(part.body.bytes())?;
    Ok(Some(line))
}

fn message_line(alloc: Global, item: &Item, form: &str, bytes: &Body) -> Result<Line, AllocError>
    ensures { IfOk result (λ line. line ≡ joined (item_line (codes "message") item.now (form.now ∷ word bytes.now ∷ []))) }
{
    item_line(alloc, "message", item)?
        .word(form)?
        .bytes(bytes.bytes())
}

fn publish_line(alloc: Global, item: &Item) -> Result<Option<Line>, AllocError>
    ensures { IfOk result (λ line. line ≡ option_map joined (item_words item.now)) }
{
    let line = match (&item.response, &item.stream, &item.message) {
        (None, None, None) => item_line(alloc, "bare", item)?,
        (None, Some(StreamPart::Content(bytes)), None) => {
            item_line(alloc, "publish", item)?.bytes(bytes.bytes())?
        }
        (None, Some(StreamPart::Close), None) => item_line(alloc, "close", item)?,
        (Some(part), None, None) => return answer_line(alloc, item, part),
        (None, None, Some(MessagePart::Text(bytes))) => message_line(alloc, item, "text", bytes)?,
        (None, None, Some(MessagePart::Binary(bytes))) => {
            message_line(alloc, item, "binary", bytes)?
        }
        _ => return Ok(None),
    };
    Ok(Some(line))
}

/// Where a close has a code of 1000 to 4999 and no reason.
fn hangup_line(
    alloc: Global,
    hold: u64,
    code: Option<u16>,
    reason: &Body,
) -> Result<Option<Line>, AllocError>
    ensures { IfOk result (λ line. line ≡ option_map joined (hangup_words hold code reason.now)) }
{
    match code {
        Some(code) if 1000 <= code && code <= 4999 && reason.len() == 0 => {
            let line = Line::new(alloc, "hangup")?
                .number(hold)?
                .number(code as u64)?;
            Ok(Some(line))
        }
        _ => Ok(None),
    }
}

fn push_line(alloc: Global, hold: u64, message: &Message) -> Result<Option<Line>, AllocError>
    ensures { IfOk result (λ line. line ≡ option_map joined (push_words hold message.now)) }
{
    let (form, bytes) = match message {
        Message::Text(bytes) => ("text", bytes),
        Message::Binary(bytes) => ("binary", bytes),
        Message::Ping(bytes) => ("ping", bytes),
        Message::Pong(bytes) => ("pong", bytes),
        Message::Close { code, reason } => return hangup_line(alloc, hold, *code, reason),
    };
    let line = Line::new(alloc, "push")?
        .number(hold)?
        .word(form)?
        .bytes(bytes.bytes())?;
    Ok(Some(line))
}

fn page_line(
    alloc: Global,
    hold: u64,
    from: &ItemId,
    to: &ItemId,
    bytes: &Body,
    then: Then,
) -> Result<Line, AllocError>
    ensures { IfOk result (λ line. line ≡ joined (codes "page" ∷ decimal hold ∷ word from.now ∷ word to.now ∷ then_word then ∷ word bytes.now ∷ [])) }
{
    Line::new(alloc, "page")?
        .number(hold)?
        .bytes(from.bytes())?
        .bytes(to.bytes())?
        .word(then_word(then))?
        .bytes(bytes.bytes())
}

/// A line of a lead, a hold's number and a channel.
fn member_line(alloc: Global, lead: &str, hold: u64, channel: &Name) -> Result<Line, AllocError>
    ensures { IfOk result (λ line. line ≡ joined (lead.now ∷ decimal hold ∷ word channel.now ∷ [])) }
{
    Line::new(alloc, lead)?.number(hold)?.bytes(channel.bytes())
}

fn event_line(alloc: Global, event: &Event) -> Result<Option<Line>, AllocError>
    ensures { IfOk result (λ line. line ≡ option_map joined (words_of event.now)) }
{
    let line = match event {
        Event::Attach { spec } => spec_line(alloc, spec)?,
        Event::Publish { item } => return publish_line(alloc, item),
        Event::Take { hold, now } => Line::new(alloc, "take")?.number(*hold)?.number(*now)?,
        Event::Page {
            hold,
            from,
            to,
            bytes,
            then,
        } => page_line(alloc, *hold, from, to, bytes, *then)?,
        Event::PageFailed { hold } => Line::new(alloc, "failed")?.number(*hold)?,
        Event::Push { hold, message } => return push_line(alloc, *hold, message),
        Event::Join { hold, channel } => member_line(alloc, "join", *hold, channel)?,
        Event::Leave { hold, channel } => member_line(alloc, "leave", *hold, channel)?,
        Event::Detach { hold } => Line::new(alloc, "detach")?.number(*hold)?,
    };
    Ok(Some(line))
}

/// The one line that spells an event, without its line feed. None is given exactly for an event that has no line:
/// one that isn't within the limits, an item of two parts or more, an answer with a reason or fields, a close to the
/// sockets of a channel, and a push of a close with a reason or without a code of 1000 to 4999.
pub fn write_line(alloc: Global, event: &Event) -> Result<Option<Body>, AllocError>
    ensures { IfOk result (λ line. line ≡ line_of event.now) }
{
    if !event.fits() {
        return Ok(None);
    }
    match event_line(alloc, event)? {
        Some(line) => Ok(Some(line.into_body())),
        None => Ok(None),
    }
}
