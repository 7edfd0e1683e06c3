ghost use Rattle.std.specs.Prelude.{◌≡◌, IfOk, MatchBool, Some};
ghost use Rattle.gp_plain.specs.declared.event.Event.{Event};
ghost use Rattle.gp_script.specs.Faults.{OnBad};
ghost use Rattle.gp_script.specs.Guess.{answer_of, event_of, head_of, held_of, item_of, message_part_of, page_of, plain_spec_of, push_of, response_spec_of, spec_of, stream_spec_of, sent_of, member_of, then_of, is_item_lead, is_push_lead, word_at};
ghost use Rattle.gp_script.specs.Lines.{IsEvent, IsInGrammar, IsItem, IsMessage, IsMessagePart, IsResponsePart, IsSpec, Spells};

use crate::events::write_line;
use crate::fault::LineFault;
use crate::words::Words;
use gp_plain::{
    Body, Event, HoldSpec, Item, List, Message, MessagePart, ResponsePart, StreamPart, Then,
};
use std::alloc::{AllocError, Global};

fn stream_spec(alloc: Global, words: &Words) -> Result<HoldSpec, LineFault>
    ensures ok { IfOk result (λ spec. spec ≡ stream_spec_of words.now) }
    ensures made { IfOk result IsSpec }
    ensures bad { OnBad result (¬ (IsSpec (stream_spec_of words.now))) }
{
    Ok(HoldSpec::Stream {
        opening: words.body(alloc, 5)?,
        channel: words.name(alloc, 2)?,
        prev: words.id(alloc, 3)?,
        link: words.is(4, b"link"),
    })
}

fn plain_spec(alloc: Global, words: &Words) -> Result<HoldSpec, LineFault>
    ensures ok { IfOk result (λ spec. spec ≡ plain_spec_of words.now) }
    ensures made { IfOk result IsSpec }
    ensures bad { OnBad result (¬ (IsSpec (plain_spec_of words.now))) }
{
    Ok(HoldSpec::Plain {
        opening: words.body(alloc, 3)?,
        channels: words.names(alloc, 2)?,
    })
}

fn response_spec(alloc: Global, words: &Words) -> Result<HoldSpec, LineFault>
    ensures ok { IfOk result (λ spec. spec ≡ response_spec_of words.now) }
    ensures made { IfOk result IsSpec }
    ensures bad { OnBad result (¬ (IsSpec (response_spec_of words.now))) }
{
    Ok(HoldSpec::Response {
        channels: words.names(alloc, 2)?,
        prev: words.some_id(alloc, 3)?,
        deadline: words.number(4),
        again: words.is(5, b"again"),
    })
}

fn spec(alloc: Global, words: &Words) -> Result<HoldSpec, LineFault>
    ensures ok { IfOk result (λ spec. spec ≡ spec_of words.now) }
    ensures made { IfOk result IsSpec }
    ensures bad { OnBad result (¬ (IsSpec (spec_of words.now))) }
{
    if words.is(1, b"stream") {
        stream_spec(alloc, words)
    } else if words.is(1, b"plain") {
        plain_spec(alloc, words)
    } else if words.is(1, b"response") {
        response_spec(alloc, words)
    } else {
        Ok(HoldSpec::Socket)
    }
}

fn answer(alloc: Global, words: &Words) -> Result<ResponsePart, AllocError>
    ensures ok { IfOk result (λ part. part ≡ answer_of words.now) }
    ensures made { IfOk result (λ part. IsResponsePart (Some part)) }
{
    Ok(ResponsePart {
        code: words.code(4),
        reason: Body::from_vec(Vec::new(alloc)),
        fields: List::new(alloc),
        body: words.body(alloc, 5)?,
    })
}

fn message_part(alloc: Global, words: &Words) -> Result<MessagePart, AllocError>
    ensures ok { IfOk result (λ part. part ≡ message_part_of words.now) }
    ensures made { IfOk result (λ part. IsMessagePart (Some part)) }
{
    let bytes = words.body(alloc, 5)?;
    if words.is(4, b"text") {
        Ok(MessagePart::Text(bytes))
    } else {
        Ok(MessagePart::Binary(bytes))
    }
}

/// What the line of an item begins with, as an item without a part.
fn head(alloc: Global, words: &Words) -> Result<Item, LineFault>
    ensures ok { IfOk result (λ item. item ≡ head_of words.now) }
    ensures made { IfOk result IsItem }
    ensures bad { OnBad result (¬ (IsItem (head_of words.now))) }
{
    Ok(Item {
        channel: words.name(alloc, 1)?,
        id: words.some_id(alloc, 2)?,
        prev: words.some_id(alloc, 3)?,
        response: None,
        stream: None,
        message: None,
    })
}

fn push(alloc: Global, words: &Words) -> Result<Message, AllocError>
    ensures ok { IfOk result (λ message. message ≡ push_of words.now) }
    ensures made { IfOk result IsMessage }
{
    let bytes = words.body(alloc, 3)?;
    if words.is(2, b"text") {
        Ok(Message::Text(bytes))
    } else if words.is(2, b"binary") {
        Ok(Message::Binary(bytes))
    } else if words.is(2, b"ping") {
        Ok(Message::Ping(bytes))
    } else {
        Ok(Message::Pong(bytes))
    }
}

fn then(words: &Words, place: usize) -> Then
    ensures { result ≡ then_of (word_at words.now place) }
{
    if words.is(place, b"hold") {
        Then::Hold
    } else if words.is(place, b"next") {
        Then::Next
    } else {
        Then::End
    }
}

fn page(alloc: Global, words: &Words) -> Result<Event, LineFault>
    ensures ok { IfOk result (λ event. event ≡ page_of words.now) }
    ensures made { IfOk result IsEvent }
    ensures bad { OnBad result (¬ (IsEvent (page_of words.now))) }
{
    Ok(Event::Page {
        hold: words.number(1),
        from: words.id(alloc, 2)?,
        to: words.id(alloc, 3)?,
        bytes: words.body(alloc, 5)?,
        then: then(words, 4),
    })
}

fn item(alloc: Global, words: &Words) -> Result<Item, LineFault>
    ensures ok { IfOk result (λ item. item ≡ item_of words.now) }
    ensures made { IfOk result IsItem }
    ensures bad { OnBad result (¬ (IsItem (item_of words.now))) }
{
    let item = head(alloc, words)?;
    if words.is(0, b"publish") {
        let content = StreamPart::Content(words.body(alloc, 4)?);
        Ok(Item {
            stream: Some(content),
            ..item
        })
    } else if words.is(0, b"close") {
        Ok(Item {
            stream: Some(StreamPart::Close),
            ..item
        })
    } else if words.is(0, b"answer") {
        let part = answer(alloc, words)?;
        Ok(Item {
            response: Some(part),
            ..item
        })
    } else if words.is(0, b"message") {
        let part = message_part(alloc, words)?;
        Ok(Item {
            message: Some(part),
            ..item
        })
    } else {
        Ok(item)
    }
}

fn sent(alloc: Global, words: &Words) -> Result<Message, AllocError>
    ensures ok { IfOk result (λ message. message ≡ sent_of words.now) }
    ensures made { IfOk result IsMessage }
{
    if words.is(0, b"push") {
        return push(alloc, words);
    }
    Ok(Message::Close {
        code: Some(words.code(2)),
        reason: Body::from_vec(Vec::new(alloc)),
    })
}

/// A join, or else a leave: a line of no kind is taken for a leave, and isn't spelled like one.
fn member(alloc: Global, words: &Words) -> Result<Event, LineFault>
    ensures ok { IfOk result (λ event. event ≡ member_of words.now) }
    ensures made { IfOk result IsEvent }
    ensures bad { OnBad result (¬ (IsEvent (member_of words.now))) }
{
    let hold = words.number(1);
    let channel = words.name(alloc, 2)?;
    if words.is(0, b"join") {
        Ok(Event::Join { hold, channel })
    } else {
        Ok(Event::Leave { hold, channel })
    }
}

fn held(alloc: Global, words: &Words) -> Result<Event, LineFault>
    ensures ok { IfOk result (λ event. event ≡ held_of words.now) }
    ensures made { IfOk result IsEvent }
    ensures bad { OnBad result (¬ (IsEvent (held_of words.now))) }
{
    let hold = words.number(1);
    if words.is(0, b"take") {
        Ok(Event::Take {
            hold,
            now: words.number(2),
        })
    } else if words.is(0, b"detach") {
        Ok(Event::Detach { hold })
    } else if words.is(0, b"failed") {
        Ok(Event::PageFailed { hold })
    } else if words.is(0, b"page") {
        page(alloc, words)
    } else {
        member(alloc, words)
    }
}

fn is_item_lead(words: &Words) -> bool
    ensures { result ≡ is_item_lead (word_at words.now 0) }
{
    words.is(0, b"publish")
        || words.is(0, b"close")
        || words.is(0, b"answer")
        || words.is(0, b"message")
        || words.is(0, b"bare")
}

fn is_push_lead(words: &Words) -> bool
    ensures { result ≡ is_push_lead (word_at words.now 0) }
{
    words.is(0, b"push") || words.is(0, b"hangup")
}

/// The event that a line spells, if it spells one, by its first word. Words too many and second spellings don't show
/// here, but where the line is compared with that of the event.
fn event(alloc: Global, words: &Words) -> Result<Event, LineFault>
    ensures ok { IfOk result (λ event. event ≡ event_of words.now) }
    ensures made { IfOk result IsEvent }
    ensures bad { OnBad result (¬ (IsEvent (event_of words.now))) }
{
    if words.is(0, b"attach") {
        Ok(Event::Attach {
            spec: spec(alloc, words)?,
        })
    } else if is_item_lead(words) {
        Ok(Event::Publish {
            item: item(alloc, words)?,
        })
    } else if is_push_lead(words) {
        Ok(Event::Push {
            hold: words.number(1),
            message: sent(alloc, words)?,
        })
    } else {
        held(alloc, words)
    }
}

/// Whether an event fits, and the line is its one spelling.
fn spells(alloc: Global, line: &[u8], event: &Event) -> Result<bool, AllocError>
    ensures { IfOk result (λ yes. MatchBool yes (Spells line.now event.now) (¬ (Spells line.now event.now))) }
{
    if !event.fits() {
        return Ok(false);
    }
    match write_line(alloc, event)? {
        Some(text) => Ok(text.bytes() == line),
        None => Ok(false),
    }
}

/// The event of a line, which stands without its line feed. The line is `Bad` exactly where it isn't the one
/// spelling of an event that fits.
pub fn read_line(alloc: Global, line: &[u8]) -> Result<Event, LineFault>
    ensures ok { IfOk result (λ event. Spells line.now event) }
    ensures made { IfOk result IsEvent }
    ensures only { IfOk result (λ event. (other : Event) → IsEvent other → Spells line.now other → other ≡ event) }
    ensures bad { OnBad result (¬ (IsInGrammar line.now)) }
{
    let words = Words::of(alloc, line)?;
    let event = event(alloc, &words)?;
    if spells(alloc, line, &event)? {
        Ok(event)
    } else {
        Err(LineFault::Bad)
    }
}
