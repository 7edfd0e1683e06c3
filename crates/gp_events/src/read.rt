ghost use Rattle.std.specs.Prelude.{◌≡◌, ◌+◌, ◌<◌, ◌≤◌, IfOk, IfSome, MatchResult, Ok, drop, length};
ghost use Rattle.std.specs.Char.{digit_value};
ghost use Rattle.std.specs.Str.Parse.{AllDigits, digits_value};
ghost use Rattle.gp_events.specs.Spellings.{name_of};
ghost use Rattle.gp_events.specs.Events.{content_at, digit_count, event_at, events_of, kind_at, named_at, size_at, sized_at, as_found, IsFaultOf};

use crate::event::{EventFault, EventKind, WsEvent, WsEvents};
use gp_plain::{Body, List};
use std::alloc::{AllocError, Global};

/// What ends a line.
const CRLF: &[u8] = b"\r\n";

/// How many digits a size has at most.
const MAX_DIGITS: usize = 8;

/// An event as it stands in bytes.
#[derive(Clone, Copy)]
pub(crate) struct EventText<'b> {
    pub kind: EventKind,
    pub content: Option<&'b [u8]>,
    /// How many bytes spell it.
    pub count: usize,
}

/// A size as it stands in bytes.
#[derive(Clone, Copy, Drop)]
pub(crate) struct SizeText {
    pub size: usize,
    /// How many digits spell it.
    pub digits: usize,
}

/// The events that bytes spell, or the first fault. No bytes are no events. The bytes are at most 1,048,576.
pub fn read_events(alloc: Global, bytes: &[u8]) -> Result<WsEvents, EventFault>
    requires { length bytes.now ≤ 1048576 }
    ensures { MatchResult result (λ events. events_of bytes.now ≡ Ok events) (IsFaultOf (events_of bytes.now)) }
{
    let mut events = Vec::new(alloc);
    let mut place = 0;
    while place < bytes.len() {
        let text = read_event(place, &bytes[place..])?;
        events.push(copied(alloc, text)?)?;
        place += text.count;
    }
    Ok(List::from_vec(events))
}

/// The event with a content of its own.
fn copied(alloc: Global, text: EventText<'_>) -> Result<WsEvent, AllocError>
    ensures { IfOk result (λ event. event ≡ (as_found text.entry).event) }
{
    let content = match text.content {
        Some(content) => Some(Body::new(alloc, content)?),
        None => None,
    };
    Ok(WsEvent {
        kind: text.kind,
        content,
    })
}

/// The event at the front of `rest`, which begins at `place`.
#[tactic(auto, unfolding(crate::specs::Events::event_at))]
fn read_event(place: usize, rest: &[u8]) -> Result<EventText<'_>, EventFault>
    requires { place + length rest.now ≤ 1048576 }
    ensures read { MatchResult result (λ text. event_at place rest.now ≡ Ok (as_found text)) (IsFaultOf (event_at place rest.now)) }
    ensures within { IfOk result (λ text. (0 < text.count) × (text.count ≤ length rest.now)) }
{
    match kind_at(rest) {
        Some(kind) => read_named(place, rest, kind),
        None => Err(EventFault::Name(place as u32)),
    }
}

/// The kind whose name stands at the front.
#[tactic(auto, unfolding(crate::specs::Events::kind_at))]
fn kind_at(bytes: &[u8]) -> Option<EventKind>
    ensures kind { result ≡ kind_at bytes.now }
    ensures within { IfSome result (λ kind. length (name_of kind) ≤ length bytes.now) }
{
    const KINDS: [EventKind; 7] = [
        EventKind::Opens,
        EventKind::Text,
        EventKind::Binary,
        EventKind::Ping,
        EventKind::Pong,
        EventKind::Close,
        EventKind::Disconnect,
    ];
    KINDS
        .iter()
        .copied()
        .find(|kind| bytes.starts_with(kind.name()))
}

/// The event of a kind, whose name stands at the front of `rest`.
fn read_named(place: usize, rest: &[u8], kind: EventKind) -> Result<EventText<'_>, EventFault>
    requires fits { place + length rest.now ≤ 1048576 }
    requires named { length (name_of kind) ≤ length rest.now }
    ensures read { MatchResult result
        (λ text. named_at place rest.now kind (length (name_of kind)) ≡ Ok (as_found text))
        (IsFaultOf (named_at place rest.now kind (length (name_of kind)))) }
    ensures within { IfOk result (λ text. (0 < text.count) × (text.count ≤ length rest.now)) }
{
    let count = kind.name().len();
    let behind = &rest[count..];
    if behind.starts_with(CRLF) {
        Ok(EventText {
            kind,
            content: None,
            count: count + CRLF.len(),
        })
    } else if behind.starts_with(b" ") {
        read_sized(place, rest, kind, count + 1)
    } else {
        Err(EventFault::Name(place as u32))
    }
}

/// The event of a kind, whose size begins at `from`.
fn read_sized(
    place: usize,
    rest: &[u8],
    kind: EventKind,
    from: usize,
) -> Result<EventText<'_>, EventFault>
    requires fits { place + length rest.now ≤ 1048576 }
    requires inside { from ≤ length rest.now }
    ensures read { MatchResult result
        (λ text. sized_at place rest.now kind from (size_at (drop from rest.now)) ≡ Ok (as_found text))
        (IsFaultOf (sized_at place rest.now kind from (size_at (drop from rest.now)))) }
    ensures within { IfOk result (λ text. (0 < text.count) × (text.count ≤ length rest.now)) }
{
    match size_at(&rest[from..]) {
        Some(text) => {
            read_content(
                place,
                rest,
                kind,
                from + text.digits + CRLF.len(),
                text.size,
            )
        }
        None => Err(EventFault::Size((place + from) as u32)),
    }
}

/// The event of a kind, whose content of this size begins at `from`.
#[tactic(auto, unfolding(crate::specs::Events::content_at))]
fn read_content(
    place: usize,
    rest: &[u8],
    kind: EventKind,
    from: usize,
    size: usize,
) -> Result<EventText<'_>, EventFault>
    requires fits { place + length rest.now ≤ 1048576 }
    requires inside { from ≤ length rest.now }
    ensures read { MatchResult result
        (λ text. content_at place rest.now kind from size ≡ Ok (as_found text))
        (IsFaultOf (content_at place rest.now kind from size)) }
    ensures within { IfOk result (λ text. (0 < text.count) × (text.count ≤ length rest.now)) }
{
    let left = &rest[from..];
    if left.len() < size {
        return Err(EventFault::Short((place + from) as u32));
    }
    let (content, behind) = left.split_at(size);
    if behind.starts_with(CRLF) {
        Ok(EventText {
            kind,
            content: Some(content),
            count: from + size + CRLF.len(),
        })
    } else {
        Err(EventFault::Tail((place + from + size) as u32))
    }
}

/// The size at the front of a text.
#[tactic(auto, unfolding(crate::specs::Events::size_at))]
fn size_at(text: &[u8]) -> Option<SizeText>
    ensures size { result ≡ size_at text.now }
    ensures within { IfSome result (λ found. found.digits + 2 ≤ length text.now) }
{
    let digits = digit_count(text);
    if 1 <= digits && digits <= MAX_DIGITS && text[digits..].starts_with(CRLF) {
        Some(SizeText {
            size: size_of(&text[..digits]),
            digits,
        })
    } else {
        None
    }
}

/// How many hexadecimal digits stand at the front of a text.
fn digit_count(text: &[u8]) -> usize
    ensures count { result ≡ digit_count text.now }
    ensures within { result ≤ length text.now }
{
    text.iter()
        .take_while(|byte| byte.is_ascii_hexdigit())
        .count()
}

/// The number that hexadecimal digits spell.
fn size_of(digits: &[u8]) -> usize
    requires hex { AllDigits 16 digits.now }
    requires few { length digits.now ≤ 8 }
    ensures { result ≡ digits_value 16 digits.now }
{
    let mut size = 0;
    for digit in digits {
        size = size * 16 + value_of(*digit);
    }
    size
}

fn value_of(digit: u8) -> usize
    requires { digit_value digit < 16 }
    ensures { result ≡ digit_value digit }
{
    char::from(digit).to_digit(16).unwrap_or(0) as usize
}
