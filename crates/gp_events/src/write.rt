ghost use Rattle.std.specs.Prelude.{◌≡◌, ◌≤◌, ◌<◌, ◌++◌, Ok, Some, IfOk, length};
ghost use Rattle.gp_events.specs.Spellings.{content_text, event_text, size_text, spell, upper_digit};
ghost use Rattle.gp_events.specs.Events.{events_of};

use crate::event::{WsEvent, WsEvents};
use gp_plain::Body;
use std::alloc::{AllocError, Global};

/// What ends a line.
const CRLF: &[u8] = b"\r\n";

/// The bytes that spell events. Sizes are in upper case without leading zeros. `read_events` gives the same events for them.
pub fn write_events(alloc: Global, events: &WsEvents) -> Result<Body, AllocError>
    ensures spelled { IfOk result (λ body. body ≡ spell events.now) }
    ensures read_again { IfOk result (λ body. length body ≤ 1048576 → events_of body ≡ Ok events.now) }
{
    let mut text = Vec::new(alloc);
    for event in events.as_slice() {
        add_event(&mut text, event)?;
    }
    Ok(Body::from_vec(text))
}

fn add(text: &mut Vec<u8>, bytes: &[u8]) -> Result<(), AllocError>
    ensures { IfOk result (λ _. text.new.items ≡ text.old.items ++ bytes.now) }
{
    text.extend_from_slice(bytes)
}

fn add_event(text: &mut Vec<u8>, event: &WsEvent) -> Result<(), AllocError>
    ensures { IfOk result (λ _. text.new.items ≡ text.old.items ++ event_text event.now) }
{
    add(text, event.kind.name())?;
    match &event.content {
        Some(content) => add_content(text, content.bytes()),
        None => add(text, CRLF),
    }
}

/// Adds what stands behind the name of an event with a content.
fn add_content(text: &mut Vec<u8>, content: &[u8]) -> Result<(), AllocError>
    ensures { IfOk result (λ _. text.new.items ≡ text.old.items ++ content_text (Some content.now)) }
{
    add(text, b" ")?;
    add_size(text, content.len())?;
    add(text, CRLF)?;
    add(text, content)?;
    add(text, CRLF)
}

/// Adds a size: upper-case hexadecimal digits without leading zeros.
fn add_size(text: &mut Vec<u8>, size: usize) -> Result<(), AllocError>
    ensures { IfOk result (λ _. text.new.items ≡ text.old.items ++ size_text size) }
{
    if size >= 16 {
        add_size(text, size / 16)?;
    }
    add(text, &[upper_digit((size % 16) as u8)])
}

fn upper_digit(digit: u8) -> u8
    requires { digit < 16 }
    ensures { result ≡ upper_digit digit }
{
    if digit < 10 {
        b'0' + digit
    } else {
        b'A' + (digit - 10)
    }
}
