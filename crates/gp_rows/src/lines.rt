//! What good lines of a script say. A line that is none is an error, as where memory is wanting.
ghost use Rattle.std.specs.Prelude.{◌≡◌, IfOk, true};
ghost use Rattle.gp_plain.specs.Fit.{fits, fits_message, is_short_page};

use gp_plain::{Body, Event, HoldSpec, Item, ItemId, Message, Name, Then};
use gp_script::read_line;
use std::alloc::{AllocError, Global};

/// The event of a line.
pub fn event(alloc: Global, line: &str) -> Result<Event, AllocError>
    ensures { IfOk result (λ event. fits event ≡ true) }
{
    match read_line(alloc, line.as_bytes()) {
        Ok(event) => Ok(event),
        Err(_) => Err(AllocError),
    }
}

/// The item that a line publishes.
pub fn item(alloc: Global, line: &str) -> Result<Item, AllocError>
    ensures { IfOk result (λ item. fits (Event.Publish item) ≡ true) }
{
    match event(alloc, line)? {
        Event::Publish { item } => Ok(item),
        other => {
            drop(other);
            Err(AllocError)
        }
    }
}

/// What the hold that a line attaches is for.
pub fn spec(alloc: Global, line: &str) -> Result<HoldSpec, AllocError>
    ensures { IfOk result (λ spec. fits (Event.Attach spec) ≡ true) }
{
    match event(alloc, line)? {
        Event::Attach { spec } => Ok(spec),
        other => {
            drop(other);
            Err(AllocError)
        }
    }
}

/// The message that a line pushes.
pub fn message(alloc: Global, line: &str) -> Result<Message, AllocError>
    ensures { IfOk result (λ message. fits_message message ≡ true) }
{
    match event(alloc, line)? {
        Event::Push { message, .. } => Ok(message),
        other => {
            drop(other);
            Err(AllocError)
        }
    }
}

/// The channel that a line joins.
pub fn channel(alloc: Global, line: &str) -> Result<Name, AllocError> {
    match event(alloc, line)? {
        Event::Join { channel, .. } => Ok(channel),
        other => {
            drop(other);
            Err(AllocError)
        }
    }
}

/// A page of a recovery, for whichever hold.
#[derive(Drop)]
pub struct RecoveryPage {
    pub from: ItemId,
    pub to: ItemId,
    pub bytes: Body,
    pub then: Then,
}

/// The page that a line brings, of at most 262,144 bytes.
pub fn page(alloc: Global, line: &str) -> Result<RecoveryPage, AllocError>
    ensures { IfOk result (λ page. is_short_page page.bytes ≡ true) }
{
    match event(alloc, line)? {
        Event::Page {
            from,
            to,
            bytes,
            then,
            ..
        } => Ok(RecoveryPage {
            from,
            to,
            bytes,
            then,
        }),
        other => {
            drop(other);
            Err(AllocError)
        }
    }
}
