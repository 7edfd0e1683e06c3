ghost use Rattle.std.specs.Prelude.{◌≡◌, ℕ, List};
ghost use Rattle.std.specs.List.{list_any};
ghost use Rattle.gp_plain.specs.Names.{same_id};
ghost use Rattle.gp_plain.specs.Fit.{are_different, fits, fits_channels, fits_close, fits_item, fits_message, fits_message_part, fits_response, fits_spec, fits_stream};

use crate::body::Body;
use crate::event::{Event, HoldSpec};
use crate::item::{Item, Message, MessagePart, ResponsePart, StreamPart};
use crate::name::Name;

/// The bytes of an opening or of a page, at most.
const PAGE: usize = 262144;

/// The bytes of one format's content, at most.
const CONTENT: usize = 65536;

/// The bytes of a WebSocket message, at most.
const MESSAGE: usize = 1048576;

fn has_name(names: &[Name], name: &Name) -> bool
    ensures { result ≡ list_any (λ (other : List ℕ). same_id other name.now) names.now }
{
    names.iter().any(|other| other.is(name))
}

fn are_different(names: &[Name]) -> bool
    ensures { result ≡ are_different names.now }
{
    match names {
        [] => true,
        [name, rest @ ..] => !has_name(rest, name) && are_different(rest),
    }
}

fn fits_channels(names: &[Name]) -> bool
    ensures { result ≡ fits_channels names.now }
{
    1 <= names.len() && names.len() <= 8 && are_different(names)
}

fn fits_response(part: &Option<ResponsePart>) -> bool
    ensures { result ≡ fits_response part.now }
{
    match part {
        Some(part) => 200 <= part.code && part.code <= 599 && part.body.len() <= CONTENT,
        None => true,
    }
}

fn fits_stream(part: &Option<StreamPart>) -> bool
    ensures { result ≡ fits_stream part.now }
{
    match part {
        Some(StreamPart::Content(bytes)) => bytes.len() <= CONTENT,
        Some(StreamPart::Close) => true,
        None => true,
    }
}

fn fits_message_part(part: &Option<MessagePart>) -> bool
    ensures { result ≡ fits_message_part part.now }
{
    match part {
        Some(MessagePart::Text(bytes)) => bytes.len() <= CONTENT,
        Some(MessagePart::Binary(bytes)) => bytes.len() <= CONTENT,
        Some(MessagePart::Close) => true,
        None => true,
    }
}

fn fits_close(code: Option<u16>, reason: &Body) -> bool
    ensures { result ≡ fits_close code reason.now }
{
    match code {
        Some(_) => reason.len() <= 123,
        None => reason.len() == 0,
    }
}

impl Message {
    /// Whether it is within the limits of a push: 1,048,576 bytes for a text or binary message, 125 for a ping or
    /// a pong, and 123 for the reason of a close, which has none without a code.
    pub fn fits(&self) -> bool
        ensures { result ≡ fits_message self.now }
    {
        match self {
            Message::Text(bytes) => bytes.len() <= MESSAGE,
            Message::Binary(bytes) => bytes.len() <= MESSAGE,
            Message::Ping(bytes) => bytes.len() <= 125,
            Message::Pong(bytes) => bytes.len() <= 125,
            Message::Close { code, reason } => fits_close(*code, reason),
        }
    }
}

impl Item {
    /// Whether its parts are within the limits: 65,536 bytes each, and a status code of 200 to 599.
    pub fn fits(&self) -> bool
        ensures { result ≡ fits_item self.now }
    {
        fits_response(&self.response)
            && fits_stream(&self.stream)
            && fits_message_part(&self.message)
    }
}

impl HoldSpec {
    fn fits(&self) -> bool
        ensures { result ≡ fits_spec self.now }
    {
        match self {
            HoldSpec::Stream { opening, .. } => opening.len() <= PAGE,
            HoldSpec::Plain { opening, channels } => {
                opening.len() <= PAGE && fits_channels(channels.as_slice())
            }
            HoldSpec::Response { channels, prev, .. } => {
                fits_channels(channels.as_slice()) && (prev.is_none() || channels.len() == 1)
            }
            HoldSpec::Socket => true,
        }
    }
}

impl Event {
    /// Whether it is within the limits: 262,144 bytes of an opening and of a page, 1 to 8 different channels of a hold, and one
    /// of a response hold with a previous id; and those of items and of messages. It takes no memory.
    pub fn fits(&self) -> bool
        ensures { result ≡ fits self.now }
    {
        match self {
            Event::Attach { spec } => spec.fits(),
            Event::Publish { item } => item.fits(),
            Event::Take { .. } => true,
            Event::Page { bytes, .. } => bytes.len() <= PAGE,
            Event::PageFailed { .. } => true,
            Event::Push { message, .. } => message.fits(),
            Event::Join { .. } => true,
            Event::Leave { .. } => true,
            Event::Detach { .. } => true,
        }
    }
}
