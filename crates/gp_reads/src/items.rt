use crate::json::push_part;
use gp_escapes::push_escaped;
use gp_items::{ItemsFault, read_items};
use gp_plain::{Item, Items, MessagePart, StreamPart};
use std::alloc::{AllocError, Global};

/// Content of more bytes is shown by its length.
const LONG: usize = 100;

fn add(text: &mut String, word: &str, bytes: &[u8]) -> Result<(), AllocError> {
    text.push_str(word)?;
    push_escaped(text, bytes)
}

fn push_message(text: &mut String, message: &MessagePart) -> Result<(), AllocError> {
    match message {
        MessagePart::Text(bytes) => add(text, " text ", bytes.bytes()),
        MessagePart::Binary(bytes) => add(text, " binary ", bytes.bytes()),
        MessagePart::Close => text.push_str(" message end"),
    }
}

fn push_stream(text: &mut String, stream: &StreamPart) -> Result<(), AllocError> {
    match stream {
        StreamPart::Content(bytes) if bytes.len() > LONG => {
            write!(text, " stream of {} bytes", bytes.len())
        }
        StreamPart::Content(bytes) => add(text, " stream ", bytes.bytes()),
        StreamPart::Close => text.push_str(" stream end"),
    }
}

/// Adds the channel and the ids.
fn push_place(text: &mut String, item: &Item) -> Result<(), AllocError> {
    push_escaped(text, item.channel.bytes())?;
    if let Some(id) = &item.id {
        add(text, " ", id.bytes())?;
    }
    if let Some(prev) = &item.prev {
        add(text, " after ", prev.bytes())?;
    }
    Ok(())
}

/// Adds the channel and the ids, and then each part.
fn push_item(text: &mut String, item: &Item) -> Result<(), AllocError> {
    push_place(text, item)?;
    if let Some(part) = &item.response {
        text.push_str(" response ")?;
        push_part(text, part)?;
    }
    if let Some(stream) = &item.stream {
        push_stream(text, stream)?;
    }
    match &item.message {
        Some(message) => push_message(text, message),
        None => Ok(()),
    }
}

/// Adds how many items there are, and the first.
fn push_items(text: &mut String, items: &Items) -> Result<(), AllocError> {
    write!(text, "{}: ", items.len())?;
    match items.at(0) {
        Some(first) => push_item(text, first),
        None => Ok(()),
    }
}

fn push_fault(text: &mut String, fault: &ItemsFault) -> Result<(), AllocError> {
    match fault {
        ItemsFault::NotJson => text.push_str("not json"),
        ItemsFault::NoItems => text.push_str("no items"),
        ItemsFault::TooMany(count) => write!(text, "too many {count}"),
        ItemsFault::Member(place, name) => {
            write!(text, "{place} member ")?;
            push_escaped(text, name.bytes())
        }
        ItemsFault::Base64(place, name) => {
            write!(text, "{place} base64 ")?;
            push_escaped(text, name.bytes())
        }
        ItemsFault::Long(place, bytes) => write!(text, "{place} long {bytes}"),
        ItemsFault::Name(place, fault) => write!(text, "{place} name {fault:?}"),
        ItemsFault::NoMemory => Err(AllocError),
    }
}

/// The first item and how many there are, or the fault.
pub fn items(alloc: Global, text: &mut String, bytes: &[u8]) -> Result<(), AllocError> {
    match &read_items(alloc, bytes) {
        Ok(items) => push_items(text, items),
        Err(fault) => push_fault(text, fault),
    }
}
