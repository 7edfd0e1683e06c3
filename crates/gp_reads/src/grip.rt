use crate::bodies::response_of;
use gp_escapes::push_escaped;
use gp_instruct::{Instruct, InstructFault, Mode, Sub, read_headers, read_link, write_last};
use gp_instruct_json::{JsonFault, is_instruct, read_body};
use gp_plain::{Body, Field, ItemId, Name, Response};
use std::alloc::{AllocError, Global};

fn push_sub(text: &mut String, sub: &Sub) -> Result<(), AllocError> {
    text.push(' ')?;
    push_escaped(text, sub.name.bytes())?;
    if let Some(prev) = &sub.prev {
        text.push('@')?;
        push_escaped(text, prev.bytes())?;
    }
    Ok(())
}

fn push_fault(text: &mut String, fault: &InstructFault) -> Result<(), AllocError> {
    write!(text, "{fault:?}")
}

fn mode(mode: Option<Mode>) -> &'static str {
    match mode {
        Some(Mode::Response) => "response",
        Some(Mode::Stream) => "stream",
        None => "none",
    }
}

/// Hold, channels, timeout, status and link.
fn push_instruct(text: &mut String, instruct: &Instruct) -> Result<(), AllocError> {
    text.push_str(mode(instruct.mode))?;
    for sub in instruct.subs.as_slice() {
        push_sub(text, sub)?;
    }
    write!(
        text,
        " {} {} ",
        instruct.timeout,
        instruct.status.unwrap_or(0)
    )?;
    match &instruct.link {
        Some(link) => push_escaped(text, link.bytes()),
        None => text.push_str("none"),
    }
}

/// The instruction of a head.
pub fn headers(alloc: Global, text: &mut String, fields: &[u8]) -> Result<(), AllocError> {
    let head = response_of(alloc, 200, fields)?;
    match &read_headers(alloc, &head) {
        Ok(Some(instruct)) => push_instruct(text, instruct),
        Ok(None) => text.push_str("nothing"),
        Err(fault) => push_fault(text, fault),
    }
}

/// The link to what comes next, of a list of links.
pub fn link(alloc: Global, text: &mut String, value: &[u8]) -> Result<(), AllocError> {
    match &read_link(alloc, value) {
        Ok(Some(link)) => push_escaped(text, link.bytes()),
        Ok(None) => text.push_str("none"),
        Err(fault) => push_fault(text, fault),
    }
}

fn push_last(
    alloc: Global,
    text: &mut String,
    channel: &Name,
    id: &ItemId,
) -> Result<(), AllocError> {
    let value = write_last(alloc, channel, id)?;
    push_escaped(text, value.bytes())
}

/// The field value that tells the last item of a channel.
pub fn last(alloc: Global, text: &mut String, channel: &str, id: &str) -> Result<(), AllocError> {
    match (
        &Name::new(alloc, channel.as_bytes()),
        &ItemId::new(alloc, id.as_bytes()),
    ) {
        (Ok(channel), Ok(id)) => push_last(alloc, text, channel, id),
        _ => text.push_str("no name"),
    }
}

fn push_field(text: &mut String, field: &Field) -> Result<(), AllocError> {
    text.push(' ')?;
    push_escaped(text, field.name.bytes())?;
    text.push('=')?;
    push_escaped(text, field.value.bytes())
}

/// Code, reason, fields and body.
fn push_answer(text: &mut String, answer: &Response, body: &Body) -> Result<(), AllocError> {
    write!(text, " | {} ", answer.code)?;
    push_escaped(text, answer.reason.bytes())?;
    for field in answer.fields.as_slice() {
        push_field(text, field)?;
    }
    text.push_str(" | ")?;
    push_escaped(text, body.bytes())
}

fn push_whole(
    text: &mut String,
    instruct: &Instruct,
    answer: &Response,
    body: &Body,
) -> Result<(), AllocError> {
    push_instruct(text, instruct)?;
    push_answer(text, answer, body)
}

fn push_json_fault(text: &mut String, fault: &JsonFault) -> Result<(), AllocError> {
    match fault {
        JsonFault::NotJson => text.push_str("not json"),
        JsonFault::Member(name) => {
            text.push_str("member ")?;
            push_escaped(text, name.bytes())
        }
        JsonFault::Base64(name) => {
            text.push_str("base64 ")?;
            push_escaped(text, name.bytes())
        }
        JsonFault::Instruct(fault) => push_fault(text, fault),
        JsonFault::NoMemory => Err(AllocError),
    }
}

/// The instruction, the answer and its body that a grip-instruct body has, under a head with these fields.
pub fn body(
    alloc: Global,
    text: &mut String,
    fields: &[u8],
    body: &[u8],
) -> Result<(), AllocError> {
    let head = response_of(alloc, 202, fields)?;
    match &read_body(alloc, &head, body) {
        Ok((instruct, answer, content)) => push_whole(text, instruct, answer, content),
        Err(fault) => push_json_fault(text, fault),
    }
}

/// Whether a head with these fields has a grip-instruct body.
pub fn is_instruct_type(alloc: Global, text: &mut String, fields: &[u8]) -> Result<(), AllocError> {
    let head = response_of(alloc, 200, fields)?;
    write!(text, "{}", is_instruct(&head))
}
