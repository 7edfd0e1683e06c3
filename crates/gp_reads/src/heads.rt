use gp_escapes::push_escaped;
use gp_head::{
    HeadRead, HeadScan, TargetFault, read_request, read_response, split_target, write_request,
    write_response,
};
use gp_plain::{Body, Fields, Request, Response};
use std::alloc::{AllocError, Global};

/// `NAME=VALUE;` for each field.
fn push_fields(text: &mut String, fields: &Fields) -> Result<(), AllocError> {
    for field in fields.as_slice() {
        push_escaped(text, field.name.bytes())?;
        text.push('=')?;
        push_escaped(text, field.value.bytes())?;
        text.push(';')?;
    }
    Ok(())
}

/// The word of an answer that has no head.
fn word<T>(read: &HeadRead<T>) -> &'static str {
    match read {
        HeadRead::Whole(_, _) => "whole",
        HeadRead::More => "more",
        HeadRead::Bad => "bad",
        HeadRead::TooMany => "too many",
        HeadRead::TooLong => "too long",
        HeadRead::NoMemory => "no memory",
    }
}

fn push_request(text: &mut String, head: &Request, length: usize) -> Result<(), AllocError> {
    write!(text, "{length} {} ", head.version)?;
    push_escaped(text, head.method.bytes())?;
    text.push(' ')?;
    push_escaped(text, head.target.bytes())?;
    text.push(' ')?;
    push_fields(text, &head.fields)
}

/// The length, the version, the method, the target and the fields, or the answer.
pub fn request(alloc: Global, text: &mut String, bytes: &[u8]) -> Result<(), AllocError> {
    match &read_request(alloc, bytes) {
        HeadRead::Whole(head, length) => push_request(text, head, *length),
        other => text.push_str(word(other)),
    }
}

fn push_response(text: &mut String, head: &Response, length: usize) -> Result<(), AllocError> {
    write!(text, "{length} {} {} <", head.version, head.code)?;
    push_escaped(text, head.reason.bytes())?;
    text.push_str("> ")?;
    push_fields(text, &head.fields)
}

/// The length, the version, the code, the reason and the fields, or the answer.
pub fn response(alloc: Global, text: &mut String, bytes: &[u8]) -> Result<(), AllocError> {
    match &read_response(alloc, bytes) {
        HeadRead::Whole(head, length) => push_response(text, head, *length),
        other => text.push_str(word(other)),
    }
}

fn push_written(text: &mut String, written: &Body) -> Result<(), AllocError> {
    push_escaped(text, written.bytes())
}

/// The text that the head at the front is written as.
pub fn write_request_read(
    alloc: Global,
    text: &mut String,
    bytes: &[u8],
) -> Result<(), AllocError> {
    match &read_request(alloc, bytes) {
        HeadRead::Whole(head, _) => push_written(text, &write_request(alloc, head)?),
        other => text.push_str(word(other)),
    }
}

/// The same for a response.
pub fn write_response_read(
    alloc: Global,
    text: &mut String,
    bytes: &[u8],
) -> Result<(), AllocError> {
    match &read_response(alloc, bytes) {
        HeadRead::Whole(head, _) => push_written(text, &write_response(alloc, head)?),
        other => text.push_str(word(other)),
    }
}

fn push_target(text: &mut String, path: &Body, authority: &Option<Body>) -> Result<(), AllocError> {
    push_escaped(text, path.bytes())?;
    text.push(' ')?;
    match authority {
        Some(authority) => push_escaped(text, authority.bytes()),
        None => text.push('-'),
    }
}

/// The path and query, and the authority or `-`.
pub fn target(alloc: Global, text: &mut String, target: &[u8]) -> Result<(), AllocError> {
    match &split_target(alloc, target) {
        Ok((path, authority)) => push_target(text, path, authority),
        Err(TargetFault::Form) => text.push_str("form"),
        Err(TargetFault::NoMemory) => Err(AllocError),
    }
}

/// At how many bytes a head that comes byte by byte is answered.
pub fn answered_at(alloc: Global, text: &mut String, bytes: &[u8]) -> Result<(), AllocError> {
    let mut scan = HeadScan::new();
    for place in 0..bytes.len() {
        let answer = word(&scan.read_request(alloc, &bytes[..place + 1]));
        if answer != "more" {
            return write!(text, "{answer} at {}", place + 1);
        }
    }
    text.push_str("more")
}
