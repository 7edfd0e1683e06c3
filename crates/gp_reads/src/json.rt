use gp_escapes::push_escaped;
use gp_json::{MemberFault, TextFault, read_object, read_response};
use gp_plain::{Body, Field, ResponsePart};
use std::alloc::{AllocError, Global};

fn push_field(text: &mut String, field: &Field) -> Result<(), AllocError> {
    text.push('|')?;
    push_escaped(text, field.name.bytes())?;
    text.push_str(": ")?;
    push_escaped(text, field.value.bytes())
}

/// Adds the code and the reason, then each field behind `|`, then the body behind `/`.
pub fn push_part(text: &mut String, part: &ResponsePart) -> Result<(), AllocError> {
    write!(text, "{} ", part.code)?;
    push_escaped(text, part.reason.bytes())?;
    for field in part.fields.as_slice() {
        push_field(text, field)?;
    }
    text.push('/')?;
    push_escaped(text, part.body.bytes())
}

fn push_named(text: &mut String, kind: &str, name: &Body) -> Result<(), AllocError> {
    text.push_str(kind)?;
    push_escaped(text, name.bytes())
}

fn push_read(
    text: &mut String,
    read: &Result<ResponsePart, MemberFault>,
) -> Result<(), AllocError> {
    match read {
        Ok(part) => push_part(text, part),
        Err(MemberFault::Member(name)) => push_named(text, "member ", name),
        Err(MemberFault::Base64(name)) => push_named(text, "base64 ", name),
        Err(MemberFault::NoMemory) => Err(AllocError),
    }
}

/// The response that a JSON object has.
pub fn part(alloc: Global, text: &mut String, bytes: &[u8]) -> Result<(), AllocError> {
    match &read_object(alloc, bytes) {
        Ok(object) => push_read(text, &read_response(alloc, object)),
        Err(TextFault::NotJson) => text.push_str("not json"),
        Err(TextFault::NoMemory) => Err(AllocError),
    }
}
