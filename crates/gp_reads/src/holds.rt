use crate::bodies::response_of;
use gp_escapes::push_escaped;
use gp_instruct::Instruct;
use gp_instruct_json::{Answer, AnswerFault, read_answer};
use gp_plain::{Body, Event, HoldSpec};
use gp_script::write_line;
use std::alloc::{AllocError, Global};

/// The line of the attach of a hold.
fn line_of(alloc: Global, spec: HoldSpec) -> Result<Option<Body>, AllocError> {
    let event = Event::Attach { spec };
    write_line(alloc, &event)
}

/// The line of the attach that an instruction asks for, where it asks for one.
fn attach_line(
    alloc: Global,
    instruct: Instruct,
    body: Body,
    now: u64,
) -> Result<Option<Body>, AllocError> {
    match instruct.into_spec(alloc, body, now, false)? {
        Some(spec) => line_of(alloc, spec),
        None => Ok(None),
    }
}

/// The line of the attach that an answer asks for, where it asks for one.
fn asked_line(
    alloc: Global,
    instruct: Option<Instruct>,
    body: Body,
    now: u64,
) -> Result<Option<Body>, AllocError> {
    match instruct {
        Some(instruct) => attach_line(alloc, instruct, body, now),
        None => Ok(None),
    }
}

/// Adds the code of the response that the client gets, and the line of the attach.
fn push_line(text: &mut String, code: u16, line: &Option<Body>) -> Result<(), AllocError> {
    write!(text, "{code} ")?;
    match line {
        Some(line) => push_escaped(text, line.bytes()),
        None => text.push_str("no hold"),
    }
}

fn push_held(alloc: Global, text: &mut String, answer: Answer, now: u64) -> Result<(), AllocError> {
    let code = answer.head.code;
    let line = asked_line(alloc, answer.instruct, answer.body, now)?;
    push_line(text, code, &line)
}

/// What an answer with these fields and this body asks for, at a moment.
pub fn held(
    alloc: Global,
    text: &mut String,
    now: &str,
    fields: &[u8],
    body: &[u8],
) -> Result<(), AllocError> {
    let body = Body::new(alloc, body)?;
    match read_answer(alloc, response_of(alloc, 200, fields)?, body) {
        Ok(answer) => push_held(alloc, text, answer, now.parse::<u64>().unwrap_or(0)),
        Err(AnswerFault::Refused) => text.push_str("refused"),
        Err(AnswerFault::NoMemory) => Err(AllocError),
    }
}
