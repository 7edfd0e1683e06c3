use gp_body::{
    BodyFault, BodyPlan, BodyRead, BodyReader, FedAll, FedAllFault, FedFault, chunk_head,
    read_pieces,
};
use gp_escapes::push_escaped;
use gp_plain::{Body, Field, Fields, Request, Response};
use std::alloc::{AllocError, Global};

/// The field of a line `NAME:VALUE`, whose colon stands at a place.
fn field_of(alloc: Global, name: &[u8], value: &[u8]) -> Result<Field, AllocError> {
    Ok(Field {
        name: Body::new(alloc, name)?,
        value: Body::new(alloc, value)?,
    })
}

/// Adds the field of a line, where it has a colon.
fn push_field(alloc: Global, fields: &mut Fields, line: &[u8]) -> Result<(), AllocError> {
    let colon = line.iter().take_while(|byte| **byte != b':').count();
    if colon >= line.len() {
        return Ok(());
    }
    let field = field_of(alloc, &line[..colon], &line[colon + 1..])?;
    fields.push(field).map_err(|refused| refused.1)
}

/// Fields, given as `NAME:VALUE` and parted by line feeds.
pub fn fields_of(alloc: Global, text: &[u8]) -> Result<Fields, AllocError> {
    let mut fields = Fields::new(alloc);
    for line in text.split(|byte| *byte == b'\n') {
        push_field(alloc, &mut fields, line)?;
    }
    Ok(fields)
}

/// The head of a response of a code with these fields.
pub fn response_of(alloc: Global, code: u16, fields: &[u8]) -> Result<Response, AllocError> {
    Ok(Response {
        version: 1,
        code,
        reason: Body::empty(alloc),
        fields: fields_of(alloc, fields)?,
    })
}

/// The head of a request of a version with these fields.
fn request_of(alloc: Global, version: u8, fields: &[u8]) -> Result<Request, AllocError> {
    Ok(Request {
        method: Body::new(alloc, b"POST")?,
        target: Body::new(alloc, b"/")?,
        version,
        fields: fields_of(alloc, fields)?,
    })
}

fn push_plan(text: &mut String, plan: Result<BodyPlan, BodyFault>) -> Result<(), AllocError> {
    match plan {
        Ok(plan) => write!(text, "{plan:?}"),
        Err(fault) => write!(text, "{fault:?}"),
    }
}

/// The plan of a request of a version with these fields.
pub fn plan_of_request(
    alloc: Global,
    text: &mut String,
    version: &str,
    fields: &[u8],
) -> Result<(), AllocError> {
    let head = request_of(alloc, version.parse::<u8>().unwrap_or(0), fields)?;
    push_plan(text, BodyPlan::of_request(&head))
}

/// The plan of the response of a code to a method, with these fields.
pub fn plan_of_response(
    alloc: Global,
    text: &mut String,
    code: &str,
    method: &str,
    fields: &[u8],
) -> Result<(), AllocError> {
    let head = response_of(alloc, code.parse::<u16>().unwrap_or(0), fields)?;
    push_plan(text, BodyPlan::of_response(&head, method.as_bytes()))
}

fn plan_named(name: &str) -> BodyPlan {
    match name {
        "none" => BodyPlan::None,
        "chunked" => BodyPlan::Chunked,
        "close" => BodyPlan::ToClose,
        length => BodyPlan::Length(length.parse::<u64>().unwrap_or(0)),
    }
}

fn push_fault(text: &mut String, fault: FedFault) -> Result<(), AllocError> {
    match fault {
        FedFault::Chunk(place) => write!(text, "chunk {place}"),
        FedFault::TooLong(limit) => write!(text, "too long {limit}"),
        FedFault::Cut(given) => write!(text, "cut {given}"),
    }
}

/// Adds how a body ended: the bytes taken, or why it was refused, which is answered again at its end.
fn push_end(
    text: &mut String,
    taken: u64,
    refused: Option<FedFault>,
    finished: Result<(), FedFault>,
) -> Result<(), AllocError> {
    match (refused, finished) {
        (Some(fault), Err(again)) if fault == again => push_fault(text, fault),
        (None, Ok(())) => write!(text, "end {taken}"),
        (None, Err(fault)) => push_fault(text, fault),
        _ => text.push_str("another refusal"),
    }
}

/// How a body ends of which so many bytes were taken, and which was refused or not.
fn ended(
    alloc: Global,
    reader: &mut BodyReader,
    taken: u64,
    refused: Option<FedFault>,
) -> Result<String, AllocError> {
    let finished = reader.finish();
    let mut text = String::from_str(alloc, "|")?;
    if reader.refusal() == finished.err() {
        push_end(&mut text, taken, refused, finished)?;
    } else {
        text.push_str("another refusal")?;
    }
    Ok(text)
}

/// Adds the content of a body that comes in pieces of so many bytes. It gives how many were taken, and the refusal.
fn feed_in_steps(
    content: &mut Vec<u8>,
    reader: &mut BodyReader,
    bytes: &[u8],
    step: usize,
) -> Result<(u64, Option<FedFault>), AllocError> {
    let mut rest = bytes;
    let mut taken = 0u64;
    for _ in 0..100000u64 {
        let piece = &rest[..step.min(rest.len())];
        match reader.feed(piece) {
            Ok(fed) => {
                content.extend_from_slice(&piece[fed.from..fed.to])?;
                rest = &rest[fed.taken..];
                taken = taken.saturating_add(fed.taken as u64);
                if fed.end || rest.is_empty() {
                    break;
                }
            }
            Err(fault) => return Ok((taken, Some(fault))),
        }
    }
    Ok((taken, None))
}

/// The content, a bar, and how a body ends that comes in pieces of so many bytes.
fn read_in_steps(
    alloc: Global,
    plan: BodyPlan,
    limit: u64,
    bytes: &[u8],
    step: usize,
) -> Result<Vec<u8>, AllocError> {
    let mut reader = BodyReader::new(plan, limit);
    let mut shown = Vec::new(alloc);
    let (taken, refused) = feed_in_steps(&mut shown, &mut reader, bytes, step)?;
    let end = ended(alloc, &mut reader, taken, refused)?;
    shown.extend_from_slice(end.as_bytes())?;
    Ok(shown)
}

/// The first of some steps in which a body is read otherwise than this.
fn other_step(
    alloc: Global,
    plan: BodyPlan,
    limit: u64,
    bytes: &[u8],
    whole: &[u8],
) -> Result<Option<usize>, AllocError> {
    for step in [1usize, 2, 3, 100] {
        if read_in_steps(alloc, plan, limit, bytes, step)?.as_slice() != whole {
            return Ok(Some(step));
        }
    }
    Ok(None)
}

/// The content and the end of a body, at any cut: one byte a piece, two, three, a hundred, and all at once.
pub fn body(
    alloc: Global,
    text: &mut String,
    plan: &str,
    limit: &str,
    bytes: &[u8],
) -> Result<(), AllocError> {
    let plan = plan_named(plan);
    let limit = limit.parse::<u64>().unwrap_or(0);
    let whole = read_in_steps(alloc, plan, limit, bytes, 100000)?;
    match other_step(alloc, plan, limit, bytes, whole.as_slice())? {
        Some(step) => write!(text, "another end in steps of {step}"),
        None => push_escaped(text, whole.as_slice()),
    }
}

/// The pieces of a text, which bars part.
fn pieces_of(alloc: Global, bytes: &[u8]) -> Result<Vec<Body>, AllocError> {
    let mut pieces = Vec::new(alloc);
    for piece in bytes.split(|byte| *byte == b'|') {
        pieces.push(Body::new(alloc, piece)?)?;
    }
    Ok(pieces)
}

fn push_read(text: &mut String, read: &BodyRead) -> Result<(), AllocError> {
    push_escaped(text, read.content.bytes())?;
    text.push('|')?;
    match read.refused {
        Some(fault) => push_fault(text, fault),
        None => write!(text, "end {}", read.end),
    }
}

/// The content and the end of a body that comes in pieces, which bars part.
pub fn pieces(
    alloc: Global,
    text: &mut String,
    plan: &str,
    limit: &str,
    bytes: &[u8],
) -> Result<(), AllocError> {
    let limit = limit.parse::<u64>().unwrap_or(0);
    let pieces = pieces_of(alloc, bytes)?;
    let read = read_pieces(alloc, plan_named(plan), limit, pieces.as_slice())?;
    push_read(text, &read)
}

fn push_fed(text: &mut String, fed: Result<FedAll, FedAllFault>) -> Result<(), AllocError> {
    text.push('|')?;
    match fed {
        Ok(fed) if fed.end => write!(text, "{} end", fed.taken),
        Ok(fed) => write!(text, "{}", fed.taken),
        Err(FedAllFault::Body(fault)) => push_fault(text, fault),
        Err(FedAllFault::NoMemory) => Err(AllocError),
    }
}

/// What one feed of all bytes adds, and the bytes that it took, with `end` behind the body's end, or the refusal.
pub fn feed_all(
    alloc: Global,
    text: &mut String,
    plan: &str,
    limit: &str,
    bytes: &[u8],
) -> Result<(), AllocError> {
    let limit = limit.parse::<u64>().unwrap_or(0);
    let mut content = Vec::new(alloc);
    let fed = BodyReader::new(plan_named(plan), limit).feed_all(bytes, &mut content);
    push_escaped(text, content.as_slice())?;
    push_fed(text, fed)
}

/// The head of a chunk of so many bytes.
pub fn chunk(text: &mut String, length: &str) -> Result<(), AllocError> {
    let mut into = [0u8; 18];
    let count = chunk_head(length.parse::<u64>().unwrap_or(1).max(1), &mut into);
    push_escaped(text, &into[..count])
}
