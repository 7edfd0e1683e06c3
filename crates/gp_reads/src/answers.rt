use crate::bodies::{fields_of, response_of};
use gp_answer::{Framing, Refusal, answer_head, passed_framing, published_head, streamed, whole};
use gp_escapes::push_escaped;
use std::alloc::{AllocError, Global};

fn framing_named(name: &str) -> Framing {
    match name {
        "chunked" => Framing::Chunked,
        "close" => Framing::Close,
        length => Framing::Length(length.parse::<u64>().unwrap_or(0)),
    }
}

/// The head of an answer with a code, a framing, and these fields, `NAME:VALUE` in lines. Its reason is `Own`.
pub fn answer(
    alloc: Global,
    text: &mut String,
    code: &str,
    framing: &str,
    fields: &[u8],
) -> Result<(), AllocError> {
    let code = code.parse::<u16>().unwrap_or(0);
    let fields = fields_of(alloc, fields)?;
    let framing = framing_named(framing);
    let head = answer_head(alloc, code, b"Own", fields.as_slice(), framing)?;
    push_escaped(text, head.bytes())
}

/// How the body of an origin's response of a code is framed that is passed with this code to a client of HTTP/1.1 which asked by a method.
pub fn passed(
    alloc: Global,
    text: &mut String,
    code: &str,
    sent: &str,
    method: &str,
    fields: &[u8],
) -> Result<(), AllocError> {
    let head = response_of(alloc, code.parse::<u16>().unwrap_or(0), fields)?;
    let sent = sent.parse::<u16>().unwrap_or(0);
    write!(
        text,
        "{:?}",
        passed_framing(&head, method.as_bytes(), sent, 1)
    )
}

/// How a body of unknown length is framed for a client of a minor version, and one of 7 bytes with a code.
pub fn framed(text: &mut String, version: &str, code: &str) -> Result<(), AllocError> {
    let unknown = streamed(version.parse::<u8>().unwrap_or(0));
    let known = whole(code.parse::<u16>().unwrap_or(0), 7);
    write!(text, "{unknown:?} {known:?}")
}

fn refusal_named(name: &str) -> Refusal {
    match name {
        "bad-request" => Refusal::BadRequest,
        "other-socket-version" => Refusal::OtherSocketVersion,
        "not-found" => Refusal::NotFound,
        "method-not-allowed" => Refusal::MethodNotAllowed,
        "content-too-large" => Refusal::ContentTooLarge,
        "head-too-large" => Refusal::HeadTooLarge,
        "not-implemented" => Refusal::NotImplemented,
        "bad-gateway" => Refusal::BadGateway,
        _ => Refusal::Unavailable,
    }
}

/// The answer that a refusal is to a request with a method.
pub fn refusal(text: &mut String, name: &str, method: &str) -> Result<(), AllocError> {
    let refusal = refusal_named(name);
    write!(text, "{} ", refusal.code())?;
    push_escaped(text, refusal.head())?;
    push_escaped(text, refusal.body(method.as_bytes()))
}

/// The head of the answer to a publish request that was carried out.
pub fn published(text: &mut String) -> Result<(), AllocError> {
    push_escaped(text, published_head())
}
