ghost use Rattle.std.specs.Prelude.{◌≡◌, ◌≤◌, All, IfOk, MatchResult, Some, length, map};
ghost use Rattle.http_header.specs.Token.{lowercase};
ghost use Rattle.httparse.specs.Spans.{IsHeaderWithin, header_bytes};
ghost use Rattle.gp_head.specs.Lines.{begun_fields, head_end};
ghost use Rattle.gp_head.specs.Heads.{field_at, IsRequestText, IsResponseText, IsRefused};

use crate::scan::MAX_FIELDS;
use gp_plain::{Body, Field, Fields, List, Request, Response};
use httparse::Status;
use httparse::spans::{EMPTY_HEADER_SPAN, HeaderSpan, parse_request, parse_response};
use std::alloc::{AllocError, Global};

/// Why a head text gives no head.
#[derive(Clone, Copy, Drop)]
pub(crate) enum Refusal {
    /// It is no head of the grammar.
    Bad,
    /// Memory is wanting.
    NoMemory,
}

impl From<AllocError> for Refusal {
    ghost use Rattle.std.specs.Prelude.{◌≡◌};
    ghost use Rattle.gp_head.specs.declared.parse.Refusal.TheVariants.{NoMemory};

    ghost from_gives = { λ _ refusal. refusal ≡ NoMemory };

    fn from(_: AllocError) -> Refusal {
        Refusal::NoMemory
    }
}

/// The request that a head text is.
pub(crate) fn request_of(alloc: Global, text: &[u8]) -> Result<Request, Refusal>
    requires ends { head_end text.now ≡ Some (length text.now) }
    requires few { begun_fields text.now ≤ MAX_FIELDS }
    ensures { MatchResult result (IsRequestText text.now) (IsRefused IsRequestText text.now) }
{
    let mut spans = [EMPTY_HEADER_SPAN; MAX_FIELDS];
    match parse_request(text, &mut spans) {
        Ok(Status::Complete(found)) => {
            let method = Body::new(alloc, found.method.of(text))?;
            let target = Body::new(alloc, found.path.of(text))?;
            let fields = fields_at(alloc, text, &spans[..found.headers])?;
            Ok(Request {
                method,
                target,
                version: found.version,
                fields,
            })
        }
        Ok(Status::Partial) => Err(Refusal::Bad),
        Err(_) => Err(Refusal::Bad),
    }
}

/// The response that a head text is.
pub(crate) fn response_of(alloc: Global, text: &[u8]) -> Result<Response, Refusal>
    requires ends { head_end text.now ≡ Some (length text.now) }
    requires few { begun_fields text.now ≤ MAX_FIELDS }
    ensures { MatchResult result (IsResponseText text.now) (IsRefused IsResponseText text.now) }
{
    let mut spans = [EMPTY_HEADER_SPAN; MAX_FIELDS];
    match parse_response(text, &mut spans) {
        Ok(Status::Complete(found)) => {
            let reason = Body::new(alloc, found.reason.of(text))?;
            let fields = fields_at(alloc, text, &spans[..found.headers])?;
            Ok(Response {
                version: found.version,
                code: found.code,
                reason,
                fields,
            })
        }
        Ok(Status::Partial) => Err(Refusal::Bad),
        Err(_) => Err(Refusal::Bad),
    }
}

/// The fields whose names and values stand at the spans.
fn fields_at(alloc: Global, text: &[u8], spans: &[HeaderSpan]) -> Result<Fields, AllocError>
    requires { All (IsHeaderWithin (length text.now)) spans.now }
    ensures { IfOk result (λ fields. fields ≡ map (field_at text.now) spans.now) }
{
    let mut fields = Vec::with_capacity(alloc, spans.len())?;
    for span in spans {
        fields.push(Field {
            name: lowered(alloc, span.name.of(text))?,
            value: Body::new(alloc, span.value.of(text))?,
        })?;
    }
    Ok(List::from_vec(fields))
}

/// A name in lower case (RFC 9110, section 5.1: names of fields are the same in either case).
fn lowered(alloc: Global, name: &[u8]) -> Result<Body, AllocError>
    ensures { IfOk result (λ lower. lower ≡ lowercase name.now) }
{
    Ok(Body::from_vec(
        name.iter()
            .map(|byte| byte.to_ascii_lowercase())
            .collect(alloc)?,
    ))
}
