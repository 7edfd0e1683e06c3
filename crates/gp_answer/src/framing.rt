ghost use Rattle.std.specs.Prelude.{◌≡◌};
ghost use Rattle.gp_answer.specs.Framings.{bare, declared, is_bare, is_bodiless, passed_framing, planned, streamed, whole};

use gp_body::{BodyFault, BodyPlan, length_plan};
use gp_plain::Response;

/// How the body of an answer is framed (RFC 9112, section 6).
#[derive(Clone, Copy, Drop, Debug, PartialEq)]
pub enum Framing {
    /// `content-length` tells its bytes.
    Length(u64),
    /// It goes in chunks.
    Chunked,
    /// It ends with the connection, or there is none.
    Close,
}

/// Of a body of unknown length, to a client of this minor version: chunks, or up to the close for HTTP/1.0.
pub fn streamed(version: u8) -> Framing
    ensures { result ≡ streamed version }
{
    if version == 1 {
        Framing::Chunked
    } else {
        Framing::Close
    }
}

fn is_bodiless(code: u16) -> bool
    ensures { result ≡ is_bodiless code }
{
    code == 204 || code == 304
}

/// Of a body of so many bytes, sent with a code; with 204 and 304 there is none.
pub fn whole(code: u16, bytes: u64) -> Framing
    ensures { result ≡ whole code bytes }
{
    if is_bodiless(code) {
        Framing::Close
    } else {
        Framing::Length(bytes)
    }
}

/// Whether the answer to this method, with the code `sent`, has no body: to HEAD, and with 204 and 304.
pub fn is_bare(method: &[u8], sent: u16) -> bool
    ensures { result ≡ is_bare method.now sent }
{
    method == b"HEAD".as_slice() || is_bodiless(sent)
}

fn declared(plan: Result<BodyPlan, BodyFault>) -> Framing
    ensures { result ≡ declared plan }
{
    match plan {
        Ok(BodyPlan::Length(bytes)) => Framing::Length(bytes),
        Ok(BodyPlan::None) => Framing::Close,
        Ok(BodyPlan::Chunked) => Framing::Close,
        Ok(BodyPlan::ToClose) => Framing::Close,
        Err(_) => Framing::Close,
    }
}

fn bare(head: &Response, sent: u16) -> Framing
    ensures { result ≡ bare head.now sent }
{
    if head.code == 204 || sent == 204 {
        Framing::Close
    } else {
        declared(length_plan(head.fields.as_slice()))
    }
}

fn planned(plan: Result<BodyPlan, BodyFault>, version: u8) -> Framing
    ensures { result ≡ planned plan version }
{
    match plan {
        Ok(BodyPlan::None) => Framing::Length(0),
        Ok(BodyPlan::Length(bytes)) => Framing::Length(bytes),
        Ok(BodyPlan::Chunked) => streamed(version),
        Ok(BodyPlan::ToClose) => streamed(version),
        Err(_) => Framing::Close,
    }
}

/// Of an origin's response that is passed on with the code `sent`, to a client of this minor version that asked by this
/// method. To HEAD, and with 204 and 304, no body is sent, and the origin's length is told where it gave one valid length
/// and neither code is 204. A response that had no body of its own is told to be empty.
pub fn passed_framing(head: &Response, method: &[u8], sent: u16, version: u8) -> Framing
    ensures { result ≡ passed_framing head.now method.now sent version }
{
    if is_bare(method, sent) {
        bare(head, sent)
    } else {
        planned(BodyPlan::of_response(head, method), version)
    }
}
