ghost use Rattle.std.specs.Prelude.{◌≡◌, MatchResult, Ok};
ghost use Rattle.serde_json.specs.View.{view};
ghost use Rattle.gp_json.specs.Members.{IsFaultOf};
ghost use Rattle.gp_json.specs.Responses.{code_of, reason_of, body_of, response_of};

use crate::fault::{MemberFault, wrong_form};
use crate::field::{field_value, read_fields};
use crate::members::{Whole, text_member, whole_member};
use crate::payload::payload_member;
use gp_plain::{Body, ResponsePart};
use serde_json::Value;
use std::alloc::Global;

const CODE: &str = "code";

const REASON: &str = "reason";

/// The response that the members of an object give, and a value that is no object that of no member: `code` is 200 to
/// 599, and 200 where it is absent; `reason` may be the value of a field, and is `OK` for 200 and else empty where it
/// is absent; `headers` is an object of strings, taken in the order of the names' bytes, or an array of pairs of
/// strings, each with the name and the value of a field (RFC 9110, section 5); `body` or its twin `body-bin` is the
/// body, empty where both are absent. The first of these members that is of wrong form is refused, then a twin that is
/// no base64.
#[tactic(auto, unfolding(crate::specs::Responses::response_of))]
pub fn read_response(alloc: Global, object: &Value) -> Result<ResponsePart, MemberFault>
    ensures { MatchResult result
        (λ part. response_of (view object.now) ≡ Ok part)
        (IsFaultOf (response_of (view object.now))) }
{
    let code = read_code(alloc, object)?;
    let reason = read_reason(alloc, object, code)?;
    let fields = read_fields(alloc, object)?;
    let body = read_body(alloc, object)?;
    Ok(ResponsePart {
        code,
        reason,
        fields,
        body,
    })
}

#[tactic(auto, unfolding(crate::specs::Responses::code_of))]
fn read_code(alloc: Global, object: &Value) -> Result<u16, MemberFault>
    ensures { MatchResult result
        (λ code. code_of (view object.now) ≡ Ok code)
        (IsFaultOf (code_of (view object.now))) }
{
    match whole_member(alloc, object, CODE)? {
        Some(Whole::Unsigned(code)) => if code >= 200 && code <= 599 {
            Ok(code as u16)
        } else {
            Err(wrong_form(alloc, CODE))
        },
        Some(Whole::Negative(_)) => Err(wrong_form(alloc, CODE)),
        None => Ok(200),
    }
}

#[tactic(auto, unfolding(crate::specs::Responses::reason_of))]
fn read_reason(alloc: Global, object: &Value, code: u16) -> Result<Body, MemberFault>
    ensures { MatchResult result
        (λ reason. reason_of code (view object.now) ≡ Ok reason)
        (IsFaultOf (reason_of code (view object.now))) }
{
    match text_member(alloc, object, REASON)? {
        Some(text) => match field_value(alloc, text)? {
            Some(reason) => Ok(reason),
            None => Err(wrong_form(alloc, REASON)),
        },
        None => if code == 200 {
            Ok(Body::new(alloc, b"OK")?)
        } else {
            Ok(Body::empty(alloc))
        },
    }
}

#[tactic(auto, unfolding(crate::specs::Responses::body_of))]
fn read_body(alloc: Global, object: &Value) -> Result<Body, MemberFault>
    ensures { MatchResult result
        (λ body. body_of (view object.now) ≡ Ok body)
        (IsFaultOf (body_of (view object.now))) }
{
    match payload_member(alloc, object, "body", "body-bin")? {
        Some(payload) => Ok(payload.into_body()),
        None => Ok(Body::empty(alloc)),
    }
}
