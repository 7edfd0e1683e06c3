ghost use Rattle.std.specs.Prelude.{◌≡◌, MatchResult, Ok, length};
ghost use Rattle.serde_json.specs.View.{view};
ghost use Rattle.base64.specs.GeneralPurpose.{decode_of};
ghost use Rattle.base64.specs.Engines.{standard};
ghost use Rattle.gp_json.specs.Members.{IsFaultOf};
ghost use Rattle.gp_json.specs.Payloads.{decoded, payload_of, bytes_of};

use crate::fault::{MemberFault, no_base64};
use crate::members::text_member;
use base64::DecodeAllocError;
use base64::engine::general_purpose::STANDARD;
use gp_plain::Body;
use serde_json::Value;
use std::alloc::Global;

/// Bytes, and which of two members they came from.
#[derive(Drop)]
pub enum Payload {
    /// Those of the text member.
    Text(Body),
    /// Those that the base64 of its twin stands for.
    Binary(Body),
}

impl Payload {
    /// How many bytes there are.
    pub fn len(&self) -> usize
        ensures { result ≡ length (bytes_of self.now) }
    {
        match self {
            Payload::Text(bytes) | Payload::Binary(bytes) => bytes.len(),
        }
    }

    /// The bytes. It takes no memory.
    pub fn into_body(self) -> Body
        ensures { result ≡ bytes_of self }
    {
        match self {
            Payload::Text(bytes) | Payload::Binary(bytes) => bytes,
        }
    }
}

/// What a text member and its twin of base64 (RFC 4648, section 4, with padding, canonical) give; nothing where both
/// are absent. The twin wins. A member that is no string is refused first, the text member before its twin, and then
/// a twin that is no base64.
#[tactic(auto, unfolding(crate::specs::Payloads::payload_of))]
pub fn payload_member(
    alloc: Global,
    object: &Value,
    text_name: &str,
    binary_name: &str,
) -> Result<Option<Payload>, MemberFault>
    ensures { MatchResult result
        (λ payload. payload_of text_name.now binary_name.now (view object.now) ≡ Ok payload)
        (IsFaultOf (payload_of text_name.now binary_name.now (view object.now))) }
{
    let text = text_member(alloc, object, text_name)?;
    let coded = text_member(alloc, object, binary_name)?;
    if let Some(coded) = coded {
        return decode(alloc, coded, binary_name);
    }
    match text {
        Some(text) => Ok(Some(Payload::Text(Body::new(alloc, text.as_bytes())?))),
        None => Ok(None),
    }
}

/// The bytes that base64 stands for.
fn decode(alloc: Global, coded: &str, name: &str) -> Result<Option<Payload>, MemberFault>
    ensures { MatchResult result
        (λ payload. decoded name.now (decode_of standard coded.now) ≡ Ok payload)
        (IsFaultOf (decoded name.now (decode_of standard coded.now))) }
{
    match STANDARD.decode(alloc, coded.as_bytes()) {
        Ok(bytes) => Ok(Some(Payload::Binary(Body::from_vec(bytes)))),
        Err(DecodeAllocError::DecodeError(_)) => Err(no_base64(alloc, name)),
        Err(DecodeAllocError::OutOfMemory) => Err(MemberFault::NoMemory),
    }
}
