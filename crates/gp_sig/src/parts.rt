//! Base64url, and the three parts of a token (RFC 7515, section 7.1).
ghost use Rattle.std.specs.Prelude.{◌≡◌, ◌≢◌, ◌∷◌, [], ◌==◌, List, ℕ, IfOk, MatchOption};
ghost use Rattle.std.specs.List.{slice_split};
ghost use Rattle.base64.specs.GeneralPurpose.{IsBytes};
ghost use Rattle.gp_sig.specs.Tokens.{base64url, dotted, IsBase64url, IsOnlyReading, HasParts, signature_of};

use crate::mac::hmac;
use crate::text::cut_at;
use base64::DecodeAllocError;
use base64::engine::general_purpose::URL_SAFE_NO_PAD;
use std::alloc::{AllocError, Global};

/// Bytes in base64url without padding.
pub(crate) fn encode(alloc: Global, bytes: &[u8]) -> Result<Vec<u8>, AllocError>
    ensures { IfOk result (λ text. text.items ≡ base64url bytes.now) }
{
    Ok(URL_SAFE_NO_PAD.encode(alloc, bytes)?.into_bytes())
}

/// The bytes of a text in base64url, or none. Each bytes have one text.
fn decode(alloc: Global, text: &[u8]) -> Result<Option<Vec<u8>>, AllocError>
    ensures { IfOk result (λ read. MatchOption read (IsBase64url text.now → ⊥) (λ bytes. IsBytes bytes.items × (text.now ≡ base64url bytes.items) × IsOnlyReading text.now bytes.items)) }
{
    match URL_SAFE_NO_PAD.decode(alloc, text) {
        Ok(bytes) => Ok(Some(bytes)),
        Err(DecodeAllocError::DecodeError(_)) => Ok(None),
        Err(DecodeAllocError::OutOfMemory) => Err(AllocError),
    }
}

/// The third part of a token, for the first two with their dot.
pub(crate) fn sign(alloc: Global, key: &[u8], signed: &[u8]) -> Result<Vec<u8>, AllocError>
    ensures { IfOk result (λ text. text.items ≡ signature_of key.now signed.now) }
{
    encode(alloc, &hmac(key, signed))
}

/// The parts of a token.
#[derive(Drop)]
pub(crate) struct Parts<'a> {
    /// The first two with their dot.
    pub signed: &'a [u8],
    /// The second.
    pub claims: &'a [u8],
    /// The third.
    pub signature: &'a [u8],
    /// What the second encodes.
    pub bytes: Vec<u8>,
}

/// The texts between two dots.
#[derive(Clone, Copy, Drop)]
struct Texts<'a> {
    signed: &'a [u8],
    head: &'a [u8],
    claims: &'a [u8],
    signature: &'a [u8],
}

/// The three texts between the dots of a token, or none where there aren't just two dots.
fn cut_token(token: &[u8]) -> Option<Texts<'_>>
    ensures { MatchOption result ((head claims signature : List ℕ) → slice_split (λ b. b == 46) token.now ≢ head ∷ claims ∷ signature ∷ []) (λ cut. (slice_split (λ b. b == 46) token.now ≡ cut.head.now ∷ cut.claims.now ∷ cut.signature.now ∷ []) × (cut.signed.now ≡ dotted cut.head.now cut.claims.now)) }
{
    let Some((head, rest)) = cut_at(token, b'.') else {
        return None;
    };
    let Some((claims, signature)) = cut_at(rest, b'.') else {
        return None;
    };
    match cut_at(signature, b'.') {
        Some(_) => None,
        None => {
            let (signed, _) = token.split_at(head.len() + 1 + claims.len());
            Some(Texts {
                signed,
                head,
                claims,
                signature,
            })
        }
    }
}

/// The parts of a token, or none where it hasn't three parts in base64url.
pub(crate) fn read_parts(alloc: Global, token: &[u8]) -> Result<Option<Parts<'_>>, AllocError>
    ensures { IfOk result (λ read. MatchOption read ((head claims signature : List ℕ) → HasParts token.now head claims signature → ⊥) (λ parts. ((head : List ℕ) × HasParts token.now head parts.claims.now parts.signature.now × (parts.signed.now ≡ dotted head parts.claims.now)) × IsBytes parts.bytes.items × (parts.claims.now ≡ base64url parts.bytes.items) × IsOnlyReading parts.claims.now parts.bytes.items)) }
{
    let Some(texts) = cut_token(token) else {
        return Ok(None);
    };
    let Some(_) = decode(alloc, texts.head)? else {
        return Ok(None);
    };
    let Some(bytes) = decode(alloc, texts.claims)? else {
        return Ok(None);
    };
    let Some(_) = decode(alloc, texts.signature)? else {
        return Ok(None);
    };
    Ok(Some(Parts {
        signed: texts.signed,
        claims: texts.claims,
        signature: texts.signature,
        bytes,
    }))
}
