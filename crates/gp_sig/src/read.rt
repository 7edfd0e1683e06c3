//! Checking a token.
ghost use Rattle.std.specs.Prelude.{◌≡◌, ◌<◌, ◌↔◌, List, ℕ, IsTrue, IfOk, IfErr};
ghost use Rattle.gp_sig.specs.Tokens.{HasClaims, IsRefused, IsSigned, signature_of};

use crate::claims::{Claims, read_claims};
use crate::fault::SigFault;
use crate::parts::{read_parts, sign};
use crate::text::are_same;
use std::alloc::{AllocError, Global};

/// Whether a text is the signature of another.
fn is_signature(alloc: Global, key: &[u8], signed: &[u8], text: &[u8]) -> Result<bool, AllocError>
    ensures { IfOk result (λ is. IsTrue is ↔ (text.now ≡ signature_of key.now signed.now)) }
{
    let signature = sign(alloc, key, signed)?;
    Ok(are_same(&signature, text))
}

/// The claims of a token that counts at the second `now` (RFC 7519, section 7.2), or why it doesn't.
///
/// The checks come in the order of [`SigFault`]: the parts, their signature, the form of the claims, and their end.
/// Nothing is asked of the first part but that the signature covers it.
pub fn check(alloc: Global, key: &[u8], token: &[u8], now: u64) -> Result<Claims, SigFault>
    ensures ok { IfOk result (λ claims. (part : List ℕ) × IsSigned key.now token.now part × HasClaims part claims.iss claims.exp × (now < claims.exp)) }
    ensures err { IfErr result (IsRefused key.now token.now now) }
{
    let Ok(read) = read_parts(alloc, token) else {
        return Err(SigFault::NoMemory);
    };
    let Some(parts) = read else {
        return Err(SigFault::Parts);
    };
    let Ok(is_signed) = is_signature(alloc, key, parts.signed, parts.signature) else {
        return Err(SigFault::NoMemory);
    };
    if !is_signed {
        return Err(SigFault::Signature);
    }
    let Ok(read) = read_claims(alloc, &parts.bytes) else {
        return Err(SigFault::NoMemory);
    };
    let Some(claims) = read else {
        return Err(SigFault::Claims);
    };
    if claims.exp <= now {
        return Err(SigFault::Expired(claims.exp));
    }
    Ok(claims)
}
