//! Writing a token.
ghost use Rattle.std.specs.Prelude.{◌≡◌, IfOk, OnOk};
ghost use Rattle.gp_sig.specs.Tokens.{IsPlain, dotted, token_of};

use crate::claims::write_claims;
use crate::parts::{encode, sign};
use crate::text::append;
use gp_plain::Body;
use std::alloc::{AllocError, Global};

/// A token of an issuer that counts until the second `exp`: a JSON Web Token (RFC 7519) in the compact form of RFC 7515,
/// section 7.1, signed by HMAC-SHA-256 under the key.
///
/// The issuer is printable ASCII without `"` and `\`.
pub fn token(alloc: Global, key: &[u8], iss: &[u8], exp: u64) -> Result<Body, AllocError>
    requires plain { IsPlain iss.now }
    ensures { IfOk result (λ text. text ≡ token_of key.now iss.now exp) }
{
    let claims = write_claims(alloc, iss, exp)?;
    let mut text = encode(alloc, b"{\"typ\":\"JWT\",\"alg\":\"HS256\"}")?;
    append_part(&mut text, &encode(alloc, &claims)?)?;
    let signature = sign(alloc, key, &text)?;
    append_part(&mut text, &signature)?;
    Ok(Body::from_vec(text))
}

/// Adds a dot and a part.
fn append_part(text: &mut Vec<u8>, part: &[u8]) -> Result<(), AllocError>
    ensures { OnOk result (text.new.items ≡ dotted text.old.items part.now) }
{
    append(text, b".")?;
    append(text, part)
}
