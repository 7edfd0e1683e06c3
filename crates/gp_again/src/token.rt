//! The token by which a request to an origin is signed.
ghost use Rattle.std.specs.Prelude.{◌≡◌, IfOk, IfSome};
ghost use Rattle.gp_head.specs.Writable.{IsFieldValue};
ghost use Rattle.gp_sig.specs.Tokens.{token_of};
ghost use Rattle.gp_again.specs.Texts.{expiry, issuer, sig_at};

use gp_exchange::forward_law;
use gp_plain::{Body, Signer};
use gp_sig::token;
use std::alloc::{AllocError, Global};

/// How long a token counts, in seconds.
const TOKEN_SECONDS: u64 = 3600;

/// The second from which on a token of this second counts no more.
fn expiry(now: u64) -> u64
    ensures { result ≡ expiry now }
{
    now.saturating_add(TOKEN_SECONDS)
}

/// The token of a moment under a key.
fn token_at(alloc: Global, key: &Body, now: u64) -> Result<Body, AllocError>
    ensures is { IfOk result (λ text. text ≡ token_of key.now issuer (expiry now)) }
    ensures value { IfOk result IsFieldValue }
{
    forward_law();
    token(alloc, key.bytes(), b"pushpin", expiry(now))
}

/// The token of a moment, where there is a key: the value of `grip-sig` (GRIP), a JSON Web Token of the issuer `pushpin` that counts for
/// 3,600 seconds from the second `now` on. It can stand in a field (RFC 9110, section 5.5). The only error is want of memory.
pub fn sig_at(alloc: Global, signer: &Signer, now: u64) -> Result<Option<Body>, AllocError>
    ensures is { IfOk result (λ sig. sig ≡ sig_at signer.now now) }
    ensures value { IfOk result (λ sig. IfSome sig IsFieldValue) }
{
    match &signer.key {
        None => Ok(None),
        Some(key) => Ok(Some(token_at(alloc, key, now)?)),
    }
}
