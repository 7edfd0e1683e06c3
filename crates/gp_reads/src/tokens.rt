use gp_escapes::push_escaped;
use gp_sig::{Claims, SigFault, check, hmac, token};
use std::alloc::{AllocError, Global};

/// The authentication code, in hexadecimal digits.
pub fn mac(text: &mut String, key: &[u8], bytes: &[u8]) -> Result<(), AllocError> {
    for byte in hmac(key, bytes) {
        write!(text, "{byte:02x}")?;
    }
    Ok(())
}

/// The token of a key, an issuer and an end.
pub fn written(
    alloc: Global,
    text: &mut String,
    key: &str,
    issuer: &str,
    end: &str,
) -> Result<(), AllocError> {
    let end = end.parse::<u64>().unwrap_or(0);
    if issuer != "pushpin" {
        return text.push_str("another issuer");
    }
    let token = token(alloc, key.as_bytes(), b"pushpin", end)?;
    push_escaped(text, token.bytes())
}

fn push_claims(text: &mut String, claims: &Claims) -> Result<(), AllocError> {
    push_escaped(text, claims.iss.bytes())?;
    write!(text, " {}", claims.exp)
}

/// The issuer and the end of a token at a moment, or why it doesn't count.
pub fn checked(
    alloc: Global,
    text: &mut String,
    key: &str,
    now: &str,
    token: &str,
) -> Result<(), AllocError> {
    let now = now.parse::<u64>().unwrap_or(0);
    match &check(alloc, key.as_bytes(), token.as_bytes(), now) {
        Ok(claims) => push_claims(text, claims),
        Err(SigFault::NoMemory) => Err(AllocError),
        Err(fault) => write!(text, "{fault:?}"),
    }
}
