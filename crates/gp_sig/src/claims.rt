//! The claims of a token, as it writes them.
ghost use Rattle.std.specs.Prelude.{◌≡◌, ◌≢◌, ◌<◌, ◌^◌, ◌↔◌, ◌++◌, List, ℕ, All, codes, IsTrue, IfOk, IfSome, MatchOption};
ghost use Rattle.std.specs.Fmt.{decimal};
ghost use Rattle.gp_sig.specs.Tokens.{IsPlain, IsPlainByte, claims_text};

use crate::text::{after, append, are_same, before, cut_at};
use gp_plain::Body;
use std::alloc::{AllocError, Global};

/// Who made a token, and the second from which it doesn't count any more.
#[derive(Drop)]
pub struct Claims {
    /// Who made the token.
    pub iss: Body,
    /// The second from which it doesn't count any more.
    pub exp: u64,
}

/// The text of claims.
pub(crate) fn write_claims(alloc: Global, iss: &[u8], exp: u64) -> Result<Vec<u8>, AllocError>
    ensures { IfOk result (λ text. text.items ≡ claims_text iss.now exp) }
{
    let number = format!(in alloc; "{exp}")?;
    let mut text = Vec::new(alloc);
    append(&mut text, b"{\"exp\":")?;
    append(&mut text, number.as_bytes())?;
    append(&mut text, b",\"iss\":\"")?;
    append(&mut text, iss)?;
    append(&mut text, b"\"}")?;
    Ok(text)
}

/// Whether an issuer stands in JSON as it is.
fn is_plain(iss: &[u8]) -> bool
    ensures { IsTrue result ↔ IsPlain iss.now }
{
    iss.iter().all(|byte| is_plain_byte(*byte))
}

fn is_plain_byte(byte: u8) -> bool
    ensures { IsTrue result ↔ IsPlainByte byte }
{
    32 <= byte && byte <= 126 && byte != b'"' && byte != b'\\'
}

/// The number whose decimal digits a text is, as they are written.
fn read_number(alloc: Global, text: &[u8]) -> Result<Option<u64>, AllocError>
    ensures { IfOk result (λ read. MatchOption read ((n : ℕ) → n < 2 ^ 64 → text.now ≢ decimal n) (λ n. text.now ≡ decimal n)) }
{
    let Ok(digits) = str::from_utf8(text) else {
        return Ok(None);
    };
    let Ok(number) = digits.parse::<u64>() else {
        return Ok(None);
    };
    let written = format!(in alloc; "{number}")?;
    Ok(if are_same(written.as_bytes(), text) {
        Some(number)
    } else {
        None
    })
}

/// The digits and the issuer in the text of claims: what stands before the first comma, and behind it.
fn cut_claims(text: &[u8]) -> Option<(&[u8], &[u8])>
    ensures { MatchOption result ((exp : ℕ) (iss : List ℕ) → exp < 2 ^ 64 → text.now ≢ claims_text iss exp) (λ cut. (text.now ≡ codes "{\"exp\":" ++ (cut.0.now ++ (codes ",\"iss\":\"" ++ (cut.1.now ++ codes "\"}")))) × All (λ b. b ≢ 44) cut.0.now) }
{
    let (digits, rest) = cut_at(after(text, b"{\"exp\":")?, b',')?;
    let iss = before(after(rest, b"\"iss\":\"")?, b"\"}")?;
    Some((digits, iss))
}

/// The claims of which this is the text, or none.
pub(crate) fn read_claims(alloc: Global, text: &[u8]) -> Result<Option<Claims>, AllocError>
    ensures { IfOk result (λ read. MatchOption read ((iss : List ℕ) (exp : ℕ) → IsPlain iss → exp < 2 ^ 64 → text.now ≢ claims_text iss exp) (λ claims. IsPlain claims.iss × (text.now ≡ claims_text claims.iss claims.exp))) }
{
    let Some((digits, iss)) = cut_claims(text) else {
        return Ok(None);
    };
    if !is_plain(iss) {
        return Ok(None);
    }
    let Some(exp) = read_number(alloc, digits)? else {
        return Ok(None);
    };
    Ok(Some(Claims {
        iss: Body::new(alloc, iss)?,
        exp,
    }))
}
