//! Bytes that are cut, joined and compared.
ghost use Rattle.std.specs.Prelude.{◌≡◌, ◌≢◌, ◌++◌, ◌∷◌, ◌↔◌, List, ℕ, All, IsTrue, OnOk, OnErr, MatchOption};

use std::alloc::AllocError;

/// Adds bytes at the end.
pub(crate) fn append(out: &mut Vec<u8>, more: &[u8]) -> Result<(), AllocError>
    ensures { OnOk result (out.new.items ≡ out.old.items ++ more.now) }
{
    out.extend_from_slice(more)
}

/// What stands behind a beginning.
pub(crate) fn after<'a>(text: &'a [u8], front: &[u8]) -> Option<&'a [u8]>
    ensures { MatchOption result ((rest : List ℕ) → text.now ≢ front.now ++ rest) (λ rest. text.now ≡ front.now ++ rest.now) }
{
    if text.len() < front.len() {
        return None;
    }
    let (begin, rest) = text.split_at(front.len());
    if are_same(begin, front) {
        Some(rest)
    } else {
        None
    }
}

/// What stands before an end.
pub(crate) fn before<'a>(text: &'a [u8], back: &[u8]) -> Option<&'a [u8]>
    ensures { MatchOption result ((front : List ℕ) → text.now ≢ front ++ back.now) (λ front. text.now ≡ front.now ++ back.now) }
{
    if text.len() < back.len() {
        return None;
    }
    let (front, end) = text.split_at(text.len() - back.len());
    if are_same(end, back) {
        Some(front)
    } else {
        None
    }
}

/// What stands before and behind the first such byte.
pub(crate) fn cut_at(text: &[u8], mark: u8) -> Option<(&[u8], &[u8])>
    ensures { MatchOption result (All (λ b. b ≢ mark) text.now) (λ cut. All (λ b. b ≢ mark) cut.0.now × (text.now ≡ cut.0.now ++ mark ∷ cut.1.now)) }
{
    for (i, byte) in text.iter().enumerate() {
        if *byte == mark {
            return Some((&text[..i], &text[i + 1..]));
        }
    }
    None
}

/// Whether two texts are one. It looks at each byte, also where an earlier one differs; nothing is proved of the time
/// that it takes.
pub(crate) fn are_same(a: &[u8], b: &[u8]) -> bool
    ensures { IsTrue result ↔ (a.now ≡ b.now) }
{
    if a.len() != b.len() {
        return false;
    }
    let mut same = true;
    for i in 0..a.len() {
        same &= a[i] == b[i];
    }
    same
}
