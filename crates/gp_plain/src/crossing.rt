//! Threads share a signer by reference.
use crate::http::Signer;

fn shares<T: Sync>(_: &T) {}

fn moves<T: Send>(value: T) -> T {
    value
}

/// A signer may be moved and shared.
pub(crate) fn crosses(signer: Signer) -> Signer {
    shares(&signer);
    moves(signer)
}
