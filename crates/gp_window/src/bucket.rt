//! The buckets by which items are found: equal texts share one.
ghost use Rattle.std.specs.Prelude.{◌≡◌, ◌<◌, ◌/◌, IfOk, replicate};
ghost use Rattle.gp_window.specs.Buckets.{bucket, bucket_or, channel_bucket, mixed};

use gp_plain::{ItemId, Name};
use std::alloc::{AllocError, Global};

/// How many buckets there are: those for texts, and one more for what has none.
const ALL_BUCKETS: usize = 16385;

/// The bucket of what has no text.
pub const NO_BUCKET: usize = 16384;

/// The hash of no text. The hash multiplies by the 32 bits of the golden ratio, so that near texts lie far apart.
const START: u64 = 2166136261;

/// A number that goes on from another by the bytes of a text, below 2^32.
fn mixed(start: u64, bytes: &[u8]) -> u64
    requires { start < 4294967296 }
    ensures mixed { result ≡ mixed start bytes.now }
    ensures few { result < 4294967296 }
{
    let mut hash = start;
    for byte in bytes {
        hash = (hash + *byte as u64) * 2654435761 % 4294967296;
    }
    hash
}

/// The bucket of a hash: its upper bits.
fn upper(hash: u64) -> usize
    requires { hash < 4294967296 }
    ensures upper { result ≡ hash / 262144 }
    ensures few { result < 16384 }
{
    (hash / 262144) as usize
}

/// The bucket of an id on a channel.
pub fn bucket(channel: &Name, id: &ItemId) -> usize
    ensures bucket { result ≡ bucket channel.now id.now }
    ensures few { result < 16384 }
{
    upper(mixed(mixed(START, channel.bytes()), id.bytes()))
}

/// The bucket of an id on a channel, where there is an id.
pub fn bucket_or(channel: &Name, id: &Option<ItemId>) -> usize
    ensures bucket { result ≡ bucket_or channel.now id.now }
    ensures few { result < 16385 }
{
    match id {
        Some(id) => bucket(channel, id),
        None => NO_BUCKET,
    }
}

/// The bucket of a channel.
pub fn channel_bucket(channel: &Name) -> usize
    ensures bucket { result ≡ channel_bucket channel.now }
    ensures few { result < 16384 }
{
    upper(mixed(START, channel.bytes()))
}

/// A number for each bucket, at first 0.
pub fn zeros(alloc: Global) -> Result<Vec<u16>, AllocError>
    ensures { IfOk result (λ numbers. numbers.items ≡ replicate 16385 0) }
{
    vec![in alloc; 0u16; ALL_BUCKETS]
}
