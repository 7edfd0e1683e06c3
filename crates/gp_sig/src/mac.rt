//! HMAC over SHA-256 (RFC 2104).
ghost use Rattle.std.specs.Prelude.{◌≡◌, ◌-◌, ◌≤◌, ◌++◌, length, map, replicate, bit_xor};
ghost use Rattle.gp_sig.specs.Hmac.{block, hmac_of};

use sha2::{Digest, Sha256};

/// The inner and the outer pad.
const IPAD: u8 = 0x36;

const OPAD: u8 = 0x5c;

/// The bytes of a block.
const BLOCK: usize = 64;

/// A key of at most a block, and zeros behind it.
fn fill(key: &[u8]) -> [u8; 64]
    requires { length key.now ≤ 64 }
    ensures { result ≡ key.now ++ replicate (64 - length key.now) 0 }
{
    let mut block = [0; BLOCK];
    let (front, _) = block.split_at_mut(key.len());
    front.copy_from_slice(key);
    block
}

/// A key brought to the length of a block.
fn block_of(key: &[u8]) -> [u8; 64]
    ensures { result ≡ block key.now }
{
    if key.len() > BLOCK {
        fill(&Sha256::digest(key))
    } else {
        fill(key)
    }
}

/// Writes over each byte its exclusive or with a pad.
fn mask(bytes: &mut [u8], pad: u8)
    ensures { bytes.new ≡ map (λ b. bit_xor b pad) bytes.old }
{
    for byte in bytes.iter_mut() {
        *byte ^= pad;
    }
}

/// Each byte of a block, exclusive or with a pad.
fn pad_with(block: &[u8; 64], pad: u8) -> [u8; 64]
    ensures { result ≡ map (λ b. bit_xor b pad) block.now }
{
    let mut padded = *block;
    mask(&mut padded, pad);
    padded
}

/// The HMAC of a text under a key (RFC 2104, section 2). It takes no memory.
pub fn hmac(key: &[u8], text: &[u8]) -> [u8; 32]
    ensures { result ≡ hmac_of key.now text.now }
{
    let block = block_of(key);
    let mut inner = Sha256::new();
    inner.update(&pad_with(&block, IPAD));
    inner.update(text);
    let mut outer = Sha256::new();
    outer.update(&pad_with(&block, OPAD));
    outer.update(&inner.finalize());
    outer.finalize()
}
