use gp_outside::{Turn, Turns};
use gp_plain::Body;
use std::alloc::{AllocError, Global};

/// More bytes than these are shown by their number.
const LONG: usize = 64;

/// A number, or 0 where the word is none.
pub fn number(word: &str) -> usize {
    word.parse::<usize>().unwrap_or(0)
}

/// A turn: a number of bytes, `wait` or `fail`.
pub fn turn(word: &str) -> Turn {
    match word {
        "wait" => Turn::Wait,
        "fail" => Turn::Fail,
        count => Turn::Bytes(count.parse::<u32>().unwrap_or(0)),
    }
}

/// Turns between commas, or none for `-`.
pub fn turns(alloc: Global, word: &str) -> Result<Turns, AllocError> {
    let mut turns = Vec::new(alloc);
    for part in word.split(',') {
        if part != "-" {
            turns.push(turn(part))?;
        }
    }
    Ok(Turns::from_vec(turns))
}

/// The bytes of a word: none for `-`, so many `x` for `~` and a number, and else its own.
pub fn bytes(alloc: Global, word: &str) -> Result<Vec<u8>, AllocError> {
    match word.strip_prefix("~") {
        Some(count) => {
            let mut bytes = Vec::new(alloc);
            bytes.resize(number(count), b'x')?;
            Ok(bytes)
        }
        None if word == "-" => Ok(Vec::new(alloc)),
        None => word.as_bytes().to_vec(alloc),
    }
}

/// The same as a body.
pub fn body(alloc: Global, word: &str) -> Result<Body, AllocError> {
    Ok(Body::from_vec(bytes(alloc, word)?))
}

/// Adds bytes as text: each as one letter, `-` for none, and their number for many.
pub fn push_bytes(text: &mut String, bytes: &[u8]) -> Result<(), AllocError> {
    if bytes.is_empty() {
        return text.push('-');
    }
    if bytes.len() > LONG {
        return write!(text, "({} bytes)", bytes.len());
    }
    for byte in bytes {
        text.push(char::from(*byte))?;
    }
    Ok(())
}
