//! Frames, and what is read of them, all at once and byte by byte. The masked `Hello`, the fragments and the headers are the examples of
//! RFC 6455, section 5.7. A key of four zeros leaves a payload as it is.
ghost use Rattle.std.specs.Prelude.{◌<◌};

use crate::{WsIn, WsNext, frame_head};
use gp_plain::{Body, Message};
use std::alloc::{AllocError, Global};
use std::test::Fail;

const FRAMES: [(&[u8], &[u8]); 27] = [
    (b"", b"not whole"),
    (
        b"\x81\x85\x37\xFA\x21\x3D\x7F\x9F\x4D\x51\x58",
        b"text Hello, not whole",
    ),
    (
        b"\x8A\x85\x37\xFA\x21\x3D\x7F\x9F\x4D\x51\x58\x82\x80\0\0\0\0",
        b"pong Hello, binary , not whole",
    ),
    (
        b"\x01\x83\0\0\0\0Hel\x80\x82\0\0\0\0lo",
        b"text Hello, not whole",
    ),
    (
        b"\x01\x83\0\0\0\0Hel\x89\x82\0\0\0\0hi\x80\x82\0\0\0\0lo",
        b"ping hi, text Hello, not whole",
    ),
    (
        b"\x02\x81\0\0\0\0a\0\x80\0\0\0\0\0\x81\0\0\0\0b\x80\x80\0\0\0\0\x81",
        b"binary ab, not whole",
    ),
    // a character in two fragments
    (
        b"\x01\x81\0\0\0\0\xC3\x80\x81\0\0\0\0\xA9",
        b"text \xC3\xA9, not whole",
    ),
    // a close ends the bytes, within a message too
    (
        b"\x88\x85\0\0\0\0\x03\xE8bye\x81\x80\0\0\0\0",
        b"close 1000 bye, ended",
    ),
    (b"\x01\x81\0\0\0\0a\x88\x80\0\0\0\0", b"close, ended"),
    // codes that no one may send
    (b"\x88\x83\0\0\0\0\x03\xEDx", b"close 1002 , ended"),
    (b"\x88\x82\0\0\0\0\x03\xF6", b"close 1002 , ended"),
    (b"\x88\x81\0\0\0\0\x03", b"bad"),
    (b"\x88\x83\0\0\0\0\x03\xE8\xFF", b"bad"),
    // no mask
    (b"\x81\x05Hello", b"bad"),
    (b"\x89\x00", b"bad"),
    // no UTF-8
    (b"\x81\x81\0\0\0\0\xFF", b"bad"),
    (b"\x01\x81\0\0\0\0\xFF", b"bad"),
    // no message to go on with, and one that isn't ended
    (b"\x80\x80\0\0\0\0", b"bad"),
    (b"\x01\x80\0\0\0\0\x81\x80\0\0\0\0", b"bad"),
    // a control frame in fragments, a reserved bit, a reserved opcode
    (b"\x09\x80\0\0\0\0", b"bad"),
    (b"\xC1\x80\0\0\0\0", b"bad"),
    (b"\x83", b"bad"),
    // a length that isn't in its shortest form
    (b"\x81\xFE\0\x05", b"bad"),
    // headers that announce 126 bytes of control and 1,048,577 bytes
    (b"\x89\xFE\0\x7E\0\0\0\0", b"bad"),
    (b"\x82\xFF\0\0\0\0\0\x10\0\x01\0\0\0\0", b"bad"),
    (b"\x82\xFF\0\0\0\0\0\x10\0\0\0\0\0\0", b"not whole"),
    (b"\x81\x81\0\0\0\0a\x83\x81\x81", b"text a, bad"),
];

fn tell(text: &mut Vec<u8>, word: &[u8], bytes: &[u8]) -> Result<(), AllocError> {
    text.extend_from_slice(word)?;
    text.extend_from_slice(bytes)?;
    text.extend_from_slice(b", ")
}

fn tell_message(alloc: Global, text: &mut Vec<u8>, message: Message) -> Result<(), AllocError> {
    match message {
        Message::Text(bytes) => tell(text, b"text ", bytes.bytes()),
        Message::Binary(bytes) => tell(text, b"binary ", bytes.bytes()),
        Message::Ping(bytes) => tell(text, b"ping ", bytes.bytes()),
        Message::Pong(bytes) => tell(text, b"pong ", bytes.bytes()),
        Message::Close { code: None, .. } => tell(text, b"close", b""),
        Message::Close {
            code: Some(code),
            reason,
        } => {
            let word = format!(in alloc; "close {code} ")?;
            tell(text, word.as_bytes(), reason.bytes())
        }
    }
}

/// Tells the messages, and gives the answer behind them.
fn tell_all(
    alloc: Global,
    input: &mut WsIn,
    text: &mut Vec<u8>,
) -> Result<&'static [u8], AllocError> {
    for _ in 0..9u8 {
        match input.next() {
            WsNext::Message(message) => tell_message(alloc, text, message)?,
            WsNext::NotWhole => return Ok(b"not whole"),
            WsNext::Ended => return Ok(b"ended"),
            WsNext::Bad => return Ok(b"bad"),
            WsNext::NoMemory => return Err(AllocError),
        }
    }
    Ok(b"more")
}

/// What is read of bytes that come in reads of so many.
fn read_in(alloc: Global, bytes: &[u8], count: usize) -> Result<Vec<u8>, AllocError>
    requires { 0 < count }
{
    let mut input = WsIn::new(alloc)?;
    let mut text = Vec::new(alloc);
    for part in bytes.chunks(count) {
        input.feed(part)?;
        tell_all(alloc, &mut input, &mut text)?;
    }
    let last = tell_all(alloc, &mut input, &mut text)?;
    text.extend_from_slice(last)?;
    Ok(text)
}

#[test]
fn messages(rt: HostRuntime) -> Result<(), Fail> {
    for (row, (bytes, expected)) in FRAMES.iter().enumerate() {
        let at_once = read_in(rt.alloc(), bytes, 4096)?;
        assert!(rt; at_once.as_slice() == *expected, "row {row}");
        let by_byte = read_in(rt.alloc(), bytes, 1)?;
        assert!(rt; by_byte.as_slice() == *expected, "row {row} byte by byte");
    }
    Ok(())
}

/// What is read of a frame of 1,048,576 bytes with this first byte, and the bytes behind it.
fn read_long(alloc: Global, first: u8, behind: &[u8]) -> Result<usize, AllocError> {
    let mut bytes = Vec::new(alloc);
    bytes.extend_from_slice(&[first, 0xFF, 0, 0, 0, 0, 0, 0x10, 0, 0, 0, 0, 0, 0])?;
    bytes.resize(14 + 1_048_576, b'a')?;
    bytes.extend_from_slice(behind)?;
    Ok(read_in(alloc, bytes.as_slice(), 8192)?.len())
}

#[test]
fn the_longest_message(rt: HostRuntime) -> Result<(), Fail> {
    let whole = read_long(rt.alloc(), 0x81, b"")?;
    assert!(rt; whole == "text , not whole".len() + 1_048_576);
    let too_long = read_long(rt.alloc(), 0x01, b"\x80\x81\0\0\0\0a")?;
    assert!(rt; too_long == "bad".len());
    Ok(())
}

/// The header of a frame, and nothing for a message that is too long.
fn head(message: &Message, into: &mut [u8; 10]) -> usize {
    if message.fits() {
        frame_head(message, into)
    } else {
        0
    }
}

fn binary(alloc: Global, count: usize) -> Result<Message, AllocError> {
    let mut bytes = Vec::new(alloc);
    bytes.resize(count, b'a')?;
    Ok(Message::Binary(Body::from_vec(bytes)))
}

#[test]
fn heads(rt: HostRuntime) -> Result<(), Fail> {
    const HEADS: [(usize, &[u8]); 6] = [
        (0, b"\x82\x00"),
        (125, b"\x82\x7D"),
        (126, b"\x82\x7E\0\x7E"),
        (256, b"\x82\x7E\x01\0"),
        (65535, b"\x82\x7E\xFF\xFF"),
        (65536, b"\x82\x7F\0\0\0\0\0\x01\0\0"),
    ];
    let mut into = [0; 10];
    for (count, expected) in HEADS.iter() {
        let length = head(&binary(rt.alloc(), *count)?, &mut into);
        assert!(rt; &into[..length.min(10)] == *expected, "{count} bytes");
    }
    let text = Message::Text(Body::new(rt.alloc(), b"Hello")?);
    let length = head(&text, &mut into);
    assert!(rt; &into[..length.min(10)] == b"\x81\x05".as_slice());
    let ping = Message::Ping(Body::new(rt.alloc(), b"Hello")?);
    let length = head(&ping, &mut into);
    assert!(rt; &into[..length.min(10)] == b"\x89\x05".as_slice());
    let close = Message::Close {
        code: Some(1000),
        reason: Body::new(rt.alloc(), b"bye")?,
    };
    let length = head(&close, &mut into);
    assert!(rt; &into[..length.min(10)] == b"\x88\x05".as_slice());
    Ok(())
}
