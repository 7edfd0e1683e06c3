//! Bytes, and what is read of them: the events as they are written again, or the fault and its place.
use crate::{Control, EventFault, read_control, read_events, write_events};
use std::alloc::{AllocError, Global};
use std::test::Fail;

const EVENTS: [(&[u8], &[u8]); 19] = [
    (b"", b""),
    (b"OPEN\r\n", b"OPEN\r\n"),
    (b"TEXT 5\r\nhello\r\n", b"TEXT 5\r\nhello\r\n"),
    (b"TEXT 05\r\nhello\r\n", b"TEXT 5\r\nhello\r\n"),
    (
        b"BINARY 0000000a\r\n0123456789\r\n",
        b"BINARY A\r\n0123456789\r\n",
    ),
    (
        b"OPEN\r\nPING 0\r\n\r\nPONG\r\nDISCONNECT\r\n",
        b"OPEN\r\nPING 0\r\n\r\nPONG\r\nDISCONNECT\r\n",
    ),
    (
        b"TEXT 2\r\n\r\n\r\nCLOSE 2\r\n\x03\xE8\r\n",
        b"TEXT 2\r\n\r\n\r\nCLOSE 2\r\n\x03\xE8\r\n",
    ),
    (b"TEXT 6\r\nhello\r\n", b"tail 14"),
    (b"TEXT 9\r\nhello\r\n", b"short 8"),
    (b"TEXT FFFFFFFF\r\n", b"short 15"),
    (b"TEXT 000000005\r\n", b"size 5"),
    (b"TEXT  5\r\nhello\r\n", b"size 5"),
    (b"TEXT 5\nhello\r\n", b"size 5"),
    (b"text 5\r\n", b"name 0"),
    (b"OPEN", b"name 0"),
    (b"OPEN\r", b"name 0"),
    (b"OPEN\r\nOPENED\r\n", b"name 6"),
    (b"OPEN\r\nTEXT 5\r\nhell", b"short 14"),
    (b"OPEN\r\nTEXT 5\r\nhello", b"tail 19"),
];

const CONTROLS: [(&[u8], &[u8]); 12] = [
    (
        b"{\"type\":\"subscribe\",\"channel\":\"x\"}",
        b"subscribe x",
    ),
    (
        b" {\"channel\":\"a b\",\"type\":\"unsubscribe\",\"more\":[1]} ",
        b"unsubscribe a b",
    ),
    (b"{\"type\":\"detach\"}", b"detach"),
    (b"{\"type\":\"detach\",\"channel\":null}", b"detach"),
    (b"{\"type\":\"subscribe\"}", b"unknown"),
    (b"{\"type\":\"subscribe\",\"channel\":null}", b"unknown"),
    (b"{\"type\":\"subscribe\",\"channel\":7}", b"unknown"),
    (b"{\"type\":\"subscribe\",\"channel\":\"\"}", b"unknown"),
    (b"{\"type\":\"subscribe\",\"channel\":\"a,b\"}", b"unknown"),
    (b"{\"type\":\"Detach\"}", b"unknown"),
    (b"[\"detach\"]", b"unknown"),
    (b"detach", b"unknown"),
];

fn place(alloc: Global, word: &str, place: u32) -> Result<Vec<u8>, AllocError> {
    Ok(format!(in alloc; "{word} {place}")?.into_bytes())
}

fn read_again(alloc: Global, bytes: &[u8]) -> Result<Vec<u8>, AllocError> {
    if bytes.len() > 1_048_576 {
        return Err(AllocError);
    }
    match read_events(alloc, bytes) {
        Ok(events) => Ok(write_events(alloc, &events)?.into_vec()),
        Err(EventFault::Name(at)) => place(alloc, "name", at),
        Err(EventFault::Size(at)) => place(alloc, "size", at),
        Err(EventFault::Short(at)) => place(alloc, "short", at),
        Err(EventFault::Tail(at)) => place(alloc, "tail", at),
        Err(EventFault::NoMemory) => Err(AllocError),
    }
}

fn joined(alloc: Global, word: &[u8], name: &[u8]) -> Result<Vec<u8>, AllocError> {
    let mut text = word.to_vec(alloc)?;
    text.extend_from_slice(name)?;
    Ok(text)
}

fn control(alloc: Global, bytes: &[u8]) -> Result<Vec<u8>, AllocError> {
    match read_control(alloc, bytes)? {
        Control::Subscribe(name) => joined(alloc, b"subscribe ", name.bytes()),
        Control::Unsubscribe(name) => joined(alloc, b"unsubscribe ", name.bytes()),
        Control::Detach => b"detach".to_vec(alloc),
        Control::Unknown => b"unknown".to_vec(alloc),
    }
}

#[test]
fn events_and_faults(rt: HostRuntime) -> Result<(), Fail> {
    for (row, (bytes, expected)) in EVENTS.iter().enumerate() {
        let read = read_again(rt.alloc(), bytes)?;
        assert!(rt; read.as_slice() == *expected, "row {row}");
    }
    Ok(())
}

#[test]
fn controls(rt: HostRuntime) -> Result<(), Fail> {
    for (row, (bytes, expected)) in CONTROLS.iter().enumerate() {
        let read = control(rt.alloc(), bytes)?;
        assert!(rt; read.as_slice() == *expected, "row {row}");
    }
    Ok(())
}
