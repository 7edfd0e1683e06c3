use gp_escapes::push_escaped;
use gp_head::{HeadRead, read_request};
use gp_plain::Request;
use gp_ws::{UpgradeFault, accept_key, handshake, is_upgrade};
use std::alloc::{AllocError, Global};

/// The accept value of a key.
pub fn accepted(alloc: Global, text: &mut String, key: &[u8]) -> Result<(), AllocError> {
    let accept = accept_key(alloc, key)?;
    push_escaped(text, accept.bytes())
}

fn word(fault: &UpgradeFault) -> &'static str {
    match fault {
        UpgradeFault::Method => "method",
        UpgradeFault::Version => "version",
        UpgradeFault::Key => "key",
        UpgradeFault::NoMemory => "no memory",
    }
}

fn push_answered(alloc: Global, text: &mut String, head: &Request) -> Result<(), AllocError> {
    if !is_upgrade(head) {
        return text.push_str("no upgrade");
    }
    match &handshake(alloc, head) {
        Ok(accept) => push_escaped(text, accept.bytes()),
        Err(fault) => text.push_str(word(fault)),
    }
}

/// What a request for a WebSocket is answered: the accept value, or why it is refused.
pub fn shaken(alloc: Global, text: &mut String, bytes: &[u8]) -> Result<(), AllocError> {
    match &read_request(alloc, bytes) {
        HeadRead::Whole(head, _) => push_answered(alloc, text, head),
        _ => text.push_str("no head"),
    }
}
