use gp_exchange::{forward, forward_law};
use gp_head::{HeadRead, read_request, split_target};
use gp_plain::{Address, Body};
use std::alloc::{AllocError, Global};

/// The request that is forwarded to `origin:80` for a client's head without a body; no byte where it isn't a head with a target.
pub fn forwarded(alloc: Global, text: &[u8]) -> Result<Vec<u8>, AllocError> {
    forward_law();
    let HeadRead::Whole(head, _) = read_request(alloc, text) else {
        return Ok(Vec::new(alloc));
    };
    match split_target(alloc, head.target.bytes()) {
        Ok(_) => {
            let address = Address {
                host: Body::new(alloc, b"origin")?,
                port: 80,
            };
            Ok(forward(alloc, &head, None, &address, None, &[])?.into_vec())
        }
        Err(_) => Ok(Vec::new(alloc)),
    }
}
