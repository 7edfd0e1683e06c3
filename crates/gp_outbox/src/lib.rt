//! Bytes that wait for a link.
//!
//! What is put waits in order until a flush sends it, in as many writes as the link takes. Contracts see the bytes that
//! wait: what was sent, followed by what waits, is all that was put. It stands on the links of `gp_outside`, and has
//! no handle.
#![tactic(auto)]

mod outbox;

pub use outbox::{Flushed, Outbox};
