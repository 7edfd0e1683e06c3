//! One talk with an origin: a request goes out, and the response comes in as a head and the parts of its body, at whatever
//! cuts the dialer gives (RFC 9112, sections 2 to 6).
//!
//! `specs/Answers.antt` says what each answer of a poll has for its cause, and `specs/Standing.antt` how the talk that the
//! dialer tells stands behind it: what was handed on is the content of the body by the bytes that the talk received, and each
//! end and each fault is by those bytes, whatever cuts they came in. An exchange keeps no byte that it handed on. It stands on
//! the dialers of `gp_outside`, on `gp_head` and on `gp_body`, exports the writer of `gp_forward` with its law, and has no handle.
#![tactic(auto)]

mod answer;
mod exchange;
mod heading;
mod heads;
mod place;
mod reading;
mod sending;

pub use answer::{ExchangeFault, Progress};
pub use exchange::Exchange;
pub use gp_forward::{forward, forward_law};
