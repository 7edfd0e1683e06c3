//! The registry that threads share, and the words that sessions have in common.
//!
//! A [`Hub`] is a registry under a turn: each caller has a [`HubPass`], and each call is one entry of one history. A
//! call is answered as the registry answers its event after all that stands before it in that history. Beside
//! `Hub::call` stand the calls for a hold of one's own, which no other caller can have moved.
//! It stands on `gp_plain`, `gp_registry` and `gp_turn`, and has no handle and no device.
#![tactic(auto)]

mod call;
mod crossing;
mod fault;
mod hub;
mod outcome;
mod own;
mod pass;
mod served;
mod session;
mod sockets;

pub use fault::HubFault;
pub use hub::Hub;
pub use outcome::{Outcome, SessionEnd, Why};
pub use own::{FailedReply, PageReply, fresh_law};
pub use pass::HubPass;
pub use served::Served;
pub use session::{Polled, Session};
pub use sockets::ChangeReply;

#[cfg(test)]
mod tests;
