//! The hold of a WebSocket: messages are pushed to it, and published on the channels that it has joined.
//!
//! It is a machine that stands for one hold of the definitions in `gp_plain`: contracts see its state, and for how many
//! more pieces it has room. An item is served in two steps: `offer` takes all memory and changes nothing, and `commit`
//! carries the plan out with none. A socket has no position and no mark.
#![tactic(auto)]

mod socket;

pub use socket::{SocketHold, SocketPlan};
