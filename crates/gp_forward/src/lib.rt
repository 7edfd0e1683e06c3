//! The request that goes to the origin in the place of a client's (RFC 9110, section 7.6; RFC 9112, section 3).
//!
//! `specs/Forwards.antt` says which head is written of a request, and `specs/Alone.antt` that what is written is read as that one request
//! with its body and nothing behind it: no byte of a client can begin a request of its own. `specs/Conditions.antt` says what can be
//! forwarded. It stands on `gp_head`, `gp_body` and `gp_text`, and its law speaks of the values of `gp_routes`, `gp_sig` and `gp_instruct`.
#![tactic(auto)]

mod forwarding;
mod law;
mod write;

pub use forwarding::forward;
pub use law::forward_law;
