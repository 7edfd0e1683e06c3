//! The bytes received of a client are read in one way.
//!
//! `specs/OneRequest.antt` has the law: bytes that begin with a whole request begin with no other, are not the beginning of
//! one, and are refused for nothing. Bytes that come later leave a whole request whole, and a refusal as it is. It stands on
//! `gp_plain`, `gp_head`, `gp_body` and `gp_intake`, and has no handle.
#![tactic(auto)]

mod law;

pub use law::request_law;
