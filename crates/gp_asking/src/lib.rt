//! A hold asks for one page of its recovery at a time, and ends as unrecovered only where its owner told that a page can't be had.
//!
//! `specs/Asking.antt` says when a hold of a pass has asked for a page that hasn't come, and has the law that no Take asks for
//! another until then. `specs/Failing.antt` has the law of the news that a page can't be had. The crate stands on `gp_plain`,
//! `gp_turn` and `gp_hub`, and has no handle.
#![tactic(auto)]

mod law;

pub use law::{asking_law, failing_law};
