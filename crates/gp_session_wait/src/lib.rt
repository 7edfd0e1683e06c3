//! The long polls of a session: how their holds are attached, and what answers them.
//!
//! An [`Opening`] is a long poll whose hold isn't attached yet. A [`Wait`] has its hold: nothing is sent before the hold ends, and then
//! one answer at most, that of the item which came, or the origin's own at the deadline. Where items were missed the request is
//! asked again, 8 times at most. A [`Repeat`] is what that needs; the talk with the origin isn't here.
//!
//! `specs/Views.antt` has what contracts see of both, `specs/Answers.antt` the bytes of an answer, and `specs/Openings.antt` what
//! attaching comes to. `specs/Seeks.antt` says what Takes give of a long poll, `specs/Waits.antt` which answer is sent, and what a poll
//! keeps. `specs/Laws.antt` and `specs/Chains.antt` have the laws of what a client is sent. It stands on `gp_session_hold`, `gp_session`,
//! `gp_instruct` and `gp_answer`, and has no handle.
#![tactic(auto)]

mod answer;
mod attaching;
mod law;
mod opening;
mod polling;
mod seeking;
mod wait;

pub use answer::Answer;
pub use law::{answer_law, poll_chain_law, poll_item_law, wait_law};
pub use opening::{Began, Opening};
pub use wait::{Last, Polled, Repeat, Wait};
