//! A stream to a client that asks its origin for what it missed.
//!
//! A [`Recovering`] takes of its hold as a stream does, up to 16 times a poll. Where a Take tells that items are missing behind an id, the origin is
//! asked for them in one talk, by the link last seen: that of the instruction, or of the last page that has one. The page goes to the hub, or the news
//! that it can't be had, before the next Take. Once the stream has ended, or the client is gone, the talk is hung up.
//!
//! `specs/Quests.antt` has what was asked and what came of it. `specs/Rows.antt` has what a stream says of it: the talks, the pages that the hub was
//! told, and the ids behind which they were asked for. `specs/Polls.antt` says what a poll answers, and why it waits. It stands on `gp_session_hold`,
//! `gp_session`, `gp_recover` and `gp_again`, and has no handle.
#![tactic(auto)]

mod bringing;
mod open;
mod polling;
mod recovering;
mod seeking;
mod talk;
mod turning;

pub use polling::StreamPolled;
pub use recovering::Recovering;
