//! The holds of a session: how they are attached, what is counted and reported of them, and how a stream of what they give goes
//! to a client.
//!
//! A [`KeptHold`] is a hold that a session keeps, with what was counted of it. A [`Stream`] takes of such a hold, and puts what it
//! gives behind the bytes that wait for the client, each piece copied once at the most.
//!
//! `specs/Rows.antt` has what a session says of its holds, of the entries that it made and of the bytes that it sent.
//! `specs/Opens.antt` says what attaching comes to, and `specs/Leaves.antt` what letting go does. `specs/Puts.antt` says what is put
//! of a Take, `specs/Streams.antt` what a stream delivers, and `specs/Polls.antt` why it waits. `specs/Headline.antt` has the law of
//! what a client is sent. It stands on `gp_session`, `gp_answer`, `gp_intake` and `gp_hub`, and has no handle.
#![tactic(auto)]

mod attaching;
mod hold;
mod law;
mod leaving;
mod sending;
mod stream;

pub use attaching::{Opened, attach};
pub use hold::KeptHold;
pub use law::{headline_law, stream_law};
pub use leaving::stream_end;
pub use stream::{Stream, Streamed};
