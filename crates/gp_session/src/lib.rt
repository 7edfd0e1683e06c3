//! What the sessions of clients share: the ends over which they move, and the words in which they say what they did.
//!
//! A session owns a [`Wire`], which is its client's link with the bytes that wait for it, and a [`Seat`], which is its pass of
//! the hub. Each end remembers how it stood when the session began, and all that a session says is said since then. Each move
//! of a session is one call on one end, and is proved there once, for every session and every stage.
//!
//! `specs/Wires.antt` has the rows of a link: the request, by what the bytes received are, and the bytes sent. `specs/Seats.antt`
//! has the rows of a pass: what the session made, and what stays of it. `specs/Holding.antt` says what its calls for a hold of its own
//! come to, `specs/Paging.antt` what the pages of a recovery do, and `specs/Hearing.antt` what is heard of a client whose answer is
//! held open. `specs/Lines.antt` has the row of the talks with origins, and `specs/Seeking.antt` that of the talk of a recovery.
//! `specs/Causes.antt` says why a session waits. It stands on `gp_outside`, `gp_outbox`, `gp_intake`, `gp_exchange`, `gp_recover` and
//! `gp_hub`, and has no handle.
#![tactic(auto)]

mod hearing;
mod holding;
mod line;
mod paging;
mod seat;
mod seeking;
mod watch;
mod wire;

pub use hearing::Heard;
pub use holding::{Attached, LetGo, Took};
pub use line::Line;
pub use paging::{PageFailed, Paged, StreamPage};
pub use seat::{Published, Seat};
pub use watch::Watch;
pub use wire::Wire;
