//! The request by which a stream asks its origin for what it missed, and the texts that such requests share with forwarded ones.
//!
//! `Again` keeps the client's head, the origin's address, the channel and the link last seen, and makes of them, at a moment and behind an id,
//! the recovery that asks for the next page. `specs/Texts.antt` has the token of a moment and the text by which an origin is told the last
//! item, `specs/Quests.antt` what is asked, and `specs/Links.antt` that each link which an origin gives can be asked. It stands on the writer of
//! `gp_forward`, the tokens of `gp_sig` and the recovery of `gp_recover`, and has no handle.
#![tactic(auto)]

mod again;
mod last;
mod law;
mod target;
mod token;

pub use again::Again;
pub use last::last_text;
pub use law::link_law;
pub use token::sig_at;
