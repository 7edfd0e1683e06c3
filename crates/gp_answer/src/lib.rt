//! What clients are answered: refusals, and the heads of answers with the fields of an origin or of an item (RFC 9110,
//! section 15; RFC 9112, sections 4 and 6).
//!
//! `specs/Refusals.antt` has the refusals as heads and bodies, `specs/Framings.antt` says how the body of each kind of answer is framed,
//! `specs/Answers.antt` which head is sent, and `specs/Frames.antt` how the parts of a stream are sent. It knows nothing of holds and of devices. It stands on `gp_text`, `gp_head` and `gp_body`.
#![tactic(auto)]

mod frame;
mod framing;
mod head;
mod refusal;

pub use frame::{frame_law, last_chunk};
pub use framing::{Framing, is_bare, passed_framing, streamed, whole};
pub use head::answer_head;
pub use refusal::{Refusal, published_head};
