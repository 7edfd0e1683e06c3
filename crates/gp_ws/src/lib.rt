//! WebSockets (RFC 6455) from the server's side: the opening handshake, the messages that a client's frames carry, and the headers
//! of frames that are sent.
//!
//! `specs/Handshakes.antt` says which requests ask for a WebSocket, which of them are accepted, and why another is refused.
//! `specs/Frames.antt` says what `WsIn::next` answers, on the frame rules of the crate `websocket`. `cut_law` says that messages don't
//! depend on how the bytes come, and `sent_law` and `fragment_law` that what a client sends is read. `specs/Heads.antt` has the
//! frames that are sent. It stands on `gp_plain` and `gp_text`, and on `websocket`, `sha1` and `base64`, and has no handle.
#![tactic(auto)]

mod frame;
mod head;
mod input;
mod law;
#[cfg(test)]
mod tests;
mod unread;
mod upgrade;

pub use head::frame_head;
pub use input::{WsIn, WsNext};
pub use law::{cut_law, fragment_law, sent_law};
pub use upgrade::{UpgradeFault, accept_key, handshake, is_upgrade};
