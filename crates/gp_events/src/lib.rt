//! WebSocket events over HTTP: what a client and its origin tell each other in bodies of the content type
//! `application/websocket-events`, and the control texts that an origin sends among them.
//!
//! `specs/Spellings.antt` says how an event is spelled, and `specs/Events.antt` which events bytes spell and where the first
//! fault is. `events_law` ties the two: the bytes that are read as events are those that spell them. `specs/Controls.antt` has the
//! control texts. It stands on gp_plain, gp_json and `serde_json`, and has no handle.
#![tactic(auto)]

mod control;
mod event;
mod law;
mod read;
#[cfg(test)]
mod tests;
mod write;

pub use control::{Control, read_control};
pub use event::{EventFault, EventKind, WsEvent, WsEvents};
pub use law::events_law;
pub use read::read_events;
pub use write::write_events;
