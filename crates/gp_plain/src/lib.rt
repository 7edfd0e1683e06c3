//! The types of the core, and the definitions that every other crate cites.
//!
//! The types are plain data: names and ids, items and their parts, holds, events, replies, and the heads of HTTP.
//! It stands on std alone, and has no handle and no device.
#![tactic(auto)]

mod body;
mod copy;
mod crossing;
mod event;
mod fit;
mod follow;
mod http;
mod item;
mod law;
mod list;
mod name;
mod offer;
mod pending;
mod plan;
mod queue;
mod reply;
mod roomed;
mod run;
mod tail;
mod tally;

pub use body::Body;
pub use copy::{copy_fields, copy_names};
pub use event::{Entry, Event, HoldKind, HoldSpec, Then};
pub use http::{Address, Request, Response, Signer};
pub use item::{Field, Fields, Item, Items, Message, MessagePart, Names, ResponsePart, StreamPart};
pub use law::{
    answer_law, chain_law, kind_law, moves_law, order_law, others_law, owners_law, position_law,
    released_law, released_shares_law, socket_law, taken_law, told_law, window_law,
};
pub use list::List;
pub use name::{ItemId, Name, NameFault, copy_id};
pub use pending::Pending;
pub use plan::Plan;
pub use queue::Queue;
pub use reply::{EndCause, HoldReport, HoldReports, Piece, Pieces, Reply, Taken};
pub use roomed::Roomed;
pub use run::Run;
pub use tail::{Places, Tail};
pub use tally::{Payload, Tally};
