//! Publish bodies: items in JSON, each with a channel and what it is for each kind of hold.
//!
//! [`read_items`] gives the items or the first fault. What a body says is defined over the value of its JSON text:
//! `specs/Names.antt` reads names and ids, `specs/Formats.antt` the formats, `specs/Items.antt` an item and a body, and
//! `specs/Faults.antt` tells a fault at its item. It stands on gp_plain, gp_json and `serde_json`, and has no handle.
#![tactic(auto)]

mod fault;
mod format;
mod item;
mod names;
mod read;

pub use fault::ItemsFault;
pub use read::read_items;
