//! All holds, as one registry: it answers each event as the history of all events before it says.
//!
//! Contracts see what it keeps, and that it stands for a history; the definitions of both are those of `gp_plain`.
//! The holds are a plain list in the order of their numbers: a publication looks at each, and an event on one hold
//! finds it by a binary search. A publication is planned for all holds before any is changed, so that want of memory
//! changes nothing.
#![tactic(auto)]

mod change;
mod hold;
mod machine;
mod order;
mod registry;

pub use registry::Registry;
