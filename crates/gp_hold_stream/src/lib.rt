//! Stream holds: one with a position on one channel, and a plain one on several channels without a position.
//!
//! Each is a machine that stands for one hold of the definitions in `gp_plain`: contracts see its state, and for how many
//! more pieces it has room. An item is served in two steps, so that many holds are served together or not at all: a plan
//! takes all memory and changes nothing, and `commit` carries it out with none. `settle` then clears the marks of a gap
//! where nothing is ahead any more. A page of a recovery is planned and carried out likewise, by calls of its own.
#![tactic(auto)]

mod page;
mod plain;
mod stream;

pub use page::PagePlan;
pub use plain::{PlainHold, PlainPlan};
pub use stream::{StreamHold, StreamPlan};
