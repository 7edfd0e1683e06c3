//! The hold of a long poll: one item answers it, or its deadline comes, or its request is repeated.
//!
//! It is a machine that stands for one hold of the definitions in `gp_plain`: contracts see its state, and for how many
//! more pieces it has room. An item is served in two steps: `offer` takes all memory and changes nothing, and `commit`
//! carries the plan out with none. `settle` then clears the mark of a gap where nothing is ahead any more.
#![tactic(auto)]

mod response;

pub use response::{ResponseHold, ResponsePlan};
