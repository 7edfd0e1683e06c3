//! The last 4,096 items that were published: those that may still follow an id, and that repeats are told by.
//!
//! Contracts see the items, oldest first, and whether the memory for them was taken; what is looked for in them is
//! defined in `gp_plain`. Rings of `circular_buffer` hold them and what finds them, in blocks that are taken once.
//!
//! Ids and previous ids are found by 16,384 buckets of channel and id. Items that share a bucket form a chain, from the newest
//! to the oldest, so `repeats` and `next_after` look at the items of one bucket alone. Each chained item from which nothing goes
//! on is marked, and the marks are counted by buckets of channels, so `ahead` is answered at once where no item of the
//! channel's bucket is marked, or the one with the id alone; else it looks through the marks, from the newest item on.
//! A push goes along at most five chains: one tells a repeat, two are of the item that goes, and two of the one that comes.
#![tactic(auto)]

mod bucket;
mod chains;
mod indexed;
mod marks;
mod ring;
mod sizes;
mod window;

pub use window::{Pushed, Window};
