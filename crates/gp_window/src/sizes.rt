//! How much a window keeps.

/// The items, at most.
pub const ITEMS: usize = 4096;
