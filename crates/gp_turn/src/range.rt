//! A run of numbers.

/// The `count` numbers from `first` on.
///
/// Contracts alone speak of it, and no value of it is made.
pub struct Range {
    /// The first number.
    pub first: u64,
    /// How many numbers there are.
    pub count: u64,
}
