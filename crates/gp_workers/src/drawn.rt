//! What the seat of a claimer knows. It exists in proofs alone, and no value of it is made.
use std::collections::LinkedList;

pub struct Drawn {
    /// Its parts of the right to know all claims.
    pub parts: u64,
    /// The claims that it took, in order.
    pub taken: LinkedList<u64>,
    /// A number that isn't above the next claim.
    pub note: u64,
}
