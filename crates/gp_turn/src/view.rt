//! What the seat of a pass knows. It exists in proofs alone, and no value of it is made.
use crate::range::Range;
use std::collections::LinkedList;

/// A history that was seen, with the ranges of numbers that have no entry beyond it.
pub struct Known<E> {
    /// The history that was seen.
    pub seen: LinkedList<E>,
    /// The ranges of which it has every entry.
    pub ranges: LinkedList<Range>,
}

pub struct View<E> {
    /// The history that it has seen.
    pub seen: LinkedList<E>,
    /// The first number of its range, and how many it has.
    pub number: u64,
    /// How many numbers its range has.
    pub spare: u64,
    /// The ranges of the passes that were joined into it.
    pub past: LinkedList<Range>,
    /// How many parts of the turn it has.
    pub parts: u64,
    /// How often it tried to take the turn, and the word that it found the last time.
    pub looks: u64,
    /// The word that its last look found.
    pub found: u64,
    /// Whether it holds the turn, and then the whole history.
    pub holds: bool,
    /// The whole history, as it stood at its last step.
    pub whole: LinkedList<E>,
    /// Whether it was joined and has not looked since, and then what both knew before.
    pub joining: bool,
    /// What it knew before a join.
    pub mine: Known<E>,
    /// What the pass that was joined knew.
    pub theirs: Known<E>,
}
