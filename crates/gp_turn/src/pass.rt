//! The token of one caller.
ghost use Rattle.std.specs.Prelude.{◌≡◌, ◌≤◌, ◌^◌};

use crate::kept::Kept;
use crate::view::View;
use atomic_table::Seat;
use std::marker::Model;

/// The right of one caller to call a turn over `V`.
///
/// Contracts see the history that it has seen, its range of numbers, which begins with its own, the ranges of the
/// passes that were joined into it, its parts, and what its calls found. It moves between threads, and is never copied.
#[derive(Drop)]
pub struct Pass<V: Kept> {
    pub(crate) seat: Seat<Option<V>, View<V::Entry>>,
    pub(crate) number: u64,
    pub(crate) spare: u64,
    pub(crate) parts: u64,
}

impl<V: Kept> Model for Pass<V> {
    ghost use Rattle.gp_turn.specs.Passes.{PassView};

    ghost Value = { PassView V.Entry };

    ghost use Rattle.gp_turn.specs.Fields.{view_of, IsAtRest};

    ghost view = { view_of };

    ghost invariant = { IsAtRest V.number };
}

impl<V: Kept> Pass<V> {
    /// Its number, which no other pass of its turn ever had. It is the first of its range.
    pub fn number(&self) -> u64
        ensures { result ≡ self.now.number }
    {
        self.number
    }

    /// How many numbers its range has, at least 1. A split takes some of them.
    pub fn spare(&self) -> u64
        ensures spare { result ≡ self.now.spare }
        ensures some { (1 ≤ result) × (result ≤ self.now.parts) }
    {
        self.spare
    }

    /// How many of the 2^63 parts of its turn it has.
    pub fn parts(&self) -> u64
        ensures parts { result ≡ self.now.parts }
        ensures most { result ≤ 2 ^ 63 }
    {
        self.parts
    }
}
