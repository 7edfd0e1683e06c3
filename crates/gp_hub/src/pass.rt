//! The token of one caller of a hub.
ghost use Rattle.std.specs.Prelude.{◌≡◌, ◌≤◌, ◌^◌};

use crate::served::Served;
use gp_turn::Pass;
use std::marker::Model;

/// The right of one caller to call a hub.
///
/// Contracts see the turn of its hub, the history that it has seen, its range of numbers, which begins with its own,
/// the ranges of the passes that were joined into it, its parts, how often it looked, and the word that it found. It
/// moves between threads, and is never copied.
#[derive(Drop)]
pub struct HubPass {
    pub(crate) pass: Pass<Served>,
}

impl Model for HubPass {
    ghost use Rattle.gp_hub.specs.Passes.{HubView};

    ghost Value = { HubView };

    ghost view = { λ p. p.pass };
}

impl HubPass {
    /// Its number, which no other pass of its hub ever had. It is the first of its range.
    pub fn number(&self) -> u64
        ensures { result ≡ self.now.number }
    {
        self.pass.number()
    }

    /// How many numbers its range has, at least 1. A split takes some of them.
    pub fn spare(&self) -> u64
        ensures spare { result ≡ self.now.spare }
        ensures some { (1 ≤ result) × (result ≤ self.now.parts) }
    {
        self.pass.spare()
    }

    /// How many of the 2^63 parts of its hub it has.
    pub fn parts(&self) -> u64
        ensures parts { result ≡ self.now.parts }
        ensures most { result ≤ 2 ^ 63 }
    {
        self.pass.parts()
    }
}
