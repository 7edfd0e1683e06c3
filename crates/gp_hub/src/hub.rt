//! The hub: how it begins and ends, and how its passes are divided and put together.
ghost use Rattle.std.specs.Prelude.{◌≡◌, ℕ, ◌+◌, ◌-◌, ◌<◌, ◌≤◌, ◌^◌, IfOk, OnErr};
ghost use Rattle.gp_plain.specs.Standing.{StandsFor};
ghost use Rattle.gp_turn.specs.Passes.{GoesOn, OfOthers, first_pass, ranges_of, shortened, split_off, times_in, with_joined};
ghost use Rattle.gp_hub.specs.Passes.{who_of};

use crate::pass::HubPass;
use crate::served::Served;
use gp_registry::Registry;
use gp_turn::Turn;
use std::alloc::{AllocError, Global};
use std::marker::Model;

/// A registry that callers share by reference, each with a pass of its own.
///
/// Contracts see which turn it is: a call takes a pass only with the hub that the pass was made with. A call that finds
/// the turn taken is refused, and none waits.
#[derive(Drop)]
pub struct Hub {
    pub(crate) turn: Turn<Served>,
}

impl Model for Hub {
    ghost use Rattle.atomic_table.specs.Seated.{TableId, table_id_coded};

    ghost Value = { TableId };

    ghost coded = { table_id_coded };

    ghost view = { λ h. h.turn };
}

impl Hub {
    /// A hub with the empty history, and its first pass, which has number 0, 2^63 numbers and 2^63 parts.
    pub fn new(alloc: Global) -> Result<(Hub, HubPass), AllocError>
        ensures { IfOk result (λ made. made.1 ≡ first_pass made.0) }
    {
        let registry = Registry::new(alloc);
        let (turn, pass) = Turn::new(alloc, Served { registry })?;
        Ok((Hub { turn }, HubPass { pass }))
    }

    /// A new pass that has seen as much, and has the last `count` numbers of the other's range and as many of its
    /// parts. Its number is one that no pass ever had. Where memory is wanting the pass is as before.
    pub fn split(&self, from: &mut HubPass, count: u64) -> Result<HubPass, AllocError>
        requires turn { from.old.turn ≡ self.now }
        requires count { (1 ≤ count) × (count < from.old.spare) }
        ensures kept { IfOk result (λ _. from.new ≡ shortened from.old count) }
        ensures given { IfOk result (λ pass. pass ≡ split_off from.old count) }
        // Nothing that was seen is of a number of the new range.
        ensures fresh { IfOk result (λ pass. OfOthers who_of (ranges_of pass) pass.seen) }
        ensures err { OnErr result (from.new ≡ from.old) }
    {
        let pass = self.turn.split(&mut from.pass, count)?;
        Ok(HubPass { pass })
    }

    /// Joins one pass into another, which then has what both had, and the longer of their two histories.
    ///
    /// The shorter history is a beginning of the longer one, and what the longer one has more is of neither pass.
    pub fn join(&self, gone: HubPass, into: &mut HubPass)
        requires turn { (into.old.turn ≡ self.now) × (gone.turn ≡ self.now) }
        ensures joined { into.new ≡ with_joined into.old gone }
        ensures goes_on { GoesOn who_of into.old into.new.seen }
        ensures gone { GoesOn who_of gone into.new.seen }
        // No number is in the ranges of both.
        ensures apart { (n : ℕ) → times_in n (ranges_of into.old) + times_in n (ranges_of gone) ≤ 1 }
    {
        let HubPass { pass } = gone;
        self.turn.join(pass, &mut into.pass);
    }

    /// The registry, which stands for what the pass has seen. The pass has all parts, so that no other pass is left.
    pub fn close(self, pass: HubPass) -> Registry
        requires turn { pass.turn ≡ self }
        requires all { pass.parts ≡ 2 ^ 63 }
        ensures { StandsFor result pass.seen }
    {
        let Hub { turn } = self;
        let HubPass { pass } = pass;
        let Served { registry } = turn.close(pass);
        registry
    }
}
