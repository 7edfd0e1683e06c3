//! A pass is given up: into another one, or with its turn.
ghost use Rattle.std.specs.Prelude.{◌≡◌, ◌+◌, ◌^◌, ◌≤◌, ℕ, [], false};
ghost use Rattle.gp_turn.specs.Passes.{GoesOn, times_in, ranges_of, with_joined};
ghost use Rattle.gp_turn.specs.Rule.{spent};
ghost use Rattle.gp_turn.specs.Steps.{IsFree, HasLearned, joined, learned};

use crate::kept::Kept;
use crate::pass::Pass;
use crate::steps::{Board, Place};
use crate::turn::Turn;
use crate::view::View;
use atomic_table::{Join, Play};
use std::marker::PhantomData;

struct Glue;

impl<E> Join<View<E>> for Glue {
    ghost both = { joined };

    ghost spent = { spent };
}

struct Learns<V> {
    kept: PhantomData<V>,
}

impl<V: Kept> Play<Option<V>, View<V::Entry>> for Learns<V> {
    ghost then = { learned V.number };
}

/// Joins one seat into another, and looks at the word.
fn join_seats<V: Kept>(board: &Board<V>, gone: Place<V>, into: &mut Place<V>)
    requires shape { (board.now.table_id.words ≡ 1) × (board.now.table_id.slots ≡ 1) }
    requires fits { (into.old.table_id ≡ board.now.table_id) × (gone.table_id ≡ board.now.table_id) }
    requires free { IsFree into.old.me }
    requires gone { IsFree gone.me }
    ensures table { into.new.table_id ≡ into.old.table_id }
    ensures learned { HasLearned V.number into.old.me.0 gone.me.0 into.new.me }
{
    board.join_seat::<Glue>(into, gone);
    board.load::<Learns<V>>(into, 0);
}

impl<V: Kept> Turn<V> {
    /// Joins one pass into another, which then has what both had, and the longer of their two histories.
    ///
    /// The shorter history is a beginning of the longer one, and what the longer one has more is of neither pass.
    pub fn join(&self, gone: Pass<V>, into: &mut Pass<V>)
        requires turn { (into.old.turn ≡ self.now) × (gone.turn ≡ self.now) }
        ensures joined { into.new ≡ with_joined into.old gone }
        ensures goes_on { GoesOn V.number into.old into.new.seen }
        ensures gone { GoesOn V.number gone into.new.seen }
        // No number is in the ranges of both.
        ensures apart { (n : ℕ) → times_in n (ranges_of into.old) + times_in n (ranges_of gone) ≤ 1 }
    {
        let Pass { seat, parts, .. } = gone;
        join_seats::<V>(&self.table.shared, seat, &mut into.seat);
        into.parts += parts;
    }

    /// The value, which stands for what the pass has seen. The pass has all parts, so that no other pass is left.
    pub fn close(self, pass: Pass<V>) -> V
        requires turn { pass.turn ≡ self }
        requires all { pass.parts ≡ 2 ^ 63 }
        ensures { V.stands result pass.seen }
    {
        let Turn { table } = self;
        let Pass { seat, .. } = pass;
        let mut closed = table.close_with(seat);
        let slot = closed.take(0);
        closed.free();
        match slot {
            Some(value) => value,
            None => unreachable!(),
        }
    }
}
