//! A pass gives some of its numbers to a new pass.
ghost use Rattle.std.specs.Prelude.{◌≡◌, ℕ, ◌+◌, ◌-◌, ◌<◌, ◌≤◌, [], ◌∷◌, IfOk, OnErr};
ghost use Rattle.gp_turn.specs.Passes.{OfOthers, ranges_of, shortened, split_off};
ghost use Rattle.gp_turn.specs.Steps.{IsFree, shorter, given_off};

use crate::kept::Kept;
use crate::pass::Pass;
use crate::steps::{Board, Place};
use crate::turn::Turn;
use crate::view::View;
use atomic_table::Split;
use std::alloc::AllocError;
use std::marker::{Brand, PhantomData};

/// How many numbers a new pass gets.
trait Cuts {
    ghost count: { ℕ };
}

impl Cuts for Brand {
    ghost count = { 0 };
}

struct Cut<J> {
    cuts: PhantomData<J>,
}

impl<E, J: Cuts> Split<View<E>> for Cut<J> {
    ghost left = { shorter J.count };

    ghost right = { given_off J.count };
}

fn cut_seat<V: Kept, J: Cuts>(board: &Board<V>, seat: &mut Place<V>, _count: u64) -> Place<V>
    requires shape { board.now.table_id.words ≡ 1 }
    requires fits { seat.old.table_id ≡ board.now.table_id }
    requires free { IsFree seat.old.me }
    requires count { (J.count ≡ _count) × (0 < _count) × (_count < seat.old.me.0.spare) }
    ensures table { (seat.new.table_id ≡ seat.old.table_id) × (result.table_id ≡ seat.old.table_id) }
    ensures kept { seat.new.me ≡ (shorter _count seat.old.me.0, []) }
    ensures given { result.me ≡ (given_off _count seat.old.me.0, []) }
{
    board.split_seat::<Cut<J>>(seat)
}

impl<V: Kept> Turn<V> {
    /// A new pass that has seen as much, and has the last `count` numbers of the other's range and as many of its
    /// parts. Its number is one that no pass ever had. Where memory is wanting the pass is as before.
    pub fn split(&self, from: &mut Pass<V>, count: u64) -> Result<Pass<V>, AllocError>
        requires turn { from.old.turn ≡ self.now }
        requires count { (1 ≤ count) × (count < from.old.spare) }
        ensures kept { IfOk result (λ _. from.new ≡ shortened from.old count) }
        ensures given { IfOk result (λ pass. pass ≡ split_off from.old count) }
        // Nothing that was seen is of a number of the new range.
        ensures fresh { IfOk result (λ pass. OfOthers V.number (ranges_of pass) pass.seen) }
        ensures err { OnErr result (from.new ≡ from.old) }
    {
        let seat = cut_seat::<V, Brand>(&self.table.shared, &mut from.seat, count);
        from.spare -= count;
        from.parts -= count;
        Ok(Pass {
            seat,
            number: from.number + from.spare,
            spare: count,
            parts: count,
        })
    }
}
