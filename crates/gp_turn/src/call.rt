//! One call of the value under the turn.
ghost use Rattle.std.specs.Prelude.{◌≡◌, ◌+◌, ◌*◌, ◌<◌, ◌≤◌, ◌^◌, List, [], ◌∷◌, ◌++◌, length, false, IfOk, IfErr, OnErr};
ghost use Rattle.gp_turn.specs.Passes.{GoesOn};
ghost use Rattle.gp_turn.specs.Causes.{HasCause};

use crate::fault::TurnFault;
use crate::kept::Kept;
use crate::pass::Pass;
use crate::steps::{back, put, take};
use crate::turn::Turn;
use std::marker::Brand;
use std::snapshot::Snapshot;

/// From this word on no call is served, so a history has fewer than 2^62 entries whenever one is.
const WORN: u64 = 1 << 63;

impl<V: Kept> Turn<V> {
    /// Asks the value, as the pass's number. It waits for nobody, makes one attempt to take the turn, and holds it no
    /// more when it returns.
    ///
    /// An answer is one that the entry may have after all that the pass had seen, and what others added to it since.
    /// A refusal adds nothing to the history.
    pub fn call(&self, pass: &mut Pass<V>, ask: V::Ask) -> Result<V::Answer, TurnFault<V::Ask>>
        requires turn { pass.old.turn ≡ self.now }
        requires may { V.may_serve ask }
        ensures turn { pass.new.turn ≡ pass.old.turn }
        ensures number { pass.new.number ≡ pass.old.number }
        ensures spare { pass.new.spare ≡ pass.old.spare }
        ensures past { pass.new.past ≡ pass.old.past }
        ensures parts { pass.new.parts ≡ pass.old.parts }
        ensures some { (1 ≤ pass.old.spare) × (pass.old.spare ≤ pass.old.parts) }
        ensures free { (pass.old.holds ≡ false) × (pass.new.holds ≡ false) }
        ensures looks { pass.new.looks ≡ pass.old.looks + 1 }
        ensures ok { IfOk result (λ answer. (before : List V.Entry) × GoesOn V.number pass.old before × (pass.new.seen ≡ before ++ V.entry pass.old.number ask ∷ []) × V.answers before (V.entry pass.old.number ask) answer × (pass.new.found ≡ 2 * length before) × (length before < 2 ^ 62)) }
        ensures err { OnErr result (pass.new.seen ≡ pass.old.seen) }
        ensures cause { IfErr result (HasCause V.always_serves ask pass.new.found) }
    {
        let board = &self.table.shared;
        let (mut value, found) = match take::<V>(board, &mut pass.seat) {
            Ok(taken) => taken,
            Err(found) => return Err(TurnFault::Busy(ask, found)),
        };
        if found >= WORN {
            back::<V>(board, &mut pass.seat, value);
            return Err(TurnFault::Worn(ask));
        }
        let said = Snapshot::of(&ask);
        match value.serve(pass.number, ask) {
            Ok(answer) => {
                put::<V, Brand>(board, &mut pass.seat, value, pass.number, said);
                Ok(answer)
            }
            Err((ask, _)) => {
                back::<V>(board, &mut pass.seat, value);
                Err(TurnFault::NoMemory(ask))
            }
        }
    }
}
