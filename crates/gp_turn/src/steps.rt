//! The atomic steps that take the turn and give it back.
ghost use Rattle.std.specs.Prelude.{◌≡◌, ◌+◌, ◌<◌, ◌^◌, ◌%◌, List, [], ◌∷◌, ◌++◌, length, IfOk, IfErr, false, true, None};
ghost use Rattle.gp_turn.specs.Passes.{times_in};
ghost use Rattle.gp_turn.specs.Rule.{IsKept, newcomer, ranges};
ghost use Rattle.gp_turn.specs.Steps.{IsFree, Holds, HasTaken, took, added, gave};

use crate::kept::Kept;
use crate::view::View;
use atomic_table::{Play, Seat, Shared, TableRule};
use std::marker::{Brand, PhantomData};
use std::snapshot::Snapshot;

/// The rule that each step on a turn keeps.
pub(crate) struct Law<V> {
    kept: PhantomData<V>,
}

impl<V: Kept> TableRule<Option<V>, View<V::Entry>, ()> for Law<V> {
    ghost holds = { λ _ s. IsKept V.stands V.number s };

    ghost first = { λ _. newcomer };
}

/// The word and the slot of a turn.
pub(crate) type Board<V> = Shared<Option<V>, View<<V as Kept>::Entry>, (), Law<V>>;

/// A seat at them.
pub(crate) type Place<V> = Seat<Option<V>, View<<V as Kept>::Entry>>;

/// The entries that a call adds.
pub(crate) trait Says<E> {
    ghost said: { List E };
}

impl<E> Says<E> for Brand {
    ghost said = { [] };
}

struct Takes<V> {
    kept: PhantomData<V>,
}

impl<V: Kept> Play<Option<V>, View<V::Entry>> for Takes<V> {
    ghost then = { took V.stands V.number };
}

struct Adds<J> {
    says: PhantomData<J>,
}

impl<V, E, J: Says<E>> Play<Option<V>, View<E>> for Adds<J> {
    ghost then = { added J.said };
}

struct Gives;

impl<V, E> Play<Option<V>, View<E>> for Gives {
    ghost then = { gave };
}

/// Takes the turn and the value with it, or tells the odd word that it found. The even word comes with the value.
pub(crate) fn take<V: Kept>(board: &Board<V>, seat: &mut Place<V>) -> Result<(V, u64), u64>
    requires shape { (board.now.table_id.words ≡ 1) × (board.now.table_id.slots ≡ 1) }
    requires fits { seat.old.table_id ≡ board.now.table_id }
    requires free { IsFree seat.old.me }
    ensures table { seat.new.table_id ≡ seat.old.table_id }
    ensures ok { IfOk result (λ taken. HasTaken V.stands V.number seat.old.me.0 seat.new.me taken.0 taken.1) }
    ensures err { IfErr result (λ found. (found % 2 ≡ 1) × (seat.new.me ≡ (record seat.old.me.0 { looks = seat.old.me.0.looks + 1; found = found }, []))) }
{
    let found = board.fetch_or::<Takes<V>>(seat, 0, 1);
    if found % 2 == 1 {
        return Err(found);
    }
    match board.exchange(seat, 0, None) {
        Some(value) => Ok((value, found)),
        None => unreachable!(),
    }
}

/// Gives the turn back, with the value and the entry of the ask that it served.
pub(crate) fn put<V: Kept, J: Says<V::Entry>>(
    board: &Board<V>,
    seat: &mut Place<V>,
    value: V,
    _who: u64,
    _ask: Snapshot<V::Ask>,
)
    requires shape { (board.now.table_id.words ≡ 1) × (board.now.table_id.slots ≡ 1) }
    requires fits { seat.old.table_id ≡ board.now.table_id }
    requires holds { Holds seat.old.me }
    requires said { J.said ≡ V.entry _who _ask.value ∷ [] }
    requires own { 0 < times_in (V.number (V.entry _who _ask.value)) (ranges seat.old.me.0) }
    requires stands { V.stands value (seat.old.me.0.whole ++ V.entry _who _ask.value ∷ []) }
    requires room { length seat.old.me.0.whole < 2 ^ 62 }
    ensures table { seat.new.table_id ≡ seat.old.table_id }
    ensures put { seat.new.me ≡ (record seat.old.me.0 { seen = seat.old.me.0.whole ++ V.entry _who _ask.value ∷ []; holds = false }, []) }
{
    let empty = board.exchange(seat, 0, Some(value));
    let None = empty else { unreachable!() };
    board.fetch_add::<Adds<J>>(seat, 0, 1);
}

/// Gives the turn back with nothing added.
pub(crate) fn back<V: Kept>(board: &Board<V>, seat: &mut Place<V>, value: V)
    requires shape { (board.now.table_id.words ≡ 1) × (board.now.table_id.slots ≡ 1) }
    requires fits { seat.old.table_id ≡ board.now.table_id }
    requires holds { Holds seat.old.me }
    requires stands { V.stands value seat.old.me.0.whole }
    ensures table { seat.new.table_id ≡ seat.old.table_id }
    ensures back { seat.new.me ≡ (record seat.old.me.0 { holds = false }, []) }
{
    let empty = board.exchange(seat, 0, Some(value));
    let None = empty else { unreachable!() };
    board.fetch_and::<Gives>(seat, 0, u64::MAX - 1);
}
