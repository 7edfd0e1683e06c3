//! The holds in the order of their numbers.
ghost use Rattle.std.specs.Prelude.{◌≡◌, ◌<◌, ℕ, IfOk, OnOk, OnErr, length, map, slice_index, slice_index_or, MatchOption, false, IfErr, IsOk};
ghost use Rattle.gp_plain.specs.History.{page_of};
ghost use Rattle.gp_plain.specs.Holds.{failure_reply, page_reply, change_reply};
ghost use Rattle.gp_plain.specs.Refusals.{refuses};
ghost use Rattle.gp_registry.specs.Keeps.{taken_kept};
ghost use Rattle.gp_registry.specs.Places.{HasNone, IsPlaceOf};
ghost use Rattle.gp_registry.specs.Stages.{IsInOrder, Rises, kept_hold, number_of};
ghost use Rattle.gp_registry.specs.Steps.{instead, kept_after_detach, kept_after_failure, kept_after_page, kept_after_take, kept_after_change};
ghost use Rattle.gp_registry.specs.declared.hold.Hold.{Hold};
ghost use Rattle.gp_registry.specs.Changes.{IsLeave, change_of};

use crate::change::Change;
use crate::hold::Hold;
use gp_plain::{Body, ItemId, Reply, Taken, Then};
use gp_window::Window;
use std::alloc::AllocError;

/// The place of the hold of a number, by a binary search.
pub fn place_of(holds: &[Hold], number: u64) -> Option<usize>
    requires { Rises 0 (map number_of holds.now) }
    ensures { MatchOption result (HasNone (map number_of holds.now) number) (IsPlaceOf (map number_of holds.now) number) }
{
    let place = holds.partition_point(|hold| hold.number < number);
    if place < holds.len() && holds[place].number == number {
        Some(place)
    } else {
        None
    }
}

/// Releases the hold at a place, with what waits for it.
pub fn release_at(holds: &mut Vec<Hold>, place: usize)
    requires { place < length holds.old.items }
    ensures kept { map kept_hold holds.new.items ≡ instead place kept_after_detach (map kept_hold holds.old.items) }
    ensures order { (next : ℕ) → IsInOrder next holds.old.items → IsInOrder next holds.new.items }
{
    let _released = holds.remove(place);
}

/// Takes from the hold at a place, and releases it where that told its end. An error changes nothing.
pub fn take_at(holds: &mut Vec<Hold>, place: usize, now: u64) -> Result<Taken, AllocError>
    requires { place < length holds.old.items }
    ensures gives { (d : Hold) → IfOk result (λ taken. taken ≡ taken_kept now (kept_hold (slice_index_or holds.old.items place d))) }
    ensures kept { OnOk result (map kept_hold holds.new.items ≡ instead place (kept_after_take now) (map kept_hold holds.old.items)) }
    ensures order { (next : ℕ) → IsInOrder next holds.old.items → IsInOrder next holds.new.items }
    ensures err { OnErr result (map kept_hold holds.new.items ≡ map kept_hold holds.old.items) }
{
    let own = &mut holds[place];
    let taken = own.take(now)?;
    if taken.ended.is_some() {
        release_at(holds, place);
    }
    Ok(taken)
}

/// Brings the hold at a place a page of a recovery, and answers it. An error changes nothing, and comes only where the page
/// isn't refused.
pub fn page_at(
    holds: &mut Vec<Hold>,
    place: usize,
    from: &ItemId,
    to: &ItemId,
    bytes: &Body,
    then: Then,
    window: &Window,
) -> Result<Reply, AllocError>
    requires { place < length holds.old.items }
    ensures gives { (d : Hold) → IfOk result (λ reply. reply ≡ page_reply from.now (kept_hold (slice_index_or holds.old.items place d)).state) }
    ensures kept { OnOk result (map kept_hold holds.new.items ≡ instead place (kept_after_page window.now.items (page_of from.now to.now bytes.now then)) (map kept_hold holds.old.items)) }
    ensures order { (next : ℕ) → IsInOrder next holds.old.items → IsInOrder next holds.new.items }
    ensures err { OnErr result (map kept_hold holds.new.items ≡ map kept_hold holds.old.items) }
    ensures due { (d : Hold) → OnErr result (refuses (page_reply from.now (kept_hold (slice_index_or holds.old.items place d)).state) ≡ false) }
{
    let own = &mut holds[place];
    own.page(from, to, bytes, then, window)
}

/// Does to the hold at a place what its owner asks of a socket, and answers it. An error changes nothing, hands the change
/// back, and comes only where it isn't refused.
pub fn change_at(
    holds: &mut Vec<Hold>,
    place: usize,
    change: Change,
) -> Result<Reply, (Change, AllocError)>
    requires { place < length holds.old.items }
    ensures gives { (d : Hold) → IfOk result (λ reply. reply ≡ change_reply (change_of change) (kept_hold (slice_index_or holds.old.items place d)).state) }
    ensures kept { OnOk result (map kept_hold holds.new.items ≡ instead place (kept_after_change (change_of change)) (map kept_hold holds.old.items)) }
    ensures order { (next : ℕ) → IsInOrder next holds.old.items → IsInOrder next holds.new.items }
    ensures err { IfErr result (λ e. (e.0 ≡ change) × (map kept_hold holds.new.items ≡ map kept_hold holds.old.items)) }
    ensures due { (d : Hold) → OnErr result (refuses (change_reply (change_of change) (kept_hold (slice_index_or holds.old.items place d)).state) ≡ false) }
    ensures free { IsLeave change → IsOk result }
{
    let own = &mut holds[place];
    own.change(change)
}

/// Tells the hold at a place that a page of its recovery can't be had, and answers that. It takes no memory.
pub fn fail_at(holds: &mut Vec<Hold>, place: usize) -> Reply
    requires { place < length holds.old.items }
    ensures gives { (d : Hold) → result ≡ failure_reply (kept_hold (slice_index_or holds.old.items place d)).state }
    ensures kept { map kept_hold holds.new.items ≡ instead place kept_after_failure (map kept_hold holds.old.items) }
    ensures order { (next : ℕ) → IsInOrder next holds.old.items → IsInOrder next holds.new.items }
{
    let own = &mut holds[place];
    own.fail()
}
