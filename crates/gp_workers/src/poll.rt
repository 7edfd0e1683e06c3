//! One poll of each session of a worker.
ghost use Rattle.std.specs.Prelude.{ℕ, ◌≡◌, ◌<◌, ◌≤◌, ◌+◌, MatchBool, length};
ghost use Rattle.gp_hub.specs.Sessions.{HasPolled};
ghost use Rattle.gp_workers.specs.Books.{Books, books};
ghost use Rattle.gp_workers.specs.Works.{Stands, Works};

use crate::crew::Crew;
use crate::maker::{Maker, Over};
use crate::worker::{Running, Worker, finish};
use gp_hub::{Polled, Session};
use gp_outside::{Gate, Kit};

/// Polls a session between the two sides of its gate.
fn visit<K: Kit, S: Session<Output = Over<K>>>(kit: &K, running: &mut Running<S>) -> Polled<Over<K>>
    requires open { S.ended running.old.session → ⊥ }
    ensures same { (running.new.claim ≡ running.old.claim) × (running.new.number ≡ running.old.number) }
    ensures polled { HasPolled S.ended S.may_give running.old.session running.new.session result }
{
    kit.gate().before(running.claim);
    let polled = running.session.poll();
    if let Polled::Ready(_) = &polled {
        kit.gate().after(running.claim);
    }
    polled
}

/// Polls the session at a place. Where it ended, the last one takes its place.
fn poll_at<M: Maker, S: Session<Output = Over<M::Kit>> + Drop>(
    crew: &Crew<'_, M>,
    worker: &mut Worker<M::Kit>,
    running: &mut Vec<Running<S>>,
    place: usize,
) -> bool
    requires place { place < length running.old.items }
    requires stands { Stands S.ended S.may_give (M.means crew.now.maker.now) crew.now.hub.now crew.now.claims.now (books M.Kit.parts M.Kit.Listen.tells worker.old) running.old.items }
    ensures stands { Stands S.ended S.may_give (M.means crew.now.maker.now) crew.now.hub.now crew.now.claims.now (books M.Kit.parts M.Kit.Listen.tells worker.new) running.new.items }
    ensures len { MatchBool result (length running.new.items + 1 ≡ length running.old.items) (length running.new.items ≡ length running.old.items) }
    ensures works { (start : Books _ _ _) → Works (M.means crew.now.maker.now) crew.now.hub.now crew.now.limit start (books M.Kit.parts M.Kit.Listen.tells worker.old) running.old.items → Works (M.means crew.now.maker.now) crew.now.hub.now crew.now.limit start (books M.Kit.parts M.Kit.Listen.tells worker.new) running.new.items }
{
    match visit::<M::Kit, S>(&worker.kit, &mut running[place]) {
        Polled::Pending => false,
        Polled::Ready(over) => {
            let ended = running.swap_remove(place);
            finish::<M::Kit>(worker, crew.hub, ended.claim, over);
            true
        }
    }
}

/// Polls each session once, and says whether one ended.
pub fn poll_all<M: Maker, S: Session<Output = Over<M::Kit>> + Drop>(
    crew: &Crew<'_, M>,
    worker: &mut Worker<M::Kit>,
    running: &mut Vec<Running<S>>,
) -> bool
    requires stands { Stands S.ended S.may_give (M.means crew.now.maker.now) crew.now.hub.now crew.now.claims.now (books M.Kit.parts M.Kit.Listen.tells worker.old) running.old.items }
    ensures stands { Stands S.ended S.may_give (M.means crew.now.maker.now) crew.now.hub.now crew.now.claims.now (books M.Kit.parts M.Kit.Listen.tells worker.new) running.new.items }
    ensures works { (start : Books _ _ _) → Works (M.means crew.now.maker.now) crew.now.hub.now crew.now.limit start (books M.Kit.parts M.Kit.Listen.tells worker.old) running.old.items → Works (M.means crew.now.maker.now) crew.now.hub.now crew.now.limit start (books M.Kit.parts M.Kit.Listen.tells worker.new) running.new.items }
{
    let mut has_ended = false;
    let mut place = 0;
    while place < running.len() {
        if poll_at::<M, S>(crew, worker, running, place) {
            has_ended = true;
        } else {
            place += 1;
        }
    }
    has_ended
}
